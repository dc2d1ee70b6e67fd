// How many bytes a heading makes with the pending payments of both logs.
ghost use Rattle.std.specs.Prelude.{◌≡◌, ◌*◌, ◌≤◌, length};
ghost use Rattle.std.specs.List.{flat_map};
ghost use Rattle.logs.specs.Logs.{mean, means};
ghost use Rattle.commitments.specs.Bytes.{payment_bytes};
ghost use Rattle.commitments.specs.Commitments.{listed_one};
ghost use Rattle.commitments.specs.Headings.{log_bytes, headed_bytes};
ghost use Rattle.commitments.specs.declared.side.Side.{Side};

use crate::heading::Heading;
use logs::scan::is_resolved;
use logs::update::Update;
use money::kind::Money;

// The bytes of a lock value.
fn value_size(value: &[u8; 32]) -> usize
    ensures value { result ≡ length value.now }
    ensures bound { result ≡ 32 }
{
    value.len()
}

// The bytes of an update: those of a payment where it is a pending add.
fn update_size<M: Money>(update: &Update<M>, other: &[Update<M>]) -> usize
    ensures value { (side : Side) → result ≡ length (flat_map (payment_bytes M.terms) (listed_one side (means M.Money other.now) (mean M.Money update.now))) }
    ensures bound { result ≤ 1063 }
{
    match update {
        Update::Add { id, value, .. } => {
            if is_resolved(other, *id) {
                0
            } else {
                1 + 2 + M::byte_width() + value_size(value) + 4
            }
        }
        _ => 0,
    }
}

// The bytes of a side's pending payments.
fn log_size<M: Money>(log: &[Update<M>], other: &[Update<M>]) -> usize
    requires { length log.now ≤ 4096 }
    ensures value { (side : Side) → result ≡ length (log_bytes M.Money side log.now other.now) }
    ensures bound { result ≤ 1063 * 4096 }
{
    let mut size = 0;
    for update in log {
        size += update_size(update, other);
    }
    size
}

// The bytes of a heading and of the pending payments of both sides. It takes any heading, so the bound on the logs, which a
// draft has in its type, stands here too.
pub fn size<M: Money>(heading: &Heading<M>, funders: &[Update<M>], others: &[Update<M>]) -> usize
    requires { (length funders.now ≤ 4096) × (length others.now ≤ 4096) }
    ensures { result ≡ length (headed_bytes M.Money heading.now funders.now others.now) }
{
    let amounts = 3 * M::byte_width();
    8 + 1 + 4 + amounts + 2 + log_size(funders, others) + log_size(others, funders)
}
