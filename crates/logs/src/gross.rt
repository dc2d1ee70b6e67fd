// What a side owns before the commitment fee, and how many of its adds are pending. A side's log and the other's are handed
// on apart, since they change places from one side to the other.
ghost use Rattle.std.specs.Prelude.{◌≡◌, ◌≤◌, length, take};
ghost use Rattle.logs.specs.Gross.{lessened, raised, moved, walked, LiteralGross};
ghost use Rattle.logs.specs.Logs.{mean, means, pending, pending_count};

use crate::scan::{amount_of, has, is_resolved};
use crate::update::{Resolution, Update};
use money::kind::Money;

// An amount taken off; what the money refuses is left out.
fn lessen<M: Money>(held: M, amount: &M) -> M
    ensures { M.asset result ≡ lessened M.terms (M.asset held) (M.asset amount.now) }
{
    held.difference(amount).unwrap_or(held)
}

// An amount put on; what the money refuses is left out.
fn raise<M: Money>(held: M, amount: &M) -> M
    ensures { M.asset result ≡ raised M.terms (M.asset held) (M.asset amount.now) }
{
    held.sum(amount).unwrap_or(held)
}

// One update of the side's log.
fn step<M: Money>(held: M, update: &Update<M>, other: &[Update<M>]) -> M
    ensures { M.asset result ≡ moved M.terms (means M.Money other.now) (M.asset held) (mean M.Money update.now) }
{
    match update {
        Update::Add { id, amount, .. } => {
            if has(other, Resolution::Failed, *id) {
                held
            } else {
                lessen(held, amount)
            }
        }
        Update::Fulfil { id, .. } => {
            amount_of(other, *id).map_or(held, |amount| raise(held, &amount))
        }
        _ => held,
    }
}

// Whether an update is an add that the other log does not resolve.
fn is_pending<M: Money>(update: &Update<M>, other: &[Update<M>]) -> bool
    ensures { result ≡ pending (means M.Money other.now) (mean M.Money update.now) }
{
    match update {
        Update::Add { id, .. } => !is_resolved(other, *id),
        _ => false,
    }
}

// The walk over a log from a share.
fn walk<M: Money>(share: M, log: &[Update<M>], other: &[Update<M>]) -> M
    ensures { M.asset result ≡ walked M.terms (means M.Money other.now) (M.asset share) (means M.Money log.now) }
{
    // The clause of a fold says nothing of what the values mean, so the loop stands here.
    let mut held = share;
    for update in log {
        held = step(held, update, other);
    }
    held
}

// How many adds of a log are pending.
fn pending_count<M: Money>(log: &[Update<M>], other: &[Update<M>]) -> usize
    ensures value { result ≡ pending_count (means M.Money other.now) (means M.Money log.now) }
    ensures bound { result ≤ length log.now }
{
    log.iter()
        .filter(|update| is_pending(update, other))
        .count()
}

#[derive(Clone, Copy, Debug, PartialEq, Eq)]
pub struct Reckoned<M> {
    pub gross: M,
    pub pending: usize,
}

// Walks over the first so many updates of a side's log, from its share.
pub fn reckon<M: Money>(
    share: &M,
    log: &[Update<M>],
    count: usize,
    other: &[Update<M>],
) -> Reckoned<M>
    ensures gross { M.asset result.gross ≡ walked M.terms (means M.Money other.now) (M.asset share.now) (means M.Money (take count log.now)) }
    ensures pending { result.pending ≡ pending_count (means M.Money other.now) (means M.Money (take count log.now)) }
    ensures bound { result.pending ≤ length log.now }
{
    let front = &log[..count.min(log.len())];
    Reckoned {
        gross: walk(*share, front, other),
        pending: pending_count(front, other),
    }
}

// Carries the law that the walk is the literal sum, for every kind of money.
pub fn the_walk_is_the_sum<M: Money>() -> u8
    ensures { LiteralGross M.terms }
{
    0
}
