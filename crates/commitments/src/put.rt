// The parts of a commitment, put into a sink. A side's log and the other's come apart, since they change places.
ghost use Rattle.std.specs.Prelude.{[], ◌∷◌};
ghost use Rattle.std.specs.List.{flat_map};
ghost use Rattle.octets.specs.Numbers.{bytes_of};
ghost use Rattle.logs.specs.Logs.{mean, means};
ghost use Rattle.commitments.specs.Bytes.{side_byte, payment_bytes};
ghost use Rattle.commitments.specs.Commitments.{listed_one, listed};
ghost use Rattle.commitments.specs.Payments.{payment};
ghost use Rattle.commitments.specs.Sinks.{Puts};

use crate::side::Side;
use crate::sink::Sink;
use logs::scan::is_resolved;
use logs::update::Update;
use money::kind::Money;
use octets::numbers::Number;
use std::convert::AsSlice;

// The side as one byte.
pub fn put_side<S: Sink>(sink: &mut S, side: Side)
    ensures { Puts S.took sink.old (side_byte side ∷ []) sink.new }
{
    sink.put(&[side as u8]);
}

// The bytes of a number.
pub fn put_number<N: Number, S: Sink>(sink: &mut S, number: N)
    ensures { Puts S.took sink.old (bytes_of N.width (N.value number)) sink.new }
{
    sink.put(number.to_bytes().as_slice());
}

// The bytes of an amount, by way of a row as wide as any money, since a node has no heap.
pub fn put_money<M: Money, S: Sink>(sink: &mut S, amount: &M)
    ensures { Puts S.took sink.old (M.terms.written (M.asset amount.now)) sink.new }
{
    let mut row = [0u8; 1024];
    let width = M::byte_width();
    amount.write(&mut row, 0);
    sink.put(&row[0..width]);
}

// One pending payment.
fn put_payment<M: Money, S: Sink>(
    sink: &mut S,
    side: Side,
    id: u16,
    amount: &M,
    value: &[u8; 32],
    expiry: u32,
)
    ensures { Puts S.took sink.old (payment_bytes M.terms (payment side id (M.asset amount.now) value.now expiry)) sink.new }
{
    put_side(sink, side);
    put_number(sink, id);
    put_money(sink, amount);
    sink.put(value);
    put_number(sink, expiry);
}

// One update: a payment where it is a pending add, and nothing otherwise.
fn put_update<M: Money, S: Sink>(sink: &mut S, side: Side, update: &Update<M>, other: &[Update<M>])
    ensures { Puts S.took sink.old (flat_map (payment_bytes M.terms) (listed_one side (means M.Money other.now) (mean M.Money update.now))) sink.new }
{
    match update {
        Update::Add {
            id,
            amount,
            value,
            expiry,
            ..
        } => {
            if !is_resolved(other, *id) {
                put_payment(sink, side, *id, amount, value, *expiry);
            }
        }
        _ => {}
    }
}

// The pending payments of a side, in the order of its log.
pub fn put_log<M: Money, S: Sink>(sink: &mut S, side: Side, log: &[Update<M>], other: &[Update<M>])
    ensures { Puts S.took sink.old (flat_map (payment_bytes M.terms) (listed side (means M.Money other.now) (means M.Money log.now))) sink.new }
{
    for update in log {
        put_update(sink, side, update, other);
    }
}
