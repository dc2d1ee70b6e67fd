// What stands at the head of a commitment.
ghost use Rattle.std.specs.Prelude.{◌≤◌};
ghost use Rattle.commitments.specs.Headings.{head_bytes};
ghost use Rattle.commitments.specs.Sinks.{Puts};

use crate::put::{put_money, put_number, put_side};
use crate::side::Side;
use crate::sink::Sink;
use money::kind::Money;

#[derive(Clone, Copy, Debug, PartialEq, Eq)]
pub struct Heading<M> {
    pub number: u64,
    pub holder: Side,
    pub rate: u32,
    pub fee: M,
    pub funders: M,
    pub others: M,
    pub pending: usize,
}

// The terms on which a channel opened.
#[derive(Clone, Copy, Debug, PartialEq, Eq)]
pub struct Opening<M> {
    pub rate: u32,
    pub funders: M,
    pub others: M,
}

// Number, holder, rate, fee, both outputs and the count of pending payments, whose bound is no part of the heading's type,
// since `size` takes any heading.
pub fn put_heading<M: Money, S: Sink>(sink: &mut S, heading: &Heading<M>)
    requires { heading.now.pending ≤ 8192 }
    ensures { Puts S.took sink.old (head_bytes M.Money heading.now) sink.new }
{
    put_number(sink, heading.number);
    put_side(sink, heading.holder);
    put_number(sink, heading.rate);
    put_money(sink, &heading.fee);
    put_money(sink, &heading.funders);
    put_money(sink, &heading.others);
    put_number(sink, heading.pending as u16);
}
