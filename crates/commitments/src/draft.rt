// What a commitment is made from. Its methods are in commitment.rt, since they cite a definition that names it.
ghost use Rattle.std.specs.Prelude.{◌≤◌, length};

use crate::heading::Opening;
use crate::side::Side;
use logs::update::Update;

// A commitment before it is reckoned: its number and holder, the opening terms and the updates of both sides.
#[derive(Debug, Drop, PartialEq, Eq)]
pub struct Draft<'a, M> {
    pub number: u64,
    pub holder: Side,
    pub opening: &'a Opening<M>,
    pub funders: &'a [Update<M>],
    pub others: &'a [Update<M>],
    ghost few: { (length funders.now ≤ 4096) × (length others.now ≤ 4096) },
}
