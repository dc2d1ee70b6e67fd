// The satoshi: one asset.
ghost use Rattle.std.specs.Prelude.{◌≡◌, if◌then◌else◌, Some, None, nat_le, slice_index};
ghost use Rattle.std.specs.Option.{option_map};
ghost use Rattle.std.proofs.Common.{rules};
ghost use Rattle.money.specs.Amounts.{row};
ghost use Rattle.money.specs.Terms.{eights, eights_limit};
ghost use Rattle.money.specs.Texts.{satoshi_text};
ghost use Rattle.money.specs.Eights.{row_past, row_back};

use crate::counts::{Counts, LIMIT};
use crate::kind::Money;
use std::fmt;

pub type Satoshi = Counts<1>;

impl Counts<1> {
    // A value, unless it passes the limit.
    #[tactic(auto, using(crate::proofs::Rows::single_of, crate::proofs::Rows::single_limited))]
    pub fn new(value: u64) -> Option<Satoshi>
        ensures { option_map (λ s. slice_index s.counts 0) result ≡ (if nat_le value eights_limit then Some value else None) }
    {
        Counts::of([value])
    }

    pub fn value(&self) -> u64
        ensures { result ≡ slice_index self.now.counts 0 }
    {
        let [value] = self.amounts();
        value
    }
}

impl fmt::Display for Counts<1> {
    ghost output = { λ satoshi. Some (satoshi_text (row satoshi.counts)) };

    fn fmt<W: fmt::Write>(&self, f: &mut fmt::Formatter<W>) -> fmt::Result {
        let value = self.value();
        write!(f, "{value}")
    }
}

// Each kind has an impl of its own: the laws hold for 1 to 128 assets, and a const parameter has no bound.
impl Money for Satoshi {
    const ASSETS: usize = 1;

    const LIMIT: u64 = LIMIT;

    const WIDTH: usize = 8;

    ghost terms = { eights 1 };

    ghost asset = { λ value. row value.counts };

    ghost assets = { Prim.search rules };

    ghost width = { Prim.search rules };

    ghost within = { Prim.search rules };

    ghost past = { λ value. row_past 1 value.counts value.ok.0 };

    ghost long = { Prim.search rules };

    ghost back = { λ value. row_back 1 value.counts value.ok.0 value.ok.1 };

    fn asset_count() -> usize {
        Self::ASSETS
    }

    fn most_units() -> u64 {
        Self::LIMIT
    }

    fn byte_width() -> usize {
        Self::WIDTH
    }

    fn nothing() -> Satoshi {
        Counts::zero()
    }

    fn sum(&self, other: &Satoshi) -> Option<Satoshi> {
        self.plus(other)
    }

    fn difference(&self, other: &Satoshi) -> Option<Satoshi> {
        self.minus(other)
    }

    fn units(count: u64, balance: &Satoshi) -> Satoshi {
        Counts::capped(count, balance)
    }

    fn write(&self, out: &mut [u8], at: usize) {
        self.put(out, at);
    }

    fn read(bytes: &[u8]) -> Option<Satoshi> {
        Counts::get(bytes)
    }
}
