// The basket: four assets.
ghost use Rattle.std.specs.Prelude.{◌≡◌, Some};
ghost use Rattle.std.specs.Option.{option_map};
ghost use Rattle.std.proofs.Common.{rules};
ghost use Rattle.money.specs.Amounts.{row, limited};
ghost use Rattle.money.specs.Terms.{eights, eights_limit};
ghost use Rattle.money.specs.Texts.{basket_text};
ghost use Rattle.money.specs.Eights.{row_past, row_back};

use crate::counts::{Counts, LIMIT};
use crate::kind::Money;
use std::fmt;

pub type Basket = Counts<4>;

impl Counts<4> {
    // A value, unless an asset passes the limit.
    pub fn new(amounts: [u64; 4]) -> Option<Basket>
        ensures { option_map (λ b. row b.counts) result ≡ limited 4 eights_limit (row amounts) }
    {
        Counts::of(amounts)
    }
}

// The four are named here; a loop would have to say what stands between them.
impl fmt::Display for Counts<4> {
    ghost output = { λ basket. Some (basket_text (row basket.counts)) };

    fn fmt<W: fmt::Write>(&self, f: &mut fmt::Formatter<W>) -> fmt::Result {
        let [first, second, third, fourth] = self.amounts();
        write!(f, "{first},{second},{third},{fourth}")
    }
}

// Each kind has an impl of its own: the laws hold for 1 to 128 assets, and a const parameter has no bound.
impl Money for Basket {
    const ASSETS: usize = 4;

    const LIMIT: u64 = LIMIT;

    const WIDTH: usize = 32;

    ghost terms = { eights 4 };

    ghost asset = { λ value. row value.counts };

    ghost assets = { Prim.search rules };

    ghost width = { Prim.search rules };

    ghost within = { Prim.search rules };

    ghost past = { λ value. row_past 4 value.counts value.ok.0 };

    ghost long = { Prim.search rules };

    ghost back = { λ value. row_back 4 value.counts value.ok.0 value.ok.1 };

    fn asset_count() -> usize {
        Self::ASSETS
    }

    fn most_units() -> u64 {
        Self::LIMIT
    }

    fn byte_width() -> usize {
        Self::WIDTH
    }

    fn nothing() -> Basket {
        Counts::zero()
    }

    fn sum(&self, other: &Basket) -> Option<Basket> {
        self.plus(other)
    }

    fn difference(&self, other: &Basket) -> Option<Basket> {
        self.minus(other)
    }

    fn units(count: u64, balance: &Basket) -> Basket {
        Counts::capped(count, balance)
    }

    fn write(&self, out: &mut [u8], at: usize) {
        self.put(out, at);
    }

    fn read(bytes: &[u8]) -> Option<Basket> {
        Counts::get(bytes)
    }
}
