// What a kind of money is: a value means one whole number for each asset.
ghost use Rattle.std.specs.Prelude.{◌≡◌, ℕ, ◌+◌, ◌<◌, ◌≤◌, length};
ghost use Rattle.std.specs.Option.{option_map};
ghost use Rattle.octets.specs.Places.{over};
ghost use Rattle.money.specs.Amounts.{Amount, nothing, limited, sum_of, difference_of, units_from};
ghost use Rattle.money.specs.Terms.{Terms, Rewritten, eights};

pub trait Money: Copy {
    // How many assets there are, the most units of each, and how many bytes a value takes.
    const ASSETS: usize;

    const LIMIT: u64;

    const WIDTH: usize;

    ghost terms: { Terms };

    // What a value means.
    ghost asset: { Self → Amount };

    // The three constants, for code that holds any kind.
    fn asset_count() -> usize
        ensures { result ≡ terms.assets };

    fn most_units() -> u64
        ensures { result ≡ terms.limit };

    fn byte_width() -> usize
        ensures { result ≡ terms.width };

    fn nothing() -> Self
        ensures { asset result ≡ nothing };

    fn sum(&self, other: &Self) -> Option<Self>
        ensures { option_map asset result ≡ sum_of terms.assets terms.limit (asset self.now) (asset other.now) };

    fn difference(&self, other: &Self) -> Option<Self>
        ensures { option_map asset result ≡ difference_of terms.assets (asset self.now) (asset other.now) };

    // So many units from a balance.
    fn units(count: u64, balance: &Self) -> Self
        ensures { asset result ≡ units_from count (asset balance.now) };

    fn write(&self, out: &mut [u8], at: usize)
        requires { at + terms.width ≤ length out.old }
        ensures { out.new ≡ over out.old at (terms.written (asset self.now)) };

    fn read(bytes: &[u8]) -> Option<Self>
        requires { length bytes.now ≡ terms.width }
        ensures { option_map asset result ≡ limited terms.assets terms.limit (terms.stands bytes.now) };

    ghost assets: { 0 < terms.assets };

    ghost width: { terms.width ≤ 1024 };

    ghost within: { (x : Self) (k : ℕ) → asset x k ≤ terms.limit };

    ghost past: { (x : Self) (k : ℕ) → terms.assets ≤ k → asset x k ≡ 0 };

    ghost long: { (x : Self) → length (terms.written (asset x)) ≡ terms.width };

    // Reading reverses writing.
    ghost back: { (x : Self) → terms.stands (terms.written (asset x)) ≡ asset x };
}

// Carries the law that satoshi and basket, like any kind of eight bytes an asset, write back the bytes that they read.
pub fn reading_keeps_the_bytes() -> u8
    ensures { (n : ℕ) → Rewritten (eights n) }
{
    0
}
