// Kinds of money whose assets take eight bytes each: one type for any number of assets.
ghost use Rattle.std.specs.Prelude.{◌≡◌, ℕ, ◌<◌, ◌≤◌, ◌+◌, ◌-◌, ◌*◌, ◌^◌, length, nat_le, slice_index};
ghost use Rattle.std.specs.List.{list_all, zip};
ghost use Rattle.std.specs.Option.{option_map};
ghost use Rattle.octets.specs.Numbers.{number_of};
ghost use Rattle.octets.specs.Places.{over, part};
ghost use Rattle.money.specs.Amounts.{row, nothing, limited, sum_of, difference_of, units_from};
ghost use Rattle.money.specs.Terms.{eights, eights_limit, eight_each};

use octets::numbers::Number;
use octets::places::put_number;
use std::array;

pub(crate) const LIMIT: u64 = 2_100_000_000_000_000;

// So many units of each asset, within the limit.
#[derive(Clone, Copy, Debug, PartialEq, Eq)]
pub struct Counts<const N: usize> {
    counts: [u64; N],
    ghost ok: { (length counts ≡ N) × ((k : ℕ) → slice_index counts k ≤ eights_limit) },
}

// Whether no asset passes the limit.
fn all_within(counts: &[u64]) -> bool
    ensures { result ≡ list_all (λ count. nat_le count eights_limit) counts.now }
{
    counts.iter().all(|count| *count <= LIMIT)
}

// Whether one row holds as much of each asset as the other, or more.
fn covers(ours: &[u64], theirs: &[u64]) -> bool
    ensures { result ≡ list_all (λ pair. nat_le pair.1 pair.0) (zip ours.now theirs.now) }
{
    ours.iter().zip(theirs).all(|(our, their)| *their <= *our)
}

// The sums of two rows.
fn sums<const N: usize>(ours: &[u64; N], theirs: &[u64; N]) -> [u64; N]
    requires { (k : ℕ) → slice_index ours.now k + slice_index theirs.now k < 2 ^ 64 }
    ensures { row result ≡ (λ k. row ours.now k + row theirs.now k) }
{
    array::from_fn(
        |i: usize| -> u64
            requires { (i < N) × (slice_index ours.now i + slice_index theirs.now i < 2 ^ 64) }
            ensures { result ≡ slice_index ours.entry.now i + slice_index theirs.entry.now i }
        { ours[i] + theirs[i] },
    )
}

// The differences of two rows, cut off at zero.
fn differences<const N: usize>(ours: &[u64; N], theirs: &[u64; N]) -> [u64; N]
    ensures { row result ≡ (λ k. row ours.now k - row theirs.now k) }
{
    array::from_fn(
        |i: usize| -> u64
            requires { i < N }
            ensures { result ≡ slice_index ours.entry.now i - slice_index theirs.entry.now i }
        { ours[i].saturating_sub(theirs[i]) },
    )
}

// The row of numbers that bytes stand for.
fn numbers_of<const N: usize>(bytes: &[u8]) -> [u64; N]
    requires { length bytes.now ≡ 8 * N }
    ensures { row result ≡ (eights N).stands bytes.now }
{
    array::from_fn(
        |i: usize| -> u64
            requires { 8 * i + 8 ≤ length bytes.now }
            ensures { result ≡ number_of (part (8 * i) 8 bytes.entry.now) }
        { u64::read(bytes, 8 * i) },
    )
}

// So many units of the first asset, as far as a row holds them, and none of the others.
fn units_of<const N: usize>(count: u64, held: &[u64; N]) -> [u64; N]
    ensures { row result ≡ units_from count (row held.now) }
{
    array::from_fn(
        |i: usize| -> u64
            requires { i < N }
            ensures { result ≡ units_from count (row held.entry.now) i }
        { if i == 0 { count.min(held[0]) } else { 0 } },
    )
}

impl<const N: usize> Counts<N> {
    // A value, unless an asset passes the limit.
    pub(crate) fn of(counts: [u64; N]) -> Option<Counts<N>>
        ensures { option_map (λ c. row c.counts) result ≡ limited N eights_limit (row counts.entry) }
    {
        if all_within(&counts) {
            Some(Counts { counts })
        } else {
            None
        }
    }

    pub fn amounts(&self) -> [u64; N]
        ensures { result ≡ self.now.counts }
    {
        self.counts
    }

    pub(crate) fn plus(&self, other: &Counts<N>) -> Option<Counts<N>>
        ensures { option_map (λ c. row c.counts) result ≡ sum_of N eights_limit (row self.now.counts) (row other.now.counts) }
    {
        Counts::of(sums(&self.counts, &other.counts))
    }

    pub(crate) fn minus(&self, other: &Counts<N>) -> Option<Counts<N>>
        ensures { option_map (λ c. row c.counts) result ≡ difference_of N (row self.now.counts) (row other.now.counts) }
    {
        if covers(&self.counts, &other.counts) {
            Some(Counts {
                counts: differences(&self.counts, &other.counts),
            })
        } else {
            None
        }
    }

    pub(crate) fn zero() -> Counts<N>
        ensures { row result.counts ≡ nothing }
    {
        Counts { counts: [0; N] }
    }

    // So many units of the first asset, as far as a balance holds them.
    pub(crate) fn capped(count: u64, balance: &Counts<N>) -> Counts<N>
        ensures { row result.counts ≡ units_from count (row balance.now.counts) }
    {
        Counts {
            counts: units_of(count, &balance.counts),
        }
    }

    // Writes eight bytes an asset from a place on.
    pub(crate) fn put(&self, out: &mut [u8], at: usize)
        requires { at + 8 * N ≤ length out.old }
        ensures { out.new ≡ over out.old at (eight_each N (row self.now.counts)) }
    {
        for (i, count) in self.counts.iter().enumerate() {
            put_number(out, at + 8 * i, *count);
        }
    }

    // The value that bytes stand for, unless an asset passes the limit.
    pub(crate) fn get(bytes: &[u8]) -> Option<Counts<N>>
        requires { length bytes.now ≡ 8 * N }
        ensures { option_map (λ c. row c.counts) result ≡ limited N eights_limit ((eights N).stands bytes.now) }
    {
        Counts::of(numbers_of(bytes))
    }
}
