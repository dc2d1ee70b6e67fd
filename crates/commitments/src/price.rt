// The fee of a commitment, and what it leaves the funder.
ghost use Rattle.std.specs.Prelude.{◌≡◌, ◌+◌, ◌-◌, ◌*◌, ◌/◌, ◌≤◌};
ghost use Rattle.commitments.specs.Commitments.{fee_units, fee_of};

use money::kind::Money;

// How many units the fee is before it is capped by what the funder has.
fn fee_units(rate: u32, count: usize) -> u64
    requires { count ≤ 8192 }
    ensures { result ≡ fee_units rate count }
{
    rate as u64 * (724 + 172 * count as u64) / 1000
}

#[derive(Clone, Copy, Debug, PartialEq, Eq)]
pub struct Priced<M> {
    pub fee: M,
    pub output: M,
}

// The fee for so many pending payments, and the funder's output.
pub fn price<M: Money>(rate: u32, count: usize, gross: &M) -> Priced<M>
    requires { count ≤ 8192 }
    ensures fee { M.asset result.fee ≡ fee_of rate count (M.asset gross.now) }
    ensures output { M.asset result.output ≡ (λ k. M.asset gross.now k - fee_of rate count (M.asset gross.now) k) }
{
    let fee = M::units(fee_units(rate, count), gross);
    match gross.difference(&fee) {
        Some(output) => Priced { fee, output },
        None => unreachable!(),
    }
}
