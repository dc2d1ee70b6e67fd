// The group lock: powers of a base, by a modulus and an order.
ghost use Rattle.std.specs.Prelude.{◌≡◌, ◌%◌, ◌^◌, ◌<◌, ◌≤◌, MatchResult};
ghost use Rattle.refusals.specs.declared.reason.Reason.TheVariants.{OutOfBounds};
ghost use Rattle.locks.specs.Figures.{Worked};
ghost use Rattle.locks.specs.Group.{Allowed, number_in, as_value, group_lock};
ghost use Rattle.locks.specs.Turns.{group_carries};

use crate::lock::Lock;
use crate::power::power;
use octets::numbers::Number;
use octets::places::put_number;
use refusals::reason::Reason;

#[derive(Clone, Copy, Debug, PartialEq, Eq)]
pub struct GroupLock {
    modulus: u64,
    order: u64,
    base: u64,
    ghost modulus_fits: { (3 ≤ modulus) × (modulus < 2 ^ 31) },
    ghost order_fits: { (2 ≤ order) × (order < 2 ^ 31) },
    ghost base_fits: { base < modulus },
    ghost turns: { base ^ order % modulus ≡ 1 },
}

impl GroupLock {
    // A group, out of bounds where its numbers are not allowed. They come apart, as a book names them.
    pub fn new(modulus: u64, order: u64, base: u64) -> Result<GroupLock, Reason>
        ensures { MatchResult result (λ l. Allowed modulus order base × (l.modulus ≡ modulus) × (l.order ≡ order) × (l.base ≡ base)) (λ e. (e ≡ OutOfBounds) × (Allowed modulus order base → ⊥)) }
    {
        if modulus < 3 || modulus >= 0x8000_0000 {
            return Err(Reason::OutOfBounds);
        }
        if order < 2 || order >= 0x8000_0000 {
            return Err(Reason::OutOfBounds);
        }
        if base < 2 || base >= modulus {
            return Err(Reason::OutOfBounds);
        }
        if power(base, order, modulus) != 1 {
            return Err(Reason::OutOfBounds);
        }
        Ok(GroupLock {
            modulus,
            order,
            base,
        })
    }
}

// The number in the last eight bytes.
fn number_in(bytes: &[u8; 32]) -> u64
    ensures { result ≡ number_in bytes.now }
{
    u64::read(bytes, 24)
}

// The number behind 24 zero bytes.
fn as_value(number: u64) -> [u8; 32]
    ensures { result ≡ as_value number }
{
    let mut bytes = [0; 32];
    put_number(&mut bytes, 24, number);
    bytes
}

impl Lock for GroupLock {
    ghost meaning = { λ lock. group_lock lock.modulus lock.order lock.base };

    ghost carrying = { λ lock. group_carries lock.modulus lock.order lock.base lock.modulus_fits lock.order_fits lock.turns };

    fn opens(&self, key: &[u8; 32], value: &[u8; 32]) -> bool {
        let exponent = number_in(key) % self.order;
        *value == as_value(power(self.base, exponent, self.modulus))
    }

    fn carry_value(&self, value: &[u8; 32], tweak: &[u8; 32]) -> [u8; 32] {
        let exponent = number_in(tweak) % self.order;
        let factor = power(self.base, exponent, self.modulus);
        as_value(number_in(value) % self.modulus * factor % self.modulus)
    }

    fn carry_key(&self, key: &[u8; 32], tweak: &[u8; 32]) -> [u8; 32] {
        let sum = number_in(key) % self.order + number_in(tweak) % self.order;
        as_value(sum % self.order)
    }
}

// Carries the worked figures.
pub fn figures_stand() -> u8
    ensures { Worked }
{
    0
}
