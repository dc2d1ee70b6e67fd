// The lock that a book names: the hash lock, or a group.
ghost use Rattle.std.specs.Prelude.{◌≡◌, MatchResult, refl};
ghost use Rattle.refusals.specs.declared.reason.Reason.TheVariants.{OutOfBounds};
ghost use Rattle.locks.specs.Turns.{group_carries};
ghost use Rattle.desk.specs.NamedLocks.{meaning_of, Makeable};
ghost use Rattle.desk.specs.Locked.{lock_meaning};
ghost use Rattle.desk.specs.declared.named_lock.NamedLock.TheVariants.{Hash, Group};

use commands::command::LockName;
use locks::group_lock::GroupLock;
use locks::hash_lock::HashLock;
use locks::lock::Lock;
use refusals::reason::Reason;

#[derive(Clone, Copy, Debug, PartialEq, Eq)]
pub enum NamedLock {
    Hash(HashLock),
    Group(GroupLock),
}

impl TryFrom<LockName> for NamedLock {
    type Error = Reason;

    // The lock of a name, out of bounds where its group is not allowed.
    ghost try_from_gives = { λ name answer. MatchResult answer (λ l. Makeable name × (lock_meaning l ≡ meaning_of name)) (λ e. (e ≡ OutOfBounds) × (Makeable name → ⊥)) };

    fn try_from(name: LockName) -> Result<NamedLock, Reason> {
        match name {
            LockName::Hash => Ok(NamedLock::Hash(HashLock)),
            LockName::Group {
                modulus,
                order,
                base,
            } => GroupLock::new(modulus, order, base).map(NamedLock::Group),
        }
    }
}

// Each method asks the kind of lock anew: the gate refuses a function that hands out a `dyn Lock`.
impl Lock for NamedLock {
    ghost meaning = { lock_meaning };

    ghost carrying = { elim [
      | Hash lock ↦ λ key tweak _ _. refl
      | Group lock ↦ group_carries lock.modulus lock.order lock.base lock.modulus_fits lock.order_fits lock.turns
    ] };

    fn opens(&self, key: &[u8; 32], value: &[u8; 32]) -> bool {
        match self {
            NamedLock::Hash(lock) => lock.opens(key, value),
            NamedLock::Group(lock) => lock.opens(key, value),
        }
    }

    fn carry_value(&self, value: &[u8; 32], tweak: &[u8; 32]) -> [u8; 32] {
        match self {
            NamedLock::Hash(lock) => lock.carry_value(value, tweak),
            NamedLock::Group(lock) => lock.carry_value(value, tweak),
        }
    }

    fn carry_key(&self, key: &[u8; 32], tweak: &[u8; 32]) -> [u8; 32] {
        match self {
            NamedLock::Hash(lock) => lock.carry_key(key, tweak),
            NamedLock::Group(lock) => lock.carry_key(key, tweak),
        }
    }
}
