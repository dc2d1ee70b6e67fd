// The hash lock: the value is the SHA-256 of the key, and carrying changes neither.
ghost use Rattle.std.specs.Prelude.{refl};
ghost use Rattle.locks.specs.Meaning.{hash_lock};

use crate::lock::Lock;
use sha256::sha256;

#[derive(Clone, Copy, Debug, PartialEq, Eq)]
pub struct HashLock;

impl Lock for HashLock {
    ghost meaning = { λ lock. hash_lock };

    ghost carrying = { λ lock key tweak _ _. refl };

    fn opens(&self, key: &[u8; 32], value: &[u8; 32]) -> bool {
        sha256(key) == *value
    }

    fn carry_value(&self, value: &[u8; 32], _tweak: &[u8; 32]) -> [u8; 32] {
        *value
    }

    fn carry_key(&self, key: &[u8; 32], _tweak: &[u8; 32]) -> [u8; 32] {
        *key
    }
}
