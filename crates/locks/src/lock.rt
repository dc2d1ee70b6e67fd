// What a lock is: each key has a lock value, and keys and values are carried by tweaks so that they still fit.
ghost use Rattle.std.specs.Prelude.{◌≡◌, ℕ, List, length, Decides};
ghost use Rattle.locks.specs.Meaning.{Meaning};

pub trait Lock {
    ghost meaning: { Self → Meaning };

    // Whether the value is the lock value of the key.
    fn opens(&self, key: &[u8; 32], value: &[u8; 32]) -> bool
        ensures { Decides result (value.now ≡ (meaning self.now).value_of key.now) };

    fn carry_value(&self, value: &[u8; 32], tweak: &[u8; 32]) -> [u8; 32]
        ensures { result ≡ (meaning self.now).carried_value value.now tweak.now };

    fn carry_key(&self, key: &[u8; 32], tweak: &[u8; 32]) -> [u8; 32]
        ensures { result ≡ (meaning self.now).carried_key key.now tweak.now };

    // The lock value of the carried key is the carried lock value of the key.
    ghost carrying: { (lock : Self) (key tweak : List ℕ) → length key ≡ 32 → length tweak ≡ 32 → (meaning lock).value_of ((meaning lock).carried_key key tweak) ≡ (meaning lock).carried_value ((meaning lock).value_of key) tweak };
}
