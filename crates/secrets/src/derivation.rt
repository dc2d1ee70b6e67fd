// Deriving secrets from a seed.
ghost use Rattle.std.specs.Prelude.{◌≡◌, ◌^◌, ◌<◌, ◌≤◌};
ghost use Rattle.secrets.specs.Derivation.{flipped, turned, derived, secret_of, point_of};

use sha256::sha256;

const LAST_INDEX: u64 = 0xffff_ffff_ffff;

// The value with one bit flipped.
fn flip(value: [u8; 32], bit: u32) -> [u8; 32]
    requires { bit < 48 }
    ensures { result ≡ flipped value bit }
{
    let mut flipped = value;
    let byte = (bit / 8) as usize;
    flipped[byte] ^= 1u8 << (bit % 8);
    flipped
}

// One bit of the index.
fn turn(value: [u8; 32], index: u64, bit: u32) -> [u8; 32]
    requires { bit < 48 }
    ensures { result ≡ turned value index bit }
{
    if (index >> bit) % 2 == 1 {
        sha256(&flip(value, bit))
    } else {
        value
    }
}

// The index derived from a value over so many bits.
pub fn derive(value: [u8; 32], index: u64, bits: u32) -> [u8; 32]
    requires { bits ≤ 48 }
    ensures { result ≡ derived value index bits }
{
    let mut derived = value;
    // A fold would have to say of each bit that it is below 48.
    for bit in (0..bits).rev() {
        let next = turn(derived, index, bit);
        derived = next;
    }
    derived
}

// Our secret of a commitment number.
pub fn secret(seed: &[u8; 32], number: u64) -> [u8; 32]
    requires { number < 2 ^ 48 }
    ensures { result ≡ secret_of seed.now number }
{
    derive(*seed, LAST_INDEX - number, 48)
}

// Our point of a commitment number.
pub fn point(seed: &[u8; 32], number: u64) -> [u8; 32]
    requires { number < 2 ^ 48 }
    ensures { result ≡ point_of seed.now number }
{
    sha256(&secret(seed, number))
}
