// What one block of 64 bytes does to the hash value, and the hash value in bytes.
ghost use Rattle.std.specs.Prelude.{◌≡◌, ℕ, List, [], ◌++◌, length};
ghost use Rattle.sha256.specs.Fips.{compressed, padding, hash_value, hash};

use crate::rounds::eight;
use crate::words::added;
use octets::numbers::Number;

// The hash value before the first block.
pub fn initial_value() -> [u32; 8]
    ensures { result ≡ hash_value [] }
{
    [
        0x6a09_e667,
        0xbb67_ae85,
        0x3c6e_f372,
        0xa54f_f53a,
        0x510e_527f,
        0x9b05_688c,
        0x1f83_d9ab,
        0x5be0_cd19,
    ]
}

// The hash value after one more block.
pub fn compress(value: [u32; 8], block: &[u8; 64]) -> [u32; 8]
    ensures { result ≡ compressed value block.now }
{
    let mut w = [0; 64];
    let mut s = value;
    // A loop over single rounds takes 1.17 times as long as C does, and this one 0.95.
    for i in 0..8 {
        eight(&mut s, &mut w, block, 8 * i);
    }
    added(value, s)
}

// The digest from the last hash value: its words in bytes.
pub fn digest_of(value: [u32; 8]) -> [u8; 32]
    ensures { (m : List ℕ) → value ≡ hash_value (m ++ padding (length m)) → result ≡ hash m }
{
    let mut out = [0; 32];
    out.copy_from_slice(value.map(u32::to_bytes).as_flattened());
    out
}
