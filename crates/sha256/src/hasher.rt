// A hasher that takes a message in pieces.
ghost use Rattle.std.specs.Prelude.{◌≡◌, ℕ, ◌+◌, ◌-◌, ◌%◌, ◌<◌, ◌≤◌, List, [], ◌++◌, length, take};
ghost use Rattle.sha256.specs.Fips.{hash, padding};
ghost use Rattle.sha256.specs.Stream.{Absorbed};

use crate::blocks::{compress, digest_of, initial_value};
use octets::numbers::Number;

// The count of bytes is kept modulo 2^64: the place in the block and the length in bits need no more.
// The block and the count stand side by side, since the count is of all bytes that were taken in.
#[derive(Clone, Copy, Debug)]
pub struct Hasher {
    state: [u32; 8],
    block: [u8; 64],
    total: u64,
}

impl Hasher {
    // A hasher that has taken in nothing.
    pub fn new() -> Hasher
        ensures { Absorbed result [] }
    {
        Hasher {
            state: initial_value(),
            block: [0; 64],
            total: 0,
        }
    }

    // Takes in more bytes.
    pub fn absorb(&mut self, bytes: &[u8])
        ensures { (m : List ℕ) → Absorbed self.old m → Absorbed self.new (m ++ bytes.now) }
    {
        let mut rest = bytes;
        while !rest.is_empty() {
            let count = self.fill(rest);
            rest = &rest[count..];
        }
    }

    // The digest of all bytes taken in.
    pub fn digest(&self) -> [u8; 32]
        ensures { (m : List ℕ) → Absorbed self.now m → result ≡ hash m }
    {
        digest_of(self.padded().state)
    }

    // The hasher after the padding too.
    fn padded(&self) -> Hasher
        ensures { (m : List ℕ) → Absorbed self.now m → Absorbed result (m ++ padding (length m)) }
    {
        let mut mark = [0; 64];
        mark[0] = 0x80;
        let mut ended = *self;
        ended.absorb(&mark[..mark_length((self.total % 64) as usize)]);
        ended.absorb(&(self.total << 3).to_bytes());
        ended
    }

    // Takes in as many of the bytes as the block has room for, and says how many.
    fn fill(&mut self, bytes: &[u8]) -> usize
        ensures some { 0 < length bytes.now → 0 < result }
        ensures within { result ≤ length bytes.now }
        ensures took { (m : List ℕ) → Absorbed self.old m → Absorbed self.new (m ++ take result bytes.now) }
    {
        let filled = (self.total % 64) as usize;
        let count = bytes.len().min(64 - filled);
        self.block[filled..filled + count].copy_from_slice(&bytes[..count]);
        self.total = self.total.wrapping_add(count as u64);
        if filled + count == 64 {
            self.state = compress(self.state, &self.block);
        }
        count
    }
}

// How many bytes the mark and its zeros take behind so many of a block: up to 8 bytes short of a whole block.
fn mark_length(filled: usize) -> usize
    requires { filled < 64 }
    ensures { result ≡ 1 + (119 - filled) % 64 }
{
    if filled < 56 {
        56 - filled
    } else {
        120 - filled
    }
}
