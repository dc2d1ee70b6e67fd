// What bytes can be put into, one piece behind another: a hash, or the front of a buffer.
ghost use Rattle.std.specs.Prelude.{◌≡◌, ℕ, ◌+◌, ◌≤◌, List, length};
ghost use Rattle.sha256.specs.Stream.{Absorbed};
ghost use Rattle.commitments.specs.Sinks.{Filled, Puts};

use octets::places::put;
use sha256::hasher::Hasher;

pub trait Sink {
    // The second is the first after it took the bytes.
    ghost took: { Self → List ℕ → Self → Type 0 };

    fn put(&mut self, bytes: &[u8])
        ensures { Puts took self.old bytes.now self.new };
}

impl Sink for Hasher {
    ghost took = { λ start m after. Absorbed after m };

    fn put(&mut self, bytes: &[u8]) {
        self.absorb(bytes);
    }
}

// The front of a lent buffer, with the place where the next piece goes: a node has no heap to append to.
#[derive(Debug, Drop)]
pub struct Front<'a> {
    pub out: &'a mut [u8],
    pub at: usize,
}

impl Sink for Front<'_> {
    // A piece that has no room is left out, so the promise is for what has.
    ghost took = { λ start m after. (after.out.ghost_name ≡ start.out.ghost_name) × (start.at + length m ≤ length start.out.now → Filled start.at start.out.now m after.at after.out.now) };

    fn put(&mut self, bytes: &[u8]) {
        let at = self.at;
        if at <= self.out.len() && bytes.len() <= self.out.len() - at {
            put(self.out, at, bytes);
            self.at = at + bytes.len();
        }
    }
}
