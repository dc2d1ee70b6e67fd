// SHA-256: of a message at once, or taken in pieces.
#![tactic(auto)]

ghost use Rattle.std.specs.Prelude.{◌≡◌};
ghost use Rattle.sha256.specs.Fips.{hash};

mod blocks;
pub mod hasher;
mod rounds;
mod words;

use crate::hasher::Hasher;

// The digest of a message.
pub fn sha256(message: &[u8]) -> [u8; 32]
    ensures { result ≡ hash message.now }
{
    let mut hasher = Hasher::new();
    hasher.absorb(message);
    hasher.digest()
}
