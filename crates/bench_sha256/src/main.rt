// Hashes a value of 32 bytes two million times over, each time the digest before, and prints the front of the last one.
#![tactic(auto)]

ghost use Rattle.std.specs.Prelude.{◌≡◌};
ghost use Rattle.bench_sha256.specs.Chain.{chain};

use sha256::sha256;
use std::io;

// The last value of a chain of so many digests.
fn chained(count: u32) -> [u8; 32]
    ensures { result ≡ chain count }
{
    let mut value = [0; 32];
    for _ in 0..count {
        value = sha256(&value);
    }
    value
}

fn main(rt: HostRuntime) -> io::Result<()> {
    let [a, b, c, d, ..] = chained(2_000_000);
    println!(rt; "{a} {b} {c} {d}")
}
