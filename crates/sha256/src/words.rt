// The functions and constants of SHA-256 on words of 32 bits.
ghost use Rattle.std.specs.Prelude.{◌≡◌, ◌/◌, ◌^◌, ◌<◌, bit_xor, take};
ghost use Rattle.sha256.specs.Fips.{rotr, ch, maj, word, round, sums};

use octets::numbers::Number;
use std::array;

// K: one for each round.
pub const CONSTANTS: [u32; 64] = [
    0x428a_2f98,
    0x7137_4491,
    0xb5c0_fbcf,
    0xe9b5_dba5,
    0x3956_c25b,
    0x59f1_11f1,
    0x923f_82a4,
    0xab1c_5ed5,
    0xd807_aa98,
    0x1283_5b01,
    0x2431_85be,
    0x550c_7dc3,
    0x72be_5d74,
    0x80de_b1fe,
    0x9bdc_06a7,
    0xc19b_f174,
    0xe49b_69c1,
    0xefbe_4786,
    0x0fc1_9dc6,
    0x240c_a1cc,
    0x2de9_2c6f,
    0x4a74_84aa,
    0x5cb0_a9dc,
    0x76f9_88da,
    0x983e_5152,
    0xa831_c66d,
    0xb003_27c8,
    0xbf59_7fc7,
    0xc6e0_0bf3,
    0xd5a7_9147,
    0x06ca_6351,
    0x1429_2967,
    0x27b7_0a85,
    0x2e1b_2138,
    0x4d2c_6dfc,
    0x5338_0d13,
    0x650a_7354,
    0x766a_0abb,
    0x81c2_c92e,
    0x9272_2c85,
    0xa2bf_e8a1,
    0xa81a_664b,
    0xc24b_8b70,
    0xc76c_51a3,
    0xd192_e819,
    0xd699_0624,
    0xf40e_3585,
    0x106a_a070,
    0x19a4_c116,
    0x1e37_6c08,
    0x2748_774c,
    0x34b0_bcb5,
    0x391c_0cb3,
    0x4ed8_aa4a,
    0x5b9c_ca4f,
    0x682e_6ff3,
    0x748f_82ee,
    0x78a5_636f,
    0x84c8_7814,
    0x8cc7_0208,
    0x90be_fffa,
    0xa450_6ceb,
    0xbef9_a3f7,
    0xc671_78f2,
];

fn choose(x: u32, y: u32, z: u32) -> u32
    ensures { result ≡ ch x y z }
{
    (x & y) ^ (!x & z)
}

fn majority(x: u32, y: u32, z: u32) -> u32
    ensures { result ≡ maj x y z }
{
    (x & y) ^ (x & z) ^ (y & z)
}

// Σ: a word turned right by A, by B and by C places, by xor.
fn big_sigma<const A: u32, const B: u32, const C: u32>(x: u32) -> u32
    requires a { (0 < A) × (A < 32) }
    requires b { (0 < B) × (B < 32) }
    requires c { (0 < C) × (C < 32) }
    ensures { result ≡ bit_xor (bit_xor (rotr A x) (rotr B x)) (rotr C x) }
{
    x.rotate_right(A) ^ x.rotate_right(B) ^ x.rotate_right(C)
}

// σ: a word turned right by A and by B places and shifted right by C, by xor.
fn small_sigma<const A: u32, const B: u32, const C: u32>(x: u32) -> u32
    requires a { (0 < A) × (A < 32) }
    requires b { (0 < B) × (B < 32) }
    requires c { C < 32 }
    ensures { result ≡ bit_xor (bit_xor (rotr A x) (rotr B x)) (x / 2 ^ C) }
{
    x.rotate_right(A) ^ x.rotate_right(B) ^ (x >> C)
}

// The schedule's word at a place, from the block or the words before it.
pub fn word(block: &[u8; 64], w: &[u32; 64], t: usize) -> u32
    requires { t < 64 }
    ensures { result ≡ word block.now (take t w.now) t }
{
    if t < 16 {
        u32::read(block, 4 * t)
    } else {
        small_sigma::<17, 19, 10>(w[t - 2])
            .wrapping_add(w[t - 7])
            .wrapping_add(small_sigma::<7, 18, 3>(w[t - 15]))
            .wrapping_add(w[t - 16])
    }
}

// One round over the working variables.
#[tactic(auto, unfolding(crate::specs::Fips::round, crate::specs::Fips::t1, crate::specs::Fips::t2))]
pub fn turn(s: &mut [u32; 8], k: u32, w: u32)
    ensures { s.new ≡ round s.old k w }
{
    let [a, b, c, d, e, f, g, h] = *s;
    let t1 = h
        .wrapping_add(big_sigma::<6, 11, 25>(e))
        .wrapping_add(choose(e, f, g))
        .wrapping_add(k)
        .wrapping_add(w);
    let t2 = big_sigma::<2, 13, 22>(a).wrapping_add(majority(a, b, c));
    *s = [t1.wrapping_add(t2), a, b, c, d.wrapping_add(t1), e, f, g];
}

// Two hash values added word by word.
pub fn added(s: [u32; 8], t: [u32; 8]) -> [u32; 8]
    ensures { result ≡ sums s t }
{
    array::from_fn(|i| s[i].wrapping_add(t[i]))
}
