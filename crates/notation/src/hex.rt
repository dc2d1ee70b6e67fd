// Bytes as hex digits.
ghost use Rattle.std.specs.Prelude.{◌≡◌, ◌+◌, ◌*◌, ◌<◌, [], ◌∷◌, length, Some, IfSome, IfOk, vec_items, string_bytes};
ghost use Rattle.std.specs.Option.{option_map};
ghost use Rattle.notation.specs.Hex.{digit_number, digit_of, hex_of, byte_of, bytes_from, value_from, HexReadsBack};

use std::alloc::{AllocError, Global};
use std::fmt;

// The number of a digit.
fn digit_number(digit: u8) -> Option<u8>
    ensures value { result ≡ digit_number digit }
    ensures small { IfSome result (λ n. n < 16) }
{
    match digit {
        b'0'..=b'9' => Some(digit - b'0'),
        b'a'..=b'f' => Some(digit - b'a' + 10),
        b'A'..=b'F' => Some(digit - b'A' + 10),
        _ => None,
    }
}

// The byte of two digits.
fn byte_of(high: u8, low: u8) -> Option<u8>
    ensures { result ≡ byte_of (digit_number high) (digit_number low) }
{
    let high = digit_number(high)?;
    let low = digit_number(low)?;
    Some(16 * high + low)
}

// Fills a row with the bytes of twice as many digits, or answers nothing where one cannot be read.
fn decode_into(mut digits: &[u8], out: &mut [u8]) -> Option<()>
    requires { length digits.now ≡ 2 * length out.old }
    ensures { bytes_from digits.now ≡ option_map (λ _. out.new) result }
{
    // With `zip` over `iter_mut` a proof would know nothing of the bytes that were filled in.
    for byte in out {
        let ([high, low], rest) = digits.split_first_chunk::<2>()?;
        *byte = byte_of(*high, *low)?;
        digits = rest;
    }
    Some(())
}

// The bytes that digits stand for, or nothing where they cannot be read.
pub fn decode(heap: Global, digits: &[u8]) -> Result<Option<Vec<u8>>, AllocError>
    ensures { IfOk result (λ bytes. option_map vec_items bytes ≡ bytes_from digits.now) }
{
    if digits.len() % 2 == 1 {
        return Ok(None);
    }
    let mut bytes = vec![in heap; 0u8; digits.len() / 2]?;
    Ok(decode_into(digits, &mut bytes).map(|()| bytes))
}

// The 32 bytes that 64 digits stand for.
pub fn decode_value(digits: &[u8]) -> Option<[u8; 32]>
    ensures { result ≡ value_from digits.now }
{
    if digits.len() != 64 {
        return None;
    }
    let mut value = [0; 32];
    decode_into(digits, &mut value)?;
    Some(value)
}

// The digit of a number below 16, as a text.
fn digit(number: u8) -> &'static str
    requires { number < 16 }
    ensures { result.now ≡ digit_of number ∷ [] }
{
    match number {
        0 => "0",
        1 => "1",
        2 => "2",
        3 => "3",
        4 => "4",
        5 => "5",
        6 => "6",
        7 => "7",
        8 => "8",
        9 => "9",
        10 => "a",
        11 => "b",
        12 => "c",
        13 => "d",
        14 => "e",
        _ => "f",
    }
}

// Bytes that print as their digits, in lower case.
#[derive(Clone, Copy, Debug, PartialEq, Eq)]
pub struct Hex<'a>(pub &'a [u8]);

impl fmt::Display for Hex<'_> {
    ghost output = { λ hex. Some (hex_of hex.0.now) };

    fn fmt<W: fmt::Write>(&self, f: &mut fmt::Formatter<W>) -> fmt::Result {
        // The library's format of a byte, `{byte:02x}`, takes several times as long.
        for &byte in self.0 {
            f.write_str(digit(byte / 16))?;
            f.write_str(digit(byte % 16))?;
        }
        Ok(())
    }
}

// The digits of bytes as a text of their own.
pub fn encode(heap: Global, bytes: &[u8]) -> Result<String, AllocError>
    ensures { IfOk result (λ text. string_bytes text ≡ hex_of bytes.now) }
{
    Hex(bytes).to_string(heap)
}

// Carries the law that hex reads back what it writes.
pub fn hex_reads_back() -> u8
    ensures { HexReadsBack }
{
    0
}
