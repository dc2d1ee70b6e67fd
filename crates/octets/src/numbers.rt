// Numbers of 2, 4 and 8 bytes, the highest byte first. Each width stands on the library's functions of its type.
ghost use Rattle.std.specs.Prelude.{◌≡◌, ℕ, ◌+◌, ◌≤◌, length};
ghost use Rattle.octets.specs.Numbers.{bytes_of, number_of, Reversed};
ghost use Rattle.octets.specs.Places.{part};

use crate::places::array_at;
use std::convert::AsSlice;

// A number that takes so many bytes.
pub trait Number: Copy {
    type Bytes: AsSlice<u8> + Copy;

    ghost width: { ℕ };

    ghost value: { Self → ℕ };

    fn to_bytes(self) -> Self::Bytes
        ensures { Self.Bytes.items result ≡ bytes_of width (value self) };

    // The number of the bytes from a place on.
    fn read(bytes: &[u8], at: usize) -> Self
        requires { at + width ≤ length bytes.now }
        ensures { value result ≡ number_of (part at width bytes.now) };
}

impl Number for u16 {
    type Bytes = [u8; 2];

    ghost width = { 2 };

    ghost value = { λ n. n };

    fn to_bytes(self) -> [u8; 2] {
        u16::to_be_bytes(self)
    }

    fn read(bytes: &[u8], at: usize) -> u16 {
        u16::from_be_bytes(*array_at(bytes, at))
    }
}

impl Number for u32 {
    type Bytes = [u8; 4];

    ghost width = { 4 };

    ghost value = { λ n. n };

    fn to_bytes(self) -> [u8; 4] {
        u32::to_be_bytes(self)
    }

    fn read(bytes: &[u8], at: usize) -> u32 {
        u32::from_be_bytes(*array_at(bytes, at))
    }
}

impl Number for u64 {
    type Bytes = [u8; 8];

    ghost width = { 8 };

    ghost value = { λ n. n };

    fn to_bytes(self) -> [u8; 8] {
        u64::to_be_bytes(self)
    }

    fn read(bytes: &[u8], at: usize) -> u64 {
        u64::from_be_bytes(*array_at(bytes, at))
    }
}

// Carries the law that reading and writing undo each other.
pub fn reading_reverses_writing() -> u8
    ensures { Reversed }
{
    0
}
