// Reading and writing at a place of a lent slice. Slice and place are handed over apart: `&mut out[at..]` at each call
// would say the same in more signs.
ghost use Rattle.std.specs.Prelude.{◌≡◌, ◌+◌, ◌≤◌, length};
ghost use Rattle.octets.specs.Numbers.{bytes_of};
ghost use Rattle.octets.specs.Places.{over, part};

use crate::numbers::Number;
use std::convert::AsSlice;

// The so many bytes from a place on, as a part of the slice.
pub fn array_at<const LENGTH: usize>(bytes: &[u8], at: usize) -> &[u8; LENGTH]
    requires { at + LENGTH ≤ length bytes.now }
    ensures { result.now ≡ part at LENGTH bytes.now }
{
    match bytes[at..].split_first_chunk::<LENGTH>() {
        Some((array, _)) => array,
        None => unreachable!(),
    }
}

// Writes a piece from a place on, with nothing else altered.
pub fn put(out: &mut [u8], at: usize, piece: &[u8])
    requires { at + length piece.now ≤ length out.old }
    ensures { out.new ≡ over out.old at piece.now }
{
    out[at..at + piece.len()].copy_from_slice(piece);
}

// Writes the bytes of a number.
pub fn put_number<N: Number>(out: &mut [u8], at: usize, number: N)
    requires { at + N.width ≤ length out.old }
    ensures { out.new ≡ over out.old at (bytes_of N.width (N.value number)) }
{
    put(out, at, number.to_bytes().as_slice());
}
