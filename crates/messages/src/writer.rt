// The writers: each puts its message at the front of a lent buffer, alters nothing behind it, and says how long it is.
ghost use Rattle.std.specs.Prelude.{◌≡◌, ◌+◌, ◌≤◌, length};
ghost use Rattle.octets.specs.Places.{over};
ghost use Rattle.octets.specs.Numbers.{bytes_of};
ghost use Rattle.messages.specs.Kinds.{kind_number};
ghost use Rattle.messages.specs.Contents.{message_bytes, add, fulfil, fail, signed, revoked, fee, reestablish};

use crate::kind::Kind;
use money::kind::Money;
use octets::places::{put, put_number};

pub const FULFIL_LENGTH: usize = 36;

pub const FAIL_LENGTH: usize = 4;

pub const SIGNED_LENGTH: usize = 34;

pub const REVOKED_LENGTH: usize = 66;

pub const FEE_LENGTH: usize = 6;

pub const REESTABLISH_LENGTH: usize = 18;

// Every message begins with its type.
fn put_kind(out: &mut [u8], kind: Kind)
    requires { 2 ≤ length out.old }
    ensures { out.new ≡ over out.old 0 (bytes_of 2 (kind_number kind)) }
{
    put_number(out, 0, u16::from(kind));
}

// How long an add is, by the width of the money.
pub fn add_length<M: Money>() -> usize
    ensures { result ≡ 40 + M.terms.width }
{
    40 + M::byte_width()
}

pub fn write_add<M: Money>(
    out: &mut [u8],
    id: u16,
    amount: &M,
    value: &[u8; 32],
    expiry: u32,
) -> usize
    requires { 40 + M.terms.width ≤ length out.old }
    ensures bytes { out.new ≡ over out.old 0 (message_bytes (add id (M.terms.written (M.asset amount.now)) value.now expiry)) }
    ensures long { result ≡ length (message_bytes (add id (M.terms.written (M.asset amount.now)) value.now expiry)) }
{
    let width = M::byte_width();
    put_kind(out, Kind::Add);
    put_number(out, 2, id);
    amount.write(out, 4);
    put(out, 4 + width, value);
    put_number(out, 36 + width, expiry);
    40 + width
}

pub fn write_fulfil(out: &mut [u8], id: u16, key: &[u8; 32]) -> usize
    requires { 36 ≤ length out.old }
    ensures bytes { out.new ≡ over out.old 0 (message_bytes (fulfil id key.now)) }
    ensures long { result ≡ length (message_bytes (fulfil id key.now)) }
{
    put_kind(out, Kind::Fulfil);
    put_number(out, 2, id);
    put(out, 4, key);
    FULFIL_LENGTH
}

pub fn write_fail(out: &mut [u8], id: u16) -> usize
    requires { 4 ≤ length out.old }
    ensures bytes { out.new ≡ over out.old 0 (message_bytes (fail id)) }
    ensures long { result ≡ length (message_bytes (fail id)) }
{
    put_kind(out, Kind::Fail);
    put_number(out, 2, id);
    FAIL_LENGTH
}

pub fn write_signed(out: &mut [u8], signature: &[u8; 32]) -> usize
    requires { 34 ≤ length out.old }
    ensures bytes { out.new ≡ over out.old 0 (message_bytes (signed signature.now)) }
    ensures long { result ≡ length (message_bytes (signed signature.now)) }
{
    put_kind(out, Kind::Signed);
    put(out, 2, signature);
    SIGNED_LENGTH
}

pub fn write_revoked(out: &mut [u8], secret: &[u8; 32], point: &[u8; 32]) -> usize
    requires { 66 ≤ length out.old }
    ensures bytes { out.new ≡ over out.old 0 (message_bytes (revoked secret.now point.now)) }
    ensures long { result ≡ length (message_bytes (revoked secret.now point.now)) }
{
    put_kind(out, Kind::Revoked);
    put(out, 2, secret);
    put(out, 34, point);
    REVOKED_LENGTH
}

pub fn write_fee(out: &mut [u8], rate: u32) -> usize
    requires { 6 ≤ length out.old }
    ensures bytes { out.new ≡ over out.old 0 (message_bytes (fee rate)) }
    ensures long { result ≡ length (message_bytes (fee rate)) }
{
    put_kind(out, Kind::Fee);
    put_number(out, 2, rate);
    FEE_LENGTH
}

pub fn write_reestablish(out: &mut [u8], commitment: u64, revocation: u64) -> usize
    requires { 18 ≤ length out.old }
    ensures bytes { out.new ≡ over out.old 0 (message_bytes (reestablish commitment revocation)) }
    ensures long { result ≡ length (message_bytes (reestablish commitment revocation)) }
{
    put_kind(out, Kind::Reestablish);
    put_number(out, 2, commitment);
    put_number(out, 10, revocation);
    REESTABLISH_LENGTH
}
