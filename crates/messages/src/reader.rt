// The reader: it looks at the type and the length, and hands out each field as a part of the message.
ghost use Rattle.std.specs.Prelude.{◌≡◌, ◌+◌};
ghost use Rattle.std.specs.Option.{option_map, ok_or};
ghost use Rattle.octets.specs.Places.{part};
ghost use Rattle.messages.specs.Contents.{content, fulfil, fail, signed, revoked, fee, reestablish};
ghost use Rattle.messages.specs.Kinds.{kind_number};
ghost use Rattle.messages.specs.Reading.{contents, number_at, whole, read_add, read_fields, read_message};
ghost use Rattle.messages.specs.RoundTrip.{RoundTrip};
ghost use Rattle.messages.specs.declared.fault.MessageFault.TheVariants.{Malformed};

use crate::fault::MessageFault;
use crate::kind::{Kind, UnknownKind};
use crate::message::Message;
use money::kind::Money;
use octets::numbers::Number;
use octets::places::array_at;

// The message of a channel whose amounts are of one kind of money.
pub fn read<M: Money>(channel: u64, bytes: &[u8]) -> Result<Message<'_>, MessageFault>
    ensures { contents result ≡ ok_or (read_message M.terms.width bytes.now) (Malformed channel) }
{
    read_message::<M>(bytes).ok_or(MessageFault::Malformed { channel })
}

fn read_message<M: Money>(bytes: &[u8]) -> Option<Message<'_>>
    ensures { option_map content result ≡ read_message M.terms.width bytes.now }
{
    let [high, low, fields @ ..] = bytes else {
        return None;
    };
    // Behind `.ok()?` the proof would have lost which number was tried.
    match Kind::try_from(u16::from_be_bytes([*high, *low])) {
        Ok(kind) => read_kind::<M>(kind, fields),
        Err(UnknownKind) => None,
    }
}

#[tactic(auto, unfolding(crate::specs::Reading::read_fields))]
fn read_kind<M: Money>(kind: Kind, fields: &[u8]) -> Option<Message<'_>>
    ensures { option_map content result ≡ read_fields M.terms.width (kind_number kind) fields.now }
{
    match kind {
        Kind::Add => read_add::<M>(fields),
        Kind::Fulfil => read_fulfil(fields),
        Kind::Fail => read_fail(fields),
        Kind::Signed => read_signed(fields),
        Kind::Revoked => read_revoked(fields),
        Kind::Fee => read_fee(fields),
        Kind::Reestablish => read_reestablish(fields),
    }
}

fn read_add<M: Money>(fields: &[u8]) -> Option<Message<'_>>
    ensures { option_map content result ≡ read_add M.terms.width fields.now }
{
    let width = M::byte_width();
    if fields.len() != 38 + width {
        return None;
    }
    Some(Message::Add {
        id: u16::read(fields, 0),
        amount: &fields[2..2 + width],
        value: array_at(fields, 2 + width),
        expiry: u32::read(fields, 34 + width),
    })
}

fn read_fulfil(fields: &[u8]) -> Option<Message<'_>>
    ensures { option_map content result ≡ whole 34 fields.now (fulfil (number_at 0 2 fields.now) (part 2 32 fields.now)) }
{
    if fields.len() != 34 {
        return None;
    }
    Some(Message::Fulfil {
        id: u16::read(fields, 0),
        key: array_at(fields, 2),
    })
}

fn read_fail(fields: &[u8]) -> Option<Message<'_>>
    ensures { option_map content result ≡ whole 2 fields.now (fail (number_at 0 2 fields.now)) }
{
    if fields.len() != 2 {
        return None;
    }
    Some(Message::Fail {
        id: u16::read(fields, 0),
    })
}

fn read_signed(fields: &[u8]) -> Option<Message<'_>>
    ensures { option_map content result ≡ whole 32 fields.now (signed (part 0 32 fields.now)) }
{
    if fields.len() != 32 {
        return None;
    }
    Some(Message::Signed {
        signature: array_at(fields, 0),
    })
}

fn read_revoked(fields: &[u8]) -> Option<Message<'_>>
    ensures { option_map content result ≡ whole 64 fields.now (revoked (part 0 32 fields.now) (part 32 32 fields.now)) }
{
    if fields.len() != 64 {
        return None;
    }
    Some(Message::Revoked {
        secret: array_at(fields, 0),
        point: array_at(fields, 32),
    })
}

fn read_fee(fields: &[u8]) -> Option<Message<'_>>
    ensures { option_map content result ≡ whole 4 fields.now (fee (number_at 0 4 fields.now)) }
{
    if fields.len() != 4 {
        return None;
    }
    Some(Message::Fee {
        rate: u32::read(fields, 0),
    })
}

fn read_reestablish(fields: &[u8]) -> Option<Message<'_>>
    ensures { option_map content result ≡ whole 16 fields.now (reestablish (number_at 0 8 fields.now) (number_at 8 8 fields.now)) }
{
    if fields.len() != 16 {
        return None;
    }
    Some(Message::Reestablish {
        commitment: u64::read(fields, 0),
        revocation: u64::read(fields, 8),
    })
}

// Carries the law that writing and reading undo each other, for every kind of money.
pub fn messages_come_back<M: Money>() -> u8
    ensures { RoundTrip M.Money }
{
    0
}
