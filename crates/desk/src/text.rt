// Messages in words.
ghost use Rattle.std.specs.Prelude.{◌≡◌, IfOk, string_bytes};
ghost use Rattle.std.specs.Option.{option_map};
ghost use Rattle.messages.specs.Contents.{content};
ghost use Rattle.desk.specs.Answers.{amount_read};
ghost use Rattle.desk.specs.Texts.{amount_text, content_text};

use crate::amount::Show;
use messages::message::Message;
use money::kind::Money;
use notation::hex::Hex;
use std::alloc::{AllocError, Global};

// The amount that bytes stand for.
fn read_amount<M: Money>(bytes: &[u8]) -> Option<M>
    ensures { option_map M.Money.asset result ≡ amount_read M.Money.terms bytes.now }
{
    if bytes.len() != M::byte_width() {
        return None;
    }
    M::read(bytes)
}

// The amount's text.
fn show_amount<M: Show>(heap: Global, bytes: &[u8]) -> Result<String, AllocError>
    ensures { IfOk result (λ text. string_bytes text ≡ amount_text M.Show.shown (amount_read M.Money.terms bytes.now)) }
{
    match read_amount::<M>(bytes) {
        Some(amount) => amount.to_string(heap),
        None => String::from_str(heap, "past the limit"),
    }
}

// The fields of a message.
pub fn message_text<M: Show>(heap: Global, message: Message<'_>) -> Result<String, AllocError>
    ensures { IfOk result (λ text. string_bytes text ≡ content_text (λ bs. amount_text M.Show.shown (amount_read M.Money.terms bs)) (content message.entry)) }
{
    match message {
        Message::Add {
            id,
            amount,
            value,
            expiry,
        } => {
            let amount = show_amount::<M>(heap, amount)?;
            let value = Hex(value);
            format!(in heap; "add id {id} amount {amount} lock {value} expiry {expiry}")
        }
        Message::Fulfil { id, key } => format!(in heap; "fulfil id {id} key {}", Hex(key)),
        Message::Fail { id } => format!(in heap; "fail id {id}"),
        Message::Signed { signature } => format!(in heap; "signed signature {}", Hex(signature)),
        Message::Revoked { secret, point } => {
            format!(in heap; "revoked secret {} point {}", Hex(secret), Hex(point))
        }
        Message::Fee { rate } => format!(in heap; "fee rate {rate}"),
        Message::Reestablish {
            commitment,
            revocation,
        } => format!(in heap; "reestablish commitment {commitment} revocation {revocation}"),
    }
}
