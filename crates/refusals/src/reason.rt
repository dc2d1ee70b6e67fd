// Why a call is declined: the same number means the same kind of thing everywhere.
ghost use Rattle.std.specs.Prelude.{◌≡◌, Some};
ghost use Rattle.refusals.specs.Reasons.{reason_layer, reason_number, reason_words};

use crate::layer::Layer;
use std::fmt;

#[derive(Clone, Copy, Debug, PartialEq, Eq)]
pub enum Reason {
    NotReady = 1,
    ShortBuffer = 2,
    Full = 3,
    Unreadable = 4,
    OutOfBounds = 5,
    ThirtyPending = 6,
    ShortBalance = 7,
    Unknown = 8,
    Resolved = 9,
    WrongKey = 10,
    NotFunder = 11,
    NothingToSign = 12,
    AwaitsRevocation = 13,
    WrongSignature = 14,
    NothingToRevoke = 15,
    WrongSecret = 16,
    Unexpected = 17,
    Forwarded = 18,
    WrongTweak = 19,
    NotCovered = 20,
    NotSettled = 21,
    NoPlace = 22,
}

impl Reason {
    pub fn number(&self) -> u8
        ensures { result ≡ reason_number self.now }
    {
        *self as u8
    }

    // The layer that refuses for this reason.
    pub fn layer(&self) -> Layer
        ensures { result ≡ reason_layer self.now }
    {
        match self {
            Reason::Unreadable => Layer::Message,
            Reason::NotReady
            | Reason::Forwarded
            | Reason::WrongTweak
            | Reason::NotCovered
            | Reason::NotSettled
            | Reason::NoPlace => Layer::Node,
            _ => Layer::Channel,
        }
    }
}

impl fmt::Display for Reason {
    ghost output = { λ reason. Some (reason_words reason) };

    fn fmt<W: fmt::Write>(&self, f: &mut fmt::Formatter<W>) -> fmt::Result {
        f.write_str(match self {
            Reason::NotReady =>
                "the channel is not made, or is not in the condition that the call needs",
            Reason::ShortBuffer => "the buffer is shorter than the message",
            Reason::Full => "the log or list is full",
            Reason::Unreadable => "the message cannot be read, or is not for this call",
            Reason::OutOfBounds =>
                "the amount, the expiry or the sum of the shares is out of bounds",
            Reason::ThirtyPending => "thirty payments of that side are pending",
            Reason::ShortBalance => "the balance does not contain the amount",
            Reason::Unknown => "no such payment, update or number, or it is not irrevocable yet",
            Reason::Resolved => "the payment is resolved already",
            Reason::WrongKey => "the key does not open the lock value",
            Reason::NotFunder => "only the funder sets the fee rate",
            Reason::NothingToSign => "nothing new to sign, or no signature to send again",
            Reason::AwaitsRevocation => "the newest commitment waits for a revocation",
            Reason::WrongSignature => "the signature is not that of the commitment",
            Reason::NothingToRevoke => "no commitment to revoke, or no revocation to send again",
            Reason::WrongSecret => "the secret does not fit",
            Reason::Unexpected => "the id or number is not the one expected",
            Reason::Forwarded => "the payment is forwarded, so only relay resolves it",
            Reason::WrongTweak => "the lock value carried by the tweak is not the incoming one",
            Reason::NotCovered =>
                "the incoming payment does not cover amount and fee, or expires too soon",
            Reason::NotSettled =>
                "the payment is not forwarded, or the onward payment is not settled yet",
            Reason::NoPlace => "no place for another channel",
        })
    }
}
