// The fault of the message layer.
ghost use Rattle.std.specs.Prelude.{◌≡◌};
ghost use Rattle.messages.specs.Faults.{message_refusal};

use refusals::reason::Reason;
use refusals::refusal::Refusal;

#[derive(Clone, Copy, Debug, PartialEq, Eq)]
pub enum MessageFault {
    // Shorter than a type, of no known type, or of another length than its type has.
    Malformed { channel: u64 },
}

impl From<MessageFault> for Refusal {
    ghost from_gives = { λ fault refusal. refusal ≡ message_refusal fault };

    fn from(fault: MessageFault) -> Refusal {
        let MessageFault::Malformed { channel } = fault;
        Refusal {
            reason: Reason::Unreadable,
            channel,
        }
    }
}
