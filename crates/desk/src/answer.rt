// The answer to a question: a text, or why it is declined. Want of memory is none.
ghost use Rattle.std.specs.Prelude.{◌≡◌, Some};
ghost use Rattle.messages.specs.Faults.{message_refusal};
ghost use Rattle.desk.specs.Answers.{decline_text, unanswered_text};
ghost use Rattle.desk.specs.declared.answer.Decline.TheVariants.{Refused, NotMade};
ghost use Rattle.desk.specs.declared.answer.Unanswered.TheVariants.{Declined, NoMemory};

use messages::fault::MessageFault;
use refusals::reason::Reason;
use refusals::refusal::Refusal;
use std::alloc::AllocError;
use std::error::Error;
use std::fmt;

pub type Answer = Result<String, Decline>;

#[derive(Clone, Copy, Debug, PartialEq, Eq)]
pub enum Decline {
    // A message is refused.
    Refused(Refusal),
    // A lock cannot be made, where no channel is concerned.
    NotMade(Reason),
}

impl From<MessageFault> for Decline {
    ghost from_gives = { λ fault decline. decline ≡ Refused (message_refusal fault) };

    fn from(fault: MessageFault) -> Decline {
        Decline::Refused(Refusal::from(fault))
    }
}

impl From<Reason> for Decline {
    ghost from_gives = { λ reason decline. decline ≡ NotMade reason };

    fn from(reason: Reason) -> Decline {
        Decline::NotMade(reason)
    }
}

impl fmt::Display for Decline {
    ghost output = { λ decline. Some (decline_text decline) };

    fn fmt<W: fmt::Write>(&self, f: &mut fmt::Formatter<W>) -> fmt::Result {
        match self {
            Decline::Refused(refusal) => write!(f, "{refusal}"),
            Decline::NotMade(reason) => {
                let number = reason.number();
                write!(f, "declined {number}")
            }
        }
    }
}

impl Error for Decline {}

// Why a question has no text: it is declined, or memory is wanting, and then there is no answer at all.
#[derive(Clone, Copy, Debug, PartialEq, Eq)]
pub enum Unanswered {
    Declined(Decline),
    NoMemory,
}

impl From<MessageFault> for Unanswered {
    ghost from_gives = { λ fault unanswered. unanswered ≡ Declined (Refused (message_refusal fault)) };

    fn from(fault: MessageFault) -> Unanswered {
        Unanswered::Declined(Decline::from(fault))
    }
}

impl From<Reason> for Unanswered {
    ghost from_gives = { λ reason unanswered. unanswered ≡ Declined (NotMade reason) };

    fn from(reason: Reason) -> Unanswered {
        Unanswered::Declined(Decline::from(reason))
    }
}

impl From<AllocError> for Unanswered {
    ghost from_gives = { λ _ unanswered. unanswered ≡ NoMemory };

    fn from(_error: AllocError) -> Unanswered {
        Unanswered::NoMemory
    }
}

impl fmt::Display for Unanswered {
    ghost output = { λ unanswered. Some (unanswered_text unanswered) };

    fn fmt<W: fmt::Write>(&self, f: &mut fmt::Formatter<W>) -> fmt::Result {
        match self {
            Unanswered::Declined(decline) => write!(f, "{decline}"),
            Unanswered::NoMemory => f.write_str("memory is wanting"),
        }
    }
}

impl Error for Unanswered {}
