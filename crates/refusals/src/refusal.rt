// A refusal as the caller reads it.
ghost use Rattle.std.specs.Prelude.{Some};
ghost use Rattle.refusals.specs.Refusals.{refusal_text};

use crate::reason::Reason;
use std::fmt;

// Why, and which channel it is about.
#[derive(Clone, Copy, Debug, PartialEq, Eq)]
pub struct Refusal {
    pub reason: Reason,
    pub channel: u64,
}

impl fmt::Display for Refusal {
    ghost output = { λ refusal. Some (refusal_text refusal) };

    fn fmt<W: fmt::Write>(&self, f: &mut fmt::Formatter<W>) -> fmt::Result {
        let reason = self.reason;
        let number = reason.number();
        let layer = reason.layer().number();
        let channel = self.channel;
        write!(
            f,
            "declined {number}, layer {layer}, channel {channel}: {reason}"
        )
    }
}
