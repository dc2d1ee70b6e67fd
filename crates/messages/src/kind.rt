// The types of messages, each by its number.
ghost use Rattle.std.specs.Prelude.{◌≡◌, ◌≢◌, MatchResult};
ghost use Rattle.messages.specs.Kinds.{kind_number};
ghost use Rattle.messages.specs.declared.kind.Kind.{Kind};

#[derive(Clone, Copy, Debug, PartialEq, Eq)]
pub enum Kind {
    Add = 128,
    Fulfil = 130,
    Fail = 131,
    Signed = 132,
    Revoked = 133,
    Fee = 134,
    Reestablish = 136,
}

// A number of no type.
#[derive(Clone, Copy, Debug, PartialEq, Eq)]
pub struct UnknownKind;

impl From<Kind> for u16 {
    ghost from_gives = { λ kind number. number ≡ kind_number kind };

    fn from(kind: Kind) -> u16 {
        kind as u16
    }
}

impl TryFrom<u16> for Kind {
    type Error = UnknownKind;

    ghost try_from_gives = { λ number answer. MatchResult answer (λ kind. number ≡ kind_number kind) (λ _. (kind : Kind) → number ≢ kind_number kind) };

    fn try_from(number: u16) -> Result<Kind, UnknownKind> {
        match number {
            128 => Ok(Kind::Add),
            130 => Ok(Kind::Fulfil),
            131 => Ok(Kind::Fail),
            132 => Ok(Kind::Signed),
            133 => Ok(Kind::Revoked),
            134 => Ok(Kind::Fee),
            136 => Ok(Kind::Reestablish),
            _ => Err(UnknownKind),
        }
    }
}
