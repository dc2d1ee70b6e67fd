// What is wrong with a line that cannot be read.
ghost use Rattle.std.specs.Prelude.{◌≡◌, Some};
ghost use Rattle.commands.specs.declared.fault.Fault.TheVariants.{NoMemory};
ghost use Rattle.commands.specs.Faults.{said_of};

use std::alloc::AllocError;
use std::error::Error;
use std::fmt;

#[derive(Clone, Copy, Debug, PartialEq, Eq)]
pub enum Fault {
    NotPrintable,
    UnknownCommand,
    MissingWord,
    ExtraWord,
    NotHex,
    NotAValue,
    NotANumber,
    UnknownLock,
    NeitherKeyNorValue,
    // Memory is wanting: no fault of the line.
    NoMemory,
}

impl From<AllocError> for Fault {
    ghost from_gives = { λ _ fault. fault ≡ NoMemory };

    fn from(_error: AllocError) -> Fault {
        Fault::NoMemory
    }
}

impl fmt::Display for Fault {
    ghost output = { λ fault. Some (said_of fault) };

    fn fmt<W: fmt::Write>(&self, f: &mut fmt::Formatter<W>) -> fmt::Result {
        f.write_str(match self {
            Fault::NotPrintable => "a character that cannot be printed",
            Fault::UnknownCommand => "an unknown command",
            Fault::MissingWord => "a word is missing",
            Fault::ExtraWord => "a word too many",
            Fault::NotHex => "not hex, two digits a byte",
            Fault::NotAValue => "not a value of 64 hex digits",
            Fault::NotANumber => "not a number of 64 bits",
            Fault::UnknownLock => "neither the lock hash nor group",
            Fault::NeitherKeyNorValue => "neither key nor value",
            Fault::NoMemory => "memory is wanting",
        })
    }
}

impl Error for Fault {}
