// The words of a line, taken one by one as what they should be. They are bytes, as the line is.
ghost use Rattle.std.specs.Prelude.{◌≡◌, IfOk, OnOk};
ghost use Rattle.notation.specs.Lines.{first_word, later_words};
ghost use Rattle.commands.specs.Parsing.{Ended, IsMessage, IsNumber, IsValue, IsLock, behind_lock, Reads, NextWord};

use crate::command::LockName;
use crate::fault::Fault;
use notation::hex;
use notation::lines::split_word;
use notation::number::number;
use std::alloc::Global;

#[derive(Debug, Drop)]
pub struct Words<'a> {
    rest: &'a [u8],
}

impl<'a> Words<'a> {
    pub fn new(line: &'a [u8]) -> Words<'a>
        ensures { result.rest.now ≡ line.now }
    {
        Words { rest: line }
    }

    // The next word.
    pub fn word(&mut self) -> Result<&'a [u8], Fault>
        ensures value { NextWord self.old.rest.now result }
        ensures rest { OnOk result (self.new.rest.now ≡ later_words self.old.rest.now) }
    {
        let (word, rest) = split_word(self.rest).ok_or(Fault::MissingWord)?;
        self.rest = rest;
        Ok(word)
    }

    pub fn number(&mut self) -> Result<u64, Fault>
        ensures value { Reads (IsNumber (first_word self.old.rest.now)) result }
        ensures rest { OnOk result (self.new.rest.now ≡ later_words self.old.rest.now) }
    {
        number(self.word()?).ok_or(Fault::NotANumber)
    }

    pub fn value(&mut self) -> Result<[u8; 32], Fault>
        ensures value { Reads (IsValue (first_word self.old.rest.now)) result }
        ensures rest { OnOk result (self.new.rest.now ≡ later_words self.old.rest.now) }
    {
        hex::decode_value(self.word()?).ok_or(Fault::NotAValue)
    }

    // A message in hex; an empty one is a dash.
    pub fn message(&mut self, heap: Global) -> Result<Vec<u8>, Fault>
        ensures value { Reads (λ m. IsMessage (first_word self.old.rest.now) m.items) result }
        ensures rest { OnOk result (self.new.rest.now ≡ later_words self.old.rest.now) }
    {
        match self.word()? {
            b"-" => Ok(Vec::new(heap)),
            word => hex::decode(heap, word)?.ok_or(Fault::NotHex),
        }
    }

    pub fn lock(&mut self) -> Result<LockName, Fault>
        ensures value { Reads (IsLock self.old.rest.now) result }
        ensures rest { IfOk result (λ l. self.new.rest.now ≡ behind_lock self.old.rest.now l) }
    {
        match self.word()? {
            b"hash" => Ok(LockName::Hash),
            b"group" => Ok(LockName::Group {
                modulus: self.number()?,
                order: self.number()?,
                base: self.number()?,
            }),
            _ => Err(Fault::UnknownLock),
        }
    }

    // Nothing but blanks is left.
    pub fn end(&self) -> Result<(), Fault>
        ensures { Reads (λ _. Ended self.now.rest.now) result }
    {
        match split_word(self.rest) {
            Some(_) => Err(Fault::ExtraWord),
            None => Ok(()),
        }
    }
}
