// From a line to what it asks for.
ghost use Rattle.std.specs.Prelude.{◌≡◌, codes};
ghost use Rattle.notation.specs.Lines.{without_return};
ghost use Rattle.commands.specs.Parsing.{name_of, Takes, Asks, Reads, Parsed};

use crate::command::Command;
use crate::fault::Fault;
use crate::words::Words;
use notation::lines::{is_passed_over, is_printable, without_return};
use std::alloc::Global;

// A command, or nothing where the line is passed over.
pub fn parse(heap: Global, line: &[u8]) -> Result<Option<Command>, Fault>
    ensures { Parsed (without_return line.now) result }
{
    let line = without_return(line);
    if is_passed_over(line) {
        return Ok(None);
    }
    if !is_printable(line) {
        return Err(Fault::NotPrintable);
    }
    let command = parse_command(heap, line)?;
    Ok(Some(command))
}

fn parse_command(heap: Global, line: &[u8]) -> Result<Command, Fault>
    ensures { Reads (λ c. Asks line.now c) result }
{
    let mut words = Words::new(line);
    match words.word()? {
        b"sha" => parse_sha(heap, &mut words),
        b"read" => parse_read(heap, &mut words),
        b"opens" => parse_opens(&mut words),
        b"carry" => parse_carry(&mut words),
        _ => Err(Fault::UnknownCommand),
    }
}

fn parse_sha(heap: Global, words: &mut Words<'_>) -> Result<Command, Fault>
    ensures { Reads (λ c. (codes "sha" ≡ name_of c) × Takes words.old.rest.now c) result }
{
    let message = words.message(heap)?;
    words.end()?;
    Ok(Command::Sha { message })
}

fn parse_read(heap: Global, words: &mut Words<'_>) -> Result<Command, Fault>
    ensures { Reads (λ c. (codes "read" ≡ name_of c) × Takes words.old.rest.now c) result }
{
    let channel = words.number()?;
    let message = words.message(heap)?;
    words.end()?;
    Ok(Command::Read { channel, message })
}

fn parse_opens(words: &mut Words<'_>) -> Result<Command, Fault>
    ensures { Reads (λ c. (codes "opens" ≡ name_of c) × Takes words.old.rest.now c) result }
{
    let lock = words.lock()?;
    let key = words.value()?;
    let value = words.value()?;
    words.end()?;
    Ok(Command::Opens { lock, key, value })
}

fn parse_carry(words: &mut Words<'_>) -> Result<Command, Fault>
    ensures { Reads (λ c. (codes "carry" ≡ name_of c) × Takes words.old.rest.now c) result }
{
    let lock = words.lock()?;
    let what = words.word()?;
    let carried = words.value()?;
    let tweak = words.value()?;
    words.end()?;
    match what {
        b"key" => Ok(Command::CarryKey {
            lock,
            key: carried,
            tweak,
        }),
        b"value" => Ok(Command::CarryValue {
            lock,
            value: carried,
            tweak,
        }),
        _ => Err(Fault::NeitherKeyNorValue),
    }
}
