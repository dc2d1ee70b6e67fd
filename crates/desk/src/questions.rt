// The questions to the desk.
ghost use Rattle.std.specs.Prelude.{◌≡◌, IfOk, string_bytes};
ghost use Rattle.notation.specs.Hex.{hex_of};
ghost use Rattle.sha256.specs.Fips.{hash};
ghost use Rattle.desk.specs.Answers.{Answers, ReadSaid, OpensSaid, CarrySaid, Said};
ghost use Rattle.desk.specs.NamedLocks.{meaning_of};

use crate::amount::Show;
use crate::answer::{Answer, Unanswered};
use crate::named_lock::NamedLock;
use crate::text::message_text;
use commands::command::{Command, LockName};
use locks::lock::Lock;
use messages::reader::read;
use money::satoshi::Satoshi;
use notation::hex;
use sha256::sha256;
use std::alloc::{AllocError, Global};

// The digest of bytes.
pub fn answer_sha(heap: Global, message: &[u8]) -> Result<String, AllocError>
    ensures { IfOk result (λ text. string_bytes text ≡ hex_of (hash message.now)) }
{
    hex::encode(heap, &sha256(message))
}

// What a message says.
pub fn answer_read<M: Show>(
    heap: Global,
    channel: u64,
    message: &[u8],
) -> Result<String, Unanswered>
    ensures { Answers (ReadSaid M.Money.terms M.Show.shown channel message.now) result }
{
    let message = read::<M>(channel, message)?;
    Ok(message_text::<M>(heap, message)?)
}

// Whether a key opens a lock value.
pub fn answer_opens(
    heap: Global,
    name: LockName,
    key: &[u8; 32],
    value: &[u8; 32],
) -> Result<String, Unanswered>
    ensures { Answers (OpensSaid name key.now value.now) result }
{
    let lock = NamedLock::try_from(name)?;
    let word = if lock.opens(key, value) { "yes" } else { "no" };
    Ok(String::from_str(heap, word)?)
}

// A key carried by a tweak.
pub fn answer_carry_key(
    heap: Global,
    name: LockName,
    key: &[u8; 32],
    tweak: &[u8; 32],
) -> Result<String, Unanswered>
    ensures { Answers (CarrySaid name ((meaning_of name).carried_key key.now tweak.now)) result }
{
    let lock = NamedLock::try_from(name)?;
    Ok(hex::encode(heap, &lock.carry_key(key, tweak))?)
}

// A lock value carried by a tweak. It differs from the one above in the call alone; a closure for that call would need a
// longer clause than the two lines that it saves.
pub fn answer_carry_value(
    heap: Global,
    name: LockName,
    value: &[u8; 32],
    tweak: &[u8; 32],
) -> Result<String, Unanswered>
    ensures { Answers (CarrySaid name ((meaning_of name).carried_value value.now tweak.now)) result }
{
    let lock = NamedLock::try_from(name)?;
    Ok(hex::encode(heap, &lock.carry_value(value, tweak))?)
}

// The text for a command; amounts are in satoshi.
fn text(heap: Global, command: &Command) -> Result<String, Unanswered>
    ensures { Answers (Said command.now) result }
{
    match command {
        Command::Sha { message } => Ok(answer_sha(heap, message)?),
        Command::Read { channel, message } => answer_read::<Satoshi>(heap, *channel, message),
        Command::Opens { lock, key, value } => answer_opens(heap, *lock, key, value),
        Command::CarryKey { lock, key, tweak } => answer_carry_key(heap, *lock, key, tweak),
        Command::CarryValue { lock, value, tweak } => answer_carry_value(heap, *lock, value, tweak),
    }
}

// The answer to a command. An answer has a page and counts in the statement, so want of memory comes beside it.
pub fn answer(heap: Global, command: &Command) -> Result<Answer, AllocError>
    ensures { IfOk result (λ a. Said command.now a) }
{
    match text(heap, command) {
        Ok(text) => Ok(Ok(text)),
        Err(Unanswered::Declined(decline)) => Ok(Err(decline)),
        Err(Unanswered::NoMemory) => Err(AllocError),
    }
}
