// The pages of a book, and the statement at its end.
ghost use Rattle.std.specs.Prelude.{◌≡◌, ◌+◌, Some};
ghost use Rattle.commands.specs.Parsing.{name_of};
ghost use Rattle.desk.specs.Answers.{page_text};
ghost use Rattle.desk.specs.Statements.{capped, Entered, statement_text};

use crate::answer::Answer;
use commands::command::Command;
use std::fmt;

// The name of a command.
pub fn name(command: &Command) -> &'static str
    ensures { result.now ≡ name_of command.now }
{
    match command {
        Command::Sha { .. } => "sha",
        Command::Read { .. } => "read",
        Command::Opens { .. } => "opens",
        Command::CarryKey { .. } | Command::CarryValue { .. } => "carry",
    }
}

// A page: its number, the command's name and the answer.
#[derive(Clone, Copy, Debug, PartialEq, Eq)]
pub struct Page<'a> {
    pub number: u64,
    pub name: &'a str,
    pub answer: &'a Answer,
}

impl fmt::Display for Page<'_> {
    ghost output = { λ page. Some (page_text page.number page.name.now page.answer.now) };

    fn fmt<W: fmt::Write>(&self, f: &mut fmt::Formatter<W>) -> fmt::Result {
        let Page {
            number,
            name,
            answer,
        } = self;
        match answer {
            Ok(text) => write!(f, "{number} {name}: {text}"),
            Err(decline) => write!(f, "{number} {name}: {decline}"),
        }
    }
}

// How many pages were taken and declined.
#[derive(Clone, Copy, Debug, PartialEq, Eq)]
pub struct Statement {
    taken: u64,
    declined: u64,
}

impl Statement {
    pub fn new() -> Statement
        ensures { (result.taken ≡ 0) × (result.declined ≡ 0) }
    {
        Statement {
            taken: 0,
            declined: 0,
        }
    }

    // Enters the answer of a page.
    pub fn enter(&mut self, answer: &Answer)
        ensures { Entered self.old answer.now self.new }
    {
        match answer {
            Ok(_) => self.taken = self.taken.saturating_add(1),
            Err(_) => self.declined = self.declined.saturating_add(1),
        }
    }

    // How many pages there are.
    pub fn pages(&self) -> u64
        ensures { result ≡ capped (self.now.taken + self.now.declined) }
    {
        self.taken.saturating_add(self.declined)
    }
}

// The line that ends the pages.
impl fmt::Display for Statement {
    ghost output = { λ statement. Some (statement_text statement) };

    fn fmt<W: fmt::Write>(&self, f: &mut fmt::Formatter<W>) -> fmt::Result {
        let pages = self.pages();
        let taken = self.taken;
        let declined = self.declined;
        write!(
            f,
            "book: {pages} pages, {taken} taken, {declined} declined, 0 not made"
        )
    }
}
