// Lines, and the words in them. A text is bytes here: what is no UTF-8 is the fault of one line, not of the whole book.
ghost use Rattle.std.specs.Prelude.{◌≡◌, ◌<◌, length};
ghost use Rattle.std.specs.Iterator.{at_most};
ghost use Rattle.notation.specs.Lines.{all_pass, is_blank, is_printable, first_line, later_lines, NextLine, without_return, Splits, passed_over, printable};

use memchr::memchr;

// Words are separated by spaces and tabs.
fn is_blank(byte: u8) -> bool
    ensures { result ≡ is_blank byte }
{
    matches!(byte, b' ' | b'\t')
}

// What a line may hold: printable characters and tabs.
fn is_character(byte: u8) -> bool
    ensures { result ≡ is_printable byte }
{
    matches!(byte, b' '..=b'~' | b'\t')
}

// The first line of a text, and what stands behind it.
pub fn split_line(text: &[u8]) -> (&[u8], &[u8])
    ensures line { result.0.now ≡ first_line text.now }
    ensures rest { result.1.now ≡ later_lines text.now }
    ensures shorter { 0 < length text.now → length result.1.now < length text.now }
{
    match memchr(b'\n', text) {
        Some(end) => (&text[..end], &text[end + 1..]),
        None => (text, &[]),
    }
}

// The lines of a text, one by one.
#[derive(Clone, Debug, Drop)]
pub struct Lines<'a> {
    rest: &'a [u8],
}

impl<'a> Lines<'a> {
    pub fn new(text: &'a [u8]) -> Lines<'a>
        ensures { result.rest.now ≡ text.now }
    {
        Lines { rest: text }
    }
}

impl<'a> Iterator for Lines<'a> {
    type Item = &'a [u8];

    ghost next_gives = { λ before line after. NextLine before.rest.now line after.rest.now };

    ghost remaining = { λ lines. at_most (length lines.rest.now) };

    fn next(&mut self) -> Option<&'a [u8]> {
        if self.rest.is_empty() {
            return None;
        }
        let (line, rest) = split_line(self.rest);
        self.rest = rest;
        Some(line)
    }
}

// A line without the carriage return at its end.
pub fn without_return(line: &[u8]) -> &[u8]
    ensures { result.now ≡ without_return line.now }
{
    line.strip_suffix(b"\r").unwrap_or(line)
}

// The first word of a line and the rest of it.
pub fn split_word(line: &[u8]) -> Option<(&[u8], &[u8])>
    ensures { Splits line.now result }
{
    let start = line.iter().position(|byte| !is_blank(*byte))?;
    let words = &line[start..];
    let end = words
        .iter()
        .position(|byte| is_blank(*byte))
        .unwrap_or(words.len());
    Some(words.split_at(end))
}

// Whether a line has blanks alone.
fn is_empty(line: &[u8]) -> bool
    ensures { result ≡ all_pass is_blank line.now }
{
    line.iter().all(|byte| is_blank(*byte))
}

// Whether a line is empty or a comment.
#[tactic(auto, using(crate::proofs::Fronts::first_is))]
pub fn is_passed_over(line: &[u8]) -> bool
    ensures { result ≡ passed_over line.now }
{
    line.starts_with(b"#") || is_empty(line)
}

// Whether a line has printable characters and tabs alone.
pub fn is_printable(line: &[u8]) -> bool
    ensures { result ≡ printable line.now }
{
    line.iter().all(|byte| is_character(*byte))
}
