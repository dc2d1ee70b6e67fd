// Decimal numbers of 64 bits.
ghost use Rattle.notation.specs.Numbers.{ReadsNumber, NumbersReadBack};

// The number that a word writes.
pub fn number(word: &[u8]) -> Option<u64>
    ensures { ReadsNumber word.now result }
{
    // `parse` would take a sign.
    match word {
        [b'+', ..] => None,
        _ => str::from_utf8(word).ok()?.parse().ok(),
    }
}

// Carries the law that numbers read back what they write.
pub fn numbers_read_back() -> u8
    ensures { NumbersReadBack }
{
    0
}
