ghost use Rattle.std.specs.Prelude.{Decides};
ghost use Rattle.planner.specs.Numerals.{AllDigits, ByteOf};

use std::fmt;

/// Why a word is no byte.
#[derive(Clone, Copy)]
pub enum WordFault {
    /// It has something else than decimal digits, as a sign.
    NoNumber,
    /// It is a number above 255.
    TooLarge,
}

impl fmt::Display for WordFault {
    fn fmt<W: fmt::Write>(&self, f: &mut fmt::Formatter<W>) -> fmt::Result {
        match self {
            WordFault::NoNumber => f.write_str("it has something else than decimal digits"),
            WordFault::TooLarge => f.write_str("it is above 255"),
        }
    }
}

fn all_digits(text: &[u8]) -> bool
    ensures { Decides result (AllDigits text.now) }
{
    text.iter().all(u8::is_ascii_digit)
}

/// The byte that a word is in decimal digits. Zeros in front count for nothing: `007` is 7.
pub fn byte_of(word: &str) -> Result<u8, WordFault>
    ensures { ByteOf word.now result }
{
    if word.is_empty() || !all_digits(word.as_bytes()) {
        return Err(WordFault::NoNumber);
    }
    word.parse().map_err(|_| WordFault::TooLarge)
}
