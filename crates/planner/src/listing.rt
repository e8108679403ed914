ghost use Rattle.std.specs.Prelude.{IfOk};
ghost use Rattle.planner.specs.Listed.{Lists};

use crate::word::{WordFault, byte_of};
use std::alloc::{AllocError, Global};
use std::fmt;

/// A word that is no byte.
#[derive(Drop)]
pub struct BadWord {
    // Its place in the line, from 1 on.
    number: usize,
    word: String,
    fault: WordFault,
}

impl fmt::Display for BadWord {
    fn fmt<W: fmt::Write>(&self, f: &mut fmt::Formatter<W>) -> fmt::Result {
        let BadWord {
            number,
            word,
            fault,
        } = self;
        write!(
            f,
            "word {number}, {word:?}, is not a number from 0 to 255: {fault}"
        )
    }
}

/// The words of `line` as bytes, or the first that is none. White space stands between words and may stand around
/// them, so a carriage return at the end does no harm; a line with no word lists no bytes.
pub fn bytes_of(heap: Global, line: &str) -> Result<Result<Vec<u8>, BadWord>, AllocError>
    ensures { IfOk result (Lists line.now) }
{
    let mut bytes = Vec::new(heap);
    for word in line.split_whitespace() {
        match byte_of(word) {
            Ok(byte) => bytes.push(byte)?,
            Err(fault) => {
                let number = bytes.len() + 1;
                let word = String::from_str(heap, word)?;
                return Ok(Err(BadWord {
                    number,
                    word,
                    fault,
                }));
            }
        }
    }
    Ok(Ok(bytes))
}
