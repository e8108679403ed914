ghost use Rattle.std.specs.Prelude.{◌≡◌, ◌==◌};
ghost use Rattle.std.specs.List.{list_all};
ghost use Rattle.compare.specs.declared.writing.TheConstants.{MARK};

use std::alloc::{AllocError, Global};
use table::{MAX_BYTES, Narrow, Table};

// What an output holds before it is written to: no byte of a table.
const MARK: u8 = 0xee;

// The number that is expected of the refusal NARROW.
const NARROW: u8 = 21;

fn marked(bytes: &[u8]) -> bool
    ensures { result ≡ list_all (λ byte. byte == MARK) bytes.now }
{
    bytes.iter().all(|byte| *byte == MARK)
}

/// A table, and the bytes that it must be written as.
#[derive(Clone, Copy)]
pub struct Writing<'a> {
    pub heap: Global,
    pub table: &'a Table,
    pub bytes: &'a [u8],
}

impl Writing<'_> {
    // An output of `room` bytes once the table is written to it, and what the write answers.
    fn written(self, room: usize) -> Result<(Vec<u8>, Result<usize, Narrow>), AllocError> {
        let mut out = vec![in self.heap; MARK; room]?;
        let answer = self.table.write(out.as_mut_slice());
        Ok((out, answer))
    }

    // Whether the table is written as the bytes to the front of an output of `room` bytes, and the others stay.
    fn fills(self, room: usize) -> Result<bool, AllocError> {
        let (out, answer) = self.written(room)?;
        Ok(answer == Ok(self.bytes.len()) && out.strip_prefix(self.bytes).is_some_and(marked))
    }

    // Whether an output of `room` bytes is refused, and stays.
    fn refuses(self, room: usize) -> Result<bool, AllocError> {
        let (out, answer) = self.written(room)?;
        Ok(answer.is_err_and(|narrow| narrow.number() == NARROW) && marked(out.as_slice()))
    }

    /// Whether the table is written as the bytes where there is room for just them.
    pub(crate) fn all(self) -> Result<bool, AllocError> {
        self.fills(self.bytes.len())
    }

    /// Whether the table is written as the bytes where there is more room, and what follows stays.
    pub(crate) fn front(self) -> Result<bool, AllocError> {
        Ok(self.fills(self.bytes.len().saturating_add(1))? && self.fills(MAX_BYTES)?)
    }

    /// Whether an output is refused that is too short for the bytes, by all of them or by one, and stays.
    pub(crate) fn short(self) -> Result<bool, AllocError> {
        Ok(self.refuses(0)? && self.refuses(self.bytes.len().saturating_sub(1))?)
    }
}
