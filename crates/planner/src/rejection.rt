ghost use Rattle.std.specs.Prelude.{◌≡◌};
ghost use Rattle.planner.specs.declared.rejection.Rejection.TheVariants.{NoBytes};

use crate::advice::Advice;
use crate::listing::BadWord;
use std::fmt;
use table::TableFault;

/// Why a line is no table.
#[derive(Drop)]
pub enum Rejection {
    /// It is a list of bytes, but these are no table.
    Refused {
        size: usize,
        fault: TableFault,
        advice: Advice,
    },
    /// It is no list of bytes.
    NoBytes(BadWord),
}

impl From<BadWord> for Rejection {
    ghost from_gives = { λ bad r. r ≡ NoBytes bad };

    fn from(bad: BadWord) -> Rejection {
        Rejection::NoBytes(bad)
    }
}

impl fmt::Display for Rejection {
    fn fmt<W: fmt::Write>(&self, f: &mut fmt::Formatter<W>) -> fmt::Result {
        match self {
            Rejection::Refused {
                size,
                fault,
                advice,
            } => write!(f, "refused, length {size}: {fault}\n  {advice}"),
            Rejection::NoBytes(bad) => write!(f, "no list of bytes\n  {bad}"),
        }
    }
}
