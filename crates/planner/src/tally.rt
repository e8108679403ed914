ghost use Rattle.std.specs.Prelude.{◌≡◌};
ghost use Rattle.planner.specs.Tallied.{none, more, counted};

use crate::rejection::Rejection;
use crate::summary::Summary;
use std::fmt;

/// How many lines came, and what became of them.
#[derive(Clone, Copy, Default)]
pub struct Tally {
    lines: u64,
    accepted: u64,
    refused: u64,
    no_bytes: u64,
}

impl Tally {
    /// No line yet.
    pub fn new() -> Tally
        ensures { result ≡ none }
    {
        Tally::default()
    }

    /// Counts a line with what became of it.
    pub fn count(&mut self, became: &Result<Summary, Rejection>)
        ensures { self.new ≡ counted became.now self.old }
    {
        raise(&mut self.lines);
        match became {
            Ok(_) => raise(&mut self.accepted),
            Err(Rejection::Refused { .. }) => raise(&mut self.refused),
            Err(Rejection::NoBytes(_)) => raise(&mut self.no_bytes),
        }
    }

    /// How many lines were counted.
    pub fn lines(&self) -> u64
        ensures { result ≡ self.now.lines }
    {
        self.lines
    }
}

// One more, up to the most that 64 bits hold.
fn raise(count: &mut u64)
    ensures { count.new ≡ more count.old }
{
    *count = count.saturating_add(1);
}

impl fmt::Display for Tally {
    fn fmt<W: fmt::Write>(&self, f: &mut fmt::Formatter<W>) -> fmt::Result {
        let Tally {
            lines,
            accepted,
            refused,
            no_bytes,
        } = *self;
        write!(
            f,
            "lines: {lines}, accepted: {accepted}, refused: {refused}, no list of bytes: {no_bytes}"
        )
    }
}
