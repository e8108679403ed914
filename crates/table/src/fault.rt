ghost use Rattle.std.specs.Prelude.{◌≡◌, Some};
ghost use Rattle.table.specs.Numbers.{number_of, place_of, fault_text, narrow_number, narrow_text};

use std::fmt;

/// Why bytes are no table. Each case has its place.
#[derive(Clone, Copy, PartialEq, Eq, Debug)]
pub enum TableFault {
    /// The bytes end early, after `length` of them.
    Short { length: usize },
    /// The count, size or grade at byte `at` is outside its values.
    Size { at: usize },
    /// The point at byte `at` is not below v, or not above the one before it in its block.
    Point { at: usize },
    /// A byte follows the grade, at `at`.
    Tail { at: usize },
    /// `block` is the lowest that shares two points with an earlier one.
    Pair { block: usize },
    /// `point` is the lowest that lies in no block together with some higher point.
    Cover { point: usize },
}

impl TableFault {
    /// The number of the refusal.
    pub fn number(self) -> u8
        ensures { result ≡ number_of self }
    {
        match self {
            TableFault::Short { .. } => 1,
            TableFault::Size { .. } => 2,
            TableFault::Point { .. } => 3,
            TableFault::Tail { .. } => 4,
            TableFault::Pair { .. } => 5,
            TableFault::Cover { .. } => 6,
        }
    }

    /// Where it is: a byte's place, the length, a block's number or a point.
    pub fn place(self) -> usize
        ensures { result ≡ place_of self }
    {
        match self {
            TableFault::Short { length } => length,
            TableFault::Size { at } | TableFault::Point { at } | TableFault::Tail { at } => at,
            TableFault::Pair { block } => block,
            TableFault::Cover { point } => point,
        }
    }
}

// As in `SHORT, number 1, place 12`.
impl fmt::Display for TableFault {
    ghost output = { λ f. Some (fault_text f) };

    fn fmt<W: fmt::Write>(&self, f: &mut fmt::Formatter<W>) -> fmt::Result {
        let name = match self {
            TableFault::Short { .. } => "SHORT",
            TableFault::Size { .. } => "SIZE",
            TableFault::Point { .. } => "POINT",
            TableFault::Tail { .. } => "TAIL",
            TableFault::Pair { .. } => "PAIR",
            TableFault::Cover { .. } => "COVER",
        };
        let number = self.number();
        let place = self.place();
        write!(f, "{name}, number {number}, place {place}")
    }
}

/// The output is too short for the table.
#[derive(Clone, Copy, PartialEq, Eq, Debug)]
pub struct Narrow;

impl Narrow {
    /// The number of the refusal.
    pub fn number(self) -> u8
        ensures { result ≡ narrow_number }
    {
        21
    }
}

// The name, then the number.
impl fmt::Display for Narrow {
    ghost output = { λ _. Some narrow_text };

    fn fmt<W: fmt::Write>(&self, f: &mut fmt::Formatter<W>) -> fmt::Result {
        let number = self.number();
        write!(f, "NARROW, number {number}")
    }
}
