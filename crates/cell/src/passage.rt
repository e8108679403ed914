ghost use Rattle.cell.specs.Passages.{no_passage, passage_sum, passage_laws};

use crate::kind::Cell;

/// A passage of a lift gate.
#[derive(Clone, Copy, PartialEq, Eq, Debug)]
pub struct Passage {
    pub gate: u16,
    pub pass: u32,
    /// Seconds since the season's first midnight.
    pub stamp: u32,
    pub fare: u16,
}

// Passages are summed by exclusive or in each field.
impl Cell for Passage {
    ghost zero = { no_passage };

    ghost sum = { passage_sum };

    ghost laws = { passage_laws };

    fn zero_cell() -> Passage {
        Passage {
            gate: 0,
            pass: 0,
            stamp: 0,
            fare: 0,
        }
    }

    fn plus(self, other: Passage) -> Passage {
        Passage {
            gate: self.gate ^ other.gate,
            pass: self.pass ^ other.pass,
            stamp: self.stamp ^ other.stamp,
            fare: self.fare ^ other.fare,
        }
    }

    fn same(&self, other: &Passage) -> bool {
        *self == *other
    }
}
