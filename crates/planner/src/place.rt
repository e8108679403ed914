ghost use Rattle.planner.specs.Fields.{Stands};

use crate::reading::{Reading, Sizes};
use std::fmt;

/// What a byte of a table stands for.
#[derive(Clone, Copy)]
pub enum Field {
    SizesCount,
    CheckUnits,
    RecordUnits,
    BlockSize,
    BlocksCount,
    /// The point at `index` of `block`, both from 0 on.
    Point { block: usize, index: usize },
    GradeCount,
    Grade,
}

impl Field {
    /// What byte `at` stands for in a table of these sizes.
    pub fn at(sizes: Sizes, at: usize) -> Field
        ensures { Stands sizes at result }
    {
        let k = usize::from(sizes.k);
        let points = sizes.points();
        match at {
            0 => Field::SizesCount,
            1 => Field::CheckUnits,
            2 => Field::RecordUnits,
            3 => Field::BlockSize,
            4 => Field::BlocksCount,
            _ if at - 5 < points => Field::Point {
                block: (at - 5) / k,
                index: (at - 5) % k,
            },
            _ if at - 5 == points => Field::GradeCount,
            _ => Field::Grade,
        }
    }
}

impl fmt::Display for Field {
    fn fmt<W: fmt::Write>(&self, f: &mut fmt::Formatter<W>) -> fmt::Result {
        match *self {
            Field::SizesCount => f.write_str("the count of the sizes"),
            Field::CheckUnits => f.write_str("v, the number of check units"),
            Field::RecordUnits => f.write_str("n, the number of record units"),
            Field::BlockSize => f.write_str("k, the number of points in a block"),
            Field::BlocksCount => f.write_str("the count of the blocks"),
            Field::Point { block, index } => write!(
                f,
                "point {index} of block {block}, both counted from 0"
            ),
            Field::GradeCount => f.write_str("the count of the grade"),
            Field::Grade => f.write_str("the grade"),
        }
    }
}

/// A byte's place in a table, with what is known before it.
#[derive(Clone, Copy)]
pub struct Place {
    at: usize,
    field: Field,
    sizes: Sizes,
    // The byte before it, or 0.
    before: u8,
}

impl Place {
    /// Byte `at` of what is read.
    pub fn of(reading: Reading<'_>, at: usize) -> Place {
        let sizes = reading.sizes();
        Place {
            at,
            field: Field::at(sizes, at),
            sizes,
            before: reading.byte(at.saturating_sub(1)),
        }
    }

    // What the byte must be.
    fn wanted<W: fmt::Write>(&self, f: &mut fmt::Formatter<W>) -> fmt::Result {
        let Sizes { v, n, k: _ } = self.sizes;
        let before = self.before;
        match self.field {
            Field::SizesCount => f.write_str("3, for v, n and k follow"),
            Field::CheckUnits => f.write_str("from 2 to 40"),
            Field::RecordUnits => {
                let most = 64u8.saturating_sub(v);
                write!(
                    f,
                    "from 1 to {most}, since v is {v} and n + v is at most 64"
                )
            }
            Field::BlockSize => {
                let most = v.min(8);
                write!(
                    f,
                    "from 2 to {most}, since it is at most 8 and at most v, which is {v}"
                )
            }
            Field::BlocksCount => write!(f, "n again, {n}"),
            Field::Point { block: _, index: 0 } => write!(f, "below v, which is {v}"),
            Field::Point { .. } => write!(
                f,
                "above {before}, the point before it, and below v, which is {v}"
            ),
            Field::GradeCount => f.write_str("1, for one grade follows"),
            Field::Grade => f.write_str("1 or 2"),
        }
    }
}

impl fmt::Display for Place {
    fn fmt<W: fmt::Write>(&self, f: &mut fmt::Formatter<W>) -> fmt::Result {
        let Place { at, field, .. } = *self;
        write!(f, "byte {at} is {field}, which must be ")?;
        self.wanted(f)
    }
}
