ghost use Rattle.std.specs.Prelude.{◌≡◌};
ghost use Rattle.table.specs.Numbers.{grade_number, Grades};

/// How much a table promises of its blocks.
#[derive(Clone, Copy, PartialEq, Eq, Debug)]
pub enum Grade {
    /// Grade 1: two blocks share at most one point (a packing of pairs).
    Packing,
    /// Grade 2: every two points also lie together in a block (a Steiner system).
    Steiner,
}

/// A number that is no grade's.
#[derive(Clone, Copy, PartialEq, Eq, Debug)]
pub struct NoGrade;

// The grade as tables have it in their bytes: 1 or 2.
impl From<Grade> for u8 {
    ghost from_gives = { λ grade number. number ≡ grade_number grade };

    fn from(grade: Grade) -> u8 {
        match grade {
            Grade::Packing => 1,
            Grade::Steiner => 2,
        }
    }
}

impl TryFrom<u8> for Grade {
    type Error = NoGrade;

    ghost try_from_gives = { Grades };

    fn try_from(number: u8) -> Result<Grade, NoGrade> {
        match number {
            1 => Ok(Grade::Packing),
            2 => Ok(Grade::Steiner),
            _ => Err(NoGrade),
        }
    }
}
