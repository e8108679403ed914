use crate::verdict::Checks;
use std::fmt;
use std::num::Saturating;
use std::ops::AddAssign;

/// How many tables were accepted, and of how many each check holds.
#[derive(Clone, Copy, Default)]
pub struct Held {
    pub tables: Saturating<u32>,
    parts: Saturating<u32>,
    back: Saturating<u32>,
    past: Saturating<u32>,
    narrow: Saturating<u32>,
}

/// The count of the one table of which this was seen.
impl From<Checks> for Held {
    fn from(checks: Checks) -> Held {
        Held {
            tables: Saturating(1),
            parts: Saturating(u32::from(checks.parts)),
            back: Saturating(u32::from(checks.back)),
            past: Saturating(u32::from(checks.past)),
            narrow: Saturating(u32::from(checks.narrow)),
        }
    }
}

impl AddAssign for Held {
    fn add_assign(&mut self, other: Held) {
        self.tables += other.tables;
        self.parts += other.parts;
        self.back += other.back;
        self.past += other.past;
        self.narrow += other.narrow;
    }
}

impl fmt::Display for Held {
    fn fmt<W: fmt::Write>(&self, f: &mut fmt::Formatter<W>) -> fmt::Result {
        let Held {
            tables,
            parts,
            back,
            past,
            narrow,
        } = *self;
        writeln!(f, "accepted tables: {tables}")?;
        writeln!(
            f,
            "  with the same v, n, k, grade, load and blocks: {parts}"
        )?;
        writeln!(f, "  written as the bytes that they were read from: {back}")?;
        writeln!(f, "  where the rest of a longer output stays: {past}")?;
        write!(f, "  where a shorter output is refused and stays: {narrow}")
    }
}
