ghost use Rattle.std.specs.Prelude.{◌≡◌, true};
ghost use Rattle.table.specs.Answers.{Accepted};
ghost use Rattle.planner.specs.Judged.{SumsUp};

use std::fmt;
use table::{Grade, MAX_BYTES, Table};

/// What part of a rack's units are check units.
#[derive(Clone, Copy)]
struct Share {
    check: usize,
    all: usize,
}

impl Share {
    // In tenths of a percent, to the nearest.
    fn tenths(self) -> usize {
        let all = self.all.max(1);
        self.check.saturating_mul(1000).saturating_add(all / 2) / all
    }
}

impl fmt::Display for Share {
    fn fmt<W: fmt::Write>(&self, f: &mut fmt::Formatter<W>) -> fmt::Result {
        let Share { check, all } = *self;
        let tenths = self.tenths();
        let whole = tenths / 10;
        let tenth = tenths % 10;
        write!(
            f,
            "{check} of the {all} units are check units: {whole}.{tenth} percent"
        )
    }
}

/// What a planner wants to know of a table.
#[derive(Clone, Copy)]
pub struct Summary {
    v: usize,
    n: usize,
    k: usize,
    grade: Grade,
    load: usize,
    // How many bytes it was read from.
    size: usize,
    // Whether writing it gave them again.
    same: bool,
}

impl Summary {
    /// The summary of a table that was read from `bytes`.
    pub(crate) fn of(table: &Table, bytes: &[u8]) -> Summary
        requires { Accepted bytes.now table.now }
        ensures { SumsUp bytes.now result }
    {
        Summary {
            v: table.v(),
            n: table.n(),
            k: table.k(),
            grade: table.grade(),
            load: table.load(),
            size: bytes.len(),
            same: writes(table, bytes),
        }
    }

    fn share(self) -> Share {
        Share {
            check: self.v,
            all: self.n.saturating_add(self.v),
        }
    }
}

// Whether writing the table gives `bytes`.
fn writes(table: &Table, bytes: &[u8]) -> bool
    requires { Accepted bytes.now table.now }
    ensures { result ≡ true }
{
    // `Table::write` allocates nothing and fills what it is given; so much is always enough.
    let mut out = [0; MAX_BYTES];
    table
        .write(&mut out)
        .is_ok_and(|size| &out[..size] == bytes)
}

// What a grade promises of the blocks.
fn of_blocks(grade: Grade) -> &'static str {
    match grade {
        Grade::Packing => "two blocks share at most one point",
        Grade::Steiner =>
            "two blocks share at most one point, and every two points lie together in a block",
    }
}

// What the load says in a grade.
fn of_load(grade: Grade) -> &'static str {
    match grade {
        Grade::Packing => "grade 1 does not fix how many record units stand behind a check unit",
        Grade::Steiner => "so many record units stand behind each check unit",
    }
}

impl fmt::Display for Summary {
    fn fmt<W: fmt::Write>(&self, f: &mut fmt::Formatter<W>) -> fmt::Result {
        let Summary {
            v,
            n,
            k,
            grade,
            load,
            size,
            same,
        } = *self;
        let number = u8::from(grade);
        let of_blocks = of_blocks(grade);
        let of_load = of_load(grade);
        let share = self.share();
        let back = if same {
            "the same bytes"
        } else {
            "other bytes"
        };
        writeln!(f, "accepted, length {size}")?;
        writeln!(
            f,
            "  check units v {v}, record units n {n}, points in a block k {k}"
        )?;
        writeln!(f, "  grade {number}: {of_blocks}")?;
        writeln!(f, "  load {load}: {of_load}")?;
        writeln!(f, "  {share}")?;
        writeln!(f, "  up to {k} units may be missing, whichever they are")?;
        write!(f, "  written back: {back}")
    }
}
