ghost use Rattle.std.specs.Prelude.{◌≡◌, ◌&&◌};

use crate::plain::{Kind, Plain, Sizes, Stop};
use crate::writing::Writing;
use std::alloc::{AllocError, Global};
use table::{Grade, Table};

/// What was seen of a table that the plain reader accepts.
#[derive(Clone, Copy, Default)]
pub struct Checks {
    /// v, n, k, grade, load and blocks are the same.
    pub parts: bool,
    /// It is written as the bytes that it was read from.
    pub back: bool,
    /// What follows it in a longer output stays.
    pub past: bool,
    /// A shorter output is refused, and stays.
    pub narrow: bool,
}

/// How the plain reader refuses bytes.
#[derive(Clone, Copy)]
pub struct Refused {
    pub kind: Kind,
    /// The table's own reader gives the same number and place.
    pub same: bool,
}

/// What bytes are by the plain reader, and how the table's own reader and writer compare.
#[derive(Clone, Copy)]
pub struct Verdict {
    /// What was seen of the table, or how the bytes are refused.
    pub plain: Result<Checks, Refused>,
}

impl Verdict {
    /// Reads `bytes` in both ways.
    pub fn of(heap: Global, bytes: &[u8]) -> Result<Verdict, AllocError> {
        let read = Table::read(bytes);
        let plain = match Plain::read(heap, bytes) {
            Ok(plain) => Ok(
                read.as_ref()
                    .ok()
                    .map(|table| Writing { heap, table, bytes })
                    .map(|writing| Checks::of(writing, &plain))
                    .transpose()?
                    .unwrap_or_default(),
            ),
            Err(Stop::Refused(refusal)) => Err(Refused {
                kind: refusal.kind,
                same: read.is_err_and(|fault| refusal.is(fault)),
            }),
            Err(Stop::Memory(e)) => return Err(e),
        };
        Ok(Verdict { plain })
    }

    /// Whether the two say the same.
    pub fn same(self) -> bool {
        self.plain.map_or_else(|refused| refused.same, Checks::all)
    }
}

impl Checks {
    // What is seen of a table that both readers accept.
    fn of(writing: Writing, plain: &Plain) -> Result<Checks, AllocError> {
        let both = Both {
            table: writing.table,
            plain,
        };
        Ok(Checks {
            parts: both.same_sizes() && both.same_load() && both.same_blocks(),
            back: writing.all()?,
            past: writing.front()?,
            narrow: writing.short()?,
        })
    }

    fn all(self) -> bool
        ensures { result ≡ (self.parts && self.back && self.past && self.narrow) }
    {
        self.parts && self.back && self.past && self.narrow
    }
}

// A table as each of the two readers gives it.
#[derive(Clone, Copy)]
struct Both<'a> {
    table: &'a Table,
    plain: &'a Plain,
}

impl Both<'_> {
    fn same_sizes(self) -> bool {
        let Sizes { v, n, k } = self.plain.sizes;
        self.table.v() == usize::from(v)
            && self.table.n() == usize::from(n)
            && self.table.k() == usize::from(k)
            && self.table.grade() == self.plain.grade
    }

    // In grade 2 as many record units as the load says stand behind each check unit; in grade 1 the load is 0.
    fn same_load(self) -> bool {
        match self.plain.grade {
            Grade::Packing => self.table.load() == 0,
            Grade::Steiner => (0..self.plain.sizes.v).all(|p| self.plain.behind(p)
                == self.table.load()),
        }
    }

    // Every block has the same points, and there is none past the last.
    fn same_blocks(self) -> bool {
        (0..=usize::from(self.plain.sizes.n)).all(|d| self.same_block(d))
    }

    fn same_block(self, d: usize) -> bool {
        (0..=self.plain.sizes.v).all(|p| {
            self.table.block_has(d, usize::from(p)) == self.plain.block_has(d, p)
        })
    }
}
