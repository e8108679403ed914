ghost use Rattle.std.specs.Prelude.{◌≡◌, ◌+◌, ◌*◌, ◌≤◌, false, length, is_some};
ghost use Rattle.table.specs.Parts.{from_parts, High, Ascends, Blank};
ghost use Rattle.table.specs.Reading.{clash};
ghost use Rattle.table.specs.Refusals.{Passed};

use crate::grade::Grade;

mod checks;
mod parts;
mod read;
mod write;

/// The most points that the blocks of a table have: 62 blocks of 8.
const POINTS: usize = 496;

/// The most bytes that a table has: its points, and 7 bytes of counts, sizes and grade.
pub const MAX_BYTES: usize = 503;

/// The sizes that a table begins with.
#[derive(Clone, Copy)]
struct Sizes {
    v: u8,
    n: u8,
    k: u8,
    ghost checks: { (2 ≤ v) × (v ≤ 40) },
    ghost records: { (1 ≤ n) × (n + v ≤ 64) },
    ghost width: { (2 ≤ k) × (k ≤ 8) × (k ≤ v) },
}

impl Sizes {
    // How many points the blocks have together.
    fn points(self) -> usize
        ensures { result ≡ self.n * self.k }
    {
        self.n as usize * self.k as usize
    }
}

/// Takes a table's bytes one after the other. Those before `at` are there and are what they must be.
#[derive(Drop)]
struct Reader<'a> {
    bytes: &'a [u8],
    at: usize,
    ghost passed: { Passed bytes.now at },
}

/// A table whose bytes are right one by one; its blocks may still clash.
#[derive(Clone, Copy)]
struct Draft {
    sizes: Sizes,
    grade: Grade,
    // The points of all blocks, one block after the other, and 0 from there on: equal contents are equal drafts. An array,
    // since nothing is allocated.
    points: [u8; POINTS],
    ghost room: { length points ≡ 496 },
    ghost high: { High sizes.v points },
    ghost ascends: { Ascends (sizes.n * sizes.k) sizes.k points },
    ghost blank: { Blank (sizes.n * sizes.k) points },
}

/// A unit table: v check units and n record units, each record unit with a block of k points. Record unit d is
/// summed into check unit n + p for each point p of its block.
#[derive(Clone, Copy)]
pub struct Table {
    draft: Draft,
    ghost sound: { is_some (clash (from_parts draft.sizes.v draft.sizes.n draft.sizes.k draft.grade draft.points)) ≡ false },
}
