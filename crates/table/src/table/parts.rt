ghost use Rattle.std.specs.Prelude.{◌≡◌, ◌&&◌, nat_lt};
ghost use Rattle.table.specs.Contents.{has_point, load, BehindEach};
ghost use Rattle.table.specs.Held.{contents};
ghost use Rattle.table.specs.Answers.{BlockOf};
ghost use Rattle.table.specs.Numbers.{grade_number};

use super::Table;
use crate::grade::Grade;
use sets::SmallSet;

impl Table {
    /// How many check units there are.
    pub fn v(&self) -> usize
        ensures { result ≡ (contents self.now).v }
    {
        self.draft.sizes.v as usize
    }

    /// How many record units there are.
    pub fn n(&self) -> usize
        ensures { result ≡ (contents self.now).n }
    {
        self.draft.sizes.n as usize
    }

    /// How many points a block has.
    pub fn k(&self) -> usize
        ensures { result ≡ (contents self.now).k }
    {
        self.draft.sizes.k as usize
    }

    /// What the table promises of its blocks.
    pub fn grade(&self) -> Grade
        ensures { grade_number result ≡ (contents self.now).grade }
    {
        self.draft.grade
    }

    /// The points of record unit `d`'s block, if there is such a unit.
    pub fn block(&self, d: usize) -> Option<SmallSet>
        ensures { BlockOf (contents self.now) d result }
    {
        (d < self.n()).then(|| self.draft.block(d))
    }

    /// Whether there is a record unit `d` and its block has `point`.
    pub fn block_has(&self, d: usize, point: usize) -> bool
        ensures { result ≡ (nat_lt d (contents self.now).n && has_point (contents self.now) d point) }
    {
        self.block(d).is_some_and(|block| block.contains(point))
    }

    /// In grade 2, how many record units stand behind each check unit; in grade 1, 0.
    pub fn load(&self) -> usize
        ensures value { result ≡ load (contents self.now) }
        ensures counts { (contents self.now).grade ≡ 2 → BehindEach (contents self.now) result }
    {
        match self.grade() {
            Grade::Packing => 0,
            Grade::Steiner => (self.v() - 1) / (self.k() - 1),
        }
    }
}
