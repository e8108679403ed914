ghost use Rattle.std.specs.Prelude.{◌≡◌};
ghost use Rattle.recovery.specs.Answers.{GroupOf};
ghost use Rattle.recovery.specs.Groups.{AllUnits};
ghost use Rattle.recovery.specs.Layouts.{table_of, laid_out};

use super::Layout;
use sets::SmallSet;
use table::Table;

impl Layout {
    /// The table that it was made from.
    pub fn table(&self) -> &Table
        ensures { result.now ≡ table_of self.now }
    {
        &self.table
    }

    /// All units: the record units 0 to n − 1, and the check units n to n + v − 1.
    pub fn units(&self) -> SmallSet
        ensures { AllUnits (laid_out self.now) result }
    {
        self.units
    }

    /// The group of `point`, if there is such a point.
    pub fn group(&self, point: usize) -> Option<SmallSet>
        ensures { GroupOf (laid_out self.now) point result }
    {
        self.groups[..self.table.v()].get(point).copied()
    }
}
