ghost use Rattle.std.specs.Prelude.{◌≡◌, length};
ghost use Rattle.table.specs.Held.{contents};
ghost use Rattle.recovery.specs.Groups.{Grouped, AllUnits};

use sets::SmallSet;
use table::Table;

mod make;
mod parts;
mod solve;

/// The most groups that a layout has: one for each check unit.
pub const GROUPS: usize = 40;

/// The units of a table and its groups, as sets of units. The group of a point is the point's check unit with the
/// record units behind it: those whose blocks have the point.
#[derive(Clone, Copy)]
pub struct Layout {
    table: Table,
    units: SmallSet,
    // The group of each point, and the empty set from there on. An array, since nothing is allocated.
    groups: [SmallSet; GROUPS],
    ghost room: { length groups ≡ 40 },
    ghost all: { AllUnits (contents table) units },
    ghost grouped: { Grouped (contents table) groups },
}
