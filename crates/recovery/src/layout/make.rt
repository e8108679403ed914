ghost use Rattle.std.specs.Prelude.{◌≡◌, ℕ, ◌+◌, ◌&&◌, ◌||◌, ◌==◌, length};
ghost use Rattle.sets.specs.Members.{has};
ghost use Rattle.table.specs.Held.{contents};
ghost use Rattle.recovery.specs.Groups.{Grouped, in_group};
ghost use Rattle.recovery.specs.Layouts.{table_of};

use super::{GROUPS, Layout};
use sets::SmallSet;
use std::array;
use table::Table;

impl Layout {
    /// The layout of a table.
    pub fn new(table: Table) -> Layout
        ensures { table_of result ≡ table }
    {
        let units = table.n() + table.v();
        Layout {
            units: SmallSet::from_fn(|unit| unit < units),
            groups: groups(&table),
            table,
        }
    }
}

// The group of each point.
fn groups(table: &Table) -> [SmallSet; GROUPS]
    ensures wide { length result ≡ 40 }
    ensures grouped { Grouped (contents table.now) result }
{
    let n = table.n();
    let records = SmallSet::from_fn(|unit| unit < n);
    array::from_fn(|point| group(table, records, point))
}

// The group of one point, without the record units that are not in `records`; the empty set past the points.
fn group(table: &Table, records: SmallSet, point: usize) -> SmallSet
    ensures { (u : ℕ) → has result u ≡ (in_group (contents table.now) point u && (has records u || u == (contents table.now).n + point)) }
{
    if point >= table.v() {
        return SmallSet::empty();
    }
    let behind = records.filter(|unit| table.block_has(unit, point));
    behind.with(table.n() + point)
}
