//! What one missing unit more than the figure does to a table, so that two tables can be compared.
#![tactic(auto)]

ghost use Rattle.std.specs.Prelude.{◌≡◌, ◌≤◌, Decides};
ghost use Rattle.recovery.specs.Layouts.{laid_out};
ghost use Rattle.risk.specs.Choose.{choose};
ghost use Rattle.risk.specs.Deadly.{Deadly};
ghost use Rattle.risk.specs.Extends.{ClearBelow, Found};
ghost use Rattle.risk.specs.RiskOf.{RiskOf, limit};

use recovery::Layout;
use sets::SmallSet;

#[cfg(test)]
mod tests;

/// The most sets of missing units that are tried.
const LIMIT: u64 = 10_000_000;

/// Of all sets of k + 1 units, how many lose a record if they are missing. The fewer, the better the table.
#[derive(Clone, Copy)]
pub struct Risk {
    /// How many units are missing: k + 1.
    pub size: usize,
    /// How many sets of so many units there are.
    pub sets: u64,
    /// How many of them lose a record, unless there are too many sets to try.
    pub deadly: Option<u64>,
}

impl Risk {
    /// The risk of a table, by its layout.
    pub fn of(layout: &Layout) -> Risk
        ensures { RiskOf (laid_out layout.now) result }
    {
        let table = layout.table();
        let units = table.n() + table.v();
        let size = table.k() + 1;
        let sets = choose(units, size);
        let deadly = (sets <= LIMIT).then(|| deadly(layout, SmallSet::empty(), units, size));
        Risk { size, sets, deadly }
    }
}

// How many sets of `size` there are among `units`. A loop with an invariant, from which it follows that no product is too
// large.
fn choose(units: usize, size: usize) -> u64
    requires { (units ≤ 64) × ((size ≤ 9) × (size ≤ units)) }
    ensures { result ≡ choose units size }
{
    let mut sets: u64 = 1;
    for chosen in 0..size {
        sets = sets * (units - chosen) as u64 / (chosen as u64 + 1);
    }
    sets
}

// Of the sets that are `missing` with `more` of the units below `below`, how many lose a record. Those whose highest
// unit below `below` is the same are counted together. A loop with an invariant, from which it follows that the sum is not
// too large.
fn deadly(layout: &Layout, missing: SmallSet, below: usize, more: usize) -> u64
    requires room { below ≤ 64 }
    requires clear { ClearBelow below missing }
    requires few { choose below more ≤ limit }
    ensures found { Found (laid_out layout.now) missing below more result }
    ensures few { result ≤ choose below more }
{
    if more == 0 {
        return u64::from(loses(layout, missing));
    }
    let mut sum: u64 = 0;
    for highest in 0..below {
        sum += deadly(layout, missing.with(highest), highest, more - 1);
    }
    sum
}

// Whether some record is lost if the units of `missing` are missing.
fn loses(layout: &Layout, missing: SmallSet) -> bool
    ensures { Decides result (Deadly (laid_out layout.now) missing) }
{
    !layout.lost::<u8>(missing).is_empty()
}
