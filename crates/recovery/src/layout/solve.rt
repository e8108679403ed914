ghost use Rattle.std.specs.Prelude.{◌≡◌, ◌<◌, true, false};
ghost use Rattle.recovery.specs.Answers.{but, Solved, HasLoss, HasRecipe, LostRecords};
ghost use Rattle.recovery.specs.Figure.{Figure};
ghost use Rattle.recovery.specs.Groups.{units};
ghost use Rattle.recovery.specs.Layouts.{laid_out};
ghost use Rattle.recovery.specs.Recipes.{Relations};

use super::{GROUPS, Layout};
use crate::rows::{balance, eliminate, row_with};
use crate::unreadable::Unreadable;
use cell::Cell;
use sets::SmallSet;

impl Layout {
    /// A recipe for `unit` where the units of `missing` are missing: good units the sum of whose cells is its cell, in
    /// every book and for any kind of cells. A good unit is a recipe for itself. If there is none, why not.
    pub fn solve<C: Cell>(&self, missing: SmallSet, unit: usize) -> Result<SmallSet, Unreadable>
        ensures { Solved C.Cell.zero C.Cell.sum (laid_out self.now) (but missing) unit result }
    {
        if !self.units.contains(unit) {
            return Err(Unreadable::NoUnit);
        }
        if !missing.contains(unit) {
            return Ok(SmallSet::of(unit));
        }
        let others = missing.without(unit);
        let mut groups = self.groups;
        let rows = &mut groups[..self.table.v()];
        let rank = eliminate::<C>(rows, others);
        match row_with(rows, rank, unit) {
            Some(place) => Ok(rows[place].without(unit)),
            None => Err(Unreadable::Lost(balance(&rows[..rank], others, unit))),
        }
    }

    /// The record units that cannot be read back where the units of `missing` are missing. There are none while no
    /// more units are missing than a block has points: its contract asks for that figure.
    pub fn lost<C: Cell>(&self, missing: SmallSet) -> SmallSet
        ensures figure { Figure (laid_out self.now) }
        ensures records { LostRecords C.Cell.zero C.Cell.sum (laid_out self.now) (but missing) result }
    {
        missing.filter(|unit| unit < self.table.n() && self.loses::<C>(missing, unit))
    }

    // Whether `unit` is lost.
    fn loses<C: Cell>(&self, missing: SmallSet, unit: usize) -> bool
        ensures lost { result ≡ true → HasLoss (laid_out self.now) (but missing) unit }
        ensures read { result ≡ false → unit < units (laid_out self.now) → HasRecipe C.Cell.zero C.Cell.sum (laid_out self.now) (but missing) unit }
    {
        matches!(self.solve::<C>(missing, unit), Err(Unreadable::Lost(_)))
    }

    /// Sets of good units whose cells sum to zero in every book, where the units of `missing` are missing: enough of
    /// them that the cells of good units are those of a book exactly if each sums to zero. Places left over have the
    /// empty set.
    pub fn relations<C: Cell>(&self, missing: SmallSet) -> [SmallSet; GROUPS]
        ensures { Relations C.Cell.zero C.Cell.sum (laid_out self.now) (but missing) result }
    {
        let mut groups = self.groups;
        let rank = eliminate::<C>(&mut groups[..self.table.v()], missing);
        groups[..rank].fill(SmallSet::empty());
        groups
    }
}
