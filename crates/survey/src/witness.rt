ghost use Rattle.std.specs.Prelude.{◌≡◌, ℕ, ◌≤◌, not, ◌&&◌};
ghost use Rattle.sets.specs.Members.{has};

use crate::rank::rank;
use recovery::{GROUPS, Unreadable};
use sets::SmallSet;
use std::array;
use table::Table;

/// Units are below this.
const LIMIT: usize = 64;

/// What a unit is, as vectors over GF(2).
#[derive(Clone, Copy, Default)]
struct Vectors {
    // The books in which it holds a one. In book j record unit j holds a one, and the others hold zero. Sums are linear, so
    // one that is right in each of these books is right in every book.
    ones: SmallSet,
    // The points in whose groups it is.
    points: SmallSet,
}

/// What a table's blocks say of its units.
#[derive(Clone, Copy)]
pub struct Witness {
    pub units: SmallSet,
    // One for each number that a unit may have, with nothing in those past the units. It is an array because a Vec would
    // make calls fail that cannot.
    vectors: [Vectors; LIMIT],
}

impl Witness {
    /// What the blocks of `table` say.
    pub fn of(table: &Table) -> Witness {
        let n = table.n();
        let units = n.saturating_add(table.v());
        let books = SmallSet::from_fn(|book| book < n);
        let vectors = |unit| Vectors {
            ones: ones_of(table, books, unit),
            points: points_of(table, unit),
        };
        Witness {
            units: SmallSet::from_fn(|unit| unit < units),
            vectors: array::from_fn(|unit| (unit < units)
                .then(|| vectors(unit))
                .unwrap_or_default()),
        }
    }

    // The units that are not missing.
    fn good(&self, missing: SmallSet) -> SmallSet
        ensures { (i : ℕ) → has result i ≡ (has self.now.units i && not (has missing i)) }
    {
        self.units.difference(missing)
    }

    // The sum of the vectors that `of` takes of the members.
    fn sum<F: Fn(&Vectors) -> SmallSet>(&self, members: SmallSet, of: F) -> SmallSet
        requires { F.IsAlwaysCallable of }
    {
        let mut sum = SmallSet::empty();
        for member in members.iter() {
            if let Some(vectors) = self.vectors.get(member) {
                sum = sum.symmetric_difference(of(vectors));
            }
        }
        sum
    }

    // The books in which the members' cells sum to a one.
    fn ones(&self, members: SmallSet) -> SmallSet {
        self.sum(members, |vectors| vectors.ones)
    }

    /// Whether `solution` is right for `number`, where the units of `missing` are missing.
    pub fn confirms(
        &self,
        missing: SmallSet,
        number: usize,
        solution: Result<SmallSet, Unreadable>,
    ) -> bool {
        match solution {
            Ok(recipe) => self.units.contains(number)
                && recipe.is_subset(self.good(missing))
                && self.ones(recipe) == self.ones(SmallSet::of(number)),
            Err(Unreadable::Lost(lost)) => lost.contains(number)
                && lost.is_subset(self.units.intersection(missing))
                && self.sum(lost, |vectors| vectors.points).is_empty(),
            Err(Unreadable::NoUnit) => !self.units.contains(number),
        }
    }

    // How many good units are independent of each other.
    fn rank_of(&self, good: SmallSet) -> usize
        ensures { result ≤ 64 }
    {
        let mut ones = [SmallSet::empty(); LIMIT];
        for (place, unit) in ones.iter_mut().zip(good.iter()) {
            if let Some(vectors) = self.vectors.get(unit) {
                *place = vectors.ones;
            }
        }
        rank(&mut ones)
    }

    /// Whether the relations are right where the units of `missing` are missing, and as many as can be are independent.
    pub fn confirms_relations(&self, missing: SmallSet, mut relations: [SmallSet; GROUPS]) -> bool {
        let good = self.good(missing);
        let right = relations.iter().all(|relation| relation.is_subset(good)
            && self.ones(*relation).is_empty());
        right && rank(&mut relations) + self.rank_of(good) == good.len()
    }
}

// Of `books` those in which `unit` holds a one: those of the record units that are summed into it.
fn ones_of(table: &Table, books: SmallSet, unit: usize) -> SmallSet {
    let n = table.n();
    if unit < n {
        return SmallSet::of(unit);
    }
    let point = unit - n;
    books.filter(|book| table.block_has(book, point))
}

// The points in whose groups `unit` is: the block of a record unit, the own point of a check unit.
fn points_of(table: &Table, unit: usize) -> SmallSet {
    table
        .block(unit)
        .unwrap_or_else(|| SmallSet::of(unit.saturating_sub(table.n())))
}
