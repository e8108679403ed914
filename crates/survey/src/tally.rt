ghost use Rattle.std.specs.Prelude.{◌≡◌, T};

use std::fmt;
use std::iter::Sum;
use std::num::Saturating;
use std::ops::AddAssign;

/// What was asked, and what came of it.
#[derive(Clone, Copy, Default)]
pub struct Tally {
    /// Missing sets.
    pub sets: Saturating<u32>,
    /// Recipes for missing units.
    pub recipes: Saturating<u32>,
    /// Loss sets of missing units.
    pub losses: Saturating<u32>,
    /// Records that cannot be read: loss sets of record units.
    pub unreadable: Saturating<u32>,
    /// Missing sets with which some record cannot be read.
    pub harmful: Saturating<u32>,
    /// Missing sets whose relations are right and enough.
    pub related: Saturating<u32>,
    /// Answers that were checked.
    pub answers: Saturating<u32>,
    /// Wrong ones among them.
    pub wrong: Saturating<u32>,
}

impl Tally {
    /// One answer, right or wrong.
    pub fn of_answer(right: bool) -> Tally
        ensures { result.wrong.0 ≡ 0 → T right }
    {
        Tally {
            answers: Saturating(1),
            wrong: Saturating(u32::from(!right)),
            ..Tally::default()
        }
    }
}

// No wrong answer is forgotten.
impl AddAssign for Tally {
    ghost add_assign_gives = { λ a b r. r.wrong.0 ≡ 0 → (a.wrong.0 ≡ 0) × (b.wrong.0 ≡ 0) };

    fn add_assign(&mut self, other: Tally) {
        self.sets += other.sets;
        self.recipes += other.recipes;
        self.losses += other.losses;
        self.unreadable += other.unreadable;
        self.harmful += other.harmful;
        self.related += other.related;
        self.answers += other.answers;
        self.wrong += other.wrong;
    }
}

impl Sum<Tally> for Tally {
    fn sum<I: Iterator<Item = Tally>>(iter: I) -> Tally {
        let mut sum = Tally::default();
        for tally in iter {
            sum += tally;
        }
        sum
    }
}

/// A line of output: the missing sets of one size.
#[derive(Clone, Copy)]
pub struct Line {
    pub size: usize,
    pub tally: Tally,
}

impl fmt::Display for Line {
    fn fmt<W: fmt::Write>(&self, f: &mut fmt::Formatter<W>) -> fmt::Result {
        let size = self.size;
        let Tally {
            sets,
            recipes,
            losses,
            unreadable,
            harmful,
            ..
        } = self.tally;
        write!(
            f,
            "{size:>9} {sets:>8} {recipes:>8} {losses:>8} {unreadable:>19} {harmful:>8}"
        )
    }
}
