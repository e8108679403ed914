use crate::choice::Choice;
use crate::tally::Tally;
use crate::witness::Witness;
use cell::Cell;
use recovery::{Layout, Unreadable};
use sets::SmallSet;
use std::num::Saturating;
use table::Table;

/// A layout that is asked, and a witness to its answers.
#[derive(Clone, Copy)]
pub struct Trial {
    layout: Layout,
    witness: Witness,
}

impl Trial {
    /// The trial of a table's layout.
    pub fn new(table: Table) -> Trial {
        Trial {
            layout: Layout::new(table),
            witness: Witness::of(&table),
        }
    }

    /// How many units there are.
    pub fn units(&self) -> usize {
        self.witness.units.len()
    }

    // Asks for one number, which may be no unit.
    fn ask(&self, missing: SmallSet, number: usize) -> Tally {
        let solution = self.layout.solve::<u8>(missing, number);
        let answer = Tally::of_answer(self.witness.confirms(missing, number, solution));
        if !missing.contains(number) {
            return answer;
        }
        match solution {
            Ok(_) => Tally {
                recipes: Saturating(1),
                ..answer
            },
            Err(Unreadable::Lost(_)) => Tally {
                losses: Saturating(1),
                unreadable: Saturating(u32::from(number < self.layout.table().n())),
                ..answer
            },
            Err(Unreadable::NoUnit) => answer,
        }
    }

    // Asks for the relations between the good units.
    fn ask_relations(&self, missing: SmallSet) -> Tally {
        let relations = self.layout.relations::<u8>(missing);
        let right = self.witness.confirms_relations(missing, relations);
        Tally {
            related: Saturating(u32::from(right)),
            ..Tally::of_answer(right)
        }
    }

    // Asks which record units are lost, of which there must be so many.
    fn ask_lost(&self, missing: SmallSet, unreadable: u32) -> Tally {
        Tally::of_answer(self.layout.lost::<u8>(missing).len() == unreadable as usize)
    }

    // Asks for the relations, for every unit, for three numbers that are no units, and for the lost record units.
    fn ask_set(&self, missing: SmallSet) -> Tally {
        let mut tally: Tally = (0..=self.units())
            .chain([64, usize::MAX])
            .map(|number| self.ask(missing, number))
            .sum();
        let unreadable = tally.unreadable.0;
        tally += self.ask_relations(missing);
        tally += self.ask_lost(missing, unreadable);
        Tally {
            sets: Saturating(1),
            harmful: Saturating(u32::from(unreadable > 0)),
            ..tally
        }
    }

    /// Asks with each of these sets missing in turn.
    pub fn ask_all(&self, missing_sets: &[Choice]) -> Tally {
        missing_sets
            .iter()
            .map(|missing| self.ask_set(missing.chosen))
            .sum()
    }
}
