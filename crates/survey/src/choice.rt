use sets::SmallSet;
use std::alloc::{AllocError, Global};

/// Some units, chosen in ascending order.
#[derive(Clone, Copy, Default)]
pub struct Choice {
    pub chosen: SmallSet,
    // Units from here on may still be chosen.
    next: usize,
}

impl Choice {
    // This choice with one unit more.
    fn with(self, unit: usize) -> Choice {
        Choice {
            chosen: self.chosen.with(unit),
            next: unit.saturating_add(1),
        }
    }
}

/// From all choices of some size among the first `units` numbers, all of the next size.
pub fn larger(heap: Global, choices: &[Choice], units: usize) -> Result<Vec<Choice>, AllocError> {
    // Room for just so many, since a list that grows as they come may ask for nearly twice as much.
    let count = choices.iter().fold(
        0,
        |count: usize, choice| count.saturating_add(units.saturating_sub(choice.next)),
    );
    let mut larger = Vec::with_capacity(heap, count)?;
    larger.extend(
        choices.iter().flat_map(|choice| (choice.next..units).map(|unit| choice.with(unit))),
    )?;
    Ok(larger)
}
