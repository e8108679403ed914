ghost use Rattle.sets.specs.Members.{has};
ghost use Rattle.sets.specs.Steps.{Step, to_come};
ghost use Rattle.sets.specs.Sums.{count};
ghost use Rattle.std.specs.Iterator.{at_most};

use crate::set::SmallSet;

/// The members of a set in ascending order.
#[derive(Clone, Copy)]
pub struct Members {
    // Those that are still to come.
    pub(crate) rest: SmallSet,
}

impl Iterator for Members {
    type Item = usize;

    ghost next_gives = { λ s r t. Step (to_come s) r (to_come t) };

    ghost remaining = { λ s. at_most (count 64 (has (to_come s))) };

    fn next(&mut self) -> Option<usize> {
        let least = self.rest.least()?;
        self.rest = self.rest.without(least);
        Some(least)
    }
}
