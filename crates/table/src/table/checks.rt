ghost use Rattle.std.specs.Prelude.{◌≡◌, ◌<◌};
ghost use Rattle.std.specs.Result.{result_err};
ghost use Rattle.table.specs.Ranges.{FirstFailing};
ghost use Rattle.table.specs.Reading.{apart, together, joined, clash};
ghost use Rattle.table.specs.Held.{draft_contents};
ghost use Rattle.table.specs.Answers.{PointsOf};

use super::Draft;
use crate::fault::TableFault;
use crate::grade::Grade;
use sets::SmallSet;

impl Draft {
    // The points of block `d`.
    pub(super) fn block(&self, d: usize) -> SmallSet
        requires { d < self.now.sizes.n }
        ensures { PointsOf (draft_contents self.now) d result }
    {
        let k = self.sizes.k as usize;
        let points = &self.points[d * k..(d + 1) * k];
        // There are no more than 8. `take` says so to the compiler, which then writes the few turns out.
        points.iter().take(8).fold(
            SmallSet::empty(),
            |block, &point| block.with(point as usize),
        )
    }

    // Whether block `d` shares at most one point with each block before it.
    fn apart(&self, d: usize) -> bool
        requires { d < self.now.sizes.n }
        ensures { result ≡ apart (draft_contents self.now) d }
    {
        let block = self.block(d);
        (0..d).all(|e| block.intersection(self.block(e)).len() <= 1)
    }

    // The first block that shares two points with an earlier one.
    fn first_pair(&self) -> Option<usize>
        ensures { FirstFailing (apart (draft_contents self.now)) self.now.sizes.n result }
    {
        (0..self.sizes.n as usize).find(|&d| !self.apart(d))
    }

    // Whether `p` and `q` lie together in a block.
    fn together(&self, p: usize, q: usize) -> bool
        ensures { result ≡ together (draft_contents self.now) p q }
    {
        (0..self.sizes.n as usize).any(|d| {
            let block = self.block(d);
            block.contains(p) && block.contains(q)
        })
    }

    // Whether `p` lies together with each point above it.
    fn joined(&self, p: usize) -> bool
        requires { p < self.now.sizes.v }
        ensures { result ≡ joined (draft_contents self.now) p }
    {
        (p + 1..self.sizes.v as usize).all(|q| self.together(p, q))
    }

    // The lower point of the first two that lie in no block together.
    fn first_loose(&self) -> Option<usize>
        ensures { FirstFailing (joined (draft_contents self.now)) self.now.sizes.v result }
    {
        (0..self.sizes.v as usize).find(|&p| !self.joined(p))
    }

    // Sees that the blocks fit together.
    pub(super) fn sound(&self) -> Result<(), TableFault>
        ensures { result_err result ≡ clash (draft_contents self.now) }
    {
        if let Some(block) = self.first_pair() {
            return Err(TableFault::Pair { block });
        }
        if self.grade == Grade::Steiner
            && let Some(point) = self.first_loose()
        {
            return Err(TableFault::Cover { point });
        }
        Ok(())
    }
}
