ghost use Rattle.std.specs.Prelude.{◌≡◌};
ghost use Rattle.table.specs.Contents.{size};
ghost use Rattle.table.specs.Held.{contents};
ghost use Rattle.table.specs.Answers.{Wrote};

use super::{Sizes, Table};
use crate::fault::Narrow;

impl Table {
    // How many bytes the table has.
    fn size(&self) -> usize
        ensures { result ≡ size (contents self.now) }
    {
        7 + self.draft.sizes.points()
    }

    /// Writes the table's bytes to the front of `out`, and says how many.
    pub fn write(&self, out: &mut [u8]) -> Result<usize, Narrow>
        ensures { Wrote self.now out.old out.new result }
    {
        let size = self.size();
        if out.len() < size {
            return Err(Narrow);
        }
        let Sizes { v, n, k } = self.draft.sizes;
        let points = self.draft.sizes.points();
        let grade = u8::from(self.draft.grade);
        out[..5].copy_from_slice(&[3, v, n, k, n]);
        out[5..5 + points].copy_from_slice(&self.draft.points[..points]);
        out[5 + points..size].copy_from_slice(&[1, grade]);
        Ok(size)
    }
}
