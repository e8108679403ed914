ghost use Rattle.std.specs.Prelude.{◌≡◌, ◌+◌, ◌*◌, ◌<◌, length, MatchResult};
ghost use Rattle.table.specs.Place.{full};
ghost use Rattle.table.specs.Answers.{Read, OneAnswer};
ghost use Rattle.table.specs.Stages.{Refuses, Asked, Next, Got, SizesOf, Sized, BlockNext, BlockRead, PointsRead, Graded, Spelt};

use super::{Draft, POINTS, Reader, Sizes, Table};
use crate::fault::TableFault;
use crate::grade::Grade;
use std::ops::RangeInclusive;

impl Reader<'_> {
    // The next byte, which is not taken yet.
    fn peek(&self) -> Result<u8, TableFault>
        requires { self.now.at < full self.now.bytes.now }
        ensures { MatchResult result (Next self.now) (Refuses self.now.bytes.now) }
    {
        self.bytes
            .get(self.at)
            .copied()
            .ok_or(TableFault::Short { length: self.at })
    }

    // Takes the next byte, which must be one of `values`.
    fn take(&mut self, values: RangeInclusive<u8>, wrong: TableFault) -> Result<u8, TableFault>
        requires { Asked self.old values wrong }
        ensures { MatchResult result (Got self.old self.new values) (Refuses self.old.bytes.now) }
    {
        let byte = self.peek()?;
        if !values.contains(&byte) {
            return Err(wrong);
        }
        self.at += 1;
        Ok(byte)
    }

    fn size(&mut self, values: RangeInclusive<u8>) -> Result<u8, TableFault>
        requires { Asked self.old values (TableFault.Size self.old.at) }
        ensures { MatchResult result (Got self.old self.new values) (Refuses self.old.bytes.now) }
    {
        let at = self.at;
        self.take(values, TableFault::Size { at })
    }

    // The section of sizes, and the count of the blocks.
    fn sizes(&mut self) -> Result<Sizes, TableFault>
        requires { self.old.at ≡ 0 }
        ensures { MatchResult result (Sized self.old self.new) (Refuses self.old.bytes.now) }
    {
        self.size(3..=3)?;
        let v = self.size(2..=40)?;
        let n = self.size(1..=(64 - v).min(62))?;
        let k = self.size(2..=v.min(8))?;
        self.size(n..=n)?;
        Ok(Sizes { v, n, k })
    }

    // The points of one block.
    fn block(&mut self, block: &mut [u8], v: u8) -> Result<(), TableFault>
        requires { BlockNext self.old (length block.old) v }
        ensures { MatchResult result (λ _. BlockRead self.old self.new block.new) (Refuses self.old.bytes.now) }
    {
        let mut low = 0;
        for point in block.iter_mut() {
            let at = self.at;
            *point = self.take(low..=v - 1, TableFault::Point { at })?;
            low = *point + 1;
        }
        Ok(())
    }

    // The points of all blocks.
    fn points(&mut self, sizes: Sizes) -> Result<[u8; POINTS], TableFault>
        requires place { self.old.at ≡ 5 }
        requires sizes { SizesOf self.old.bytes.now sizes }
        ensures { MatchResult result (PointsRead self.old self.new (sizes.n * sizes.k)) (Refuses self.old.bytes.now) }
    {
        let k = sizes.k as usize;
        let mut points = [0; POINTS];
        // By number: of what is written through `chunks_exact_mut`, a proof knows only the length.
        for d in 0..sizes.n as usize {
            self.block(&mut points[d * k..(d + 1) * k], sizes.v)?;
        }
        Ok(points)
    }

    // The section of the grade.
    fn grade(&mut self) -> Result<Grade, TableFault>
        requires { self.old.at + 2 ≡ full self.old.bytes.now }
        ensures { MatchResult result (Graded self.old self.new) (Refuses self.old.bytes.now) }
    {
        self.size(1..=1)?;
        let number = self.peek()?;
        let at = self.at;
        let grade = Grade::try_from(number).map_err(|_| TableFault::Size { at })?;
        self.at += 1;
        Ok(grade)
    }

    // Sees that no byte follows the table.
    fn end(&self) -> Result<(), TableFault>
        requires { self.now.at ≡ full self.now.bytes.now }
        ensures { MatchResult result (λ _. length self.now.bytes.now ≡ self.now.at) (Refuses self.now.bytes.now) }
    {
        if self.bytes.len() > self.at {
            return Err(TableFault::Tail { at: self.at });
        }
        Ok(())
    }
}

impl Draft {
    // The table that the bytes spell, whose blocks may still clash.
    fn read(bytes: &[u8]) -> Result<Draft, TableFault>
        ensures { MatchResult result (Spelt bytes.now) (Refuses bytes.now) }
    {
        let mut reader = Reader { bytes, at: 0 };
        let sizes = reader.sizes()?;
        let points = reader.points(sizes)?;
        let grade = reader.grade()?;
        reader.end()?;
        Ok(Draft {
            sizes,
            grade,
            points,
        })
    }
}

impl Table {
    /// Reads a table from its bytes, all of them.
    pub fn read(bytes: &[u8]) -> Result<Table, TableFault>
        ensures answer { Read bytes.now result }
        ensures one { OneAnswer bytes.now result }
    {
        let draft = Draft::read(bytes)?;
        draft.sound()?;
        Ok(Table { draft })
    }
}
