//! A second reader of tables, plain and apart from the first: a cursor takes the sections one by one, and a set has the
//! pairs of points that lie together.
ghost use Rattle.std.specs.Prelude.{◌≡◌};

use crate::pairs::all_pairs;
use std::alloc::{AllocError, AllocFailed, Global};
use std::collections::BTreeSet;
use table::{Grade, TableFault};

/// Why bytes are no table, with the number of each refusal. The numbers are written down here a second time, so that
/// those of `TableFault` are compared with them.
#[derive(Clone, Copy)]
pub enum Kind {
    Short = 1,
    Size = 2,
    Point = 3,
    Tail = 4,
    Pair = 5,
    Cover = 6,
}

impl Kind {
    fn at(self, place: usize) -> Refusal
        ensures kind { result.kind ≡ self }
        ensures place { result.place ≡ place }
    {
        Refusal { kind: self, place }
    }
}

impl From<Kind> for u8 {
    fn from(kind: Kind) -> u8 {
        kind as u8
    }
}

#[derive(Clone, Copy)]
pub struct Refusal {
    pub kind: Kind,
    place: usize,
}

impl Refusal {
    /// Whether `fault` has the same number and place.
    pub(crate) fn is(self, fault: TableFault) -> bool {
        fault.number() == u8::from(self.kind) && fault.place() == self.place
    }
}

/// Why there is no table: the bytes are refused, or memory is short.
#[derive(Clone, Copy)]
pub enum Stop {
    Refused(Refusal),
    Memory(AllocError),
}

impl From<Refusal> for Stop {
    fn from(refusal: Refusal) -> Stop {
        Stop::Refused(refusal)
    }
}

impl From<AllocError> for Stop {
    fn from(e: AllocError) -> Stop {
        Stop::Memory(e)
    }
}

impl<T: Drop> From<AllocFailed<T>> for Stop {
    fn from(e: AllocFailed<T>) -> Stop {
        Stop::Memory(e.into())
    }
}

/// The sizes that a table begins with.
#[derive(Clone, Copy)]
pub struct Sizes {
    pub v: u8,
    pub n: u8,
    pub k: u8,
}

// Goes through the bytes from the front.
#[derive(Drop)]
struct Cursor<'a> {
    bytes: &'a [u8],
    at: usize,
}

impl Cursor<'_> {
    // The next byte. A byte for which `fits` is false is refused for `kind`.
    fn take<F: FnOnce(u8) -> bool>(&mut self, kind: Kind, fits: F) -> Result<u8, Refusal>
        requires { F.IsAlwaysCallable fits }
    {
        let place = self.at;
        let Some(&byte) = self.bytes.get(place) else {
            return Err(Kind::Short.at(self.bytes.len()));
        };
        self.at += 1;
        if fits(byte) {
            Ok(byte)
        } else {
            Err(kind.at(place))
        }
    }

    // The first section: v, n and k.
    fn sizes(&mut self) -> Result<Sizes, Refusal> {
        self.take(Kind::Size, |count| count == 3)?;
        let v = self.take(Kind::Size, |v| matches!(v, 2..=40))?;
        let n = self.take(
            Kind::Size,
            |n| matches!(n, 1..=62) && u32::from(n) + u32::from(v) <= 64,
        )?;
        let k = self.take(Kind::Size, |k| matches!(k, 2..=8) && k <= v)?;
        Ok(Sizes { v, n, k })
    }

    // The points of a block, each above the one before.
    fn block(&mut self, heap: Global, sizes: Sizes) -> Result<Vec<u8>, Stop> {
        let mut block: Vec<u8> = Vec::new(heap);
        for _ in 0..sizes.k {
            let point = self.take(
                Kind::Point,
                |p| p < sizes.v && block.last().is_none_or(|last| *last < p),
            )?;
            block.push(point)?;
        }
        Ok(block)
    }

    // The second section.
    fn blocks(&mut self, heap: Global, sizes: Sizes) -> Result<Vec<Vec<u8>>, Stop> {
        self.take(Kind::Size, |count| count == sizes.n)?;
        (0..sizes.n)
            .map(|_| self.block(heap, sizes))
            .try_collect(heap)
    }

    // The third section.
    fn grade(&mut self) -> Result<Grade, Refusal> {
        self.take(Kind::Size, |count| count == 1)?;
        match self.take(Kind::Size, |grade| matches!(grade, 1 | 2))? {
            1 => Ok(Grade::Packing),
            _ => Ok(Grade::Steiner),
        }
    }

    fn end(&self) -> Result<(), Refusal> {
        if self.at < self.bytes.len() {
            return Err(Kind::Tail.at(self.at));
        }
        Ok(())
    }
}

// Adds the pairs of a block, and says whether none was there before.
fn add_block(together: &mut BTreeSet<[u8; 2]>, block: &[u8]) -> Result<bool, Stop> {
    let mut new = true;
    for low in block {
        new &= add_pairs(together, *low, block)?;
    }
    Ok(new)
}

// Adds the pairs of `low` with the higher points of a block, and says whether none was there before.
fn add_pairs(together: &mut BTreeSet<[u8; 2]>, low: u8, block: &[u8]) -> Result<bool, Stop> {
    let mut new = true;
    for high in block.iter().filter(|high| low < **high) {
        new &= together.insert([low, *high])?;
    }
    Ok(new)
}

/// A table with its blocks in lists.
#[derive(Drop)]
pub struct Plain {
    pub sizes: Sizes,
    pub grade: Grade,
    blocks: Vec<Vec<u8>>,
}

impl Plain {
    /// Reads a table.
    pub fn read(heap: Global, bytes: &[u8]) -> Result<Plain, Stop> {
        let mut cursor = Cursor { bytes, at: 0 };
        let sizes = cursor.sizes()?;
        let blocks = cursor.blocks(heap, sizes)?;
        let grade = cursor.grade()?;
        cursor.end()?;
        let plain = Plain {
            sizes,
            grade,
            blocks,
        };
        plain.test(heap)?;
        Ok(plain)
    }

    // The pairs of points that lie together in a block, which none may do twice.
    fn together(&self, heap: Global) -> Result<BTreeSet<[u8; 2]>, Stop> {
        let mut together = BTreeSet::new(heap);
        for (d, block) in self.blocks.iter().enumerate() {
            if !add_block(&mut together, block.as_slice())? {
                return Err(Kind::Pair.at(d).into());
            }
        }
        Ok(together)
    }

    // Sees that no two points lie together twice, and in grade 2 that every two do once.
    fn test(&self, heap: Global) -> Result<(), Stop> {
        let together = self.together(heap)?;
        if self.grade == Grade::Packing {
            return Ok(());
        }
        let pairs = all_pairs(heap, self.sizes.v)?;
        if let Some([low, _]) = pairs.iter().find(|pair| !together.contains(*pair)) {
            return Err(Kind::Cover.at(usize::from(*low)).into());
        }
        Ok(())
    }

    /// Whether block `d` is there and has `point`.
    pub fn block_has(&self, d: usize, point: u8) -> bool {
        self.blocks
            .get(d)
            .is_some_and(|block| block.contains(&point))
    }

    /// How many blocks have `point`.
    pub fn behind(&self, point: u8) -> usize {
        self.blocks
            .iter()
            .filter(|block| block.contains(&point))
            .count()
    }
}
