ghost use Rattle.std.specs.Prelude.{◌≡◌, ◌+◌, ◌*◌, slice_index};

use sets::SmallSet;

/// The sizes at the front of a table's bytes, 0 for one that is not there: unlike those of a table, they may be any.
#[derive(Clone, Copy)]
pub struct Sizes {
    pub v: u8,
    pub n: u8,
    pub k: u8,
}

impl Sizes {
    /// How many points the blocks have, all together.
    pub(crate) fn points(self) -> usize
        ensures { result ≡ self.n * self.k }
    {
        usize::from(self.n) * usize::from(self.k)
    }

    /// How many bytes a table of these sizes has.
    pub fn bytes(self) -> usize
        ensures { result ≡ 7 + self.n * self.k }
    {
        7 + self.points()
    }
}

/// Points that a block has in common with a certain one.
#[derive(Clone, Copy, Default)]
pub struct Shared {
    pub block: usize,
    pub points: SmallSet,
}

/// Bytes as they read by place, whether or not they are a table.
#[derive(Clone, Copy)]
pub struct Reading<'a> {
    pub bytes: &'a [u8],
}

impl Reading<'_> {
    /// Byte `at`, or 0 past the end.
    pub fn byte(self, at: usize) -> u8
        ensures { result ≡ slice_index self.entry.bytes.now at }
    {
        self.bytes.get(at).copied().unwrap_or(0)
    }

    /// The sizes at the front.
    pub fn sizes(self) -> Sizes
        ensures v { result.v ≡ slice_index self.entry.bytes.now 1 }
        ensures n { result.n ≡ slice_index self.entry.bytes.now 2 }
        ensures k { result.k ≡ slice_index self.entry.bytes.now 3 }
    {
        Sizes {
            v: self.byte(1),
            n: self.byte(2),
            k: self.byte(3),
        }
    }

    /// How many bytes the table has by its sizes, where they are all there.
    pub(crate) fn whole(self) -> Option<usize> {
        (self.bytes.len() > 3).then(|| self.sizes().bytes())
    }

    // The points of block `d`.
    fn block(self, d: usize) -> SmallSet {
        let k = usize::from(self.sizes().k);
        let start = d.saturating_mul(k).saturating_add(5);
        self.bytes.iter().skip(start).take(k).fold(
            SmallSet::empty(),
            |points, &point| points.with(usize::from(point)),
        )
    }

    /// The block before `d` that has the most points in common with it; the first of those.
    pub fn most_shared(self, d: usize) -> Shared {
        let ours = self.block(d);
        // Of several with the most, `max_by_key` takes the last that comes.
        (0..d)
            .rev()
            .map(|e| Shared {
                block: e,
                points: ours.intersection(self.block(e)),
            })
            .max_by_key(|shared| shared.points.len())
            .unwrap_or_default()
    }

    // The points above `point`.
    fn above(self, point: usize) -> SmallSet {
        let v = usize::from(self.sizes().v);
        SmallSet::from_fn(|q| point < q && q < v)
    }

    /// The points above `point` that lie in no block together with it.
    pub fn strangers(self, point: usize) -> SmallSet {
        (0..usize::from(self.sizes().n))
            .map(|d| self.block(d))
            .filter(|block| block.contains(point))
            .fold(self.above(point), SmallSet::difference)
    }
}
