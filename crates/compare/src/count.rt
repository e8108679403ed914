use crate::held::Held;
use crate::plain::Kind;
use crate::verdict::Verdict;
use std::alloc::{AllocError, Global};
use std::fmt;
use std::iter::Sum;
use std::num::Saturating;
use std::ops::AddAssign;

/// How many lists of bytes were compared, what they are, and on how many the two ways differ.
#[derive(Clone, Copy, Default)]
pub struct Count {
    pub compared: Saturating<u32>,
    pub held: Held,
    short: Saturating<u32>,
    size: Saturating<u32>,
    point: Saturating<u32>,
    tail: Saturating<u32>,
    pair: Saturating<u32>,
    cover: Saturating<u32>,
    pub differ: Saturating<u32>,
}

impl Count {
    /// The count of one list of bytes, which is read in both ways.
    pub(crate) fn of(heap: Global, bytes: &[u8]) -> Result<Count, AllocError> {
        Verdict::of(heap, bytes).map(Count::from)
    }

    // How often lists are refused for `kind`.
    fn refused(&mut self, kind: Kind) -> &mut Saturating<u32> {
        match kind {
            Kind::Short => &mut self.short,
            Kind::Size => &mut self.size,
            Kind::Point => &mut self.point,
            Kind::Tail => &mut self.tail,
            Kind::Pair => &mut self.pair,
            Kind::Cover => &mut self.cover,
        }
    }
}

/// The count of the one list of bytes that the verdict is on.
impl From<Verdict> for Count {
    fn from(verdict: Verdict) -> Count {
        let mut count = Count {
            compared: Saturating(1),
            differ: Saturating(u32::from(!verdict.same())),
            ..Count::default()
        };
        match verdict.plain {
            Ok(checks) => count.held = Held::from(checks),
            Err(refused) => *count.refused(refused.kind) += 1,
        }
        count
    }
}

impl AddAssign for Count {
    fn add_assign(&mut self, other: Count) {
        self.compared += other.compared;
        self.held += other.held;
        self.short += other.short;
        self.size += other.size;
        self.point += other.point;
        self.tail += other.tail;
        self.pair += other.pair;
        self.cover += other.cover;
        self.differ += other.differ;
    }
}

impl Sum<Count> for Count {
    fn sum<I: Iterator<Item = Count>>(iter: I) -> Count {
        let mut sum = Count::default();
        for count in iter {
            sum += count;
        }
        sum
    }
}

impl fmt::Display for Count {
    fn fmt<W: fmt::Write>(&self, f: &mut fmt::Formatter<W>) -> fmt::Result {
        let Count {
            compared,
            held: Held { tables, .. },
            short,
            size,
            point,
            tail,
            pair,
            cover,
            differ,
        } = *self;
        write!(
            f,
            "{compared} compared, {tables} accepted, {short} SHORT, {size} SIZE, {point} POINT, "
        )?;
        write!(
            f,
            "{tail} TAIL, {pair} PAIR, {cover} COVER, {differ} differ"
        )
    }
}
