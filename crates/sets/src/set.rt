ghost use Rattle.std.specs.Prelude.{◌≡◌, ℕ, ◌<◌, ◌≤◌, true, false, not, ◌&&◌, ◌||◌, Decides, MatchOption, ◌==◌, nat_lt};
ghost use Rattle.std.specs.Bool.{xor};
ghost use Rattle.sets.specs.Members.{has, same_word};
ghost use Rattle.sets.specs.Parity.{oddly};
ghost use Rattle.sets.specs.Steps.{Empty, Least, to_come};
ghost use Rattle.sets.specs.Sums.{count};
ghost use Rattle.std.specs.Cmp.Rules.{comparing};
ghost use Rattle.std.proofs.Common.{rules};

use crate::members::Members;

/// Members are below this.
const LIMIT: usize = 64;

/// A set of numbers from 0 to 63. Any number may be asked for or given: past 63 none is a member, and none is added.
#[derive(Clone, Copy, Default, Eq, Debug)]
pub struct SmallSet {
    // Bit `i` is 1 where `i` is a member.
    bits: u64,
}

impl SmallSet {
    /// The set with no member.
    pub fn empty() -> SmallSet
        ensures { (i : ℕ) → has result i ≡ false }
    {
        SmallSet { bits: 0 }
    }

    /// The set with `number` as its one member; with none if `number` is past 63.
    pub fn of(number: usize) -> SmallSet
        ensures { (i : ℕ) → has result i ≡ (i == number && nat_lt i 64) }
    {
        if number < LIMIT {
            SmallSet { bits: 1 << number }
        } else {
            SmallSet::empty()
        }
    }

    /// The set of the numbers from 0 to 63 that pass `test`.
    pub fn from_fn<F: Fn(usize) -> bool>(test: F) -> SmallSet
        requires { F.IsAlwaysCallable test }
        ensures passing { (i : ℕ) → i < 64 → F.post test i (has result i) }
        ensures past { (i : ℕ) → 64 ≤ i → has result i ≡ false }
    {
        let mut set = SmallSet::empty();
        for number in 0..LIMIT {
            if test(number) {
                set = set.with(number);
            }
        }
        set
    }

    /// Whether `number` is a member.
    pub fn contains(self, number: usize) -> bool
        ensures member { result ≡ has self number }
        ensures past { 64 ≤ number → result ≡ false }
    {
        number < LIMIT && self.bits >> number & 1 == 1
    }

    /// This set with `number` added.
    pub fn with(self, number: usize) -> SmallSet
        ensures { (i : ℕ) → has result i ≡ (has self i || (i == number && nat_lt i 64)) }
    {
        SmallSet {
            bits: self.bits | SmallSet::of(number).bits,
        }
    }

    /// This set with `number` taken out.
    pub fn without(self, number: usize) -> SmallSet
        ensures { (i : ℕ) → has result i ≡ (has self i && not (i == number)) }
    {
        SmallSet {
            bits: self.bits & !SmallSet::of(number).bits,
        }
    }

    /// The numbers that are in one of the two sets and not in both: their sum over GF(2).
    pub fn symmetric_difference(self, other: SmallSet) -> SmallSet
        ensures members { (i : ℕ) → has result i ≡ xor (has self i) (has other i) }
        ensures parity { (t : SmallSet) → oddly t result ≡ xor (oddly t self) (oddly t other) }
    {
        SmallSet {
            bits: self.bits ^ other.bits,
        }
    }

    /// The numbers that are in both sets.
    pub fn intersection(self, other: SmallSet) -> SmallSet
        ensures { (i : ℕ) → has result i ≡ (has self i && has other i) }
    {
        SmallSet {
            bits: self.bits & other.bits,
        }
    }

    /// The numbers that are in this set and not in the other.
    pub fn difference(self, other: SmallSet) -> SmallSet
        ensures { (i : ℕ) → has result i ≡ (has self i && not (has other i)) }
    {
        SmallSet {
            bits: self.bits & !other.bits,
        }
    }

    /// Whether each member of this set is one of the other.
    pub fn is_subset(self, other: SmallSet) -> bool
        ensures { Decides result ((i : ℕ) → has self i ≡ true → has other i ≡ true) }
    {
        self.difference(other).is_empty()
    }

    /// Whether there is no member.
    pub fn is_empty(self) -> bool
        ensures { Decides result (Empty self) }
    {
        self == SmallSet::empty()
    }

    /// The members that pass `test`.
    pub fn filter<F: Fn(usize) -> bool>(self, test: F) -> SmallSet
        requires { F.IsAlwaysCallable test }
        ensures passing { (i : ℕ) → has self i ≡ true → F.post test i (has result i) }
        ensures others { (i : ℕ) → has self i ≡ false → has result i ≡ false }
    {
        let mut kept = SmallSet::empty();
        for number in self.iter() {
            if test(number) {
                kept = kept.with(number);
            }
        }
        kept
    }

    /// How many members there are.
    pub fn len(self) -> usize
        ensures { result ≡ count 64 (has self) }
    {
        self.bits.count_ones() as usize
    }

    /// Whether the two sets have an odd number of members in common.
    pub fn meets_oddly(self, other: SmallSet) -> bool
        ensures { result ≡ oddly self other }
    {
        self.intersection(other).len() % 2 == 1
    }

    /// The least member.
    pub fn least(self) -> Option<usize>
        ensures { MatchOption result (Empty self) (Least self) }
    {
        if self.bits == 0 {
            return None;
        }
        Some(self.bits.trailing_zeros() as usize)
    }

    /// The members in ascending order.
    pub fn iter(self) -> Members
        ensures { to_come result ≡ self }
    {
        Members { rest: self }
    }
}

// Two sets are equal exactly if they have the same members: the contract says so, where a derived `==` says that the
// words are equal.
impl PartialEq for SmallSet {
    ghost eq = { same_word };

    ghost laws = { Prim.search (comparing, rules) };

    fn eq(&self, other: &SmallSet) -> bool
        ensures value { result ≡ same_word self.now other.now }
        ensures members { Decides result ((i : ℕ) → has self.now i ≡ has other.now i) }
    {
        self.bits == other.bits
    }
}
