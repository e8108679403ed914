use crate::{Members, SmallSet};

#[test]
fn numbers_past_63_are_no_members(rt: HostRuntime) {
    let some = SmallSet::of(0).with(5).with(63);
    for past in [64, 65, 127, 128, usize::MAX] {
        assert!(rt; !some.contains(past));
        assert_eq!(rt; SmallSet::of(past), SmallSet::empty());
        assert_eq!(rt; some.with(past), some);
        assert_eq!(rt; some.without(past), some);
    }
    assert_eq!(rt; some.len(), 3);
}

#[test]
fn members_come_in_ascending_order(rt: HostRuntime) {
    let mut members = SmallSet::of(63).with(7).with(0).with(32).iter();
    for member in [0, 7, 32, 63] {
        assert_eq!(rt; members.next(), Some(member));
    }
    assert_eq!(rt; members.next(), None);
    assert_eq!(rt; SmallSet::empty().least(), None);
}

#[test]
fn sums_and_meets(rt: HostRuntime) {
    let a = SmallSet::of(1).with(2).with(3);
    let b = SmallSet::of(3).with(4);
    let c = SmallSet::of(2).with(3);
    assert_eq!(rt; a.symmetric_difference(b), SmallSet::of(1).with(2).with(4));
    assert_eq!(rt; a.symmetric_difference(a), SmallSet::empty());
    assert_eq!(rt; a.intersection(b), SmallSet::of(3));
    assert!(rt; a.meets_oddly(b) && !a.meets_oddly(c));
    assert_eq!(rt; a.without(2).with(2), a);
}

#[test]
fn sets_by_a_test(rt: HostRuntime) {
    let multiples = SmallSet::from_fn(|number| number % 21 == 0);
    assert_eq!(rt; multiples, SmallSet::of(0).with(21).with(42).with(63));
    assert_eq!(rt; SmallSet::from_fn(|number| number > 63), SmallSet::empty());
    assert_eq!(rt;
        multiples.filter(|number| number > 21),
        SmallSet::of(42).with(63)
    );
    let few = multiples.difference(SmallSet::of(21).with(22));
    assert_eq!(rt; few, SmallSet::of(0).with(42).with(63));
    assert!(rt; few.is_subset(multiples) && !multiples.is_subset(few));
    assert!(rt; few.difference(multiples).is_empty() && !few.is_empty());
}

// The members of a set as a part of something that is copied.
#[derive(Clone, Copy)]
struct Walk {
    left: Members,
}

fn first(walk: Walk) -> Option<usize> {
    let mut left = walk.left;
    left.next()
}

#[test]
fn what_has_members_is_copied(rt: HostRuntime) {
    let walk = Walk {
        left: SmallSet::of(5).iter(),
    };
    assert_eq!(rt; first(walk), Some(5));
    assert_eq!(rt; first(walk), Some(5));
}
