//! Cells, what places hold, and their sums over sets of places.
#![tactic(auto)]

mod byte;
mod kind;
mod passage;
mod sum;

pub use kind::Cell;
pub use passage::Passage;
pub use sum::sum_over;

#[cfg(test)]
mod tests {
    use super::*;
    use sets::SmallSet;

    #[test]
    fn passages_sum(rt: HostRuntime) {
        let morning = Passage {
            gate: 3,
            pass: 70_001,
            stamp: 32_400,
            fare: 850,
        };
        let later = Passage {
            gate: 5,
            pass: 70_002,
            stamp: 32_460,
            fare: 0,
        };
        let sum = Passage {
            gate: 6,
            pass: 3,
            stamp: 92,
            fare: 850,
        };
        assert_eq!(rt; morning.plus(later), sum);
        assert!(rt; sum.plus(later).same(&morning));
        assert!(rt; !morning.same(&later));
    }

    #[test]
    fn places_past_the_end_add_nothing(rt: HostRuntime) {
        let table = [
            (SmallSet::empty(), 0),
            (SmallSet::of(2), 4),
            (SmallSet::of(0).with(3), 9),
            (SmallSet::of(1).with(4).with(63), 2),
        ];
        for (places, sum) in table {
            assert_eq!(rt; sum_over(&[1u8, 2, 4, 8], places), sum);
        }
    }
}
