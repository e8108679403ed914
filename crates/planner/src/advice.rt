use crate::place::Place;
use crate::points::Points;
use crate::reading::Reading;
use std::fmt;
use table::TableFault;

/// What is wrong with bytes that are no table, and how to mend it.
#[derive(Clone, Copy)]
pub enum Advice {
    /// Bytes are missing from `next` on. Once k is there, it is known how many bytes the table has.
    Add {
        next: Place,
        whole: Option<usize>,
    },
    /// The byte at `place` has a wrong value.
    Change {
        place: Place,
        value: u8,
    },
    /// Bytes from `at` on are too many.
    Cut {
        at: usize,
    },
    /// `block` has `points` in common with the block `earlier`.
    Part {
        block: usize,
        earlier: usize,
        points: Points,
    },
    /// `point` lies in no block together with `others`.
    Join {
        point: usize,
        others: Points,
    },
}

impl Advice {
    /// The advice to what was refused with `fault`.
    pub fn of(reading: Reading<'_>, fault: TableFault) -> Advice {
        match fault {
            TableFault::Short { length } => Advice::Add {
                next: Place::of(reading, length),
                whole: reading.whole(),
            },
            TableFault::Size { at } | TableFault::Point { at } => Advice::Change {
                place: Place::of(reading, at),
                value: reading.byte(at),
            },
            TableFault::Tail { at } => Advice::Cut { at },
            TableFault::Pair { block } => {
                let shared = reading.most_shared(block);
                Advice::Part {
                    block,
                    earlier: shared.block,
                    points: Points(shared.points),
                }
            }
            TableFault::Cover { point } => Advice::Join {
                point,
                others: Points(reading.strangers(point)),
            },
        }
    }
}

impl fmt::Display for Advice {
    fn fmt<W: fmt::Write>(&self, f: &mut fmt::Formatter<W>) -> fmt::Result {
        match *self {
            Advice::Add { next, whole } => {
                write!(f, "the bytes end too early: {next}")?;
                if let Some(whole) = whole {
                    write!(f, "; a table of these sizes has {whole} bytes")?;
                }
                Ok(())
            }
            Advice::Change { place, value } => write!(f, "{place}; here it is {value}"),
            Advice::Cut { at } => write!(
                f,
                "a table of these sizes has {at} bytes: delete byte {at} and all after it, or mend the sizes"
            ),
            Advice::Part {
                block,
                earlier,
                points,
            } => {
                write!(
                    f,
                    "block {block} and block {earlier} share the points {points}, but two blocks may share only one: change one of the two"
                )
            }
            Advice::Join { point, others } => {
                write!(
                    f,
                    "point {point} lies in no block together with {others}, but in grade 2 every two points lie in one: change the blocks, or give grade 1"
                )
            }
        }
    }
}
