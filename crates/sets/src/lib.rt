//! Sets of numbers from 0 to 63, each in one word: the points of a block, units, trust marks and masks.
#![tactic(auto)]

mod members;
mod set;
#[cfg(test)]
mod tests;

pub use members::Members;
pub use set::SmallSet;
