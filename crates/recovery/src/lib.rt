//! Recipes and loss sets: which missing unit can be read back, from which good units, and where not, why not.
#![tactic(auto)]

mod layout;
mod rows;
#[cfg(test)]
mod tests;
mod unreadable;
mod worked;

pub use layout::{GROUPS, Layout};
pub use unreadable::Unreadable;
pub use worked::{WorkedMissing, worked_missing};
