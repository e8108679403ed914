//! The unit table of a rack: which check units stand behind which record units, read from bytes and written back.
#![tactic(auto)]

mod fault;
mod grade;
mod table;
#[cfg(test)]
mod tests;
mod worked;

pub use fault::{Narrow, TableFault};
pub use grade::{Grade, NoGrade};
pub use table::{MAX_BYTES, Table};
pub use worked::table_d;
