use sets::SmallSet;

/// Why a unit cannot be read back.
#[derive(Clone, Copy, PartialEq, Eq, Debug)]
pub enum Unreadable {
    /// It is lost: the good units do not tell its cell. All of these units, it among them, are missing, and an even
    /// number of them are in each group, so the cells of all can change by the same amount and no good unit shows it.
    Lost(SmallSet),
    /// There is no such unit.
    NoUnit,
}
