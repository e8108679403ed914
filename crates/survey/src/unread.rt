use std::alloc::AllocError;
use std::num::ParseIntError;
use table::TableFault;

/// Why a line gives no table.
#[derive(Drop)]
pub enum Unread {
    /// There is no memory for its bytes.
    Memory(AllocError),
    /// A word writes no byte, or the bytes are no table.
    NoTable,
}

impl From<AllocError> for Unread {
    fn from(e: AllocError) -> Unread {
        Unread::Memory(e)
    }
}

impl From<ParseIntError> for Unread {
    fn from(_e: ParseIntError) -> Unread {
        Unread::NoTable
    }
}

impl From<TableFault> for Unread {
    fn from(_fault: TableFault) -> Unread {
        Unread::NoTable
    }
}
