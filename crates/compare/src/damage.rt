use crate::count::Count;
use std::alloc::{AllocError, Global};

// Counts the bytes with byte `at` set to each value in turn.
fn count_changed(heap: Global, bytes: &[u8], at: usize) -> Result<Count, AllocError> {
    let mut copy = Vec::from_slice(heap, bytes)?;
    (0..=u8::MAX)
        .map(|value| {
            if let Some(byte) = copy.get_mut(at) {
                *byte = value;
            }
            Count::of(heap, copy.as_slice())
        })
        .sum()
}

/// Counts the bytes with each byte set to each value in turn.
pub fn changes(heap: Global, bytes: &[u8]) -> Result<Count, AllocError> {
    (0..bytes.len())
        .map(|at| count_changed(heap, bytes, at))
        .sum()
}

/// Counts each front of the bytes, from none to all.
pub fn fronts(heap: Global, bytes: &[u8]) -> Result<Count, AllocError> {
    (0..=bytes.len())
        .map(|end| Count::of(heap, &bytes[..end]))
        .sum()
}

// Counts the bytes with `value` after them.
fn count_longer(heap: Global, bytes: &[u8], value: u8) -> Result<Count, AllocError> {
    let mut longer = Vec::from_slice(heap, bytes)?;
    longer.push(value)?;
    Count::of(heap, longer.as_slice())
}

/// Counts the bytes with one more after them, for some values of it.
pub fn appends(heap: Global, bytes: &[u8]) -> Result<Count, AllocError> {
    [0, 1, 2, 3, u8::MAX]
        .iter()
        .map(|value| count_longer(heap, bytes, *value))
        .sum()
}
