//! Counts of tables whose blocks are pairs of points.
use crate::count::Count;
use crate::pairs::all_pairs;
use crate::samples::table_bytes;
use std::alloc::{AllocError, Global};
use table::Grade;

// Counts the table whose blocks are these pairs.
fn count_pairs(heap: Global, v: u8, pairs: &[[u8; 2]], grade: Grade) -> Result<Count, AllocError> {
    Count::of(heap, table_bytes(heap, v, pairs, grade)?.as_slice())
}

/// Counts the tables of as many pairs as make 64 units, grade 1.
pub fn largest(heap: Global) -> Result<Count, AllocError> {
    (11..41)
        .map(|v| {
            let mut pairs = all_pairs(heap, v)?;
            pairs.truncate(usize::from(64 - v));
            count_pairs(heap, v, pairs.as_slice(), Grade::Packing)
        })
        .sum()
}

/// Counts the tables of all pairs of v points, grade 2.
pub fn whole(heap: Global) -> Result<Count, AllocError> {
    (2..11)
        .map(|v| count_pairs(heap, v, all_pairs(heap, v)?.as_slice(), Grade::Steiner))
        .sum()
}

// Counts the table of the pairs of v points but for `out`.
fn count_without(
    heap: Global,
    v: u8,
    pairs: &[[u8; 2]],
    out: [u8; 2],
) -> Result<Count, AllocError> {
    let left: Vec<[u8; 2]> = pairs
        .iter()
        .copied()
        .filter(|pair| *pair != out)
        .collect(heap)?;
    count_pairs(heap, v, left.as_slice(), Grade::Steiner)
}

// Counts the tables of all pairs of v points but one, each left out in turn.
fn count_left_out(heap: Global, v: u8) -> Result<Count, AllocError> {
    let pairs = all_pairs(heap, v)?;
    pairs
        .iter()
        .map(|out| count_without(heap, v, pairs.as_slice(), *out))
        .sum()
}

/// Counts the tables of all pairs of v points but one, each left out in turn, grade 2.
pub fn left_out(heap: Global) -> Result<Count, AllocError> {
    (3..11).map(|v| count_left_out(heap, v)).sum()
}

// Counts the table of the pairs of 6 points with `by` in the place of `out`.
fn count_replaced(
    heap: Global,
    pairs: &[[u8; 2]],
    out: [u8; 2],
    by: [u8; 2],
) -> Result<Count, AllocError> {
    let blocks: Vec<[u8; 2]> = pairs
        .iter()
        .map(|pair| if *pair == out { by } else { *pair })
        .collect(heap)?;
    count_pairs(heap, 6, blocks.as_slice(), Grade::Steiner)
}

/// Counts the tables of all pairs of 6 points with each one in the place of each.
pub fn repeated(heap: Global) -> Result<Count, AllocError> {
    let pairs = all_pairs(heap, 6)?;
    let pairs = pairs.as_slice();
    pairs
        .iter()
        .flat_map(|&out| pairs
            .iter()
            .map(move |&by| count_replaced(heap, pairs, out, by)))
        .sum()
}
