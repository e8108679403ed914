use std::alloc::{AllocError, Global};
use table::Grade;

/// Nine points, every two of them in one block.
pub const BLOCKS_A: [[u8; 3]; 12] = [
    [0, 1, 2],
    [3, 4, 5],
    [6, 7, 8],
    [0, 3, 6],
    [1, 4, 7],
    [2, 5, 8],
    [0, 4, 8],
    [1, 5, 6],
    [2, 3, 7],
    [0, 5, 7],
    [1, 3, 8],
    [2, 4, 6],
];

/// Seven points, every two of them in one block.
pub const BLOCKS_F: [[u8; 3]; 7] = [
    [0, 1, 3],
    [1, 2, 4],
    [2, 3, 5],
    [3, 4, 6],
    [0, 4, 5],
    [1, 5, 6],
    [0, 2, 6],
];

/// The bytes of the table that has these blocks.
pub fn table_bytes<const K: usize>(
    heap: Global,
    v: u8,
    blocks: &[[u8; K]],
    grade: Grade,
) -> Result<Vec<u8>, AllocError> {
    let n = u8::try_from(blocks.len()).unwrap_or(u8::MAX);
    let k = u8::try_from(K).unwrap_or(u8::MAX);
    let mut bytes = Vec::from_slice(heap, &[3, v, n, k, n])?;
    bytes.extend_from_slice(blocks.as_flattened())?;
    bytes.extend_from_slice(&[1, u8::from(grade)])?;
    Ok(bytes)
}
