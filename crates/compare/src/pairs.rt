use std::alloc::{AllocError, Global};

/// All pairs of the points from 0 to v - 1, each with the lower point first, in ascending order.
pub(crate) fn all_pairs(heap: Global, v: u8) -> Result<Vec<[u8; 2]>, AllocError> {
    (0..v)
        .flat_map(|low| (low.saturating_add(1)..v).map(move |high| [low, high]))
        .collect(heap)
}
