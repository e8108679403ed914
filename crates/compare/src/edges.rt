use crate::count::Count;
use crate::verdict::Verdict;
use std::alloc::{AllocError, Global};
use table::{Table, TableFault};

// Counts the sizes with this v, each n with each k.
fn count_sizes(heap: Global, v: u8) -> Result<Count, AllocError> {
    (0..67)
        .flat_map(|n| (0..11).map(move |k| Count::of(heap, &[3, v, n, k, n])))
        .sum()
}

/// Counts sizes in and around their limits, each v with each n and each k.
pub fn sizes(heap: Global) -> Result<Count, AllocError> {
    (0..43).map(|v| count_sizes(heap, v)).sum()
}

// Counts bytes that must be refused with `fault`: where they are refused with another, the two ways count as different.
fn count_refused(heap: Global, bytes: &[u8], fault: TableFault) -> Result<Count, AllocError> {
    let told = Table::read(bytes).is_err_and(|told| told == fault);
    let mut verdict = Verdict::of(heap, bytes)?;
    if let Err(refused) = &mut verdict.plain {
        refused.same &= told;
    }
    Ok(Count::from(verdict))
}

/// Counts the sizes alone, for each v with as many record units as make `units`. Each list must be refused with
/// `fault`.
pub fn sums(heap: Global, units: u8, fault: TableFault) -> Result<Count, AllocError> {
    (2..41)
        .map(|v| {
            let n = units.saturating_sub(v);
            count_refused(heap, &[3, v, n, 2, n], fault)
        })
        .sum()
}
