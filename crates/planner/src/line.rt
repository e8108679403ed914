ghost use Rattle.std.specs.Prelude.{◌≡◌, Err, IfOk, IsUtf8, MatchResult, vec_items};
ghost use Rattle.planner.specs.declared.rejection.Rejection.TheVariants.{NoBytes};
ghost use Rattle.planner.specs.Judged.{Judged, Became};

use crate::advice::Advice;
use crate::listing::{BadWord, bytes_of};
use crate::reading::Reading;
use crate::rejection::Rejection;
use crate::summary::Summary;
use std::alloc::{AllocError, Global};
use table::Table;

/// Reads a line. What is no text in it is part of a word, and no number. A rejection is an answer like any other: only
/// the outer error, that memory ran out, ends the run.
pub fn judge(heap: Global, line: &[u8]) -> Result<Result<Summary, Rejection>, AllocError>
    ensures { IfOk result (λ o. IsUtf8 line.now → Became line.now o) }
{
    let text = String::from_utf8_lossy(heap, line)?;
    let listed = bytes_of(heap, &text)?;
    Ok(judge_listed(listed))
}

// Reads what a line lists as a table.
fn judge_listed(listed: Result<Vec<u8>, BadWord>) -> Result<Summary, Rejection>
    ensures { MatchResult listed (λ v. Judged (vec_items v) result) (λ bad. result ≡ Err (NoBytes bad)) }
{
    let bytes = listed?;
    let table = Table::read(&bytes).map_err(|fault| Rejection::Refused {
        size: bytes.len(),
        fault,
        advice: Advice::of(Reading { bytes: &bytes }, fault),
    })?;
    Ok(Summary::of(&table, &bytes))
}
