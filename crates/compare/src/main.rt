//! Holds the reader and the writer of tables to a second, plain implementation, on tables, on tables with damage, and
//! at the limits of the sizes.
#![tactic(auto)]

mod count;
mod damage;
mod edges;
mod held;
mod pairings;
mod pairs;
mod plain;
mod samples;
mod verdict;
mod writing;

use count::Count;
use samples::{BLOCKS_A, BLOCKS_F, table_bytes};
use std::io;
use table::{Grade, TableFault, table_d};

// Prints a count, and gives it.
fn tell(rt: &HostRuntime, what: &str, count: Count) -> io::Result<Count> {
    println!(rt; "  {what}: {count}")?;
    Ok(count)
}

// A table, damaged in each way.
fn damaged(rt: &HostRuntime, name: &str, bytes: &[u8]) -> io::Result<Count> {
    let heap = rt.alloc();
    println!(rt; "table {name}")?;
    let mut total = tell(
        rt,
        "each byte set to each value",
        damage::changes(heap, bytes)?,
    )?;
    total += tell(
        rt,
        "each front, from none to all",
        damage::fronts(heap, bytes)?,
    )?;
    total += tell(rt, "with a byte more", damage::appends(heap, bytes)?)?;
    Ok(total)
}

// Sizes at their limits.
fn limits(rt: &HostRuntime) -> io::Result<Count> {
    let heap = rt.alloc();
    let short = TableFault::Short { length: 5 };
    let size = TableFault::Size { at: 2 };
    println!(rt; "sizes")?;
    let mut total = tell(rt, "v to 42, n to 66, k to 10", edges::sizes(heap)?)?;
    total += tell(rt, "n + v = 64, SHORT at 5", edges::sums(heap, 64, short)?)?;
    total += tell(rt, "n + v = 65, SIZE at 2", edges::sums(heap, 65, size)?)?;
    Ok(total)
}

// Tables whose blocks are pairs.
fn paired(rt: &HostRuntime) -> io::Result<Count> {
    let heap = rt.alloc();
    println!(rt; "tables of pairs")?;
    let mut total = tell(rt, "n + v = 64, grade 1", pairings::largest(heap)?)?;
    total += tell(rt, "all pairs of v points", pairings::whole(heap)?)?;
    total += tell(rt, "all but one, each in turn", pairings::left_out(heap)?)?;
    total += tell(rt, "each in the place of each", pairings::repeated(heap)?)?;
    Ok(total)
}

fn main(rt: HostRuntime) -> io::Result<()> {
    let heap = rt.alloc();
    let table_a = table_bytes(heap, 9, &BLOCKS_A, Grade::Steiner)?;
    let table_f = table_bytes(heap, 7, &BLOCKS_F, Grade::Steiner)?;
    let mut total = damaged(&rt, "D", &table_d())?;
    total += damaged(&rt, "A", table_a.as_slice())?;
    total += damaged(&rt, "F", table_f.as_slice())?;
    total += limits(&rt)?;
    total += paired(&rt)?;
    let Count {
        compared,
        held,
        differ,
        ..
    } = total;
    println!(rt; "{held}\n{compared} compared, {differ} differ")
}
