//! Reads tables from standard input, one a line: a name, a colon and the bytes in decimal. For each it asks the layout,
//! with every set of up to five missing units, how every unit is read back, and holds the answers to what the table's
//! blocks say. Counts the records that cannot be read back.
#![tactic(auto)]

mod choice;
mod rank;
mod tally;
mod trial;
mod unread;
mod witness;

use choice::{Choice, larger};
use std::alloc::Global;
use std::io;
use table::Table;
use tally::{Line, Tally};
use trial::Trial;
use unread::Unread;

/// The most units that are missing at a time.
const MOST: usize = 5;

/// The names of the columns of a line.
const COLUMNS: &str = "  missing     sets  recipes   losses  unreadable records  in sets";

// Asks with all missing sets, and prints a line for each size.
fn survey_sizes(rt: &HostRuntime, trial: &Trial) -> io::Result<Tally> {
    let heap = rt.alloc();
    let units = trial.units();
    let mut total = Tally::default();
    let mut choices = vec![in heap; Choice::default()]?;
    for size in 0..=MOST.min(units) {
        let tally = trial.ask_all(choices.as_slice());
        rt.println(Line { size, tally })?;
        total += tally;
        choices = larger(heap, choices.as_slice(), units)?;
    }
    Ok(total)
}

// Prints a table's part of the output.
fn survey_table(rt: &HostRuntime, name: &str, table: Table) -> io::Result<Tally> {
    let trial = Trial::new(table);
    let v = table.v();
    let n = table.n();
    let k = table.k();
    let grade = u8::from(table.grade());
    let units = trial.units();
    println!(rt; "{name}: v {v}, n {n}, k {k}, grade {grade}, {units} units\n{COLUMNS}")?;
    let tally = survey_sizes(rt, &trial)?;
    let Tally { sets, related, .. } = tally;
    println!(rt; "  relations: right and enough for {related} of {sets} missing sets")?;
    Ok(tally)
}

// The table whose bytes the words write in decimal.
fn read(heap: Global, words: &str) -> Result<Table, Unread> {
    let bytes: Vec<u8> = words
        .split_whitespace()
        .map(|word| word.parse::<u8>().map_err(Unread::from))
        .try_collect(heap)?;
    Ok(Table::read(bytes.as_slice())?)
}

// Prints the part of a line: the name of a table, a colon and its bytes.
fn survey_line(rt: &HostRuntime, line: &str) -> io::Result<Tally> {
    let (name, words) = line.split_once(':').unwrap_or(("table", line));
    match read(rt.alloc(), words) {
        Ok(table) => survey_table(rt, name, table),
        Err(Unread::Memory(e)) => Err(e.into()),
        Err(Unread::NoTable) => {
            println!(rt; "{name}: no table")?;
            Ok(Tally::default())
        }
    }
}

fn main(rt: HostRuntime) -> io::Result<()> {
    let mut total = Tally::default();
    for line in rt.lines(rt.alloc()) {
        total += survey_line(&rt, line?.as_str())?;
    }
    let Tally { answers, wrong, .. } = total;
    println!(rt; "{answers} answers checked, {wrong} wrong")
}
