//! What a planner does before a rack is ordered: reads unit tables from standard input, one a line, as decimal bytes
//! with spaces between them, and says of each what it is, or what is wrong with it and how to mend it.
#![tactic(auto)]

mod advice;
mod line;
mod listing;
mod place;
mod points;
mod reading;
mod rejection;
mod summary;
mod tally;
mod word;

use line::judge;
use std::io;
use std::io::{BufRead, BufReader};
use tally::Tally;

fn main(rt: HostRuntime) -> io::Result<()> {
    let heap = rt.alloc();
    let mut tally = Tally::new();
    for line in BufReader::new(heap, rt.stdin())?.split(heap, b'\n') {
        let became = judge(heap, &line?)?;
        tally.count(&became);
        let number = tally.lines();
        match became {
            Ok(summary) => println!(rt; "line {number}: {summary}")?,
            Err(rejection) => println!(rt; "line {number}: {rejection}")?,
        }
    }
    println!(rt; "{tally}")
}
