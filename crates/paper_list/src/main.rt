// Compares the paper sizes here with ECMA-376's list, and writes a line for each code from 0 to 120 at which the two
// differ. Where they do, the size here is the Rust's.
#![tactic(auto)]

mod lists;
mod standard;

use arrayvec::ArrayVec;
use lists::{Finding, Tally};
use std::io::Write;

// Standard output.
const STDOUT: i32 = 1;

// The bytes that a line has room for.
const LINE: usize = 256;

// The last code that is compared.
const LAST: u16 = 120;

// Writes a line, where the two lists differ at the code.
fn write_difference<W: Write>(out: &mut W, code: u16, found: Finding) -> std::io::Result<()> {
    match found {
        Finding::Neither | Finding::Agree => Ok(()),
        Finding::AnotherSize(ours, theirs) => {
            writeln!(
                out,
                "{code} another size: {ours} here, {theirs} in the standard"
            )
        }
        Finding::NotHere(theirs) => writeln!(out, "{code} not here: {theirs} in the standard"),
        Finding::HereOnly(ours) => writeln!(out, "{code} here only: {ours}"),
    }
}

// Finds how a code stands, and writes its line, if it has one.
fn compare(code: u16) -> Finding {
    let found = Finding::of(code);
    let mut line = ArrayVec::<u8, LINE>::new();
    // It fits: a line has at most five numbers.
    let _ = write_difference(&mut line, code, found);
    io::write_all(STDOUT, &line);
    found
}

fn main() {
    let mut tally = Tally::default();
    // By number: neither list has a place for each code.
    for code in 0..=LAST {
        tally.count(compare(code));
    }
    let mut line = ArrayVec::<u8, LINE>::new();
    // It fits: four numbers.
    let _ = writeln!(line, "{tally}");
    io::write_all(STDOUT, &line);
}
