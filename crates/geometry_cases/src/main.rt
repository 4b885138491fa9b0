// Answers the worked figures of document 01, sections "Units" and "Paper and content", by a line each, `ok` or `bad`; and
// then a list of inputs on standard input, by a line each. The file `stdout` has the Rust's answers to the list in `stdin`.
#![tactic(auto)]

mod figures;
mod lengths;
mod paper;
mod replay;

use arrayvec::ArrayVec;
use std::io::Write;

// Standard output.
const STDOUT: i32 = 1;

// The bytes that the figures have room for.
const FIGURES: usize = 4096;

fn write_figures<W: Write>(out: &mut W) -> std::io::Result<()> {
    lengths::all_figures(out)?;
    paper::all_figures(out)?;
    writeln!(out, "list")
}

fn main() {
    let mut figures = ArrayVec::<u8, FIGURES>::new();
    // They all fit.
    let _ = write_figures(&mut figures);
    io::write_all(STDOUT, &figures);
    replay::answer_all();
}
