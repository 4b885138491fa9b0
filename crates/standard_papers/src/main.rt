// The paper codes whose sizes ECMA-376's list decides (document 02, T-01), each upright and in landscape: the paper, and
// what is left of it by margins that are absent, by 3.5 inches on the left and on the right, and by margins of which a side
// is the limit. The file `stdout` has the answers of a second implementation, made from the standard's list.
#![tactic(auto)]

use arrayvec::ArrayVec;
use geometry::{Margins, PaperGeometry};
use std::io::Write;
use units::Fixed;

// Standard output.
const STDOUT: i32 = 1;

// The bytes that the lines of a paper have room for.
const LINES: usize = 4096;

// The codes whose sizes the standard decides.
const CODES: [u16; 5] = [12, 13, 24, 25, 26];

// Writes what margins leave of a paper: where the content, the header and the footer stand, and whether the margins held.
fn write_content<W: Write>(
    out: &mut W,
    name: &str,
    paper: PaperGeometry,
    margins: Option<Margins>,
) -> std::io::Result<()> {
    match geometry::content_geometry(paper, margins) {
        Ok(placed) => writeln!(out, "  {name}: {placed}"),
        Err(refusal) => writeln!(out, "  {name}: {refusal}"),
    }
}

// No margin at all.
const NONE: Margins = Margins {
    left: 0.0,
    right: 0.0,
    top: 0.0,
    bottom: 0.0,
    header: 0.0,
    footer: 0.0,
};

// A side and so many units more, in inches, times a number at or next to 1.
fn inches(side: Fixed, more: f64, times: f64) -> f64 {
    (std::num::nearest_i64_to_f64(side.raw()) + more) / 98304.0 * times
}

// Margins of such a length: two that share it, and header and footer alone.
fn write_limits<W: Write>(
    out: &mut W,
    paper: PaperGeometry,
    more: f64,
    times: f64,
) -> std::io::Result<()> {
    let half = inches(paper.width, more, times) / 2.0;
    write_content(
        out,
        "left and right",
        paper,
        Some(Margins {
            left: half,
            right: half,
            ..NONE
        }),
    )?;
    let height = inches(paper.height, more, times);
    let half = height / 2.0;
    write_content(
        out,
        "top and bottom",
        paper,
        Some(Margins {
            top: half,
            bottom: half,
            ..NONE
        }),
    )?;
    write_content(
        out,
        "header",
        paper,
        Some(Margins {
            header: height,
            ..NONE
        }),
    )?;
    write_content(
        out,
        "footer",
        paper,
        Some(Margins {
            footer: height,
            ..NONE
        }),
    )
}

fn write_paper<W: Write>(out: &mut W, code: u16, landscape: bool) -> std::io::Result<()> {
    let answer = geometry::paper_geometry(Some(code), landscape);
    let paper = answer.geometry;
    let lies = if landscape { "landscape" } else { "upright" };
    write!(out, "{} {lies}: ", paper.paper_code)?;
    writeln!(
        out,
        "{} {} {}",
        paper.width, paper.height, answer.unknown_paper
    )?;
    write_content(out, "absent", paper, None)?;
    write_content(
        out,
        "3.5 and 3.5 inches",
        paper,
        Some(Margins {
            left: 3.5,
            right: 3.5,
            ..NONE
        }),
    )?;
    writeln!(out, " a unit less than the side")?;
    write_limits(out, paper, -1.0, 1.0)?;
    writeln!(out, " the float below the side")?;
    write_limits(out, paper, 0.0, 0.9999999999999999)?;
    writeln!(out, " the side")?;
    write_limits(out, paper, 0.0, 1.0)?;
    writeln!(out, " the float above the side")?;
    write_limits(out, paper, 0.0, 1.0000000000000002)
}

// Prints the lines of a paper, which stand where those of the paper before stood.
fn print_paper(lines: &mut ArrayVec<u8, LINES>, code: u16, landscape: bool) {
    lines.clear();
    // They fit: 23 lines of at most eight numbers.
    let _ = write_paper(lines, code, landscape);
    io::write_all(STDOUT, lines);
}

fn main() {
    let mut lines = ArrayVec::new();
    for code in CODES {
        print_paper(&mut lines, code, false);
        print_paper(&mut lines, code, true);
    }
}
