// Answers lines of input. A line is a letter, eight fields of a space and 16 hexadecimal digits, and a line end; fields
// that a letter does not use are zeros. An i64 stands as two's complement, an f64 as its bits.
//
//     i  inches_to_fixed    inches
//     c  unscaled_capacity  side, permille, titles, headings
//     s  scale_fixed        size, permille
//     p  paper_geometry     0 absent or 1 given, code, landscape 0 or 1
//     m  content_geometry   width, height, left, right, top, bottom, header, footer
//     a  content_geometry   width, height; margins absent
use crate::STDOUT;
use arrayvec::ArrayVec;
use geometry::{Margins, Paper, PaperGeometry};
use hexadecimal::{bits, digit};
use job_records::{float, signed};
use std::fmt::Display;
use std::io::Write;
use units::{Fixed, Refusal};

// Standard input.
const STDIN: i32 = 0;

// The bytes of a line with its line end, and those that an answer has room for.
const LINE: usize = 138;

const ANSWER: usize = 256;

// The bits of the eight fields of a line.
type Fields = [u64; 8];

// The bits of a field with its space.
fn field(text: &[u8]) -> Option<u64> {
    let (space, digits) = text.split_first()?;
    let formed = *space == b' ' && digits.iter().all(|byte| digit(*byte).is_some());
    formed.then_some(bits(digits))
}

// The fields of a line, if it is well formed.
fn fields(line: &[u8; LINE]) -> Option<Fields> {
    let mut all = [0; 8];
    for (value, text) in all.iter_mut().zip(line[1..LINE - 1].chunks_exact(17)) {
        *value = field(text)?;
    }
    (line[LINE - 1] == b'\n').then_some(all)
}

fn fixed(bits: u64) -> Fixed {
    Fixed::from_raw(signed(bits))
}

// A field's last 16 bits.
fn small(bits: u64) -> u16 {
    (bits % 65536) as u16
}

// What a line asks.
enum Case {
    Inches {
        inches: f64,
    },
    Capacity {
        side: Fixed,
        permille: u16,
        titles: Fixed,
        headings: Fixed,
    },
    Scaled {
        size: Fixed,
        permille: u16,
    },
    Paper {
        code: Option<u16>,
        landscape: bool,
    },
    Content {
        paper: PaperGeometry,
        margins: Option<Margins>,
    },
}

// The paper of the first two fields, of which a content has the sides alone.
fn paper(fields: &Fields) -> PaperGeometry {
    PaperGeometry {
        paper_code: 0,
        width: fixed(fields[0]),
        height: fixed(fields[1]),
    }
}

// The margins of the last six fields.
fn margins(fields: &Fields) -> Margins {
    Margins {
        left: float(fields[2]),
        right: float(fields[3]),
        top: float(fields[4]),
        bottom: float(fields[5]),
        header: float(fields[6]),
        footer: float(fields[7]),
    }
}

// What a letter asks of its fields.
fn asked(letter: u8, fields: &Fields) -> Option<Case> {
    match letter {
        b'i' => Some(Case::Inches {
            inches: float(fields[0]),
        }),
        b'c' => Some(Case::Capacity {
            side: fixed(fields[0]),
            permille: small(fields[1]),
            titles: fixed(fields[2]),
            headings: fixed(fields[3]),
        }),
        b's' => Some(Case::Scaled {
            size: fixed(fields[0]),
            permille: small(fields[1]),
        }),
        b'p' => Some(Case::Paper {
            code: (fields[0] > 0).then_some(small(fields[1])),
            landscape: fields[2] > 0,
        }),
        b'm' => Some(Case::Content {
            paper: paper(fields),
            margins: Some(margins(fields)),
        }),
        b'a' => Some(Case::Content {
            paper: paper(fields),
            margins: None,
        }),
        _ => None,
    }
}

// The case of a line, if it is well formed.
fn read(line: &[u8; LINE]) -> Option<Case> {
    asked(line[0], &fields(line)?)
}

// A value, or the number of its refusal.
fn write_answer<W: Write, T: Display + Drop>(
    out: &mut W,
    answer: Result<T, Refusal>,
) -> std::io::Result<()> {
    match answer {
        Ok(value) => writeln!(out, "{value}"),
        Err(refusal) => writeln!(out, "{refusal}"),
    }
}

fn write_paper<W: Write>(out: &mut W, answer: Paper) -> std::io::Result<()> {
    let paper = answer.geometry;
    write!(out, "{} {} ", paper.paper_code, paper.width)?;
    writeln!(out, "{} {}", paper.height, answer.unknown_paper)
}

fn answer<W: Write>(out: &mut W, case: Case) -> std::io::Result<()> {
    match case {
        Case::Inches { inches } => write_answer(out, units::inches_to_fixed(inches)),
        Case::Capacity {
            side,
            permille,
            titles,
            headings,
        } => {
            write_answer(
                out,
                units::unscaled_capacity(side, permille, titles, headings),
            )
        }
        Case::Scaled { size, permille } => write_answer(out, units::scale_fixed(size, permille)),
        Case::Paper { code, landscape } => write_paper(
            out,
            geometry::paper_geometry(code, landscape),
        ),
        Case::Content { paper, margins } => write_answer(
            out,
            geometry::content_geometry(paper, margins),
        ),
    }
}

// Answers line after line, up to the first that is cut off. No more is read than a line, and it is answered before the next is read.
pub(crate) fn answer_all() {
    // Nothing says that the input ends, so the loop counts its turns, up to a number that no run reaches.
    for _ in 0..u64::MAX {
        let mut line = [0; LINE];
        if io::read_full(STDIN, &mut line) < LINE {
            break;
        }
        let mut out = ArrayVec::<u8, ANSWER>::new();
        // It fits: an answer has at most seven numbers.
        let _ = match read(&line) {
            Some(case) => answer(&mut out, case),
            None => writeln!(out, "bad line"),
        };
        io::write_all(STDOUT, &out);
    }
}
