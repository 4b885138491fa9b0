// The worked figures of document 01, section "Paper and content".
use crate::figures::say;
use geometry::{ContentGeometry, Margins, Paper, PaperGeometry};
use job_records::float;
use std::io;
use std::io::Write;
use units::{Fixed, Rect, Refusal};

// What margins leave of a paper, or the refusal.
type Answer = Result<ContentGeometry, Refusal>;

fn upright(code: u16) -> Paper {
    geometry::paper_geometry(Some(code), false)
}

fn landscape(code: u16) -> Paper {
    geometry::paper_geometry(Some(code), true)
}

fn is(answer: Paper, code: u16, width: i64, height: i64, note: u64) -> bool {
    let geometry = PaperGeometry {
        paper_code: code,
        width: Fixed::from_raw(width),
        height: Fixed::from_raw(height),
    };
    answer
        == Paper {
            geometry,
            unknown_paper: note,
        }
}

fn paper_figures<W: Write>(out: &mut W) -> io::Result<()> {
    let absent = geometry::paper_geometry(None, false);
    say(out, "paper absent", is(absent, 1, 835584, 1081344, 0))?;
    say(out, "paper 1", is(upright(1), 1, 835584, 1081344, 0))?;
    say(
        out,
        "paper 1 landscape",
        is(landscape(1), 1, 1081344, 835584, 0),
    )?;
    say(out, "paper 9", is(upright(9), 9, 812750, 1149460, 0))?;
    say(
        out,
        "paper 9 landscape",
        is(landscape(9), 9, 1149460, 812750, 0),
    )?;
    say(out, "paper 32", is(upright(32), 1, 835584, 1081344, 1))?;
    say(
        out,
        "paper 32 landscape",
        is(landscape(32), 1, 1081344, 835584, 1),
    )?;
    say(out, "paper 43", is(upright(43), 43, 387024, 572795, 0))?;
    say(out, "paper 0", is(upright(0), 1, 835584, 1081344, 1))?;
    say(
        out,
        "paper 65535",
        is(upright(65535), 1, 835584, 1081344, 1),
    )?;
    Ok(())
}

fn letter() -> PaperGeometry {
    upright(1).geometry
}

// No margin at all. `standard_papers` has it too: a library of both programs' would be longer than it is.
const NONE: Margins = Margins {
    left: 0.0,
    right: 0.0,
    top: 0.0,
    bottom: 0.0,
    header: 0.0,
    footer: 0.0,
};

fn on_letter(margins: Margins) -> Answer {
    geometry::content_geometry(letter(), Some(margins))
}

fn box_is(answer: Answer, x: i64, y: i64, width: i64, height: i64) -> bool {
    let rect = Rect {
        x: Fixed::from_raw(x),
        y: Fixed::from_raw(y),
        width: Fixed::from_raw(width),
        height: Fixed::from_raw(height),
    };
    answer.is_ok_and(|placed| placed.content == rect)
}

fn lines_are(answer: Answer, header: i64, footer: i64) -> bool {
    answer.is_ok_and(|placed| placed.header_y == Fixed::from_raw(header)
        && placed.footer_y == Fixed::from_raw(footer))
}

fn note_is(answer: Answer, note: u64) -> bool {
    answer.is_ok_and(|placed| placed.invalid_margins == note)
}

// Whether the answer is Letter with the default margins, all six numbers.
fn default_letter(answer: Answer) -> bool {
    box_is(answer, 68813, 73728, 697958, 933888) && lines_are(answer, 29491, 1035469)
}

fn holds(answer: Answer) -> bool {
    note_is(answer, 0)
}

fn falls_back(answer: Answer) -> bool {
    default_letter(answer) && note_is(answer, 1)
}

fn sum_figures<W: Write>(out: &mut W) -> io::Result<()> {
    say(
        out,
        "margins 4.25 and 4.25",
        falls_back(on_letter(Margins {
            left: 4.25,
            right: 4.25,
            ..NONE
        })),
    )?;
    say(
        out,
        "margins 4.25 and 4.2499",
        holds(on_letter(Margins {
            left: 4.25,
            right: 4.2499,
            ..NONE
        })),
    )?;
    say(
        out,
        "margins 5.5 over 5.5",
        falls_back(on_letter(Margins {
            top: 5.5,
            bottom: 5.5,
            ..NONE
        })),
    )?;
    say(
        out,
        "margins 5.5 over 5.4999",
        holds(on_letter(Margins {
            top: 5.5,
            bottom: 5.4999,
            ..NONE
        })),
    )?;
    say(
        out,
        "header 11",
        falls_back(on_letter(Margins {
            header: 11.0,
            ..NONE
        })),
    )?;
    say(
        out,
        "header 10.99",
        holds(on_letter(Margins {
            header: 10.99,
            ..NONE
        })),
    )?;
    say(
        out,
        "footer 11",
        falls_back(on_letter(Margins {
            footer: 11.0,
            ..NONE
        })),
    )?;
    say(
        out,
        "footer 10.99",
        lines_are(
            on_letter(Margins {
                footer: 10.99,
                ..NONE
            }),
            0,
            -15401,
        ),
    )?;
    Ok(())
}

fn sign_figures<W: Write>(out: &mut W) -> io::Result<()> {
    say(out, "margins 0", holds(on_letter(NONE)))?;
    say(
        out,
        "left -0",
        holds(on_letter(Margins { left: -0.0, ..NONE })),
    )?;
    say(
        out,
        "left -0.1",
        falls_back(on_letter(Margins { left: -0.1, ..NONE })),
    )?;
    say(
        out,
        "right nan",
        falls_back(on_letter(Margins {
            right: f64::NAN,
            ..NONE
        })),
    )?;
    say(
        out,
        "top -infinity",
        falls_back(on_letter(Margins {
            top: f64::NEG_INFINITY,
            ..NONE
        })),
    )?;
    say(
        out,
        "bottom infinity",
        falls_back(on_letter(Margins {
            bottom: f64::INFINITY,
            ..NONE
        })),
    )?;
    say(
        out,
        "header nan",
        falls_back(on_letter(Margins {
            header: f64::NAN,
            ..NONE
        })),
    )?;
    say(
        out,
        "footer -0.1",
        falls_back(on_letter(Margins {
            footer: -0.1,
            ..NONE
        })),
    )?;
    Ok(())
}

// Margins that hold leave a width of -1: sum and products round apart.
fn below_zero() -> bool {
    let paper = upright(70);
    let margins = Margins {
        left: float(0x3fc3_5a2a_aaaa_aaab),
        right: float(0x400f_dc82_aaaa_aaaa),
        ..NONE
    };
    let answer = geometry::content_geometry(paper.geometry, Some(margins));
    box_is(answer, 14863, 0, -1, 572795) && holds(answer)
}

pub(crate) fn all_figures<W: Write>(out: &mut W) -> io::Result<()> {
    paper_figures(out)?;
    let absent = geometry::content_geometry(letter(), None);
    say(
        out,
        "margins absent on Letter",
        default_letter(absent) && holds(absent),
    )?;
    sum_figures(out)?;
    sign_figures(out)?;
    say(out, "width -1 on 70", below_zero())?;
    Ok(())
}
