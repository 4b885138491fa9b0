// Answers lines of input. A line is a letter, a head, lists, and a line end.
//
//     t   planner_titles::widen_title, of the title and the merges of an axis; its other lists are empty
//     r   planner::partition_axis_with_breaks; the lent list is answered whole, after a `;`
//     p   planner::plan_pages; the lent lists are answered whole, and then pages by planner_pages::page_numbered, each after a `;` and its number
//     n   planner_pages::page_numbered, of a plan that is not as it was answered
use crate::axes::{RunsCase, TitleCase};
use crate::fields::{Fault, read_byte, read_end};
use crate::numbered::PageCase;
use crate::plans::PlanCase;
use arrayvec::ArrayVec;
use std::io::Write;

// Standard output.
const STDOUT: i32 = 1;

// The bytes that an answer has room for.
const LINE: usize = 8192;

// What a line of a letter asks.
pub(crate) trait Case: Drop {
    // Reads what follows the letter.
    fn read() -> Result<Self, Fault>
    where
        Self: Sized;

    // Asks, and writes the answer.
    fn answer<W: Write>(&mut self, out: &mut W) -> std::io::Result<()>;
}

// A line that has no letter of these.
#[derive(Drop)]
struct BadLetter;

impl Case for BadLetter {
    fn read() -> Result<Self, Fault> {
        Ok(BadLetter)
    }

    fn answer<W: Write>(&mut self, out: &mut W) -> std::io::Result<()> {
        writeln!(out, "bad letter")
    }
}

// Reads a case to the end of its line, and answers it. What does not fit is left out. Not inlined: a line of one letter would pay for the room
// of all.
#[inline(never)]
fn answer<C: Case>(line: &mut ArrayVec<u8, LINE>) -> Result<(), Fault> {
    let mut case = C::read()?;
    read_end()?;
    let _ = case.answer(line);
    Ok(())
}

fn answer_letter(letter: u8, line: &mut ArrayVec<u8, LINE>) -> Result<(), Fault> {
    match letter {
        b't' => answer::<TitleCase>(line),
        b'r' => answer::<RunsCase>(line),
        b'p' => answer::<PlanCase>(line),
        b'n' => answer::<PageCase>(line),
        _ => answer::<BadLetter>(line),
    }
}

// Answers line after line, up to the first that is none. No more is read than a line's letter and lengths say, and a line is answered before
// the next is read.
pub(crate) fn answer_all() {
    io::write_all(STDOUT, b"list\n");
    let mut line = ArrayVec::<u8, LINE>::new();
    // Nothing says that the input ends, so the loop counts its turns, up to a number that no run reaches.
    for _ in 0..u64::MAX {
        let Some(letter) = read_byte() else {
            break;
        };
        line.clear();
        if answer_letter(letter, &mut line).is_err() {
            io::write_all(STDOUT, b"bad line\n");
            break;
        }
        io::write_all(STDOUT, &line);
    }
}
