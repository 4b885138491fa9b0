// How a paper code stands in the two lists.
use crate::standard::{SIZES, Size};
use std::fmt;
use std::fmt::Write;
use units::{Fixed, inches_to_fixed};

// A paper's sides.
#[derive(Clone, Copy, PartialEq, Eq)]
pub struct Sides {
    width: Fixed,
    height: Fixed,
}

impl fmt::Display for Sides {
    fn fmt<W: fmt::Write>(&self, f: &mut fmt::Formatter<W>) -> fmt::Result {
        write!(f, "{} x {}", self.width, self.height)
    }
}

// How a code stands, with the sizes of the lists that have it where they differ: ours, and the standard's.
#[derive(Clone, Copy)]
pub enum Finding {
    Neither,
    Agree,
    AnotherSize(Sides, Sides),
    NotHere(Sides),
    HereOnly(Sides),
}

impl Finding {
    // What the two lists say of a code.
    pub fn of(code: u16) -> Self {
        match (here(code), in_the_standard(code)) {
            (None, None) => Self::Neither,
            (None, Some(theirs)) => Self::NotHere(theirs),
            (Some(ours), None) => Self::HereOnly(ours),
            (Some(ours), Some(theirs)) if ours == theirs => Self::Agree,
            (Some(ours), Some(theirs)) => Self::AnotherSize(ours, theirs),
        }
    }
}

// At how many codes the lists stand so. No count passes 255: there are 121 codes.
#[derive(Clone, Copy, Default)]
pub struct Tally {
    agree: u8,
    another_size: u8,
    not_here: u8,
    here_only: u8,
}

impl Tally {
    pub fn count(&mut self, found: Finding) {
        let kind = match found {
            Finding::Neither => return,
            Finding::Agree => &mut self.agree,
            Finding::AnotherSize(_, _) => &mut self.another_size,
            Finding::NotHere(_) => &mut self.not_here,
            Finding::HereOnly(_) => &mut self.here_only,
        };
        *kind = kind.saturating_add(1);
    }
}

impl fmt::Display for Tally {
    fn fmt<W: fmt::Write>(&self, f: &mut fmt::Formatter<W>) -> fmt::Result {
        write!(
            f,
            "{} agree, {} of another size, ",
            self.agree, self.another_size
        )?;
        write!(
            f,
            "{} not here, {} here only",
            self.not_here, self.here_only
        )
    }
}

// A size as lengths; none of the standard's list overflows.
fn in_units(size: Size) -> Option<Sides> {
    let (width, height) = match size {
        Size::Inches(width, height) => (width as f64 / 1000.0, height as f64 / 1000.0),
        Size::Millimetres(width, height) => (width as f64 / 25.4, height as f64 / 25.4),
    };
    Some(Sides {
        width: inches_to_fixed(width).ok()?,
        height: inches_to_fixed(height).ok()?,
    })
}

fn in_the_standard(code: u16) -> Option<Sides> {
    let size = *SIZES.get(code as usize)?;
    in_units(size?)
}

fn here(code: u16) -> Option<Sides> {
    let answer = geometry::paper_geometry(Some(code), false);
    let paper = answer.geometry;
    (answer.unknown_paper == 0).then_some(Sides {
        width: paper.width,
        height: paper.height,
    })
}
