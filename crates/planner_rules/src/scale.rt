// Scale: document 01, section "Scale".
use crate::titles::Title;
use units::Fixed;

// A scale in thousandths, and how many there are of its two notes: counts of 0 or 1, which are added up over the areas; a bool would be turned back
// into a count.
#[derive(Clone, Copy)]
pub struct ChosenScale {
    pub permille: u16,
    pub clamp: u64,
    pub unreachable: u64,
}

// What an axis has on a page: the content side, the headings, and the title's total.
#[derive(Clone, Copy)]
pub struct PageSide {
    pub side: Fixed,
    pub headings: u64,
    pub titles: u64,
}

// The title of an axis, and the stretch that its merges are clipped to.
#[derive(Clone, Copy)]
pub struct Stretch {
    pub title: Title,
    pub lo: u32,
    pub hi: u32,
}

// An axis to be fitted: its page, its stretch, and the most runs that it may have, 0 for any number. No `Option`: the records FW and FH write the
// 0, and so each definition of fit reads it (`meets`).
#[derive(Clone, Copy)]
pub struct Fit {
    pub page: PageSide,
    pub stretch: Stretch,
    pub target: u16,
}
