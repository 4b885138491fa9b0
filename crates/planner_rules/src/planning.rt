// What the plan call takes and answers: document 01, sections "Scale" and "Pages".
use crate::pages::{AreaPlan, AreaPlans, PageOrder};
use crate::runs::Frame;
use crate::scale::Fit;
use crate::titles::{Title, Widened};
use geometry::Margins;
use units::Fixed;

// How areas are printed. A target is the most pages in a direction, 0 for any number. Not an enum of fitting and of a percent: the definition of an
// axis reads its target whatever `fit` is.
#[derive(Clone, Copy)]
pub struct Settings {
    pub paper: Option<u16>,
    pub landscape: bool,
    pub margins: Option<Margins>,
    pub percent: Option<u16>,
    pub fit: bool,
    pub fit_width: Option<u16>,
    pub fit_height: Option<u16>,
    pub order: PageOrder,
    pub headings: bool,
    pub page_limit: u64,
    // The most cells that may lie in at least one area.
    pub cell_limit: Option<u64>,
}

// An area of the sheet. Not one type with the `Range` of a record, whose columns are u16 as its bytes are: one of both would be generic over its
// columns, and would stand below the planner and the records, which know nothing of each other: in `units`, which has no cells.
#[derive(Clone, Copy, Default)]
pub struct PrintRange {
    pub first_row: u32,
    pub first_column: u32,
    pub last_row: u32,
    pub last_column: u32,
}

// What is asked of a plan beside its lists: settings, areas, one to eight in job order, and titles.
#[derive(Clone, Copy)]
pub struct Request<'a> {
    pub settings: Settings,
    pub areas: &'a [PrintRange],
    pub row_title: Title,
    pub column_title: Title,
}

// How many runs of rows and of columns. A pair of its own: as at `SheetLists`.
#[derive(Clone, Copy, Default)]
pub struct RunCounts {
    pub rows: usize,
    pub columns: usize,
}

// An axis of an area, as the settings make it. Its target is 0 for any number, as that of a `Fit`.
#[derive(Clone, Copy)]
pub struct AxisRange {
    pub limit: u32,
    pub first: u32,
    pub last: u32,
    pub title: Title,
    pub headings: u64,
    pub target: u16,
}

// A title of the job: as it was asked for, as merges widened it, and its total.
#[derive(Clone, Copy)]
pub struct ReadyTitle {
    pub asked: Title,
    pub widened: Widened,
    pub total: u64,
}

// An axis of an area that is ready to be cut: what it is fitted by, and where its body stands among the slots.
#[derive(Clone, Copy)]
pub struct Ready {
    pub fit: Fit,
    pub from: usize,
    pub to: usize,
}

// Both axes of an area, ready to be cut.
#[derive(Clone, Copy)]
pub struct ReadyArea {
    pub range: PrintRange,
    pub rows: Ready,
    pub columns: Ready,
}

// What the runs of both its axes go by at a permille. A pair of its own: as at `SheetLists`.
#[derive(Clone, Copy)]
pub struct Frames {
    pub rows: Frame,
    pub columns: Frame,
}

// The final cut of an axis: how many runs its pages are made of, whether its body is empty, and the notes on the cut. No `Tally` in it: its runs are at
// least one, where those of a tally may be none.
#[derive(Clone, Copy)]
pub struct FinalCut {
    pub runs: usize,
    pub empty: bool,
    pub expansions: u64,
    pub shifts: u64,
    pub overflows: u64,
}

// The notes that add up over the areas.
#[derive(Clone, Copy, Default)]
pub struct AreaNotes {
    pub clamped: u64,
    pub unreachable: u64,
    pub expansions: u64,
    pub shifts: u64,
    pub overflows: u64,
}

// What an area was counted to.
#[derive(Clone, Copy)]
pub struct CountedArea {
    pub area: AreaPlan,
    pub notes: AreaNotes,
}

// What the areas were counted to: each, all their runs of rows and of columns, their pages and their notes.
#[derive(Clone, Copy)]
pub struct CountedAreas {
    pub areas: AreaPlans,
    pub rows: usize,
    pub columns: usize,
    pub pages: u64,
    pub notes: AreaNotes,
}

// The sides of the content, and how many notes there are on paper and on margins: counts of 0 or 1, as a plan has them, for which a bool would be
// turned back into a count.
#[derive(Clone, Copy)]
pub struct ContentSides {
    pub width: Fixed,
    pub height: Fixed,
    pub unknown: u64,
    pub invalid: u64,
}

// What all areas share: how they are printed, the content's sides, and both titles.
#[derive(Clone, Copy)]
pub struct Shared {
    pub settings: Settings,
    pub sides: ContentSides,
    pub rows: ReadyTitle,
    pub columns: ReadyTitle,
}
