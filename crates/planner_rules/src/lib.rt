// The types of page plans, and their definitions in `specs/`: document 01, sections "Titles", "Runs", "Scale" and "Pages".
#![tactic(auto)]

mod lists;
mod pages;
mod partition;
mod planning;
mod runs;
mod scale;
mod titles;

pub use lists::{AxisLists, MERGE_PART, MergeList, MergeTest, RunLists, SheetLists, SlotList};
pub use pages::{
    AreaPlan, AreaPlans, NoteNumbers, Notes, Page, PageOrder, PageRun, Place, Plan, Spot,
};
pub use partition::AxisSetup;
pub use planning::{
    AreaNotes, AxisRange, ContentSides, CountedArea, CountedAreas, FinalCut, Frames, PrintRange,
    Ready, ReadyArea, ReadyTitle, Request, RunCounts, Settings, Shared,
};
pub use runs::{Cut, Frame, RUN_NUMBERS, RunEnd, Tally};
pub use scale::{ChosenScale, Fit, PageSide, Stretch};
pub use titles::{Axis, Expanded, Normalized, Span, Title, Widened};
