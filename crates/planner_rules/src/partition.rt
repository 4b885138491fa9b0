// What the cut of an axis into lent lists takes: document 01, section "Runs".
use crate::titles::Title;

// A range of an axis, its title as it was widened, and what fits on a page without and with the title. No `Frame`, for all that their types are alike:
// `first` is where the range starts, and a frame's `lo` where the body does, behind the title.
#[derive(Clone, Copy)]
pub struct AxisSetup {
    pub first: u32,
    pub last: u32,
    pub title: Title,
    pub untitled: u64,
    pub titled: u64,
}
