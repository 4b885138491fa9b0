// Runs: document 01, section "Runs".
use crate::titles::Title;

// How many numbers a run has in a list of runs: first, last, size, and 1 where a manual break stands before it.
pub const RUN_NUMBERS: usize = 4;

// What the runs of an axis go by: two capacities, the title, and the stretch that merges are clipped to. No `Stretch` in it: the
// definitions `capacity_at`, `taken`, `run_end` and `placed` would name one field more, for one function that then copies none (`frame_at`).
#[derive(Clone, Copy)]
pub struct Frame {
    pub untitled: u64,
    pub titled: u64,
    pub title: Title,
    pub lo: u32,
    pub hi: u32,
}

// Where a run ends: how many slots it has, and whether a merge took it further.
#[derive(Clone, Copy)]
pub struct RunEnd {
    pub slots: usize,
    pub grown: bool,
}

// The place of a cut, and whether a merge moved it.
#[derive(Clone, Copy)]
pub struct Cut {
    pub place: usize,
    pub shifted: bool,
}

// What an axis comes to: how many runs, expansions and shifts.
#[derive(Clone, Copy, Default)]
pub struct Tally {
    pub runs: usize,
    pub expansions: u64,
    pub shifts: u64,
}
