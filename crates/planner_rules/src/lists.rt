// The lists that a plan is made of, side by side: document 01, sections "Titles" and "Runs".
ghost use Rattle.std.specs.Prelude.{◌≡◌, ℕ, Bool};
ghost use Rattle.planner_rules.specs.Titles.{no_merge};

// The measured slots of an axis, or a stretch of them: their indexes and their sizes. Two slices and not one of pairs, as hosts lend them and document
// 01 has it: question 6 asks whether slices that make up one list are equally long. Merges are two likewise.
#[derive(Clone, Copy)]
pub struct SlotList<'a> {
    pub indexes: &'a [u32],
    pub sizes: &'a [u64],
}

// So many merges are asked at once whether one of them is as a test says.
pub const MERGE_PART: usize = 32;

// The merges of an axis: their first and their last indexes.
#[derive(Clone, Copy)]
pub struct MergeList<'a> {
    pub firsts: &'a [u32],
    pub lasts: &'a [u32],
}

// What is asked of a merge from a first to a last index. A trait, since a closure would have to be callable, and no public call requires anything.
pub trait MergeTest {
    ghost says: { Self → ℕ → ℕ → Bool };

    fn says(&self, first: u32, last: u32) -> bool
        ensures { result ≡ says self.now first last };
}

impl MergeList<'_> {
    // Whether no merge is as the test says: all are asked, so that there is no branch on what one of them answers.
    #[inline(always)]
    pub fn none<T: MergeTest>(self, test: &T) -> bool
        ensures { result ≡ no_merge (T.says test.now) self.entry.firsts.now self.entry.lasts.now }
    {
        let MergeList { firsts, lasts } = self;
        let mut none = true;
        // By number: over a zip the plan of merged pairs misses its bar, for by lists its time, by the Rust's, is 20 to 30 percent above what it was.
        for i in 0..firsts.len().min(lasts.len()) {
            none = !test.says(firsts[i], lasts[i]) & none;
        }
        none
    }
}

// What is handed over of an axis: its measured slots, its merges and its manual breaks.
#[derive(Clone, Copy)]
pub struct AxisLists<'a> {
    pub slots: SlotList<'a>,
    pub merges: MergeList<'a>,
    pub breaks: &'a [u32],
}

// What is handed over of a sheet. A merge has its rows in one axis and its columns in the other, at the same place. `RunLists`,
// `RunCounts` and `Frames` are such pairs too, and not one generic `Axes<T>`: no function is for two of them, and a definition or a clause, which tells
// from the name what a pair holds, would have to give its type.
#[derive(Clone, Copy)]
pub struct SheetLists<'a> {
    pub rows: AxisLists<'a>,
    pub columns: AxisLists<'a>,
}

// The runs of a plan, or of an area, as they were written: of the rows and of the columns, `RUN_NUMBERS` numbers a run. A pair of
// its own: as at `SheetLists`.
#[derive(Clone, Copy)]
pub struct RunLists<'a> {
    pub rows: &'a [u64],
    pub columns: &'a [u64],
}
