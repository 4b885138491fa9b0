// Pages: document 01, section "Pages".
ghost use Rattle.std.specs.Prelude.{◌≡◌, ◌<◌, []};
ghost use Rattle.planner_rules.specs.Areas.{plans_in, held_plans};
ghost use Rattle.planner_rules.specs.Pages as section;

#[derive(Clone, Copy)]
pub enum PageOrder {
    DownThenOver,
    OverThenDown,
}

// Whether pages go over, then down.
impl From<bool> for PageOrder {
    ghost from_gives = { λ over_then_down order. order ≡ section.order_by over_then_down };

    fn from(over_then_down: bool) -> PageOrder {
        if over_then_down {
            PageOrder::OverThenDown
        } else {
            PageOrder::DownThenOver
        }
    }
}

// How often each of the nine things happened that a reader of the plan is told.
#[derive(Clone, Copy, Default)]
pub struct Notes {
    pub unknown_paper: u64,
    pub invalid_margins: u64,
    pub scale_clamped: u64,
    pub fit_unreachable: u64,
    pub titles_ignored: u64,
    pub titles_expanded: u64,
    pub merge_expansions: u64,
    pub break_shifts: u64,
    pub overflowing_runs: u64,
}

// The notes as numbers, in document 01's order.
pub type NoteNumbers = [u64; 9];

impl From<Notes> for NoteNumbers {
    ghost from_gives = { λ notes numbers. numbers ≡ section.note_numbers notes };

    fn from(notes: Notes) -> NoteNumbers {
        [
            notes.unknown_paper,
            notes.invalid_margins,
            notes.scale_clamped,
            notes.fit_unreachable,
            notes.titles_ignored,
            notes.titles_expanded,
            notes.merge_expansions,
            notes.break_shifts,
            notes.overflowing_runs,
        ]
    }
}

impl From<NoteNumbers> for Notes {
    ghost from_gives = { λ numbers notes. notes ≡ section.notes_from numbers };

    fn from(numbers: NoteNumbers) -> Notes {
        Notes {
            unknown_paper: numbers[0],
            invalid_margins: numbers[1],
            scale_clamped: numbers[2],
            fit_unreachable: numbers[3],
            titles_ignored: numbers[4],
            titles_expanded: numbers[5],
            merge_expansions: numbers[6],
            break_shifts: numbers[7],
            overflowing_runs: numbers[8],
        }
    }
}

// What an area came to: its scale, 1 where no permille fits it, how many runs of rows and of columns its pages are made of, and whether its
// bodies are empty. The 1 is a `u64`, not a `bool`: it is a count of notes, which the notes of a plan add up, and a host hands it back as a number.
// Its counts of runs are two fields and no `RunCounts`, as a host's numbers and the definitions have them.
#[derive(Clone, Copy, Default)]
pub struct AreaPlan {
    pub permille: u16,
    pub unreachable: u64,
    pub row_runs: usize,
    pub column_runs: usize,
    pub rows_empty: bool,
    pub columns_empty: bool,
}

// What the areas came to, in job order, at most eight; what stands past their count is no area. Not one type with the `JobAreas` of the records: it would
// hold an array of a type parameter, and calls through other types would owe that its size is below 2^63.
#[derive(Clone, Copy)]
pub struct AreaPlans {
    pub count: usize,
    pub plans: [AreaPlan; 8],
}

impl AreaPlans {
    // No area.
    #[inline(always)]
    pub fn new() -> Self
        ensures { result ≡ held_plans [] }
    {
        AreaPlans {
            count: 0,
            plans: [AreaPlan::default(); 8],
        }
    }

    // Those that count.
    #[inline(always)]
    pub fn as_slice(&self) -> &[AreaPlan]
        ensures { result.now ≡ plans_in self.now }
    {
        &self.plans[..self.count.min(8)]
    }
}

// A finished plan. Its runs stand in the lists that were lent to it, area after area.
#[derive(Clone, Copy)]
pub struct Plan {
    pub areas: AreaPlans,
    pub pages: u64,
    pub order: PageOrder,
    pub notes: Notes,
}

// A run of rows or columns of a page.
#[derive(Clone, Copy, Debug, PartialEq, Eq)]
pub struct PageRun {
    pub first: u32,
    pub last: u32,
    pub size: u64,
    pub empty_body: bool,
    pub manual_break: bool,
}

// A page: the numbers of its two runs, from 0 in each area, and the runs. No `Place` in it: document 01's page has the two numbers as its own.
#[derive(Clone, Copy, Debug, PartialEq, Eq)]
pub struct Page {
    pub vertical: usize,
    pub horizontal: usize,
    pub rows: PageRun,
    pub columns: PageRun,
}

// Where a page stands in its area: the numbers of its two runs, from 0.
#[derive(Clone, Copy)]
pub struct Place {
    pub vertical: usize,
    pub horizontal: usize,
}

// Where a page stands in a plan: the number of its area, from 0, and how many pages of the area stand before it.
#[derive(Clone, Copy)]
pub struct Spot {
    pub area: usize,
    pub before: usize,
}
