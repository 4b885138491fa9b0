// Titles: document 01, section "Titles".
ghost use Rattle.std.specs.Prelude.{◌≡◌};
ghost use Rattle.planner_rules.specs.Titles.{limit_of, holds, title_holds, past_title};

use units::{MAX_WORKSHEET_COLUMN, MAX_WORKSHEET_ROW};

#[derive(Clone, Copy)]
pub enum Axis {
    Rows,
    Columns,
}

impl Axis {
    // The last index of the grid.
    #[tactic(auto, unfolding(crate::specs::Titles::limit_of))]
    pub fn limit(self) -> u32
        ensures { result ≡ limit_of self }
    {
        match self {
            Axis::Rows => MAX_WORKSHEET_ROW,
            Axis::Columns => MAX_WORKSHEET_COLUMN as u32,
        }
    }
}

// A title: absent, or from a first index to a last. No `Option` of a `Span`: document 01 names this enum, and that it is opened by `let .. else`.
#[derive(Clone, Copy)]
pub enum Title {
    Absent,
    Pair(u32, u32),
}

impl Title {
    // Whether the title holds the boundary b.
    #[tactic(auto, unfolding(crate::specs::Titles::title_holds))]
    pub fn holds(self, b: u32) -> bool
        ensures { result ≡ title_holds self b }
    {
        let Title::Pair(first, last) = self else {
            return false;
        };
        Span { first, last }.holds(b)
    }

    // Whether a slot with this index lies past the title's last.
    #[tactic(auto, unfolding(crate::specs::Titles::past_title))]
    pub fn is_passed_by(self, index: u32) -> bool
        ensures { result ≡ past_title self index }
    {
        let Title::Pair(_, last) = self else {
            return false;
        };
        index > last
    }
}

// A title that the grid has or that is absent, and how many notes of an ignored one: 0 or 1, a count, which the plan adds up for both axes.
#[derive(Clone, Copy)]
pub struct Normalized {
    pub title: Title,
    pub ignored: u64,
}

// A pair of a first and a last index: a title while merges widen it, or a merge that holds a boundary. In order by first, then last. Not a part of
// `Title`, `Stretch` and `Frame`: their definitions take two numbers, as document 01's sentences do.
#[derive(Clone, Copy, PartialEq, Eq, PartialOrd, Ord)]
pub struct Span {
    pub first: u32,
    pub last: u32,
}

impl Span {
    // Whether the pair holds the boundary b: between it and b the pair goes on.
    pub fn holds(self, b: u32) -> bool
        ensures { result ≡ holds self.first self.last b }
    {
        self.first < b && b <= self.last
    }
}

// A title as merges widened it, and how many passes changed it.
#[derive(Clone, Copy)]
pub struct Expanded {
    pub title: Title,
    pub expanded: u64,
}

// What a title comes to, and its two counts of notes, which the plan adds up for both axes: `ignored` is 0 or 1.
#[derive(Clone, Copy)]
pub struct Widened {
    pub title: Title,
    pub ignored: u64,
    pub expanded: u64,
}
