// Single steps of cutting an axis: which merge holds a boundary, which capacity a run has, and where a merge moves its end.
// Document 01, section "Runs".
#![tactic(auto)]

mod merges;

ghost use Rattle.std.specs.Prelude.{◌≡◌, ◌≤◌, cond, min, length};
ghost use Rattle.planner_rules.specs.Slots.{below, through};
ghost use Rattle.planner_rules.specs.Plan.{cut_from};
ghost use Rattle.planner_rules.specs.Runs.{capacity_at, merge_step};

pub use merges::holding_merge;
use planner_rules::{FinalCut, Frame, RunEnd, Span, Tally};

// How many slots at the front have an index below the limit. Not by halving: the merge step takes indexes in any order.
fn slots_below(indexes: &[u32], limit: u64) -> usize
    ensures value { result ≡ below limit indexes.now }
    ensures upper_bound { result ≤ length indexes.now }
{
    indexes
        .iter()
        .position(|index| u64::from(*index) >= limit)
        .unwrap_or(indexes.len())
}

// How many slots there are up to the last one at or below an index.
fn slots_through(indexes: &[u32], last: u32) -> usize
    ensures value { result ≡ through last indexes.now }
    ensures upper_bound { result ≤ length indexes.now }
{
    match indexes.iter().rposition(|index| *index <= last) {
        Some(n) => n + 1,
        None => 0,
    }
}

// The capacity of a run whose first slot has this index.
#[tactic(auto, unfolding(planner_rules::specs::Runs::capacity_at))]
pub fn capacity_for(k: Frame, index: u32) -> u64
    ensures { result ≡ capacity_at k index }
{
    if k.title.is_passed_by(index) {
        k.titled
    } else {
        k.untitled
    }
}

// The merge step, where a run has n slots and `held` holds the boundary after them.
#[tactic(auto, unfolding(planner_rules::specs::Runs::merge_step))]
pub fn merge_step(indexes: &[u32], n: usize, held: Option<Span>) -> RunEnd
    ensures { result ≡ merge_step held n indexes.now }
{
    let Some(span) = held else {
        return RunEnd {
            slots: n,
            grown: false,
        };
    };
    let start = slots_below(indexes, u64::from(span.first));
    if start > 0 {
        return RunEnd {
            slots: start,
            grown: false,
        };
    }
    let end = slots_through(indexes, span.last);
    if end > n {
        return RunEnd {
            slots: end,
            grown: true,
        };
    }
    RunEnd {
        slots: n,
        grown: false,
    }
}

// Whether a run that starts at a cut is marked: every cut past 0 is a kept manual break.
pub fn mark_of(cut: usize) -> bool
    ensures { cond result 1 0 ≡ min cut 1 }
{
    cut > 0
}

// The final cut of an axis, of what was counted and so many overflowing runs: an axis without runs gets one.
pub fn final_cut(tally: Tally, overflows: u64) -> FinalCut
    ensures { result ≡ cut_from tally overflows }
{
    let empty = tally.runs == 0;
    FinalCut {
        runs: if empty { 1 } else { tally.runs },
        empty,
        expansions: tally.expansions,
        shifts: tally.shifts,
        overflows,
    }
}
