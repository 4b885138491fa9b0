// Walks over the areas of a plan.
ghost use Rattle.std.specs.Prelude.{◌≡◌, ◌<◌, ◌^◌, ltb};
ghost use Rattle.planner_rules.specs.Pages as section;

use planner_rules::{AreaPlan, RunCounts, Spot};

// Whether an area has more pages than so many; the product of its run counts may be too large for a number.
pub(crate) fn has_more(area: AreaPlan, before: usize) -> bool
    ensures { result ≡ ltb before (section.pages_in area) }
{
    area.row_runs
        .checked_mul(area.column_runs)
        .is_none_or(|pages| before < pages)
}

// The spot of the page that has so many pages before it; where there is none, how many are left past the last area.
pub(crate) fn walk(areas: &[AreaPlan], before: usize) -> Result<Spot, usize>
    ensures { result ≡ section.walk_from 0 before areas.now }
{
    let mut rest = before;
    for (i, area) in areas.iter().enumerate() {
        if has_more(*area, rest) {
            return Ok(Spot {
                area: i,
                before: rest,
            });
        }
        rest -= area.row_runs * area.column_runs;
    }
    Err(rest)
}

// 11: two lists with room for so many runs hold the runs of all areas. By what is left of the room, for a sum may be too large for a number.
// No `try_fold`: its closure would take off two counts by `checked_sub` and answer both in a struct, at more length than the loop.
pub(crate) fn runs_fit(areas: &[AreaPlan], room: RunCounts) -> bool
    ensures { result ≡ section.runs_held areas.now room.rows room.columns }
{
    let mut rows = room.rows;
    let mut columns = room.columns;
    for area in areas {
        if area.row_runs > rows {
            return false;
        }
        if area.column_runs > columns {
            return false;
        }
        rows -= area.row_runs;
        columns -= area.column_runs;
    }
    true
}

// How many runs areas have together.
pub(crate) fn runs_of(areas: &[AreaPlan]) -> RunCounts
    requires rows_fit { section.row_runs areas.now < 2 ^ 64 }
    requires columns_fit { section.column_runs areas.now < 2 ^ 64 }
    ensures { (result.rows ≡ section.row_runs areas.now) × (result.columns ≡ section.column_runs areas.now) }
{
    RunCounts {
        rows: areas.iter().map(|area| area.row_runs).sum(),
        columns: areas.iter().map(|area| area.column_runs).sum(),
    }
}
