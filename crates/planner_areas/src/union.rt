// How many cells lie in at least one area. From one row where an area starts or has ended to the next, each row has as many. Those of a row
// are counted by stretches: cells that areas hold, and behind them cells that none does. One look at the areas finds a stretch.
ghost use Rattle.std.specs.Prelude.{◌≡◌, ◌+◌, ◌≤◌, ◌<◌};
ghost use Rattle.planner_rules.specs.Union as definition;
ghost use Rattle.planner_areas.specs.Edges as edges;

use planner_rules::PrintRange;
use units::{MAX_WORKSHEET_COLUMN, MAX_WORKSHEET_ROW};

// How many rows and columns the grid has.
const ROWS: u64 = MAX_WORKSHEET_ROW as u64 + 1;

const COLUMNS: u64 = MAX_WORKSHEET_COLUMN as u64 + 1;

// The nearest of two edges that is past `from`.
#[inline(always)]
fn nearer(edge: u64, from: u64, nearest: u64) -> u64
    requires { from < nearest }
    ensures { edges.Nearer edge from nearest result }
{
    if edge <= from {
        return nearest;
    }
    edge.min(nearest)
}

// The nearest row past `from` where an area starts or has ended, or the end of the grid. By a `for`: that the nearest so far is past `from`, which the
// loop keeps, the closure of a fold would have to require and promise.
fn next_edge(ranges: &[PrintRange], from: u64) -> u64
    requires { from < 1048576 }
    ensures { edges.Clear ranges.now from result }
{
    let mut nearest = ROWS;
    for range in ranges {
        let start = nearer(u64::from(range.first_row), from, nearest);
        nearest = nearer(u64::from(range.last_row) + 1, from, start);
    }
    nearest
}

// A stretch of a row from a column on: the cells before `reach` lie in some area, and those from there to `start` in none.
#[derive(Clone, Copy)]
struct Stretch {
    reach: u64,
    start: u64,
}

// What one area more makes of a stretch.
#[inline(always)]
fn grown(stretch: Stretch, range: PrintRange, row: u64) -> Stretch
    ensures { edges.Grown range row stretch result }
{
    if (row < u64::from(range.first_row)) | (u64::from(range.last_row) < row) {
        return stretch;
    }
    let Stretch { reach, start } = stretch;
    let first = u64::from(range.first_column);
    if reach < first {
        return Stretch {
            reach,
            start: start.min(first),
        };
    }
    Stretch {
        reach: reach.max(u64::from(range.last_column) + 1),
        start,
    }
}

// The stretch of a row from a column of the grid on.
fn stretch_from(ranges: &[PrintRange], row: u64, column: u64) -> Stretch
    requires { column < 16384 }
    ensures { edges.StretchIn ranges.now row column result }
{
    let mut stretch = Stretch {
        reach: column,
        start: COLUMNS,
    };
    for range in ranges {
        stretch = grown(stretch, *range, row);
    }
    Stretch {
        reach: stretch.reach.min(COLUMNS),
        start: stretch.start,
    }
}

// How many cells of a row lie in at least one area.
fn row_cells(ranges: &[PrintRange], row: u64) -> u64
    ensures { (result ≡ edges.row_cells ranges.now row) × (result ≤ 16384) }
{
    let mut cells = 0;
    let mut column = 0;
    // From stretch to stretch, and not from column to column: how far the next step goes is known only there.
    while column < COLUMNS {
        let stretch = stretch_from(ranges, row, column);
        cells += stretch.reach - column;
        column = stretch.reach.max(stretch.start);
    }
    cells
}

// The cells of the grid that lie in at least one of some areas, each counted once.
pub fn union_cells(ranges: &[PrintRange]) -> u64
    ensures { result ≡ definition.union_cells ranges.now }
{
    let mut cells = 0;
    let mut row = 0;
    // From edge to edge, as along a row.
    while row < ROWS {
        let next = next_edge(ranges, row);
        cells += (next - row) * row_cells(ranges, row);
        row = next;
    }
    cells
}

// 15: no more cells than the limit lie in at least one area. Without a limit none is counted.
#[inline(always)]
#[tactic(auto, unfolding(planner_rules::specs::Union::cells_hold))]
pub fn cells_hold(limit: Option<u64>, areas: &[PrintRange]) -> bool
    ensures { result ≡ definition.cells_hold limit areas.now }
{
    limit.is_none_or(|most| union_cells(areas) <= most)
}
