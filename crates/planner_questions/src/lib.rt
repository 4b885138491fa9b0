// What is asked of lists before a call answers: document 01, section "Questions in order".
#![tactic(auto)]

ghost use Rattle.std.specs.Prelude.{◌≡◌, fold, bit_or, ◌/◌, ◌&&◌, leb};
ghost use Rattle.units.specs.Refusals.{number_of};
ghost use Rattle.planner_rules.specs.Questions.{no_or, equally_long, all_ordered, all_within, rising, rising_within, all_small, well_formed};
ghost use Rattle.planner_rules.specs.Areas.{every_area, upright, inside_grid};
ghost use Rattle.planner_rules.specs.Plan as call;
ghost use Rattle.planner_rules.specs.Asked.{sheet_asked};
ghost use Rattle.planner_rules.specs.Partition as partition;

use planner_areas::{cells_hold, is_upright};
use planner_rules::{
    AxisLists, AxisSetup, MergeList, PrintRange, RUN_NUMBERS, Request, RunCounts, SheetLists,
};
use units::{LARGEST_SIZE, MAX_WORKSHEET_COLUMN, MAX_WORKSHEET_ROW, Refusal};

// The last column as lists have it. Not by `Axis::limit`, which was tried: each proof then first has to say what those calls answered.
const LAST_COLUMN: u32 = MAX_WORKSHEET_COLUMN as u32;

// How many runs a list of so many numbers has room for.
pub fn room_in(numbers: usize) -> usize
    ensures { result ≡ numbers / 4 }
{
    numbers / RUN_NUMBERS
}

// How many runs of rows and of columns two lists of so many numbers have room for.
pub fn rooms_in(rows: usize, columns: usize) -> RunCounts
    ensures { (result.rows ≡ rows / 4) × (result.columns ≡ columns / 4) }
{
    RunCounts {
        rows: room_in(rows),
        columns: room_in(columns),
    }
}

// 11 of so many runs of rows and of columns.
pub fn runs_held(runs: RunCounts, room: RunCounts) -> bool
    ensures { result ≡ (leb runs.rows room.rows && leb runs.columns room.columns) }
{
    (runs.rows <= room.rows) & (runs.columns <= room.columns)
}

// 6: no first is above its last.
pub fn pairs_ordered(merges: MergeList) -> bool
    ensures { result ≡ all_ordered merges.entry.firsts.now merges.entry.lasts.now }
{
    merges
        .firsts
        .iter()
        .zip(merges.lasts)
        .all(|(first, last)| *first <= *last)
}

// 7: no index is past the limit.
pub fn all_within(indexes: &[u32], limit: u32) -> bool
    ensures { result ≡ all_within limit indexes.now }
{
    indexes.iter().all(|index| *index <= limit)
}

// Each index is below the next: all are asked, so that there is no branch on what one of them answers. By a `for`: the
// closure of a fold would first have to be told that a window has two indexes, and nothing hands it that; a zip with the tail would first ask whether
// there is one.
fn strictly_rising(indexes: &[u32]) -> bool
    ensures { result ≡ rising indexes.now }
{
    let mut rises = true;
    for pair in indexes.windows(2) {
        rises = (pair[0] < pair[1]) & rises;
    }
    rises
}

// 8: each index is below the next, and the last is not past the limit.
pub fn rising_within(indexes: &[u32], limit: u32) -> bool
    ensures { result ≡ rising_within limit indexes.now }
{
    strictly_rising(indexes) && indexes.last().is_none_or(|last| *last <= limit)
}

// The bits that are set in some of these numbers.
fn bits_of(numbers: &[u64]) -> u64
    ensures { result ≡ fold bit_or 0 numbers.now }
{
    numbers.iter().fold(0, |bits, number| bits | *number)
}

// 9: no size is above the largest, which has all its bits set: so none is, if all bits of all sizes together make no greater number.
pub fn all_small(sizes: &[u64]) -> bool
    ensures { result ≡ all_small sizes.now }
{
    bits_of(sizes) <= LARGEST_SIZE
}

// 6 of the areas: no first row and no first column is past its last.
fn all_upright(areas: &[PrintRange]) -> bool
    ensures { result ≡ every_area upright areas.now }
{
    areas.iter().all(|range| is_upright(*range))
}

// 7 of the areas: each last cell is in the grid.
fn all_inside(areas: &[PrintRange]) -> bool
    ensures { result ≡ every_area inside_grid areas.now }
{
    areas.iter().all(|range| {
        (range.last_row <= MAX_WORKSHEET_ROW) & (range.last_column <= LAST_COLUMN)
    })
}

// 6 of the lists of an axis: equally long, and no first is above its last.
fn formed(lists: AxisLists) -> bool
    ensures { let slots = lists.entry.slots in
        let merges = lists.entry.merges in
        result ≡ (equally_long slots.indexes.now slots.sizes.now && equally_long merges.firsts.now merges.lasts.now
        && all_ordered merges.firsts.now merges.lasts.now) }
{
    let AxisLists { slots, merges, .. } = lists;
    (slots.indexes.len() == slots.sizes.len())
        & (merges.firsts.len() == merges.lasts.len())
        & pairs_ordered(merges)
}

// 6 of a sheet and its areas.
fn sheet_formed(request: &Request, lists: &SheetLists) -> bool
    ensures { result ≡ call.formed (sheet_asked request.now lists.now) request.now.areas.now }
{
    let SheetLists { rows, columns } = *lists;
    formed(rows)
        & formed(columns)
        & (rows.merges.firsts.len() == columns.merges.firsts.len())
        & all_upright(request.areas)
}

// 7 of them.
fn in_grid(request: &Request, lists: &SheetLists) -> bool
    ensures { result ≡ call.in_grid (sheet_asked request.now lists.now) request.now.areas.now }
{
    all_within(lists.rows.merges.lasts, MAX_WORKSHEET_ROW)
        & all_within(lists.columns.merges.lasts, LAST_COLUMN)
        & all_inside(request.areas)
}

// A question: it refuses where its answer is no.
fn ask(yes: bool, no: Refusal) -> Result<(), Refusal>
    ensures { partition.no_of result ≡ no_or (number_of no) yes 0 }
{
    if yes { Ok(()) } else { Err(no) }
}

// 6 of one axis.
fn axis_formed(setup: AxisSetup, lists: AxisLists) -> bool
    ensures { let slots = lists.entry.slots in
        let merges = lists.entry.merges in
        result ≡ well_formed setup.first setup.last slots.indexes.now slots.sizes.now merges.firsts.now merges.lasts.now }
{
    formed(lists) & (setup.first <= setup.last)
}

// The questions 6 to 9 of one axis: the first whose answer is no refuses.
pub fn partition_refusal(limit: u32, setup: AxisSetup, lists: AxisLists) -> Result<(), Refusal>
    ensures { let slots = lists.entry.slots in
        let merges = lists.entry.merges in
        partition.no_of result ≡ partition.first_no limit setup slots.indexes.now slots.sizes.now merges.firsts.now merges.lasts.now }
{
    ask(axis_formed(setup, lists), Refusal::MalformedLists)?;
    let seven = (setup.last <= limit) & all_within(lists.merges.lasts, limit);
    ask(seven, Refusal::OutsideGrid)?;
    ask(
        rising_within(lists.slots.indexes, limit),
        Refusal::IndexesNotRising,
    )?;
    ask(all_small(lists.slots.sizes), Refusal::SizeOutOfRange)
}

// The questions 4, 6, 7, 15, 8 and 9: the first whose answer is no refuses. Cells are counted only where 4, 6 and 7 are answered with yes.
pub fn plan_refusal(request: &Request, lists: &SheetLists) -> Result<(), Refusal>
    ensures { partition.no_of result ≡ call.first_no (sheet_asked request.now lists.now) request.now.areas.now }
{
    let areas = request.areas;
    let four = (1..=8).contains(&areas.len());
    ask(four, Refusal::MisplacedRecord)?;
    ask(sheet_formed(request, lists), Refusal::MalformedLists)?;
    ask(in_grid(request, lists), Refusal::OutsideGrid)?;
    let fifteen = cells_hold(request.settings.cell_limit, areas);
    ask(fifteen, Refusal::TooManyCells)?;
    let rows = lists.rows.slots;
    let columns = lists.columns.slots;
    let eight = rising_within(rows.indexes, MAX_WORKSHEET_ROW)
        & rising_within(columns.indexes, LAST_COLUMN);
    ask(eight, Refusal::IndexesNotRising)?;
    let nine = all_small(rows.sizes) & all_small(columns.sizes);
    ask(nine, Refusal::SizeOutOfRange)
}

// 11, then 12, of so many runs of rows and of columns and so many pages: the first whose answer is no refuses.
pub fn room_refusal(runs: RunCounts, pages: u64, room: RunCounts, limit: u64) -> Result<(), Refusal>
    ensures { partition.no_of result ≡ call.room_no runs.rows runs.columns pages room.rows room.columns limit }
{
    ask(runs_held(runs, room), Refusal::ListTooShort)?;
    ask(pages <= limit, Refusal::TooManyPages)
}
