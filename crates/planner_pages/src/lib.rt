// Pages of a plan: document 01, section "Pages", and document 02, request T-02.
#![tactic(auto)]

mod areas;

ghost use Rattle.std.specs.Prelude.{◌≡◌, suc, ◌+◌, ◌≤◌, ◌<◌, length};
ghost use Rattle.units.specs.Outcome.{given};
ghost use Rattle.units.specs.Refusals.{outcome};
ghost use Rattle.planner_rules.specs.Areas.{plans_in, over_areas};
ghost use Rattle.planner_rules.specs.Lent.{room_in};
ghost use Rattle.planner_rules.specs.Pages.{numbered, areas_pages};
ghost use Rattle.planner_rules.specs.Pages as section;

use crate::areas::{has_more, runs_fit, runs_of, walk};
use planner_compare::index_of;
use planner_questions::{rooms_in, runs_held};
use planner_rules::{
    AreaPlan, Page, PageOrder, PageRun, Place, Plan, RUN_NUMBERS, RunCounts, RunLists, Spot,
};
use units::Refusal;

// The place of the page of an area that has so many of its pages before it.
fn place_of(order: PageOrder, row_runs: usize, column_runs: usize, before: usize) -> Place
    requires row_runs_nonzero { 0 < row_runs }
    requires column_runs_nonzero { 0 < column_runs }
    ensures { result ≡ section.place_of order row_runs column_runs before }
{
    match order {
        PageOrder::DownThenOver => Place {
            vertical: before % row_runs,
            horizontal: before / row_runs,
        },
        PageOrder::OverThenDown => Place {
            vertical: before / column_runs,
            horizontal: before % column_runs,
        },
    }
}

// The run with a number, from 0.
fn run_at(list: &[u64], empty_body: bool, number: usize) -> PageRun
    requires { number < room_in list.now }
    ensures { result ≡ section.run_at list.now empty_body number }
{
    let at = RUN_NUMBERS * number;
    let &[first, last, size, mark] = &list[at..at + RUN_NUMBERS] else {
        unreachable!()
    };
    PageRun {
        first: index_of(first),
        last: index_of(last),
        size,
        empty_body,
        manual_break: mark > 0,
    }
}

// The page of an area that has so many of its pages before it, where so many runs stand before the area's.
fn page_at(
    order: PageOrder,
    area: AreaPlan,
    passed: RunCounts,
    before: usize,
    runs: RunLists<'_>,
) -> Page
    requires row_runs_bound { passed.rows + area.row_runs ≤ room_in runs.rows.now }
    requires column_runs_bound { passed.columns + area.column_runs ≤ room_in runs.columns.now }
    requires before_bound { before < section.pages_in area }
    ensures { result ≡ section.area_page_after order area (section.after_runs passed.rows runs.entry.rows.now)
        (section.after_runs passed.columns runs.entry.columns.now) before }
{
    let place = place_of(order, area.row_runs, area.column_runs, before);
    let vertical = place.vertical;
    let horizontal = place.horizontal;
    let row_run = passed.rows + vertical;
    let column_run = passed.columns + horizontal;
    let rows = run_at(runs.rows, area.rows_empty, row_run);
    let columns = run_at(runs.columns, area.columns_empty, column_run);
    Page {
        vertical,
        horizontal,
        rows,
        columns,
    }
}

// 11: the two lists hold the runs of all areas of a plan.
fn holds_runs(plan: &Plan, runs: RunLists<'_>) -> bool
    ensures { result ≡ section.holds_runs plan.now runs.entry.rows.now runs.entry.columns.now }
{
    let room = rooms_in(runs.rows.len(), runs.columns.len());
    runs_fit(plan.areas.as_slice(), room)
}

// The page at a spot, over the lists of runs that were lent to the plan. That the lists hold all runs is asked here and in `page_after` alone: a struct
// of a plan and its runs, with that as its fact, would be made for these two, and the public calls, which ask 11, would still take both.
fn spot_page(plan: &Plan, spot: Spot, runs: RunLists<'_>) -> Page
    requires rows_fit { section.row_runs (plans_in plan.now.areas) ≤ room_in runs.rows.now }
    requires columns_fit { section.column_runs (plans_in plan.now.areas) ≤ room_in runs.columns.now }
    requires stands { section.Stands (plans_in plan.now.areas) spot }
    ensures { result ≡ section.spot_page plan.now.order (plans_in plan.now.areas) runs.entry.rows.now runs.entry.columns.now spot }
{
    let areas = plan.areas.as_slice();
    let area = areas[spot.area];
    let passed = runs_of(&areas[..spot.area]);
    page_at(plan.order, area, passed, spot.before, runs)
}

// Where the page with a number stands.
pub fn page_spot(plan: &Plan, number: u64) -> Option<Spot>
    ensures { result ≡ section.spot_of plan.now number }
{
    let before = number.checked_sub(1)?;
    if before >= plan.pages {
        return None;
    }
    walk(plan.areas.as_slice(), before as usize).ok()
}

// The page of an area with a number among its own, over lists that hold its runs at the front.
pub fn area_page(
    order: PageOrder,
    area: AreaPlan,
    number: u64,
    runs: RunLists<'_>,
) -> Result<Page, Refusal>
    ensures { outcome result ≡ section.area_numbered order area runs.entry.rows.now runs.entry.columns.now number }
{
    let counts = RunCounts {
        rows: area.row_runs,
        columns: area.column_runs,
    };
    if !runs_held(counts, rooms_in(runs.rows.len(), runs.columns.len())) {
        return Err(Refusal::ListTooShort);
    }
    let before = number.checked_sub(1).ok_or(Refusal::NoSuchNumber)? as usize;
    if !has_more(area, before) {
        return Err(Refusal::NoSuchNumber);
    }
    Ok(page_at(order, area, RunCounts::default(), before, runs))
}

// The page of a plan with a number from 1 to its count, over the lists of runs that were lent to the plan.
pub fn page_numbered(plan: &Plan, number: u64, runs: RunLists<'_>) -> Result<Page, Refusal>
    ensures { outcome result ≡ section.page_numbered plan.now runs.entry.rows.now runs.entry.columns.now number }
{
    if !holds_runs(plan, runs) {
        return Err(Refusal::ListTooShort);
    }
    let spot = page_spot(plan, number).ok_or(Refusal::NoSuchNumber)?;
    Ok(spot_page(plan, spot, runs))
}

// The page of a plan that has so many pages before it.
fn page_after(before: usize, plan: &Plan, runs: RunLists<'_>) -> Page
    requires rows_fit { section.row_runs (plans_in plan.now.areas) ≤ room_in runs.rows.now }
    requires columns_fit { section.column_runs (plans_in plan.now.areas) ≤ room_in runs.columns.now }
    requires before_bound { before < over_areas section.pages_in (plans_in plan.now.areas) }
    ensures { numbered (areas_pages plan.now.order (plans_in plan.now.areas) runs.entry.rows.now runs.entry.columns.now) (suc before) ≡ given result }
{
    let spot = walk(plan.areas.as_slice(), before).unwrap();
    spot_page(plan, spot, runs)
}

// How many pages a plan has: a walk that takes off as many as it says tells whether its areas have so many.
fn page_count(plan: &Plan) -> u64
    ensures { result ≡ section.page_count plan.now }
{
    match walk(plan.areas.as_slice(), plan.pages as usize) {
        Ok(_) => plan.pages,
        Err(left) => plan.pages - left as u64,
    }
}

// What `list_pages` answers where so many pages have room.
fn listing(room: usize, plan: &Plan, runs: RunLists<'_>) -> Result<u64, Refusal>
    ensures { outcome result ≡ section.list_pages plan.now runs.entry.rows.now runs.entry.columns.now room }
{
    if !holds_runs(plan, runs) {
        return Err(Refusal::ListTooShort);
    }
    let count = page_count(plan);
    if count > room as u64 {
        return Err(Refusal::PageListTooShort);
    }
    Ok(count)
}

// Writes the pages of a plan, in order, to the front of a lent list, over the lists of runs that were lent to the plan. It answers how many,
// or refuses and writes nothing.
pub fn list_pages(pages: &mut [Page], plan: &Plan, runs: RunLists<'_>) -> Result<u64, Refusal>
    ensures { let rows = runs.entry.rows.now in
        let columns = runs.entry.columns.now in
        let old = pages.old in
        let listed = section.list_pages plan.now rows columns (length old) in
        (outcome result ≡ listed) × (pages.new ≡ section.pages_lent listed (section.pages_of plan.now rows columns) old) }
{
    let count = listing(pages.len(), plan, runs)?;
    // By number: the invariant of a loop over `iter_mut` does not see what was written, which was tried.
    for i in 0..count as usize {
        pages[i] = page_after(i, plan, runs);
    }
    Ok(count)
}
