// The call that cuts an axis into a lent list: document 01, sections "Titles" and "Runs".
ghost use Rattle.planner_rules.specs.Titles.{limit_of};
ghost use Rattle.planner_rules.specs.Runs.{axis_tally};
ghost use Rattle.planner_rules.specs.Lent.{room_in};
ghost use Rattle.planner_rules.specs.Partition as call;
ghost use Rattle.planner.specs.Axes as axes;

use crate::page::ScaledPage;
use crate::places::place_of;
use crate::runs::Cutter;
use crate::slots::Measured;
use planner_questions::{partition_refusal, room_in};
use planner_rules::{Axis, AxisLists, AxisSetup, Frame, MergeList, PageSide, Tally};
use planner_titles::body_start;
use units::{Fixed, Refusal};

// Cuts slots into runs, counted before any is written.
fn partition_slots(
    cutter: Cutter,
    slots: Measured,
    breaks: &[u32],
    list: &mut [u64],
) -> Result<Tally, Refusal>
    ensures { let merges = cutter.entry.merges in
        let runs = axes.axis_runs_by cutter.entry slots.entry breaks.now in
        let is = slots.entry.indexes.now in
        let tally = axis_tally cutter.entry.frame merges.firsts.now merges.lasts.now is slots.entry.sizes.now breaks.now in
        call.Answered (call.room_for runs tally (room_in list.old)) runs result list.old list.new }
{
    // Any page serves: how many runs overflow is not answered. `count_axis` asks it of each run: to count without, it would be written twice, or take
    // a closure, of whose answers its contract would have to speak for its other caller.
    let page = ScaledPage {
        side: PageSide {
            side: Fixed::ZERO,
            headings: 0,
            titles: 0,
        },
        permille: 1000,
    };
    let tally = cutter.count_axis(page, slots, breaks).tally;
    if tally.runs > room_in(list.len()) {
        return Err(Refusal::ListTooShort);
    }
    cutter.write_axis(slots, breaks, list);
    Ok(tally)
}

// Cuts the body of a range.
fn partition_body(
    setup: AxisSetup,
    slots: Measured,
    merges: MergeList,
    breaks: &[u32],
    list: &mut [u64],
) -> Result<Tally, Refusal>
    ensures { let firsts = merges.entry.firsts.now in
        let lasts = merges.entry.lasts.now in
        let is = slots.entry.indexes.now in
        let ss = slots.entry.sizes.now in
        let bs = breaks.now in
        call.Answered (call.fits setup is ss firsts lasts bs (room_in list.old)) (call.body_runs setup is ss firsts lasts bs) result
        list.old list.new }
{
    let title = setup.title;
    let last = setup.last;
    let start = body_start(title, setup.first);
    let from = place_of(slots.indexes, start);
    let to = place_of(slots.indexes, u64::from(last) + 1);
    if to <= from {
        return Ok(Tally::default());
    }
    let frame = Frame {
        untitled: setup.untitled,
        titled: setup.titled,
        title,
        lo: start as u32,
        hi: last,
    };
    partition_slots(Cutter { frame, merges }, slots.part(from, to), breaks, list)
}

// Cuts the measured slots of a range into runs and writes them to the front of a lent list, four numbers a run: first, last, size, and 1
// where a manual break stands before the run.
pub fn partition_axis_with_breaks(
    axis: Axis,
    setup: AxisSetup,
    lists: AxisLists,
    list: &mut [u64],
) -> Result<Tally, Refusal>
    ensures { let firsts = lists.entry.merges.firsts.now in
        let lasts = lists.entry.merges.lasts.now in
        let is = lists.entry.slots.indexes.now in
        let ss = lists.entry.slots.sizes.now in
        let bs = lists.entry.breaks.now in
        call.Answered (call.partition (limit_of axis) setup is ss firsts lasts bs list.old)
        (call.body_runs setup is ss firsts lasts bs) result list.old list.new }
{
    partition_refusal(axis.limit(), setup, lists)?;
    let slots = Measured::of(lists.slots);
    partition_body(setup, slots, lists.merges, lists.breaks, list)
}
