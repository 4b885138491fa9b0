// The final cut of an axis, counted and written: document 01, sections "Runs" and "Pages".
ghost use Rattle.std.specs.Prelude.{◌≡◌, cond, ◌+◌, ◌≤◌, ◌^◌, max, ltb, length};
ghost use Rattle.planner_rules.specs.Slots.{written};
ghost use Rattle.planner_rules.specs.Runs.{axis_runs, shifts};
ghost use Rattle.planner_rules.specs.Lent.{Room, flat};
ghost use Rattle.planner_rules.specs.Scale.{fits_side, space_of};
ghost use Rattle.planner_rules.specs.Pages.{none, or_empty, overflowing};
ghost use Rattle.planner_rules.specs.Plan.{ready_frame, cut_of};

use crate::fitted::FittedAxis;
use crate::page::ScaledPage;
use crate::runs::{Cutter, write_empty};
use crate::scale::empty_fits;
use planner_cuts::final_cut;
use planner_rules::{FinalCut, Frame};

// How many runs of the final cut overflow, of what was counted: an axis without runs gets one, which does where titles plus headings do not fit.
#[tactic(auto, using(planner_rules::proofs::EndLaws::bit_not, planner_rules::proofs::EndLaws::bit_few))]
fn cut_overflows(page: ScaledPage, runs: usize, overflows: u64) -> u64
    ensures value { let alone = fits_side (space_of page.side) page.permille (page.side.titles + page.side.headings) in
        result ≡ cond (ltb 0 runs) overflows (cond alone 0 1) }
    ensures upper_bound { result ≤ max overflows 1 }
{
    if runs > 0 {
        return overflows;
    }
    u64::from(!empty_fits(page))
}

// Counts the final cut of an axis, without writing it.
pub(crate) fn count_cut(axis: FittedAxis, frame: Frame, permille: u16, breaks: &[u32]) -> FinalCut
    requires frame_is { frame ≡ ready_frame axis.fit permille }
    ensures counted { let fit = axis.entry.fit in
        let k = ready_frame fit permille in
        let firsts = axis.entry.merges.firsts.now in
        let lasts = axis.entry.merges.lasts.now in
        let is = axis.entry.slots.indexes.now in
        let runs = axis_runs k firsts lasts is axis.entry.slots.sizes.now 0 breaks.now in
        let over = overflowing (space_of fit.page) fit.stretch.title permille (none runs) (or_empty 0 runs) in
        result ≡ cut_of runs (shifts k firsts lasts is 0 breaks.now) over }
    ensures runs_bound { (result.runs ≤ 2 ^ 20) × (result.expansions ≤ 2 ^ 20) × (result.shifts ≤ length breaks.now) × (result.overflows ≤ 2 ^ 20) }
{
    let FittedAxis { fit, merges, slots } = axis;
    let page = ScaledPage {
        side: fit.page,
        permille,
    };
    let counted = Cutter { frame, merges }.count_axis(page, slots, breaks);
    let tally = counted.tally;
    final_cut(tally, cut_overflows(page, tally.runs, counted.overflows))
}

// Writes the final cut of an axis, whose body is empty or not: the runs that its pages are made of. Its room: as at `write_empty`. `first` beside
// `empty`, and no `Option` of it: the definition takes it of any runs (`or_empty first runs`), where room and list would be said of each case.
pub(crate) fn write_cut(
    axis: FittedAxis,
    frame: Frame,
    empty: bool,
    first: u32,
    breaks: &[u32],
    list: &mut [u64],
)
    requires room { let merges = axis.merges in
        let slots = axis.slots in
        let runs = axis_runs frame merges.firsts.now merges.lasts.now slots.indexes.now slots.sizes.now 0 breaks.now in
        (empty ≡ none runs) × Room (or_empty first runs) list.old }
    ensures { let merges = axis.entry.merges in
        let slots = axis.entry.slots in
        let runs = axis_runs frame merges.firsts.now merges.lasts.now slots.indexes.now slots.sizes.now 0 breaks.now in
        list.new ≡ written (flat (or_empty first runs)) list.old }
{
    if empty {
        write_empty(first, list);
        return;
    }
    let FittedAxis { merges, slots, .. } = axis;
    Cutter { frame, merges }.write_axis(slots, breaks, list);
}
