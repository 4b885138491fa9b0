// How large a worksheet is printed: document 01, section "Scale".
ghost use Rattle.std.specs.Prelude.{◌≡◌, false, ◌&&◌, ◌+◌, ◌≤◌, ◌^◌, pos, length};
ghost use Rattle.planner_rules.specs.Scale.{capacity_of, fits_side, all_fit, meets, halve, fit_scale, space_of, scale_of, titled};
ghost use Rattle.planner_rules.specs.Scale as section;
ghost use Rattle.planner.specs.Axes as axes;

use crate::fitted::FittedAxis;
use crate::page::ScaledPage;
use crate::runs::{Cutter, Reach};
use crate::slots::Measured;
use planner_rules::{ChosenScale, Title};
use planner_setup::{meets_target, middle_of};
use units::Fixed;

// So many units as a length.
fn length_of(n: u64) -> Fixed
    requires { n ≤ 2 ^ 53 }
    ensures { result.0 ≡ pos n }
{
    Fixed::from_raw(n as i64)
}

// The capacity at a permille beside so many units of titles.
pub(crate) fn capacity_at(page: ScaledPage, titles: u64) -> u64
    requires { titles ≤ 2 ^ 50 }
    ensures { result ≡ capacity_of (space_of page.side) page.permille titles }
{
    let side = page.side;
    units::unscaled_capacity(
        side.side,
        page.permille,
        length_of(titles),
        length_of(side.headings),
    )
    .map_or(0, Fixed::magnitude)
}

// Whether a size, scaled and rounded, is at most the side.
fn fits_side(page: ScaledPage, size: u64) -> bool
    requires { size ≤ 2 ^ 53 }
    ensures { result ≡ fits_side (space_of page.side) page.permille size }
{
    let side = page.side.side;
    units::scale_fixed(length_of(size), page.permille).is_ok_and(|scaled| scaled <= side)
}

// What a run takes of a page: its size and the headings, and the titles where it lies past the title.
fn printed(page: ScaledPage, title: Title, first: u32, size: u64) -> u64
    requires { size ≤ 2 ^ 50 }
    ensures value { result ≡ section.printed (space_of page.side) title false first size }
    ensures upper_bound { result ≤ 2 ^ 53 }
{
    let side = page.side;
    if title.is_passed_by(first) {
        return size + side.titles + side.headings;
    }
    size + side.headings
}

// Whether a run that has slots is at most the side.
pub(crate) fn run_fits(page: ScaledPage, title: Title, first: u32, size: u64) -> bool
    requires { size ≤ 2 ^ 50 }
    ensures { let space = space_of page.side in
        result ≡ fits_side space page.permille (section.printed space title false first size) }
{
    fits_side(page, printed(page, title, first, size))
}

// Whether the run of an axis without slots is: titles plus headings.
pub(crate) fn empty_fits(page: ScaledPage) -> bool
    ensures { result ≡ fits_side (space_of page.side) page.permille (page.side.titles + page.side.headings) }
{
    fits_side(page, page.side.titles + page.side.headings)
}

// Whether the runs of slots fit the page and meet the target: no more are cut once the answer is known.
fn runs_pass(page: ScaledPage, cutter: Cutter, target: u16, slots: Measured) -> bool
    ensures { let rs = axes.runs_by cutter.entry slots.entry in
        result ≡ all_fit (space_of page.side) (titled cutter.entry.frame.title) page.permille rs && meets target (length rs) }
{
    let title = cutter.frame.title;
    let mut rest = slots;
    let mut count = 0;
    // What is left says how far it is, as where runs are counted; and it is asked before the next run is cut.
    while let Some(head) = rest.some() {
        count += 1;
        if !meets_target(target, count) {
            return false;
        }
        let Reach { end, size } = cutter.run_end(head);
        if !run_fits(page, title, head.slots.indexes[0], size) {
            return false;
        }
        rest = head.slots.after(end.slots);
    }
    true
}

// Whether an axis passes at a permille: its runs, cut without breaks, fit the page and meet the target.
fn fit_passes(axis: FittedAxis, permille: u16) -> bool
    ensures { result ≡ axes.passes axis.entry permille }
{
    let fit = axis.fit;
    let page = ScaledPage {
        side: fit.page,
        permille,
    };
    if axis.slots.sizes.is_empty() {
        return empty_fits(page);
    }
    let cutter = Cutter {
        frame: axis.frame_at(permille),
        merges: axis.merges,
    };
    runs_pass(page, cutter, fit.target, axis.slots)
}

// Whether both axes pass at a permille: rows, then columns.
fn both_pass(rows: FittedAxis, columns: FittedAxis, permille: u16) -> bool
    ensures { result ≡ axes.both_pass rows.entry columns.entry permille }
{
    fit_passes(rows, permille) && fit_passes(columns, permille)
}

// The halving from 100 to 1,000.
fn halved_permille(rows: FittedAxis, columns: FittedAxis) -> u16
    ensures { result ≡ halve (axes.both_pass rows.entry columns.entry) 10 100 1000 }
{
    // Over numbers, of which there is no list: the library's search by halving goes over the elements of one.
    let mut low: u16 = 100;
    let mut high: u16 = 1000;
    while low < high {
        let middle = middle_of(low, high);
        if both_pass(rows, columns, middle) {
            low = middle;
        } else {
            high = middle - 1;
        }
    }
    low
}

// The scale at which both axes fit: 100 with a note where they do not fit there, and else by halving.
pub(crate) fn fit_scale(rows: FittedAxis, columns: FittedAxis) -> ChosenScale
    ensures { scale_of result ≡ fit_scale (axes.both_pass rows.entry columns.entry) }
{
    if !both_pass(rows, columns, 100) {
        return ChosenScale {
            permille: 100,
            clamp: 0,
            unreachable: 1,
        };
    }
    ChosenScale {
        permille: halved_permille(rows, columns),
        clamp: 0,
        unreachable: 0,
    }
}
