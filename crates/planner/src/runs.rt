// Where the slots of an axis are cut into runs: document 01, section "Runs".
ghost use Rattle.std.specs.Prelude.{◌≡◌, false, cond, [], ◌∷◌, ◌++◌, ◌+◌, ◌≤◌, ◌<◌, length, take, drop};
ghost use Rattle.planner_rules.specs.Slots.{sum, below, written};
ghost use Rattle.planner_rules.specs.Runs.{holding, filled, resumed, resumption, taken, merged, run_end, expansions, first_marked};
ghost use Rattle.planner_rules.specs.Runs.{placed, next_cut, stretch, axis_tally};
ghost use Rattle.planner_rules.specs.Lent.{Room, Written, RoomAt, WrittenAt, flat};
ghost use Rattle.planner_rules.specs.Scale.{space_of};
ghost use Rattle.planner_rules.specs.Pages.{or_empty, overflowing};
ghost use Rattle.planner.specs.Axes as axes;

use crate::filling::{Filling, natural_fill, total};
use crate::page::ScaledPage;
use crate::places::{moved_cut, place_of};
use crate::scale::run_fits;
use crate::slots::{Measured, SomeSlots};
use planner_cuts::{capacity_for, holding_merge, mark_of, merge_step};
use planner_rules::{Cut, Frame, MergeList, RUN_NUMBERS, RunEnd, Span, Tally, Title};

// Where a run ends, and its size.
#[derive(Clone, Copy)]
pub(crate) struct Reach {
    pub end: RunEnd,
    pub size: u64,
}

// How many runs a stretch has, and how many of them a merge took further and exceed their page.
#[derive(Clone, Copy)]
struct Counted {
    runs: usize,
    grown: u64,
    overflows: u64,
}

// What an axis comes to, and how many of its runs exceed their page.
#[derive(Clone, Copy)]
pub(crate) struct AxisCount {
    pub tally: Tally,
    pub overflows: u64,
}

// What the runs of an axis are cut by: its frame and its merges.
#[derive(Clone, Copy)]
pub(crate) struct Cutter<'a> {
    pub frame: Frame,
    pub merges: MergeList<'a>,
}

// How many slots are taken on from a boundary that the title holds.
fn resumed_fill(head: SomeSlots, capacity: u64, last: u32) -> usize
    ensures value { result ≡ resumed capacity last head.entry.slots.indexes.now head.entry.slots.sizes.now }
    ensures upper_bound { result ≤ length head.entry.slots.sizes.now }
{
    let mut sum = head.slots.sizes[0];
    // By number, which is what is answered: the two lists zipped, numbered and without their first would say no more.
    for n in 1..head.slots.sizes.len() {
        let size = head.slots.sizes[n];
        let next = sum + size;
        if next <= capacity {
            sum = next;
            continue;
        }
        if head.slots.indexes[n] > last {
            return n;
        }
        sum = size;
    }
    head.slots.sizes.len()
}

// How many slots a run has after the title's resumption, where filling gave n and slots remain.
fn title_end(title: Title, capacity: u64, slots: Measured, n: usize) -> usize
    requires { n < length slots.sizes.now }
    ensures value { result ≡ resumption title capacity n slots.entry.indexes.now slots.entry.sizes.now }
    ensures lower_bound { (n ≤ result) × (result ≤ length slots.entry.sizes.now) }
{
    let Title::Pair(_, last) = title else {
        return n;
    };
    if title.holds(slots.indexes[n]) {
        let head = SomeSlots {
            slots: slots.after(n),
        };
        return n + resumed_fill(head, capacity, last);
    }
    n
}

// How many slots a run has after the title's resumption, where filling gave n.
fn taken_slots(k: Frame, slots: Measured, n: usize) -> usize
    requires { (n ≡ filled k slots.indexes.now slots.sizes.now) × (n ≤ length slots.sizes.now) }
    ensures value { result ≡ taken k slots.entry.indexes.now slots.entry.sizes.now }
    ensures lower_bound { (n ≤ result) × (result ≤ length slots.entry.sizes.now) }
{
    if n >= slots.indexes.len() {
        return n;
    }
    title_end(k.title, k.titled, slots, n)
}

// The size of the first n slots, which are often as many as filling took.
fn size_of(slots: Measured, n: usize, filling: Filling) -> u64
    requires { (n ≤ length slots.sizes.now) × (filling.sum ≡ sum (take filling.slots slots.sizes.now)) }
    ensures { result ≡ sum (take n slots.entry.sizes.now) }
{
    if n == filling.slots {
        return filling.sum;
    }
    total(slots.part(0, n))
}

// Writes the numbers of a run to a lent list, from `at` on, and returns the place after them. Four numbers, and no `PageRun`, which also says whether
// the body is empty: no list of runs does.
#[inline(always)]
fn put_run(list: &mut [u64], at: usize, first: u32, last: u32, size: u64, mark: bool) -> usize
    requires { at + 4 ≤ length list.old }
    ensures value { result ≡ at + 4 }
    ensures list_after { list.new ≡ take at list.old ++ written (first ∷ last ∷ size ∷ cond mark 1 0 ∷ []) (drop at list.old) }
{
    list[at] = u64::from(first);
    list[at + 1] = u64::from(last);
    list[at + 2] = size;
    list[at + 3] = u64::from(mark);
    at + RUN_NUMBERS
}

// Writes the run of an axis without slots to the front of a lent list: at the range's first, size 0.
// That the list has room is said of the runs that a call writes: a struct that kept it would hold the list with all that cuts them, for one call.
pub(crate) fn write_empty(first: u32, list: &mut [u64])
    requires { Room (or_empty first []) list.old }
    ensures { list.new ≡ written (flat (or_empty first [])) list.old }
{
    put_run(list, 0, first, first, 0, false);
}

// How many slots have an index below the break b, which often stands right past the last kept cut.
fn break_place(slots: Measured, prev: usize, b: u32) -> usize
    requires { prev ≤ length slots.indexes.now }
    ensures { result ≡ below b slots.entry.indexes.now }
{
    let indexes = slots.indexes;
    let next = prev + 1;
    if next < indexes.len() && indexes[prev] < b && b <= indexes[next] {
        return next;
    }
    place_of(indexes, u64::from(b))
}

impl Cutter<'_> {
    // The merge that is used at a boundary.
    fn holder(self, b: u32) -> Option<Span>
        ensures { let k = self.entry.frame in
            result ≡ holding k.lo k.hi b self.entry.merges.firsts.now self.entry.merges.lasts.now }
    {
        let clip = Span {
            first: self.frame.lo,
            last: self.frame.hi,
        };
        holding_merge(self.merges, clip, b)
    }

    // The end of a run that filling and the title gave n slots.
    #[tactic(auto, unfolding(planner_rules::specs::Runs::merged))]
    fn merged_end(self, indexes: &[u32], n: usize) -> RunEnd
        ensures { let k = self.entry.frame in
            result ≡ merged k.lo k.hi self.entry.merges.firsts.now self.entry.merges.lasts.now n indexes.now }
    {
        if n >= indexes.len() {
            return RunEnd {
                slots: n,
                grown: false,
            };
        }
        merge_step(indexes, n, self.holder(indexes[n]))
    }

    // Where a run that starts at the head of the slots ends, and its size.
    pub(crate) fn run_end(self, head: SomeSlots) -> Reach
        ensures grown_value { let merges = self.entry.merges in
            let is = head.entry.slots.indexes.now in
            let ss = head.entry.slots.sizes.now in
            (result.end ≡ run_end self.entry.frame merges.firsts.now merges.lasts.now is ss)
            × (result.size ≡ sum (take result.end.slots ss)) }
        ensures le_slots { (1 ≤ result.end.slots) × (result.end.slots ≤ length head.entry.slots.sizes.now) }
    {
        let slots = head.slots;
        let k = self.frame;
        let capacity = capacity_for(k, slots.indexes[0]);
        let filling = natural_fill(head, capacity);
        let n = taken_slots(k, slots, filling.slots);
        let end = self.merged_end(slots.indexes, n);
        Reach {
            end,
            size: size_of(slots, end.slots, filling),
        }
    }

    // Counts the runs of a stretch, and how many of them exceed their page.
    #[inline(always)]
    fn count_runs(self, page: ScaledPage, slots: Measured) -> Counted
        ensures counts { let rs = axes.runs_by self.entry slots.entry in
            (result.runs ≡ length rs) × (result.grown ≡ expansions rs)
            × (result.overflows ≡ overflowing (space_of page.side) self.entry.frame.title page.permille false rs) }
        ensures bounds { let n = length slots.entry.sizes.now in
            (result.runs ≤ n) × (result.grown ≤ n) × (result.overflows ≤ n) }
    {
        let title = self.frame.title;
        let mut rest = slots;
        let mut runs = 0;
        let mut grown = 0;
        let mut overflows = 0;
        // What is left says how far it is: an iterator over runs would hold this rest and that it shrinks in a contract of its own, for three loops.
        while let Some(head) = rest.some() {
            let Reach { end, size } = self.run_end(head);
            runs += 1;
            grown += u64::from(end.grown);
            overflows += u64::from(!run_fits(page, title, head.slots.indexes[0], size));
            rest = head.slots.after(end.slots);
        }
        Counted {
            runs,
            grown,
            overflows,
        }
    }

    // Writes the runs of a stretch to the front of a lent list, the first with the mark, and returns how many numbers they have. Its room: as at
    // `write_empty`.
    #[inline(always)]
    fn write_runs(self, slots: Measured, mark: bool, list: &mut [u64]) -> usize
        requires room { Room (first_marked (cond mark 1 0) (axes.runs_by self slots)) list.old }
        ensures { Written (first_marked (cond mark 1 0) (axes.runs_by self.entry slots.entry)) result list.old list.new }
    {
        let mut rest = slots;
        let mut manual = mark;
        let mut at = 0;
        // What is left says how far it is, as where runs are counted.
        while let Some(head) = rest.some() {
            let Reach { end, size } = self.run_end(head);
            let n = end.slots;
            at = put_run(
                list,
                at,
                head.slots.indexes[0],
                head.slots.indexes[n - 1],
                size,
                manual,
            );
            manual = false;
            rest = head.slots.after(n);
        }
        at
    }

    // The cut of a break at the place p; the last kept one where the break is skipped.
    #[inline(always)]
    fn placed_cut(self, slots: Measured, prev: usize, p: usize) -> Cut
        ensures { let merges = self.entry.merges in
            result ≡ placed self.entry.frame merges.firsts.now merges.lasts.now slots.entry.indexes.now prev p }
    {
        let skipped = Cut {
            place: prev,
            shifted: false,
        };
        if p == 0 || p >= slots.indexes.len() {
            return skipped;
        }
        let b = slots.indexes[p];
        if self.frame.title.holds(b) {
            return skipped;
        }
        moved_cut(self.holder(b), prev, p, slots)
    }

    // The last kept cut after the break b. Where no merge can move it, a break that is not past the last kept cut is not searched for.
    #[inline(always)]
    fn next_cut(self, slots: Measured, prev: usize, b: u32) -> Cut
        requires { prev ≤ length slots.indexes.now }
        ensures value { let merges = self.entry.merges in
            result ≡ next_cut self.entry.frame merges.firsts.now merges.lasts.now slots.entry.indexes.now prev b }
        ensures prev_le_place { (prev ≤ result.place) × (result.place ≤ length slots.entry.indexes.now) }
    {
        let indexes = slots.indexes;
        if self.merges.firsts.is_empty() && prev < indexes.len() && b <= indexes[prev] {
            return Cut {
                place: prev,
                shifted: false,
            };
        }
        let p = break_place(slots, prev, b);
        let Cut { place, shifted } = self.placed_cut(slots, prev, p);
        if place > prev && place < indexes.len() {
            return Cut { place, shifted };
        }
        Cut {
            place: prev,
            shifted,
        }
    }

    // Counts the runs of an axis, and how many of them exceed their page.
    pub(crate) fn count_axis(self, page: ScaledPage, slots: Measured, breaks: &[u32]) -> AxisCount
        ensures counts { let k = self.entry.frame in
            let firsts = self.entry.merges.firsts.now in
            let lasts = self.entry.merges.lasts.now in
            let is = slots.entry.indexes.now in
            let ss = slots.entry.sizes.now in
            let bs = breaks.now in
            (result.tally ≡ axis_tally k firsts lasts is ss bs)
            × (result.overflows ≡ overflowing (space_of page.side) k.title page.permille false (axes.axis_runs_by self.entry slots.entry bs)) }
        ensures bounds { let n = length slots.entry.sizes.now in
            (result.tally.runs ≤ n) × (result.tally.expansions ≤ n) × (result.tally.shifts ≤ length breaks.now) × (result.overflows ≤ n) }
    {
        let mut prev = 0;
        let mut count = 0;
        let mut grown = 0;
        let mut overflows = 0;
        let mut shifts = 0;
        for b in breaks {
            let cut = self.next_cut(slots, prev, *b);
            let next = cut.place;
            let t = self.count_runs(page, slots.part(prev, next));
            count += t.runs;
            grown += t.grown;
            overflows += t.overflows;
            shifts += u64::from(cut.shifted);
            prev = next;
        }
        let t = self.count_runs(page, slots.part(prev, slots.sizes.len()));
        AxisCount {
            tally: Tally {
                runs: count + t.runs,
                expansions: grown + t.grown,
                shifts,
            },
            overflows: overflows + t.overflows,
        }
    }

    // Writes the runs of the slots from the cut a to the cut e to a lent list, from `at` on, and returns how many numbers they have.
    #[inline(always)]
    fn write_stretch(
        self,
        slots: Measured,
        a: usize,
        e: usize,
        at: usize,
        list: &mut [u64],
    ) -> usize
        requires a_le_e { (a ≤ e) × (e ≤ length slots.sizes.now) }
        requires room_at { let merges = self.merges in
            RoomAt (stretch self.frame merges.firsts.now merges.lasts.now slots.indexes.now slots.sizes.now a e) at list.old }
        ensures { let merges = self.entry.merges in
            let is = slots.entry.indexes.now in
            let ss = slots.entry.sizes.now in
            WrittenAt (stretch self.entry.frame merges.firsts.now merges.lasts.now is ss a e) at result list.old list.new }
    {
        self.write_runs(slots.part(a, e), mark_of(a), &mut list[at..])
    }

    // Writes the runs of an axis to the front of a lent list and returns how many numbers they have. Its room: as at `write_empty`. The walk over breaks
    // is that of `count_axis`: one walk for both, told what to do at a stretch, would have the counts' bounds, or the room and what was written, in a
    // closure's contract.
    pub(crate) fn write_axis(self, slots: Measured, breaks: &[u32], list: &mut [u64]) -> usize
        requires room { Room (axes.axis_runs_by self slots breaks.now) list.old }
        ensures { Written (axes.axis_runs_by self.entry slots.entry breaks.now) result list.old list.new }
    {
        let mut prev = 0;
        let mut at = 0;
        for b in breaks {
            let next = self.next_cut(slots, prev, *b).place;
            at += self.write_stretch(slots, prev, next, at, list);
            prev = next;
        }
        at + self.write_stretch(slots, prev, slots.sizes.len(), at, list)
    }
}
