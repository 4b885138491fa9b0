// The items of a job, read into lent lists: document 01, sections "Jobs" and "Questions in order".
ghost use Rattle.std.specs.Prelude.{◌≡◌, true, ◌+◌, ◌≤◌, eqb, length};
ghost use Rattle.planner_rules.specs.Slots.{written};
ghost use Rattle.job_records.specs.Records.{RW, MR, BR, rank, step, records, marked, values, field};
ghost use Rattle.units.specs.Refusals.{outcome};
ghost use Rattle.job_records.specs.Marks.{place};
ghost use Rattle.job_records.specs.declared.marks.Mark.TheVariants as mark;
ghost use Rattle.job_walk.specs.Walk.{before};
ghost use Rattle.job_reader.specs.Walk.{of_kind, Kept, is_slot, is_break, measured};
ghost use Rattle.job_reader.specs.Walk as walk;
ghost use Rattle.job_reader.specs.Reading.{lists_in, even_lists, fit_in, admitted, admitted_to, Room, AllWritten, JobRead, StillLent, SlotsStill, MergesStill};

use crate::settings::settings_of;
use job_questions::{Items, MOST_AREAS, check_job_lent};
use job_records::{Head, Mark, Range, Record};
use job_settings::JobSettings;
use job_walk::{SortedJob, next_record};
use units::Refusal;

// What a job holds besides its lists.
#[derive(Clone, Copy)]
pub struct Job {
    pub settings: JobSettings,
    pub items: Items,
}

// The lists that are lent for the slots of an axis: their indexes and their sizes.
#[derive(Drop)]
pub struct LentSlots<'a> {
    pub indexes: &'a mut [u32],
    pub sizes: &'a mut [u64],
}

impl LentSlots<'_> {
    fn is_even(&self) -> bool
        ensures { result ≡ eqb (length self.now.indexes.now) (length self.now.sizes.now) }
    {
        self.indexes.len() == self.sizes.len()
    }
}

// The lists that are lent for one axis of the merges: their first and their last indexes.
#[derive(Drop)]
pub struct LentMerges<'a> {
    pub firsts: &'a mut [u32],
    pub lasts: &'a mut [u32],
}

// The lists that are lent for an axis.
#[derive(Drop)]
pub struct LentAxis<'a> {
    pub slots: LentSlots<'a>,
    pub merges: LentMerges<'a>,
    pub breaks: &'a mut [u32],
}

// The lists that are lent for a job's items, as `SheetLists` of the planner has them.
#[derive(Drop)]
pub struct JobLists<'a> {
    pub rows: LentAxis<'a>,
    pub columns: LentAxis<'a>,
}

// A slot as it goes to the lists. No `Slot`, whose size has a sign, as its bytes do.
#[derive(Clone, Copy)]
pub(crate) struct Measured {
    pub index: u32,
    pub size: u64,
}

fn slot_of(found: Record) -> Measured
    requires { is_slot (rank found) ≡ true }
    ensures { result ≡ measured found }
{
    match found {
        Record::Row(slot) | Record::Column(slot) => Measured {
            index: slot.index,
            size: slot.size.unsigned_abs(),
        },
        _ => unreachable!(),
    }
}

fn break_of(found: Record) -> u32
    requires { is_break (rank found) ≡ true }
    ensures { result ≡ field 0 found }
{
    match found {
        Record::RowBreak(row) => row,
        Record::ColumnBreak(column) => column as u32,
        _ => unreachable!(),
    }
}

fn cells_of(found: Record) -> Range
    requires { rank found ≡ MR }
    ensures { result ≡ walk.cells found }
{
    let Record::Merged(merge) = found else {
        unreachable!()
    };
    merge.cells
}

// The next record, where it has this mark.
fn next_of(s: &[u8], wanted: Mark) -> Option<Head>
    ensures { result ≡ of_kind (place wanted) (before (step s.now)) }
{
    next_record(s).filter(|head| head.found.mark() == wanted)
}

// What is left of a job from its first record that may repeat. Not by `Records`: it is what is left that is answered, and no record.
fn past_settings(job: SortedJob<'_>) -> SortedJob<'_>
    ensures first { result.first ≡ mark.Row }
    ensures kept { Kept RW job.entry.bytes.now result.bytes.now }
{
    let mut s = job.bytes;
    while let Some(head) = next_record(s) {
        if head.found.mark() > Mark::ColumnTitle {
            break;
        }
        s = &s[head.bytes..];
    }
    SortedJob {
        bytes: s,
        first: Mark::Row,
    }
}

// Writes the slots of the first kind, which stand at the head, and answers what is left, from the next mark on.
fn write_slots<'a>(job: SortedJob<'a>, next: Mark, lent: &mut LentSlots<'_>) -> SortedJob<'a>
    requires first_value { is_slot (place job.first) ≡ true }
    requires next_value { place next ≡ place job.first + 1 }
    requires in_bounds { length (marked (place job.first) (records job.bytes.now)) ≤ length lent.old.indexes.now }
    requires even { length lent.old.indexes.now ≡ length lent.old.sizes.now }
    ensures first { result.first ≡ next }
    ensures kept { Kept (place next) job.entry.bytes.now result.bytes.now }
    ensures indexes_after { lent.new.indexes.now ≡ written (values (place job.entry.first) 0 (records job.entry.bytes.now)) lent.old.indexes.now }
    ensures sizes_after { lent.new.sizes.now ≡ written (values (place job.entry.first) 1 (records job.entry.bytes.now)) lent.old.sizes.now }
    ensures lent_still { SlotsStill lent.old lent.new }
{
    let mut s = job.bytes;
    // By number, for one place in both lists. A `for` over a `zip` of two `iter_mut` was tried: its invariant can name the places that were handed
    // out, and neither of the lists that they are of.
    for k in 0..lent.indexes.len() {
        let Some(head) = next_of(s, job.first) else {
            break;
        };
        let slot = slot_of(head.found);
        lent.indexes[k] = slot.index;
        lent.sizes[k] = slot.size;
        s = &s[head.bytes..];
    }
    SortedJob {
        bytes: s,
        first: next,
    }
}

// Writes the merges, which stand at the head, and answers what is left.
fn write_merges<'a>(
    job: SortedJob<'a>,
    rows: &mut LentMerges<'_>,
    columns: &mut LentMerges<'_>,
) -> SortedJob<'a>
    requires first_value { place job.first ≡ MR }
    requires in_bounds { length (marked (place job.first) (records job.bytes.now)) ≤ length rows.old.firsts.now }
    requires first_columns_len { length rows.old.firsts.now ≡ length columns.old.firsts.now }
    requires last_rows_len { length rows.old.firsts.now ≡ length rows.old.lasts.now }
    requires last_columns_len { length rows.old.firsts.now ≡ length columns.old.lasts.now }
    ensures first { result.first ≡ mark.RowBreak }
    ensures kept { Kept BR job.entry.bytes.now result.bytes.now }
    ensures first_rows_after { rows.new.firsts.now ≡ written (values (place job.entry.first) 0 (records job.entry.bytes.now)) rows.old.firsts.now }
    ensures first_columns_after { columns.new.firsts.now ≡ written (values (place job.entry.first) 1 (records job.entry.bytes.now)) columns.old.firsts.now }
    ensures last_rows_after { rows.new.lasts.now ≡ written (values (place job.entry.first) 2 (records job.entry.bytes.now)) rows.old.lasts.now }
    ensures last_columns_after { columns.new.lasts.now ≡ written (values (place job.entry.first) 3 (records job.entry.bytes.now)) columns.old.lasts.now }
    ensures rows_still { MergesStill rows.old rows.new }
    ensures columns_still { MergesStill columns.old columns.new }
{
    let mut s = job.bytes;
    // By number, as for slots, in four lists.
    for k in 0..rows.firsts.len() {
        let Some(head) = next_of(s, job.first) else {
            break;
        };
        let cells = cells_of(head.found);
        rows.firsts[k] = cells.first_row;
        columns.firsts[k] = cells.first_column as u32;
        rows.lasts[k] = cells.last_row;
        columns.lasts[k] = cells.last_column as u32;
        s = &s[head.bytes..];
    }
    SortedJob {
        bytes: s,
        first: Mark::RowBreak,
    }
}

// Writes the breaks of the first kind, which stand at the head, and answers what is left, from the next mark on.
fn write_breaks<'a>(job: SortedJob<'a>, next: Mark, breaks: &mut [u32]) -> SortedJob<'a>
    requires first_value { is_break (place job.first) ≡ true }
    requires next_value { place next ≡ place job.first + 1 }
    requires in_bounds { length (marked (place job.first) (records job.bytes.now)) ≤ length breaks.old }
    ensures first { result.first ≡ next }
    ensures kept { Kept (place next) job.entry.bytes.now result.bytes.now }
    ensures breaks_after { breaks.new ≡ written (values (place job.entry.first) 0 (records job.entry.bytes.now)) breaks.old }
{
    let mut s = job.bytes;
    for index in breaks.iter_mut() {
        let Some(head) = next_of(s, job.first) else {
            break;
        };
        *index = break_of(head.found);
        s = &s[head.bytes..];
    }
    SortedJob {
        bytes: s,
        first: next,
    }
}

// Writes all items to the front of lists that hold them.
fn write_items(job: SortedJob<'_>, lent: &mut JobLists<'_>)
    requires { Room job.bytes.now (lists_in lent.old) }
    ensures all_written { AllWritten job.entry.bytes.now (lists_in lent.old) (lists_in lent.new) }
    ensures lent_still { StillLent lent.old lent.new }
{
    let rows = past_settings(job);
    let columns = write_slots(rows, Mark::Column, &mut lent.rows.slots);
    let merges = write_slots(columns, Mark::Merge, &mut lent.columns.slots);
    let row_breaks = write_merges(merges, &mut lent.rows.merges, &mut lent.columns.merges);
    let column_breaks = write_breaks(row_breaks, Mark::ColumnBreak, lent.rows.breaks);
    write_breaks(column_breaks, Mark::End, lent.columns.breaks);
}

fn fit_in(items: Items, room: Items) -> bool
    ensures { result ≡ fit_in items room }
{
    let breaks = (items.row_breaks <= room.row_breaks)
        & (items.column_breaks <= room.column_breaks);
    (items.rows <= room.rows)
        & ((items.columns <= room.columns) & ((items.merges <= room.merges) & breaks))
}

// How many items a job has that lent lists hold, or the first question that is answered no.
fn admit(bytes: &[u8], equally_long: bool, room: Items) -> Result<Items, Refusal>
    ensures { outcome result ≡ admitted equally_long room bytes.now }
{
    let items = check_job_lent(bytes, equally_long)?;
    if fit_in(items, room) {
        Ok(items)
    } else {
        Err(Refusal::ListTooShort)
    }
}

// 6 of lent lists: those that make up one list are equally long.
fn lent_even(lent: &JobLists<'_>) -> bool
    ensures { result ≡ even_lists (lists_in lent.now) }
{
    let merges = lent.rows.merges.firsts.len();
    let lasts_even = (merges == lent.rows.merges.lasts.len())
        & (merges == lent.columns.merges.lasts.len());
    lent.rows.slots.is_even()
        & (lent.columns.slots.is_even()
            & ((merges == lent.columns.merges.firsts.len()) & lasts_even))
}

// How many items a job has that these lists hold, or the first question that is answered no.
fn admit_to(bytes: &[u8], lent: &JobLists<'_>) -> Result<Items, Refusal>
    ensures { outcome result ≡ admitted_to bytes.now (lists_in lent.now) }
{
    let room = Items {
        areas: MOST_AREAS,
        rows: lent.rows.slots.indexes.len(),
        columns: lent.columns.slots.indexes.len(),
        merges: lent.rows.merges.firsts.len(),
        row_breaks: lent.rows.breaks.len(),
        column_breaks: lent.columns.breaks.len(),
    };
    admit(bytes, lent_even(lent), room)
}

// Reads a job: its settings, and its items to the front of the lent lists.
pub fn read_job(bytes: &[u8], lent: &mut JobLists<'_>) -> Result<Job, Refusal>
    ensures job_read { JobRead bytes.now result (lists_in lent.old) (lists_in lent.new) }
    ensures lent_still { StillLent lent.old lent.new }
{
    let items = admit_to(bytes, lent)?;
    let job = SortedJob {
        bytes,
        first: Mark::Paper,
    };
    write_items(job, lent);
    let settings = settings_of(job);
    Ok(Job { settings, items })
}
