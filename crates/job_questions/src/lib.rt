// The questions 1 to 9 and 15 put to a job, all but 15 in one pass over its records: document 01, section "Questions in order".
#![tactic(auto)]

ghost use Rattle.std.specs.Prelude.{◌≤◌, ◌≡◌, ◌<◌, ◌^◌, length};
ghost use Rattle.job_records.specs.Records.{rank, AR, records, marked};
ghost use Rattle.job_questions.specs.Verdict.{asked, follows, firsts_ok, grid_ok, size_ok, question15, repeats, verdict_lent, verdict};
ghost use Rattle.job_records.specs.Marks.{place};
ghost use Rattle.units.specs.Refusals.{outcome};
ghost use Rattle.job_questions.specs.Pass.{fine, both_fine, placed, counted, Few, rank_in};
ghost use Rattle.planner_rules.specs.Partition.{no_of};
ghost use Rattle.job_questions.specs.Pass.{start, advanced, after, surveyed, answer};

use job_records::{Mark, Range, Record, Slot, read_record};
use job_settings::{areas_for, range_for};
use job_walk::{SortedJob, areas_of, limit_of};
use planner_areas::{cells_hold, is_upright};
use std::ops::BitAnd;
use units::{LARGEST_SIZE, MAX_WORKSHEET_COLUMN, MAX_WORKSHEET_ROW, Refusal};

// The most bytes of a job.
pub const MOST_BYTES: usize = 60_000;

// The most areas of a job.
pub const MOST_AREAS: usize = 8;

// How many records repeat of each kind.
#[derive(Clone, Copy, Default)]
pub struct Items {
    pub areas: usize,
    pub rows: usize,
    pub columns: usize,
    pub merges: usize,
    pub row_breaks: usize,
    pub column_breaks: usize,
}

// What the questions 5 to 9 ask of a record.
#[derive(Clone, Copy)]
pub(crate) enum Asked {
    Flag(u8),
    Rectangle(Range),
    InRows(Slot),
    InColumns(Slot),
    Other,
}

// What a record answers to the questions 5, 6, 7 and 9.
#[derive(Clone, Copy)]
pub(crate) struct Fine {
    pub flag: bool,
    pub first: bool,
    pub grid: bool,
    pub size: bool,
}

// What the pass carries from record to record. Of an axis it is the least index that may come next, or none where the slots did not rise in the grid.
#[derive(Clone, Copy)]
pub(crate) struct State {
    pub last: Option<Mark>,
    pub ordered: bool,
    pub fine: Fine,
    pub rows: Option<u32>,
    pub columns: Option<u32>,
    pub items: Items,
}

fn asked_of(found: Record) -> Asked
    ensures { result ≡ asked found }
{
    match found {
        Record::Fit(x) | Record::Order(x) => Asked::Flag(x),
        Record::Area(a) => Asked::Rectangle(a),
        Record::Row(s) => Asked::InRows(s),
        Record::Column(s) => Asked::InColumns(s),
        Record::Merged(m) => Asked::Rectangle(m.cells),
        _ => Asked::Other,
    }
}

fn repeats(mark: Mark) -> bool
    ensures { result ≡ repeats (place mark) }
{
    matches!(
        mark,
        Mark::Area | Mark::Row | Mark::Column | Mark::Merge | Mark::RowBreak | Mark::ColumnBreak
    )
}

fn follows_on(last: Option<Mark>, next: Mark) -> bool
    ensures { result ≡ follows (rank_in last) (place next) }
{
    match last {
        None => true,
        Some(mark) => (next > mark) | ((mark == next) & repeats(next)),
    }
}

// 6 of a range, asked of it as the planner has it, so that `is_upright` is one for both.
fn firsts_ok(a: Range) -> bool
    ensures { result ≡ firsts_ok a }
{
    is_upright(range_for(a))
}

fn grid_ok(a: Range) -> bool
    ensures { result ≡ grid_ok a }
{
    let rows = (a.first_row <= MAX_WORKSHEET_ROW) & (a.last_row <= MAX_WORKSHEET_ROW);
    let columns = (a.first_column <= MAX_WORKSHEET_COLUMN)
        & (a.last_column <= MAX_WORKSHEET_COLUMN);
    rows & columns
}

// 9 of a size.
fn size_ok(size: i64) -> bool
    ensures { result ≡ size_ok size }
{
    (0..=LARGEST_SIZE as i64).contains(&size)
}

// What is asked of nothing.
const FINE: Fine = Fine {
    flag: true,
    first: true,
    grid: true,
    size: true,
};

fn fine_of(what: Asked) -> Fine
    ensures { result ≡ fine what }
{
    match what {
        Asked::Flag(x) => Fine {
            flag: x <= 1,
            ..FINE
        },
        Asked::Rectangle(a) => Fine {
            first: firsts_ok(a),
            grid: grid_ok(a),
            ..FINE
        },
        Asked::InRows(s) | Asked::InColumns(s) => Fine {
            size: size_ok(s.size),
            ..FINE
        },
        Asked::Other => FINE,
    }
}

// 8 of an axis after a slot with this index, in a grid whose last index is `last`.
fn place(last: u32, next: Option<u32>, index: u32) -> Option<u32>
    requires { last < 4294967295 }
    ensures { result ≡ placed last next index }
{
    if (next?..=last).contains(&index) {
        Some(index + 1)
    } else {
        None
    }
}

// What is fine of both.
impl BitAnd for Fine {
    type Output = Fine;

    ghost bitand_gives = { λ a b r. r ≡ both_fine a b };

    fn bitand(self, other: Fine) -> Fine {
        Fine {
            flag: self.flag & other.flag,
            first: self.first & other.first,
            grid: self.grid & other.grid,
            size: self.size & other.size,
        }
    }
}

// The items after a record with this mark.
fn count(c: Items, mark: Mark) -> Items
    requires { Few c }
    ensures { result ≡ counted c (place mark) }
{
    Items {
        areas: c.areas + usize::from(mark == Mark::Area),
        rows: c.rows + usize::from(mark == Mark::Row),
        columns: c.columns + usize::from(mark == Mark::Column),
        merges: c.merges + usize::from(mark == Mark::Merge),
        row_breaks: c.row_breaks + usize::from(mark == Mark::RowBreak),
        column_breaks: c.column_breaks + usize::from(mark == Mark::ColumnBreak),
    }
}

fn advance(t: State, found: Record) -> State
    requires { Few t.items }
    ensures { result ≡ advanced t found }
{
    let mark = found.mark();
    let what = asked_of(found);
    let next = State {
        last: Some(mark),
        ordered: t.ordered & follows_on(t.last, mark),
        fine: t.fine & fine_of(what),
        items: count(t.items, mark),
        ..t
    };
    match what {
        Asked::InRows(slot) => State {
            rows: place(MAX_WORKSHEET_ROW, t.rows, slot.index),
            ..next
        },
        Asked::InColumns(slot) => State {
            columns: place(MAX_WORKSHEET_COLUMN as u32, t.columns, slot.index),
            ..next
        },
        _ => next,
    }
}

// Before the first record.
impl Default for State {
    ghost is_default = { λ t. t ≡ start };

    fn default() -> State {
        State {
            last: None,
            ordered: true,
            fine: FINE,
            rows: Some(0),
            columns: Some(0),
            items: Items::default(),
        }
    }
}

// 15 of a job with no more than eight areas.
fn cells_ok(job: SortedJob<'_>) -> bool
    requires { length (marked AR (records job.bytes.now)) ≤ 8 }
    ensures { result ≡ question15 job.entry.bytes.now }
{
    let limit = limit_of(job.bytes, Mark::CellLimit);
    let Some(_) = limit else {
        return true;
    };
    let read = areas_of(job.bytes);
    let areas = areas_for(&read);
    cells_hold(limit, areas.as_slice())
}

// The first of the questions 4 to 7, 15, 8 and 9 that is answered no, if one is. Slices that make up one list are equally long, or not.
fn first_no(bytes: &[u8], equally_long: bool, t: State) -> Result<(), Refusal>
    requires { t ≡ after start (records bytes.now) }
    ensures { no_of result ≡ answer equally_long (question15 bytes.now) t }
{
    let areas = t.items.areas;
    if !(t.ordered & (1..=MOST_AREAS).contains(&areas)) {
        return Err(Refusal::MisplacedRecord);
    }
    if !t.fine.flag {
        return Err(Refusal::BadFlag);
    }
    if !(equally_long & t.fine.first) {
        return Err(Refusal::MalformedLists);
    }
    if !t.fine.grid {
        return Err(Refusal::OutsideGrid);
    }
    let job = SortedJob {
        bytes,
        first: Mark::Paper,
    };
    let held = cells_ok(job);
    let rising = t.rows.is_some() & t.columns.is_some();
    if !held {
        return Err(Refusal::TooManyCells);
    }
    if !rising {
        return Err(Refusal::IndexesNotRising);
    }
    if !t.fine.size {
        return Err(Refusal::SizeOutOfRange);
    }
    Ok(())
}

// Questions 1 to 3, and what is carried past the records. Not by `Records`: they end alike at an EN and at a broken record, and here it is asked which.
fn survey_job(bytes: &[u8]) -> Result<State, Refusal>
    ensures { result ≡ surveyed bytes.now }
{
    if bytes.len() > MOST_BYTES {
        return Err(Refusal::TooManyBytes);
    }
    let mut s = bytes;
    let mut t = State::default();
    while let Some(head) = read_record(s) {
        if head.found.mark() == Mark::End {
            if s.len() != 2 {
                return Err(Refusal::EndNotLast);
            }
            return Ok(t);
        }
        t = advance(t, head.found);
        s = &s[head.bytes..];
    }
    Err(Refusal::BrokenRecord)
}

// How many items a job has, or the first question that is answered no. The slices that a caller was lent for the job's answer and that make up
// one list are equally long, or not.
pub fn check_job_lent(bytes: &[u8], equally_long: bool) -> Result<Items, Refusal>
    ensures { outcome result ≡ verdict_lent equally_long bytes.now }
{
    let state = survey_job(bytes)?;
    first_no(bytes, equally_long, state)?;
    Ok(state.items)
}

// The same for a call that was lent no list.
pub fn check_job(bytes: &[u8]) -> Result<Items, Refusal>
    ensures { outcome result ≡ verdict bytes.now }
{
    check_job_lent(bytes, true)
}
