// The records of a job, one at a time: document 01, section "Jobs".
ghost use Rattle.std.specs.Prelude.{◌≡◌, ◌≤◌, ◌<◌, [], length};
ghost use Rattle.job_records.specs.Records.{range_at, margins_at, row_at, column_at, kind_of, head_record, step_outcome, mark_before};
ghost use Rattle.job_records.specs.Marks.{bytes_of};
ghost use Rattle.job_records.specs.Areas.{ranges_in, held_ranges};

use crate::little_endian::{signed, u16_at, u32_at, u64_at};
use crate::marks::Mark;

// A rectangle of cells.
#[derive(Clone, Copy, Default)]
pub struct Range {
    pub first_row: u32,
    pub first_column: u16,
    pub last_row: u32,
    pub last_column: u16,
}

// The print areas of a job, at most eight, in job order; what stands past their count is no area. Not one type with the `AreaPlans` of a plan: as there.
#[derive(Clone, Copy)]
pub struct JobAreas {
    pub count: usize,
    pub ranges: [Range; 8],
}

impl JobAreas {
    // No area.
    #[inline(always)]
    pub fn new() -> Self
        ensures { result ≡ held_ranges [] }
    {
        JobAreas {
            count: 0,
            ranges: [Range::default(); 8],
        }
    }

    // Those that count.
    #[inline(always)]
    pub fn as_slice(&self) -> &[Range]
        ensures value { result.now ≡ ranges_in self.now }
        ensures few { length result.now ≤ 8 }
    {
        &self.ranges[..self.count.min(8)]
    }
}

// A measured row or column. The size stands first: behind the index a range would end inside it, and a `Record` would be written in halves.
#[derive(Clone, Copy)]
pub struct Slot {
    pub size: i64,
    pub index: u32,
}

// A merged rectangle. A struct of one field: document 01 has the cases of a record hold structs (range, slot, merge).
#[derive(Clone, Copy)]
pub struct Merge {
    pub cells: Range,
}

// Six margins in inches, each by the 64 bits of its f64.
pub type MarginBits = units::Margins<u64>;

// A record, one kind for each mark.
#[derive(Clone, Copy)]
pub enum Record {
    Paper(u16),
    Landscape,
    Margin(MarginBits),
    Scale(u16),
    Wide(u16),
    High(u16),
    Fit(u8),
    Order(u8),
    Headings,
    Limit(u64),
    Cells(u64),
    Area(Range),
    TitleRows(u32, u32),
    TitleColumns(u16, u16),
    Row(Slot),
    Column(Slot),
    Merged(Merge),
    RowBreak(u32),
    ColumnBreak(u16),
    End,
}

// A record at the head of some bytes, and how many bytes it has.
#[derive(Clone, Copy)]
pub struct Head {
    pub found: Record,
    pub bytes: usize,
}

fn margins_at(s: &[u8]) -> MarginBits
    requires { 50 ≤ length s.now }
    ensures { result ≡ margins_at s.now }
{
    MarginBits {
        left: u64_at(s, 2),
        right: u64_at(s, 10),
        top: u64_at(s, 18),
        bottom: u64_at(s, 26),
        header: u64_at(s, 34),
        footer: u64_at(s, 42),
    }
}

fn range_at(s: &[u8]) -> Range
    requires { 14 ≤ length s.now }
    ensures { result ≡ range_at s.now }
{
    Range {
        first_row: u32_at(s, 2),
        first_column: u16_at(s, 6),
        last_row: u32_at(s, 8),
        last_column: u16_at(s, 12),
    }
}

fn row_at(s: &[u8]) -> Slot
    requires { 14 ≤ length s.now }
    ensures { result ≡ row_at s.now }
{
    Slot {
        index: u32_at(s, 2),
        size: signed(u64_at(s, 6)),
    }
}

fn column_at(s: &[u8]) -> Slot
    requires { 12 ≤ length s.now }
    ensures { result ≡ column_at s.now }
{
    Slot {
        index: u16_at(s, 2) as u32,
        size: signed(u64_at(s, 4)),
    }
}

// The record with this mark, whose bytes are all there.
#[inline(always)]
fn record_at(s: &[u8], mark: Mark) -> Record
    requires { bytes_of mark ≤ length s.now }
    ensures { result ≡ kind_of mark s.now }
{
    match mark {
        Mark::Paper => Record::Paper(u16_at(s, 2)),
        Mark::Landscape => Record::Landscape,
        Mark::Margins => Record::Margin(margins_at(s)),
        Mark::Percent => Record::Scale(u16_at(s, 2)),
        Mark::FitWidth => Record::Wide(u16_at(s, 2)),
        Mark::FitHeight => Record::High(u16_at(s, 2)),
        Mark::Fit => Record::Fit(s[2]),
        Mark::Order => Record::Order(s[2]),
        Mark::Headings => Record::Headings,
        Mark::PageLimit => Record::Limit(u64_at(s, 2)),
        Mark::CellLimit => Record::Cells(u64_at(s, 2)),
        Mark::Area => Record::Area(range_at(s)),
        Mark::RowTitle => Record::TitleRows(u32_at(s, 2), u32_at(s, 6)),
        Mark::ColumnTitle => Record::TitleColumns(u16_at(s, 2), u16_at(s, 4)),
        Mark::Row => Record::Row(row_at(s)),
        Mark::Column => Record::Column(column_at(s)),
        Mark::Merge => Record::Merged(Merge { cells: range_at(s) }),
        Mark::RowBreak => Record::RowBreak(u32_at(s, 2)),
        Mark::ColumnBreak => Record::ColumnBreak(u16_at(s, 2)),
        Mark::End => Record::End,
    }
}

// The whole known record at the head of the bytes; where none is, it is a no to question 2.
pub fn read_record(bytes: &[u8]) -> Option<Head>
    ensures { step_outcome result ≡ head_record bytes.now }
{
    if bytes.len() < 2 {
        return None;
    }
    let mark = Mark::spelled(u16_at(bytes, 0))?;
    let size = mark.bytes();
    if bytes.len() < size {
        return None;
    }
    Some(Head {
        found: record_at(bytes, mark),
        bytes: size,
    })
}

impl Record {
    // The mark before it.
    pub fn mark(self) -> Mark
        ensures { result ≡ mark_before self }
    {
        match self {
            Record::Paper(_) => Mark::Paper,
            Record::Landscape => Mark::Landscape,
            Record::Margin(_) => Mark::Margins,
            Record::Scale(_) => Mark::Percent,
            Record::Wide(_) => Mark::FitWidth,
            Record::High(_) => Mark::FitHeight,
            Record::Fit(_) => Mark::Fit,
            Record::Order(_) => Mark::Order,
            Record::Headings => Mark::Headings,
            Record::Limit(_) => Mark::PageLimit,
            Record::Cells(_) => Mark::CellLimit,
            Record::Area(_) => Mark::Area,
            Record::TitleRows(_, _) => Mark::RowTitle,
            Record::TitleColumns(_, _) => Mark::ColumnTitle,
            Record::Row(_) => Mark::Row,
            Record::Column(_) => Mark::Column,
            Record::Merged(_) => Mark::Merge,
            Record::RowBreak(_) => Mark::RowBreak,
            Record::ColumnBreak(_) => Mark::ColumnBreak,
            Record::End => Mark::End,
        }
    }
}
