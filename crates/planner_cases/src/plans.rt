// Plans. The head of a plan is
//
//     2   twelve flags, 0 or 1: paper given, landscape, percent given, fit, width's target given, height's target given, over then down,
//         headings, row title given, column title given, margins given, cell limit given
//     2   thirteen lengths: row indexes and sizes, column indexes and sizes, the merges' first rows, first columns, last rows and last
//         columns, row breaks, column breaks, the numbers of the lent lists of row runs and of column runs, and the areas
//     8   paper, percent, width's target, height's target; the row title's first and last, the column title's first and last
//     16  the page limit, the cell limit
//
// digits for each field. After it come the margins if they are given (16 digits each); of the areas the first rows, the first columns, the last
// rows and the last columns (8); the row indexes (8) and sizes (16), the column indexes and sizes, the merges' first rows, first columns, last
// rows and last columns (8), the row breaks and the column breaks (8).
use crate::axes::read_title;
use crate::fields::{Fault, Fields, List, read_list, read_part};
use crate::lent::{COLUMNS, ROWS, Runs, numbers_from};
use crate::lists::Lists;
use crate::replay::Case;
use crate::text::{Answer, Numbers, PlanText, numbered_page};
use arrayvec::ArrayVec;
use geometry::Margins;
use job_records::float;
use planner::plan_pages;
use planner_rules::{PageOrder, Plan, PrintRange, Request, RunLists, Settings, SheetLists, Title};
use std::io::{self, Write};
use units::Refusal;

// The bytes of a head, and of margins.
const HEAD: usize = 181;

const MARGINS: usize = 102;

// The most pages of which each is asked for, and the most that are asked for.
const FEW: u64 = 12;

const ASKED: usize = 16;

#[derive(Clone, Copy)]
struct Flags {
    paper: bool,
    landscape: bool,
    percent: bool,
    fit: bool,
    fit_width: bool,
    fit_height: bool,
    over_then_down: bool,
    headings: bool,
    row_title: bool,
    column_title: bool,
    margins: bool,
    cell_limit: bool,
}

impl Flags {
    fn read(fields: &mut Fields) -> Result<Self, Fault> {
        Ok(Self {
            paper: fields.next()?,
            landscape: fields.next()?,
            percent: fields.next()?,
            fit: fields.next()?,
            fit_width: fields.next()?,
            fit_height: fields.next()?,
            over_then_down: fields.next()?,
            headings: fields.next()?,
            row_title: fields.next()?,
            column_title: fields.next()?,
            margins: fields.next()?,
            cell_limit: fields.next()?,
        })
    }
}

#[derive(Clone, Copy)]
struct Lengths {
    row_indexes: u8,
    row_sizes: u8,
    column_indexes: u8,
    column_sizes: u8,
    merge_first_rows: u8,
    merge_first_columns: u8,
    merge_last_rows: u8,
    merge_last_columns: u8,
    row_breaks: u8,
    column_breaks: u8,
    row_runs: u8,
    column_runs: u8,
    areas: u8,
}

impl Lengths {
    fn read(fields: &mut Fields) -> Result<Self, Fault> {
        Ok(Self {
            row_indexes: fields.next()?,
            row_sizes: fields.next()?,
            column_indexes: fields.next()?,
            column_sizes: fields.next()?,
            merge_first_rows: fields.next()?,
            merge_first_columns: fields.next()?,
            merge_last_rows: fields.next()?,
            merge_last_columns: fields.next()?,
            row_breaks: fields.next()?,
            column_breaks: fields.next()?,
            row_runs: fields.next()?,
            column_runs: fields.next()?,
            areas: fields.next()?,
        })
    }
}

// A setting of the last 16 bits of a field, if it is given.
fn read_setting(fields: &mut Fields, given: bool) -> Result<Option<u16>, Fault> {
    let bits: u32 = fields.next()?;
    Ok(given.then_some((bits & 0xffff) as u16))
}

fn read_cell_limit(fields: &mut Fields, given: bool) -> Result<Option<u64>, Fault> {
    let limit = fields.next()?;
    Ok(given.then_some(limit))
}

// The margins stand in the line only if they are given.
fn read_margins(given: bool) -> Result<Option<Margins>, Fault> {
    if !given {
        return Ok(None);
    }
    let text = read_part(MARGINS);
    let mut fields = Fields::new(&text);
    Ok(Some(Margins {
        left: float(fields.next()?),
        right: float(fields.next()?),
        top: float(fields.next()?),
        bottom: float(fields.next()?),
        header: float(fields.next()?),
        footer: float(fields.next()?),
    }))
}

// What a plan is asked for beside its areas and lists: its settings and both titles.
#[derive(Clone, Copy)]
struct Asked {
    settings: Settings,
    row_title: Title,
    column_title: Title,
}

impl Asked {
    fn read() -> Result<(Self, Lengths), Fault> {
        let head = read_part(HEAD);
        let mut fields = Fields::new(&head);
        let flags = Flags::read(&mut fields)?;
        let lengths = Lengths::read(&mut fields)?;
        let paper = read_setting(&mut fields, flags.paper)?;
        let percent = read_setting(&mut fields, flags.percent)?;
        let fit_width = read_setting(&mut fields, flags.fit_width)?;
        let fit_height = read_setting(&mut fields, flags.fit_height)?;
        let row_title = read_title(&mut fields, flags.row_title)?;
        let column_title = read_title(&mut fields, flags.column_title)?;
        let page_limit = fields.next()?;
        let cell_limit = read_cell_limit(&mut fields, flags.cell_limit)?;
        let settings = Settings {
            paper,
            landscape: flags.landscape,
            margins: read_margins(flags.margins)?,
            percent,
            fit: flags.fit,
            fit_width,
            fit_height,
            order: PageOrder::from(flags.over_then_down),
            headings: flags.headings,
            page_limit,
            cell_limit,
        };
        let asked = Self {
            settings,
            row_title,
            column_title,
        };
        Ok((asked, lengths))
    }
}

fn read_ranges(count: u8) -> Result<List<PrintRange>, Fault> {
    let first_rows = read_list(count)?;
    let first_columns = read_list(count)?;
    let last_rows = read_list(count)?;
    let last_columns = read_list(count)?;
    let firsts = first_rows.into_iter().zip(first_columns);
    let lasts = last_rows.into_iter().zip(last_columns);
    let ranges = firsts.zip(lasts).map(|(
        (first_row, first_column),
        (last_row, last_column),
    )| PrintRange {
        first_row,
        first_column,
        last_row,
        last_column,
    });
    let mut list = List::new();
    let _fits = list.extend(ranges);
    Ok(list)
}

// The lists of rows and of columns, which stand in turns.
fn read_lists(n: &Lengths) -> Result<(Lists, Lists), Fault> {
    let row_indexes = read_list(n.row_indexes)?;
    let row_sizes = read_list(n.row_sizes)?;
    let column_indexes = read_list(n.column_indexes)?;
    let column_sizes = read_list(n.column_sizes)?;
    let merge_first_rows = read_list(n.merge_first_rows)?;
    let merge_first_columns = read_list(n.merge_first_columns)?;
    let merge_last_rows = read_list(n.merge_last_rows)?;
    let merge_last_columns = read_list(n.merge_last_columns)?;
    let rows = Lists {
        indexes: row_indexes,
        sizes: row_sizes,
        merge_firsts: merge_first_rows,
        merge_lasts: merge_last_rows,
        breaks: read_list(n.row_breaks)?,
    };
    let columns = Lists {
        indexes: column_indexes,
        sizes: column_sizes,
        merge_firsts: merge_first_columns,
        merge_lasts: merge_last_columns,
        breaks: read_list(n.column_breaks)?,
    };
    Ok((rows, columns))
}

#[derive(Drop)]
pub(crate) struct PlanCase {
    asked: Asked,
    ranges: List<PrintRange>,
    rows: Lists,
    columns: Lists,
    row_runs: Runs,
    column_runs: Runs,
}

impl PlanCase {
    // Plans, which writes the runs to the lent lists.
    fn plan(&mut self) -> Result<Plan, Refusal> {
        let request = Request {
            settings: self.asked.settings,
            areas: &self.ranges,
            row_title: self.asked.row_title,
            column_title: self.asked.column_title,
        };
        let lists = SheetLists {
            rows: self.rows.lend(),
            columns: self.columns.lend(),
        };
        plan_pages(&request, &lists, &mut self.row_runs, &mut self.column_runs)
    }
}

impl Case for PlanCase {
    fn read() -> Result<Self, Fault> {
        let (asked, lengths) = Asked::read()?;
        let ranges = read_ranges(lengths.areas)?;
        let (rows, columns) = read_lists(&lengths)?;
        Ok(Self {
            asked,
            ranges,
            rows,
            columns,
            row_runs: numbers_from(ROWS, lengths.row_runs),
            column_runs: numbers_from(COLUMNS, lengths.column_runs),
        })
    }

    // Plans, and answers what the lent lists hold then, and pages.
    fn answer<W: Write>(&mut self, out: &mut W) -> io::Result<()> {
        let planned = Answer(self.plan().map(PlanText));
        let rows = Numbers(&self.row_runs);
        let columns = Numbers(&self.column_runs);
        write!(out, "{planned}{rows}{columns}")?;
        if let Ok(PlanText(plan)) = &planned.0 {
            for number in page_numbers(plan.pages) {
                let runs = RunLists {
                    rows: &self.row_runs,
                    columns: &self.column_runs,
                };
                let page = numbered_page(plan, number, runs);
                write!(out, "; {number} {page}")?;
            }
        }
        writeln!(out)
    }
}

// The numbers of the pages that are asked for: all of a few and those before and after them; of more, 0 to 6, two in the middle, and the last
// six with the one after them, which is 0 after the last number that there is.
fn page_numbers(pages: u64) -> ArrayVec<u64, ASKED> {
    let mut numbers = ArrayVec::new();
    let _fits = if pages <= FEW {
        numbers.extend(0..pages + 2)
    } else {
        let middle = pages / 2;
        let first = (0..7).chain(middle..middle + 2);
        let last = (pages - 5..pages).chain([pages, pages.wrapping_add(1)]);
        numbers.extend(first.chain(last))
    };
    numbers
}
