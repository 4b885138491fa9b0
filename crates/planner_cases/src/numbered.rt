// Pages by their number, of plans that are not as they were answered. The head of such a plan is
//
//     2   a flag, 0 or 1: over then down
//     2   how many runs stand between two whose mark is 0, of rows and of columns; the first run has the mark 0
//     2   how many numbers the lists of row runs and of column runs have, and how many areas follow the head, up to eight
//     16  the numbers that the two lists start with, from which each place has one more, but for the marks of 0
//     16  the plan's count of areas, pages, and the number of the page
//
// digits for each field. After it each area has 2 rows empty, columns empty, and 16 row runs, column runs; what is not there is 0.
use crate::fields::{Fault, Fields, read_part};
use crate::lent::{Runs, marked_from};
use crate::replay::Case;
use crate::text::numbered_page;
use planner_rules::{AreaPlan, AreaPlans, Notes, PageOrder, Plan, RunLists};
use std::io::{self, Write};

// The bytes of a head, and of an area.
const HEAD: usize = 103;

const AREA: usize = 40;

fn read_area(fields: &mut Fields) -> Result<AreaPlan, Fault> {
    let (rows_empty, columns_empty) = (fields.next()?, fields.next()?);
    let (row_runs, column_runs): (u64, u64) = (fields.next()?, fields.next()?);
    Ok(AreaPlan {
        row_runs: row_runs as usize,
        column_runs: column_runs as usize,
        rows_empty,
        columns_empty,
        ..AreaPlan::default()
    })
}

// What so many areas came to, of which some are read and the others have no runs; of more than eight, the first eight are meant.
fn read_areas(fields: &mut Fields, read: u8, count: u64) -> Result<AreaPlans, Fault> {
    let mut plans = [AreaPlan::default(); 8];
    for area in plans.iter_mut().take(usize::from(read)) {
        *area = read_area(fields)?;
    }
    Ok(AreaPlans {
        count: count as usize,
        plans,
    })
}

#[derive(Drop)]
pub(crate) struct PageCase {
    plan: Plan,
    number: u64,
    row_runs: Runs,
    column_runs: Runs,
}

impl Case for PageCase {
    fn read() -> Result<Self, Fault> {
        let head = read_part(HEAD);
        let mut fields = Fields::new(&head);
        let over_then_down: bool = fields.next()?;
        let order = PageOrder::from(over_then_down);
        let (row_others, column_others) = (fields.next()?, fields.next()?);
        let (row_numbers, column_numbers) = (fields.next()?, fields.next()?);
        let areas_read: u8 = fields.next()?;
        let (first_row, first_column) = (fields.next()?, fields.next()?);
        let (count, pages, number) = (fields.next()?, fields.next()?, fields.next()?);
        let text = read_part(AREA * usize::from(areas_read.min(8)));
        let areas = read_areas(&mut Fields::new(&text), areas_read, count)?;
        Ok(Self {
            plan: Plan {
                areas,
                pages,
                order,
                notes: Notes::default(),
            },
            number,
            row_runs: marked_from(first_row, row_numbers, row_others),
            column_runs: marked_from(first_column, column_numbers, column_others),
        })
    }

    fn answer<W: Write>(&mut self, out: &mut W) -> io::Result<()> {
        let runs = RunLists {
            rows: &self.row_runs,
            columns: &self.column_runs,
        };
        let page = numbered_page(&self.plan, self.number, runs);
        writeln!(out, "{page}")
    }
}
