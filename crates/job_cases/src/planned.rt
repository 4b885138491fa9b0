// Plans a job and prints the plan, as program `plan` does: counted first, then area by area in the same lists; but page by page, by the calls
// for one page, and not by `area_block`. The room for runs, `print_head` and `print_area` stand in `plan` too: no library of the repository
// writes to a stream, and what has the bodies, `head_lines` and `area_line`, is one already.
use crate::block::LINE;
use job::{count_job, write_job_area};
use job_report::{area_line, head_lines, page_line};
use planner_pages::{area_page, page_spot};
use planner_rules::{AreaPlan, Page, Plan, RUN_NUMBERS, RunLists, Spot};
use std::io::{self, Write};
use units::Refusal;

// The runs that a list has room for, and its numbers.
const RUNS: usize = 5000;

const NUMBERS: usize = RUN_NUMBERS * RUNS;

// Each of the next three makes its array: one function for them would take the putting as a closure, and ask of it where the text ends.

// The first lines of an answer.
fn print_head<W: Write>(planning: &Result<Plan, Refusal>, out: &mut W) -> io::Result<()> {
    let mut line = [0; LINE];
    let end = head_lines(planning, &mut line);
    out.write_all(&line[..end])
}

// The line of an area; the first has none.
fn print_area<W: Write>(number: u64, area: AreaPlan, out: &mut W) -> io::Result<()> {
    if number < 2 {
        return Ok(());
    }
    let mut line = [0; LINE];
    let end = area_line(number, area.permille, &mut line);
    out.write_all(&line[..end])
}

fn print_page<W: Write>(number: u64, page: Page, out: &mut W) -> io::Result<()> {
    let mut line = [0; LINE];
    let end = page_line(number, page, &mut line);
    out.write_all(&line[..end])
}

// The lists that the runs of each area are written to in turn.
#[derive(Drop)]
pub(crate) struct Runs {
    rows: [u64; NUMBERS],
    columns: [u64; NUMBERS],
}

impl Runs {
    pub(crate) fn new() -> Self {
        Self {
            rows: [0; NUMBERS],
            columns: [0; NUMBERS],
        }
    }

    // Writes the line of the area of a page, and its runs to the lists.
    fn begin_area<W: Write>(
        &mut self,
        job: &[u8],
        spot: Spot,
        area: AreaPlan,
        out: &mut W,
    ) -> io::Result<()> {
        let number = (spot.area as u64).wrapping_add(1);
        print_area(number, area, out)?;
        // A counted plan is not refused; if it were, its pages would tell.
        let _ = write_job_area(
            job,
            number,
            area.permille,
            &mut self.rows,
            &mut self.columns,
        );
        Ok(())
    }

    // The page at a spot, by the runs of its area.
    fn page_at(&self, plan: &Plan, spot: Spot, area: AreaPlan) -> Option<Page> {
        let number = (spot.before as u64).wrapping_add(1);
        let runs = RunLists {
            rows: &self.rows,
            columns: &self.columns,
        };
        area_page(plan.order, area, number, runs).ok()
    }

    // Prints the lines of all areas and pages.
    fn print_pages<W: Write>(&mut self, job: &[u8], plan: &Plan, out: &mut W) -> io::Result<()> {
        // By number: the calls for one page take it, and no list has the pages.
        for number in 1..=plan.pages {
            let Some(spot) = page_spot(plan, number) else {
                break;
            };
            let Some(area) = plan.areas.as_slice().get(spot.area).copied() else {
                break;
            };
            if spot.before == 0 {
                self.begin_area(job, spot, area, out)?;
            }
            if let Some(page) = self.page_at(plan, spot, area) {
                print_page(number, page, out)?;
            }
        }
        Ok(())
    }

    // Prints what `plan` prints for a job's bytes.
    pub(crate) fn print_plan<W: Write>(&mut self, job: &[u8], out: &mut W) -> io::Result<()> {
        let planning = count_job(job);
        print_head(&planning, out)?;
        if let Ok(plan) = planning {
            self.print_pages(job, &plan, out)?;
        }
        Ok(())
    }
}
