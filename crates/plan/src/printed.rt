// The plan of a job's bytes, as it is printed. `print_head` and `print_area` stand in `job_cases` too: no library of the repository writes to a
// stream, and what has the bodies, `head_lines` and `area_line`, is one already.
ghost use Rattle.std.specs.Prelude.{◌+◌, ◌≡◌, ◌≤◌, ◌<◌, IfOk, length};
ghost use Rattle.planner_rules.specs.Areas.{plans_in};

use crate::failure::Failure;
use job::{count_job, write_job_area};
use job_report::{Block, area_block, area_line, head_lines};
use planner_pages::page_spot;
use planner_rules::{Plan, RUN_NUMBERS, RunLists, Spot};
use std::io::Write;
use units::Refusal;

// "Its run lists hold 5,000 entries an axis".
const RUNS: usize = 5000;

const NUMBERS: usize = RUN_NUMBERS * RUNS;

// Writes to standard output.
fn write<W: Write>(out: &mut W, bytes: &[u8]) -> Result<(), Failure> {
    out.write_all(bytes).map_err(|_| Failure::Output)
}

// Writes the first lines, or that of a refusal.
fn print_head<W: Write>(out: &mut W, planning: &Result<Plan, Refusal>) -> Result<(), Failure> {
    let mut head = [0; 256];
    let end = head_lines(planning, &mut head);
    write(out, &head[..end])
}

// Writes the line of the area with a number, from 1, if it is a later one.
fn print_area<W: Write>(out: &mut W, number: u64, permille: u16) -> Result<(), Failure> {
    if number < 2 {
        return Ok(());
    }
    let mut line = [0; 256];
    let end = area_line(number, permille, &mut line);
    write(out, &line[..end])
}

// A job that was counted, and the lists that the runs of each of its areas are written to in turn.
#[derive(Drop)]
struct Counted<'a> {
    job: &'a [u8],
    plan: Plan,
    row_runs: [u64; NUMBERS],
    column_runs: [u64; NUMBERS],
}

impl Counted<'_> {
    fn spot(&self, number: u64) -> Result<Spot, Failure>
        ensures { IfOk result (λ spot. spot.area < length (plans_in self.now.plan.areas)) }
    {
        page_spot(&self.plan, number).ok_or(Failure::Refused)
    }

    // Writes the line of an area, by its number from 0, and its runs to the lists.
    fn begin_area<W: Write>(&mut self, out: &mut W, at: usize) -> Result<(), Failure>
        requires { at < length (plans_in self.old.plan.areas) }
        ensures { self.new.plan ≡ self.old.plan }
    {
        let permille = self.plan.areas.as_slice()[at].permille;
        let number = at as u64 + 1;
        print_area(out, number, permille)?;
        write_job_area(
            self.job,
            number,
            permille,
            &mut self.row_runs,
            &mut self.column_runs,
        )
        .map_err(|_| Failure::Refused)?;
        Ok(())
    }

    // Writes a block of page lines from a number on, and answers how many.
    fn print_block<W: Write>(&self, out: &mut W, from: u64) -> Result<u64, Failure>
        requires { from ≤ self.now.plan.pages }
        ensures some { IfOk result (λ pages. 1 ≤ pages) }
        ensures to_count { IfOk result (λ pages. from + pages ≤ self.now.plan.pages + 1) }
    {
        let mut lines = [0; 65536];
        let runs = RunLists {
            rows: &self.row_runs,
            columns: &self.column_runs,
        };
        let answer = area_block(&self.plan, from, runs, &mut lines);
        let Block { pages, bytes } = answer.map_err(|_| Failure::Refused)?;
        write(out, &lines[..bytes])?;
        Ok(pages)
    }

    // Writes the lines of all areas and pages, a block at a time; where a block is an area's first, its line before it.
    fn print_pages<W: Write>(&mut self, out: &mut W) -> Result<(), Failure> {
        let pages = self.plan.pages;
        let mut done = 0;
        // No `for`: a block has as many pages as fit.
        while done < pages {
            let spot = self.spot(done + 1)?;
            if spot.before == 0 {
                self.begin_area(out, spot.area)?;
            }
            done += self.print_block(out, done + 1)?;
        }
        Ok(())
    }
}

// Writes what the job's bytes come to.
pub(crate) fn print_plan<W: Write>(job: &[u8], out: &mut W) -> Result<(), Failure> {
    let planning = count_job(job);
    print_head(out, &planning)?;
    let Ok(plan) = planning else {
        return Ok(());
    };
    let mut counted = Counted {
        job,
        plan,
        row_runs: [0; NUMBERS],
        column_runs: [0; NUMBERS],
    };
    counted.print_pages(out)
}
