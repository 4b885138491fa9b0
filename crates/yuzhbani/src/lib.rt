// Plans, pages and their text for a program in another language. `rt staticlib yuzhbani` makes an archive of these calls, which C or Rust
// can link. A plan is handed over as sixty numbers and a page as twelve, in the order that `specs/Numbers.antt` of `yuzhbani_answers` says;
// what is asked of a plan as sixty-one, in the order that `specs/Request.antt` of `yuzhbani_request` says. Numbers, lent arrays and single
// slices stand where a Rust call would have a `Result` and structs: the C interface needs them.
#![tactic(auto)]

ghost use Rattle.std.specs.Prelude.{◌≡◌};
ghost use Rattle.units.specs.Refusals.{outcome};
ghost use Rattle.planner_rules.specs.Questions.{ask};
ghost use Rattle.planner_rules.specs.Pages.{page_numbered};
ghost use Rattle.planner_rules.specs.Plan.{planned, Planned};
ghost use Rattle.planner_rules.specs.Demand.{CoversPairs, FewestPlan, LargestPlan};
ghost use Rattle.job.specs.PlanJob as job;
ghost use Rattle.job_report.specs.Lines.{head_lines, area_line, LinesPut};
ghost use Rattle.job_report.specs.Blocks.{block_pages};
ghost use Rattle.yuzhbani_answers.specs.Numbers as section;
ghost use Rattle.yuzhbani_answers.specs.Answers.{PageHanded};
ghost use Rattle.yuzhbani_request.specs.Request.{sheet_requested, areas_from, areas_counted, flags_hold};
ghost use Rattle.yuzhbani.specs.Calls as calls;

use job::{count_job, plan_job, write_job_area};
use job_report::{Block, area_block, area_line, told_lines};
use planner::plan_pages;
use planner_pages::page_numbered;
use planner_rules::{AxisLists, MergeList, Plan, RunCounts, RunLists, SheetLists, SlotList};
use units::Refusal;
use yuzhbani_answers::{PlanNumbers, put, put_page, put_planning, told};
use yuzhbani_request::RequestNumbers;

// Plans the pages of a job: 0, with the plan's numbers in `numbers` and its runs at the fronts of two lent lists, area after area; or the
// number of a refusal, and nothing is written.
#[unsafe(no_mangle)]
pub extern "C" fn yuzhbani_plan(
    bytes: &[u8],
    numbers: &mut [u64; 60],
    row_runs: &mut [u64],
    column_runs: &mut [u64],
) -> u8
    ensures planned { let rows₀ = row_runs.old in
        let columns₀ = column_runs.old in
        calls.PlanHanded (job.plan_job bytes.now rows₀ columns₀)
        result numbers.old numbers.new rows₀ columns₀ row_runs.new column_runs.new }
    ensures covered { let asked = bytes.now in
        CoversPairs (section.told result numbers.new) (job.job_sheet asked) (job.job_areas asked)
        row_runs.new column_runs.new }
    ensures fewest { let asked = bytes.now in
        FewestPlan (section.told result numbers.new) (job.job_sheet asked) (job.job_areas asked)
        row_runs.new column_runs.new }
    ensures largest { let asked = bytes.now in
        LargestPlan (section.told result numbers.new) (job.job_sheet asked) (job.job_areas asked) }
{
    let planning = plan_job(bytes, row_runs, column_runs);
    put_planning(planning, numbers)
}

// Counts the pages of a job: 0, with the numbers of the plan that `yuzhbani_plan` makes in lists that are long enough; or the number of a
// refusal, and nothing is written.
#[unsafe(no_mangle)]
pub extern "C" fn yuzhbani_count(bytes: &[u8], numbers: &mut [u64; 60]) -> u8
    ensures { calls.CountHanded (job.count_job bytes.now) result numbers.old numbers.new }
{
    let planning = count_job(bytes);
    put_planning(planning, numbers)
}

// The two numbers of what was written.
fn count_numbers(wrote: RunCounts) -> [u64; 2]
    ensures { result ≡ calls.count_numbers wrote }
{
    [wrote.rows as u64, wrote.columns as u64]
}

// Writes the runs of the area with a number, from 1, at a permille to the fronts of two lent lists: 0, with how many runs of rows and of columns in
// `counts`; or the number of a refusal, and nothing is written.
#[unsafe(no_mangle)]
pub extern "C" fn yuzhbani_write_area(
    bytes: &[u8],
    number: u64,
    permille: u16,
    counts: &mut [u64; 2],
    row_runs: &mut [u64],
    column_runs: &mut [u64],
) -> u8
    ensures { let rows₀ = row_runs.old in
        let columns₀ = column_runs.old in
        calls.AreaHanded (job.write_job_area bytes.now number permille rows₀ columns₀)
        result counts.old counts.new rows₀ columns₀ row_runs.new column_runs.new }
{
    let writing = write_job_area(bytes, number, permille, row_runs, column_runs);
    put(writing.map(count_numbers), counts)
}

// The plan of what numbers ask and of lists: 4 and 5 are asked of the numbers, before lists are asked.
fn plan_lists(
    asked: RequestNumbers<'_>,
    lists: &SheetLists<'_>,
    row_runs: &mut [u64],
    column_runs: &mut [u64],
) -> Result<Plan, Refusal>
    ensures planned { let ns = asked.entry.0.now in
        let planned = planned (calls.sheet_in ns lists.now) (areas_from ns) row_runs.old column_runs.old in
        Planned (ask 4 (areas_counted ns) (ask 5 (flags_hold ns) planned)) (outcome result)
        row_runs.old column_runs.old row_runs.new column_runs.new }
    ensures covered { let ns = asked.entry.0.now in
        CoversPairs (outcome result) (calls.sheet_in ns lists.now) (areas_from ns) row_runs.new column_runs.new }
    ensures fewest { let ns = asked.entry.0.now in
        FewestPlan (outcome result) (calls.sheet_in ns lists.now) (areas_from ns) row_runs.new column_runs.new }
    ensures largest { let ns = asked.entry.0.now in
        LargestPlan (outcome result) (calls.sheet_in ns lists.now) (areas_from ns) }
{
    let areas = asked.areas()?;
    asked.flags_hold()?;
    let what = asked.request(areas.as_slice());
    plan_pages(&what, lists, row_runs, column_runs)
}

// Plans the pages of lists: what is asked as sixty-one numbers, the measured slots, merges and breaks as ten lists. It answers and writes as
// `yuzhbani_plan` does. No area or a ninth is refused with 4, and then a fit or an order that is neither 0 nor 1 with 5, before lists are asked.
#[unsafe(no_mangle)]
pub extern "C" fn yuzhbani_plan_lists<'a>(
    request: &[u64; 61],
    row_indexes: &'a [u32],
    row_sizes: &'a [u64],
    column_indexes: &'a [u32],
    column_sizes: &'a [u64],
    merge_first_rows: &'a [u32],
    merge_first_columns: &'a [u32],
    merge_last_rows: &'a [u32],
    merge_last_columns: &'a [u32],
    row_breaks: &'a [u32],
    column_breaks: &'a [u32],
    numbers: &mut [u64; 60],
    row_runs: &mut [u64],
    column_runs: &mut [u64],
) -> u8
    ensures planned { let asked = request.now in
        let sheet = sheet_requested asked row_indexes.now row_sizes.now column_indexes.now
        column_sizes.now merge_first_rows.now merge_first_columns.now merge_last_rows.now
        merge_last_columns.now row_breaks.now column_breaks.now in
        let rows₀ = row_runs.old in
        let columns₀ = column_runs.old in
        calls.PlanHanded (ask 4 (areas_counted asked) (ask 5 (flags_hold asked) (planned sheet (areas_from asked) rows₀ columns₀)))
        result numbers.old numbers.new rows₀ columns₀ row_runs.new column_runs.new }
    ensures covered { let asked = request.now in
        let sheet = sheet_requested asked row_indexes.now row_sizes.now column_indexes.now
        column_sizes.now merge_first_rows.now merge_first_columns.now merge_last_rows.now
        merge_last_columns.now row_breaks.now column_breaks.now in
        CoversPairs (section.told result numbers.new) sheet (areas_from asked) row_runs.new column_runs.new }
    ensures fewest { let asked = request.now in
        let sheet = sheet_requested asked row_indexes.now row_sizes.now column_indexes.now
        column_sizes.now merge_first_rows.now merge_first_columns.now merge_last_rows.now
        merge_last_columns.now row_breaks.now column_breaks.now in
        FewestPlan (section.told result numbers.new) sheet (areas_from asked) row_runs.new column_runs.new }
    ensures largest { let asked = request.now in
        let sheet = sheet_requested asked row_indexes.now row_sizes.now column_indexes.now
        column_sizes.now merge_first_rows.now merge_first_columns.now merge_last_rows.now
        merge_last_columns.now row_breaks.now column_breaks.now in
        LargestPlan (section.told result numbers.new) sheet (areas_from asked) }
{
    let lists = SheetLists {
        rows: AxisLists {
            slots: SlotList {
                indexes: row_indexes,
                sizes: row_sizes,
            },
            merges: MergeList {
                firsts: merge_first_rows,
                lasts: merge_last_rows,
            },
            breaks: row_breaks,
        },
        columns: AxisLists {
            slots: SlotList {
                indexes: column_indexes,
                sizes: column_sizes,
            },
            merges: MergeList {
                firsts: merge_first_columns,
                lasts: merge_last_columns,
            },
            breaks: column_breaks,
        },
    };
    let planning = plan_lists(RequestNumbers(request), &lists, row_runs, column_runs);
    put_planning(planning, numbers)
}

// The page of a plan with a number from 1 to its count, of the plan's numbers and the lists that were lent to it: 0, with the page's numbers
// in `page`; or the number of a refusal, and nothing is written.
#[unsafe(no_mangle)]
pub extern "C" fn yuzhbani_page(
    numbers: &[u64; 60],
    number: u64,
    row_runs: &[u64],
    column_runs: &[u64],
    page: &mut [u64; 12],
) -> u8
    ensures { PageHanded
        (page_numbered (section.plan_from numbers.now) row_runs.now column_runs.now number)
        result page.old page.new }
{
    let plan = Plan::from(PlanNumbers(numbers));
    let runs = RunLists {
        rows: row_runs,
        columns: column_runs,
    };
    let answer = page_numbered(&plan, number, runs);
    put_page(answer, page)
}

// The first two lines of what a plan is told by, of the answer of a plan call and the plan's numbers, or the line of a refusal, at the start
// of `out`; it answers how many bytes.
#[unsafe(no_mangle)]
pub extern "C" fn yuzhbani_head(answer: u8, numbers: &[u64; 60], out: &mut [u8; 256]) -> usize
    ensures { LinesPut (head_lines (section.told answer numbers.now))
        result out.old out.new }
{
    told_lines(&told(answer, numbers), out)
}

// The line before the pages of a later area, by its number from 1 and its permille, at the start of `out`; it answers how many bytes.
#[unsafe(no_mangle)]
pub extern "C" fn yuzhbani_area_line(number: u64, permille: u16, out: &mut [u8; 256]) -> usize
    ensures { LinesPut (area_line number permille) result out.old out.new }
{
    area_line(number, permille, out)
}

// The two numbers of a block.
fn block_numbers(held: Block) -> [u64; 2]
    ensures { result ≡ calls.block_numbers held }
{
    [held.pages, held.bytes as u64]
}

// The lines of the pages from a number on, of the area that this page belongs to, as long as there is such a page and 256 of the bytes are left, of
// the plan's numbers and two lists that hold the area's runs at the front: 0, with how many pages and how many bytes in `block`, and the lines at
// the start of `out`; or the number of a refusal, and nothing is written.
#[unsafe(no_mangle)]
pub extern "C" fn yuzhbani_block(
    numbers: &[u64; 60],
    from: u64,
    row_runs: &[u64],
    column_runs: &[u64],
    block: &mut [u64; 2],
    out: &mut [u8; 65536],
) -> u8
    ensures { calls.BlockHanded
        (block_pages (section.plan_from numbers.now) row_runs.now column_runs.now from) from
        result block.old out.old block.new out.new }
{
    let plan = Plan::from(PlanNumbers(numbers));
    let runs = RunLists {
        rows: row_runs,
        columns: column_runs,
    };
    let answer = area_block(&plan, from, runs, out);
    put(answer.map(block_numbers), block)
}
