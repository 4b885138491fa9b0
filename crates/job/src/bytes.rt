// The plan of a job's bytes: document 01, sections "Jobs" and "Questions in order", and document 02, T-02.
ghost use Rattle.std.specs.Prelude.{◌≡◌, ◌≤◌, length};
ghost use Rattle.units.specs.Outcome.{given};
ghost use Rattle.units.specs.Refusals.{outcome};
ghost use Rattle.planner_rules.specs.Plan as call;
ghost use Rattle.planner_rules.specs.Demand.{CoversPairs, FewestPlan, LargestPlan};
ghost use Rattle.job_reader.specs.Reading.{lists_in};
ghost use Rattle.job.specs.PlanJob as section;

use crate::wanted::{AreaRuns, PageCount, Wanted, WholePlan};
use job_questions::Items;
use job_reader::{JobLists, LentAxis, LentMerges, LentSlots, read_job};
use job_settings::areas_for;
use planner_rules::{
    AxisLists, MergeList, Plan, Request, RunCounts, Settings, SheetLists, SlotList,
};
use units::Refusal;

// The fronts of the lists of an axis, so many slots, merges and breaks long.
fn axis_fronts<'a>(
    lent: &'a LentAxis<'_>,
    slots: usize,
    merges: usize,
    breaks: usize,
) -> AxisLists<'a>
    requires { section.AxisLong slots merges breaks lent.now }
    ensures { section.AxisFronts slots merges breaks lent.now result }
{
    AxisLists {
        slots: SlotList {
            indexes: &lent.slots.indexes[..slots],
            sizes: &lent.slots.sizes[..slots],
        },
        merges: MergeList {
            firsts: &lent.merges.firsts[..merges],
            lasts: &lent.merges.lasts[..merges],
        },
        breaks: &lent.breaks[..breaks],
    }
}

// The fronts of lent lists, as long as so many items say.
fn fronts<'a>(items: Items, lent: &'a JobLists<'_>) -> SheetLists<'a>
    requires { section.Long items (lists_in lent.now) }
    ensures { section.lists_in result ≡ section.fronts items (lists_in lent.now) }
{
    let rows = axis_fronts(&lent.rows, items.rows, items.merges, items.row_breaks);
    let columns = axis_fronts(
        &lent.columns,
        items.columns,
        items.merges,
        items.column_breaks,
    );
    SheetLists { rows, columns }
}

// Reads a job into ten lists that hold its items, and answers what is wanted of it.
fn answer_in<W: Wanted>(
    wanted: &mut W,
    bytes: &[u8],
    lent: &mut JobLists<'_>,
) -> Result<W::Answer, Refusal>
    requires { section.Holds bytes.now (lists_in lent.old) }
    ensures { section.JobTold (W.told wanted.old wanted.new) bytes.now result }
{
    let job = read_job(bytes, lent)?;
    let lists = fronts(job.items, lent);
    let areas = areas_for(&job.settings.areas);
    let request = Request {
        settings: Settings::from(&job.settings),
        areas: areas.as_slice(),
        row_title: job.settings.row_title,
        column_title: job.settings.column_title,
    };
    wanted.answer(&request, &lists)
}

// Answers what is wanted of a job, by arrays that hold so many rows and merges, columns and breaks.
#[inline(never)]
fn answer_sized<
    W: Wanted,
    const ROWS: usize,
    const COLUMNS: usize,
    const ROW_BREAKS: usize,
    const COLUMN_BREAKS: usize,
>(wanted: &mut W, bytes: &[u8]) -> Result<W::Answer, Refusal>
    requires { section.RoomFor bytes.now ROWS COLUMNS ROW_BREAKS COLUMN_BREAKS }
    ensures { section.JobTold (W.told wanted.old wanted.new) bytes.now result }
{
    let mut row_indexes = [0u32; ROWS];
    let mut row_sizes = [0u64; ROWS];
    let mut column_indexes = [0u32; COLUMNS];
    let mut column_sizes = [0u64; COLUMNS];
    let mut merge_first_rows = [0u32; ROWS];
    let mut merge_first_columns = [0u32; ROWS];
    let mut merge_last_rows = [0u32; ROWS];
    let mut merge_last_columns = [0u32; ROWS];
    let mut row_breaks = [0u32; ROW_BREAKS];
    let mut column_breaks = [0u32; COLUMN_BREAKS];
    let mut lent = JobLists {
        rows: LentAxis {
            slots: LentSlots {
                indexes: &mut row_indexes,
                sizes: &mut row_sizes,
            },
            merges: LentMerges {
                firsts: &mut merge_first_rows,
                lasts: &mut merge_last_rows,
            },
            breaks: &mut row_breaks,
        },
        columns: LentAxis {
            slots: LentSlots {
                indexes: &mut column_indexes,
                sizes: &mut column_sizes,
            },
            merges: LentMerges {
                firsts: &mut merge_first_columns,
                lasts: &mut merge_last_columns,
            },
            breaks: &mut column_breaks,
        },
    };
    answer_in(wanted, bytes, &mut lent)
}

// An array is cleared before it is lent, so a job gets none that is much longer than its bytes can fill.
fn answer_job<W: Wanted>(wanted: &mut W, bytes: &[u8]) -> Result<W::Answer, Refusal>
    ensures { section.JobTold (W.told wanted.old wanted.new) bytes.now result }
{
    let n = bytes.len();
    if n <= 750 {
        return answer_sized::<W, 53, 62, 125, 187>(wanted, bytes);
    }
    if n <= 3000 {
        return answer_sized::<W, 214, 250, 500, 750>(wanted, bytes);
    }
    if n <= 12_000 {
        return answer_sized::<W, 857, 1000, 2000, 3000>(wanted, bytes);
    }
    if n <= 24_000 {
        return answer_sized::<W, 1714, 2000, 4000, 6000>(wanted, bytes);
    }
    answer_sized::<W, 4285, 5000, 10_000, 15_000>(wanted, bytes)
}

// Plans the pages of a job, area by area: each one's scale and its runs of rows and columns, which go to the fronts of two lent lists, area
// after area, and the notes.
// Two slices: as a struct of both, which was tried, six contracts need a clause more, as in `planner`, and no proof gets shorter.
#[tactic(auto, unfolding(crate::specs::PlanJob::plan_job))]
pub fn plan_job(
    bytes: &[u8],
    row_runs: &mut [u64],
    column_runs: &mut [u64],
) -> Result<Plan, Refusal>
    ensures planned { call.Planned (section.plan_job bytes.now row_runs.old column_runs.old) (outcome result)
        row_runs.old column_runs.old row_runs.new column_runs.new }
    ensures covered { let s = bytes.now in
        CoversPairs (outcome result) (section.job_sheet s) (section.job_areas s) row_runs.new column_runs.new }
    ensures fewest { let s = bytes.now in
        FewestPlan (outcome result) (section.job_sheet s) (section.job_areas s) row_runs.new column_runs.new }
    ensures largest { let s = bytes.now in LargestPlan (outcome result) (section.job_sheet s) (section.job_areas s) }
{
    let mut plan = WholePlan {
        row_runs,
        column_runs,
    };
    answer_job(&mut plan, bytes)
}

// The plan that `plan_job` answers where its lists are long enough, of a job whose runs are not written.
#[tactic(auto, unfolding(crate::specs::PlanJob::count_job))]
pub fn count_job(bytes: &[u8]) -> Result<Plan, Refusal>
    ensures { call.Counted (section.count_job bytes.now) (outcome result) }
{
    answer_job(&mut PageCount, bytes)
}

// Writes the runs of the area with a number, from 1, at a permille to the fronts of two lent lists. Two slices: as at `plan_job`.
#[tactic(auto, unfolding(crate::specs::PlanJob::write_job_area))]
pub fn write_job_area(
    bytes: &[u8],
    number: u64,
    permille: u16,
    row_runs: &mut [u64],
    column_runs: &mut [u64],
) -> Result<RunCounts, Refusal>
    ensures { call.AreaWrote (section.write_job_area bytes.now number permille row_runs.old column_runs.old) (outcome result)
        row_runs.old column_runs.old row_runs.new column_runs.new }
{
    let mut runs = AreaRuns {
        number,
        permille,
        row_runs,
        column_runs,
    };
    answer_job(&mut runs, bytes)
}
