// What is asked of a job: its plan, how many pages it has, or the runs of one of its areas; and the lists that runs go to.
ghost use Rattle.std.specs.Prelude.{List, Result, Err};
ghost use Rattle.units.specs.Outcome.{refused, given};
ghost use Rattle.units.specs.Refusals.{number_of};
ghost use Rattle.units.specs.declared.refusal.Refusal.{Refusal};
ghost use Rattle.planner_rules.specs.Asked.{sheet_asked};
ghost use Rattle.planner_rules.specs.Plan.{Sheet};
ghost use Rattle.planner_rules.specs.declared.planning.PrintRange.{PrintRange};
ghost use Rattle.job_questions.specs.declared.Items.{Items};
ghost use Rattle.job.specs.PlanJob.{Telling, plan_told, count_told, area_told};
ghost use Rattle.job.specs.Refused.{plan_refused, count_refused, area_refused};

use planner::{count_pages, plan_pages, write_area};
use planner_rules::{Plan, Request, RunCounts, SheetLists};
use units::Refusal;

pub(crate) trait Wanted {
    type Answer;

    // The clauses of an answer, by what was wanted and what is left of it.
    ghost told: { Self → Self → Telling Self.Answer };

    fn answer(&mut self, request: &Request, lists: &SheetLists<'_>) -> Result<Self::Answer, Refusal>
        ensures { (items : Items) → told self.old self.new (given items) (sheet_asked request.now lists.now) request.now.areas.now result };

    // A refusal of the questions is handed on, and nothing is written.
    ghost refuses: { (wanted : Self) (x : Refusal) (sheet : Sheet) (areas : List PrintRange)
        → told wanted wanted (refused (number_of x)) sheet areas (Err x) };
}

// The plan, and where its runs go.
#[derive(Drop)]
pub(crate) struct WholePlan<'a> {
    pub(crate) row_runs: &'a mut [u64],
    pub(crate) column_runs: &'a mut [u64],
}

impl Wanted for WholePlan<'_> {
    type Answer = Plan;

    ghost told = { plan_told };

    ghost refuses = { plan_refused };

    fn answer(&mut self, request: &Request, lists: &SheetLists<'_>) -> Result<Plan, Refusal> {
        plan_pages(request, lists, self.row_runs, self.column_runs)
    }
}

#[derive(Drop)]
pub(crate) struct PageCount;

impl Wanted for PageCount {
    type Answer = Plan;

    ghost told = { λ old new. count_told };

    ghost refuses = { λ wanted. count_refused };

    fn answer(&mut self, request: &Request, lists: &SheetLists<'_>) -> Result<Plan, Refusal> {
        count_pages(request, lists)
    }
}

// The runs of the area with a number, from 1, at a permille, and where they go.
#[derive(Drop)]
pub(crate) struct AreaRuns<'a> {
    pub(crate) number: u64,
    pub(crate) permille: u16,
    pub(crate) row_runs: &'a mut [u64],
    pub(crate) column_runs: &'a mut [u64],
}

impl Wanted for AreaRuns<'_> {
    type Answer = RunCounts;

    ghost told = { area_told };

    ghost refuses = { area_refused };

    fn answer(&mut self, request: &Request, lists: &SheetLists<'_>) -> Result<RunCounts, Refusal> {
        write_area(
            request,
            lists,
            self.number,
            self.permille,
            self.row_runs,
            self.column_runs,
        )
    }
}
