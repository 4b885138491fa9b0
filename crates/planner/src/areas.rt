// All areas, one after another: counted, then written. Document 02, T-02.
ghost use Rattle.std.specs.Prelude.{◌≡◌, [], map, ◌<◌};
ghost use Rattle.planner_rules.specs.Slots.{written};
ghost use Rattle.planner_rules.specs.Lent.{flat};
ghost use Rattle.planner_rules.specs.Plan as call;
ghost use Rattle.planner_rules.specs.Steps as step;
ghost use Rattle.planner.specs.Bodies.{layouts_in};

use crate::settled::SettledSheet;
use planner_rules::{AreaNotes, AreaPlan, AreaPlans, CountedArea, CountedAreas, RUN_NUMBERS};

// No area, yet. Not a derived default: each of the two callers would have to show of its five fields what is shown here once.
#[inline(always)]
pub(crate) fn no_areas() -> CountedAreas
    ensures { result ≡ step.counted_of [] }
{
    CountedAreas {
        areas: AreaPlans::new(),
        rows: 0,
        columns: 0,
        pages: 0,
        notes: AreaNotes::default(),
    }
}

// One area more is counted.
#[inline(always)]
pub(crate) fn add_area(all: &mut CountedAreas, counted: CountedArea)
    requires room { step.counted_areas all.old < 8 }
    requires few_all { step.FewAll all.old × step.Few counted }
    ensures added { step.Added all.new all.old counted }
    ensures few_added { step.FewAll all.new }
{
    let area = counted.area;
    let notes = counted.notes;
    all.areas.plans[all.areas.count] = area;
    all.areas.count += 1;
    all.rows += area.row_runs;
    all.columns += area.column_runs;
    all.pages += (area.row_runs as u64) * (area.column_runs as u64);
    let so_far = all.notes;
    all.notes = AreaNotes {
        clamped: so_far.clamped + notes.clamped,
        unreachable: so_far.unreachable + notes.unreachable,
        expansions: so_far.expansions + notes.expansions,
        shifts: so_far.shifts.saturating_add(notes.shifts),
        overflows: so_far.overflows + notes.overflows,
    };
}

impl SettledSheet<'_> {
    // Counts the areas in job order, each at its own scale.
    #[inline(always)]
    pub(crate) fn count_areas(&self) -> CountedAreas
        ensures { result ≡ step.counted_of (layouts_in self.now) }
    {
        let mut all = no_areas();
        for range in self.areas {
            add_area(&mut all, self.ready(*range).count().counted);
        }
        all
    }

    // Writes the runs of all areas in job order, each at the permille that it was counted at. Two slices: as at `plan_pages`.
    pub(crate) fn write_areas(
        &self,
        plans: &[AreaPlan],
        row_runs: &mut [u64],
        column_runs: &mut [u64],
    )
        requires counted { let layouts = layouts_in self.now in
            (plans.now ≡ map call.plan_in layouts) × step.RoomForAll layouts row_runs.old column_runs.old }
        ensures { let layouts = layouts_in self.now in
            (row_runs.new ≡ written (flat (call.row_runs_of layouts)) row_runs.old)
            × (column_runs.new ≡ written (flat (call.column_runs_of layouts)) column_runs.old) }
    {
        let mut row_at = 0;
        let mut column_at = 0;
        for (range, area) in self.areas.iter().zip(plans) {
            self.ready(*range).write(
                *area,
                &mut row_runs[row_at..],
                &mut column_runs[column_at..],
            );
            row_at += area.row_runs * RUN_NUMBERS;
            column_at += area.column_runs * RUN_NUMBERS;
        }
    }
}
