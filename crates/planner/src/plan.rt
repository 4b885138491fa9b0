// The plan calls: questions, then all areas counted and written, or one written. Document 01, sections "Pages" and "Questions in order", and
// document 02, T-02.
ghost use Rattle.std.specs.Prelude.{◌≡◌, [], ◌∷◌};
ghost use Rattle.units.specs.Refusals.{outcome};
ghost use Rattle.planner_rules.specs.Lent.{room_in};
ghost use Rattle.planner_rules.specs.Demand.{CoversPairs, FewestPlan, LargestPlan};
ghost use Rattle.planner_rules.specs.Asked.{sheet_asked};
ghost use Rattle.planner_rules.specs.Partition.{no_of};
ghost use Rattle.planner_rules.specs.Plan as call;
ghost use Rattle.planner_rules.specs.Steps as step;
ghost use Rattle.planner.specs.Bodies.{sheet_in, sides_in, rows_in, columns_in, layout_in};

use crate::area::FramedCount;
use crate::areas::{add_area, no_areas};
use crate::settled::SettledSheet;
use crate::sheet_area::SheetArea;
use crate::title::ready_title;
use planner_questions::{plan_refusal, room_refusal, rooms_in, runs_held};
use planner_rules::{
    Axis, ChosenScale, CountedAreas, Notes, Plan, Request, RunCounts, Shared, SheetLists,
};
use planner_setup::content_sides;
use units::Refusal;

// Asks the questions 4 to 10, and makes the titles ready, once for all areas.
fn prepare(request: &Request, lists: &SheetLists) -> Result<Shared, Refusal>
    ensures { step.IsPrepared result (sheet_asked request.now lists.now) request.now.areas.now }
{
    plan_refusal(request, lists)?;
    let sides = content_sides(request.settings)?;
    let SheetLists { rows, columns } = *lists;
    let row_title = ready_title(Axis::Rows, request.row_title, rows);
    let column_title = ready_title(Axis::Columns, request.column_title, columns);
    Ok(Shared {
        settings: request.settings,
        sides,
        rows: row_title,
        columns: column_title,
    })
}

// The plan of counted areas. Paper, margin and title notes count once.
fn plan_of(shared: &Shared, counted: CountedAreas) -> Plan
    requires { step.TitlesFew shared.now }
    ensures { result ≡ step.plan_from shared.now counted }
{
    let Shared {
        settings,
        sides,
        rows,
        columns,
    } = *shared;
    let added = counted.notes;
    Plan {
        areas: counted.areas,
        pages: counted.pages,
        order: settings.order,
        notes: Notes {
            unknown_paper: sides.unknown,
            invalid_margins: sides.invalid,
            scale_clamped: added.clamped,
            fit_unreachable: added.unreachable,
            titles_ignored: rows.widened.ignored + columns.widened.ignored,
            titles_expanded: rows.widened.expanded + columns.widened.expanded,
            merge_expansions: added.expansions,
            break_shifts: added.shifts,
            overflowing_runs: added.overflows,
        },
    }
}

impl SheetArea<'_> {
    // Counts an area that stands alone and, where its runs have room and its pages are within the limit, writes it. Beside `plan_several` for speed:
    // there an area is made ready and its capacities are found twice, to be counted and to be written (docs/DECISIONS.md, T-02, 17). What that costs
    // since areas are a slice was not measured.
    #[inline(always)]
    fn plan(&self, row_runs: &mut [u64], column_runs: &mut [u64]) -> Result<Plan, Refusal>
        ensures { let of = self.now.sheet in
            let sheet = sheet_in of in
            let layout = call.layout (sides_in of) sheet (self.now.ready.range ∷ []) in
            call.Planned (call.room_for sheet layout (room_in row_runs.old) (room_in column_runs.old)) (outcome result)
            row_runs.old column_runs.old row_runs.new column_runs.new }
    {
        let one = self.count();
        let mut counted = no_areas();
        add_area(&mut counted, one.counted);
        self.sheet.ask_room(&counted, row_runs, column_runs)?;
        self.write_by(one.frames, one.counted.area, row_runs, column_runs);
        Ok(plan_of(self.sheet.shared, counted))
    }

    // Counts an area at a permille and, where its runs have room, writes them.
    fn write_at(
        &self,
        permille: u16,
        row_runs: &mut [u64],
        column_runs: &mut [u64],
    ) -> Result<RunCounts, Refusal>
        ensures { let of = self.now in
            let area = call.area_at (sides_in of.sheet) (rows_in of) (columns_in of) (call.scale_at permille) in
            call.AreaWrote (call.area_room area (room_in row_runs.old) (room_in column_runs.old)) (outcome result)
            row_runs.old column_runs.old row_runs.new column_runs.new }
    {
        let scale = ChosenScale {
            permille,
            clamp: 0,
            unreachable: 0,
        };
        let FramedCount { counted, frames } = self.count_at(scale);
        let area = counted.area;
        let runs = RunCounts {
            rows: area.row_runs,
            columns: area.column_runs,
        };
        if !runs_held(runs, rooms_in(row_runs.len(), column_runs.len())) {
            return Err(Refusal::ListTooShort);
        }
        self.write_by(frames, area, row_runs, column_runs);
        Ok(runs)
    }
}

impl SettledSheet<'_> {
    // 11 and 12 of counted areas and two lent lists.
    #[inline(always)]
    fn ask_room(
        &self,
        counted: &CountedAreas,
        row_runs: &[u64],
        column_runs: &[u64],
    ) -> Result<(), Refusal>
        ensures { let all = counted.now in
            let limit = self.now.shared.now.settings.page_limit in
            no_of result ≡ call.room_no all.rows all.columns all.pages (room_in row_runs.now) (room_in column_runs.now) limit }
    {
        let runs = RunCounts {
            rows: counted.rows,
            columns: counted.columns,
        };
        let room = rooms_in(row_runs.len(), column_runs.len());
        room_refusal(runs, counted.pages, room, self.shared.settings.page_limit)
    }

    // Counts several areas and, where their runs have room and their pages are within the limit, writes them: all are counted before one is written.
    #[inline(never)]
    fn plan_several(&self, row_runs: &mut [u64], column_runs: &mut [u64]) -> Result<Plan, Refusal>
        ensures { call.Planned (call.room_for (sheet_in self.now) (layout_in self.now) (room_in row_runs.old) (room_in column_runs.old)) (outcome result)
            row_runs.old column_runs.old row_runs.new column_runs.new }
    {
        let counted = self.count_areas();
        self.ask_room(&counted, row_runs, column_runs)?;
        self.write_areas(counted.areas.as_slice(), row_runs, column_runs);
        Ok(plan_of(self.shared, counted))
    }

    // The same of the areas of a plan.
    #[inline(always)]
    fn plan_areas(&self, row_runs: &mut [u64], column_runs: &mut [u64]) -> Result<Plan, Refusal>
        ensures { call.Planned (call.room_for (sheet_in self.now) (layout_in self.now) (room_in row_runs.old) (room_in column_runs.old)) (outcome result)
            row_runs.old column_runs.old row_runs.new column_runs.new }
    {
        if let [range] = self.areas {
            return self.ready(*range).plan(row_runs, column_runs);
        }
        self.plan_several(row_runs, column_runs)
    }

    // Counts the areas: the plan, within the limit of pages.
    fn counted_plan(&self) -> Result<Plan, Refusal>
        ensures { call.Counted (call.within_limit (sheet_in self.now) (layout_in self.now)) (outcome result) }
    {
        let counted = self.count_areas();
        if counted.pages > self.shared.settings.page_limit {
            return Err(Refusal::TooManyPages);
        }
        Ok(plan_of(self.shared, counted))
    }

    // 10 of the permille, 14 of the area's number, and the area's runs.
    fn write_numbered(
        &self,
        number: u64,
        permille: u16,
        row_runs: &mut [u64],
        column_runs: &mut [u64],
    ) -> Result<RunCounts, Refusal>
        ensures { let of = self.now in
            call.AreaWrote (call.numbered_area (sides_in of) (sheet_in of) of.areas.now number permille row_runs.old column_runs.old) (outcome result)
            row_runs.old column_runs.old row_runs.new column_runs.new }
    {
        if permille == 0 {
            return Err(Refusal::CoordinateOverflow);
        }
        let place = number.checked_sub(1).ok_or(Refusal::NoSuchNumber)?;
        let range = self.areas.get(place as usize).ok_or(Refusal::NoSuchNumber)?;
        self.ready(*range).write_at(permille, row_runs, column_runs)
    }
}

// Plans the pages of one to eight areas: their scales, their runs of rows and columns, which go to the fronts of two lent lists area after area,
// and the notes.
// Two slices: as a struct of both, which was tried, ten contracts need a clause more, that it still holds the slices lent, and no proof gets shorter.
pub fn plan_pages(
    request: &Request,
    lists: &SheetLists,
    row_runs: &mut [u64],
    column_runs: &mut [u64],
) -> Result<Plan, Refusal>
    ensures planned { let sheet = sheet_asked request.now lists.now in
        call.Planned (call.planned sheet request.now.areas.now row_runs.old column_runs.old) (outcome result)
        row_runs.old column_runs.old row_runs.new column_runs.new }
    ensures covered { CoversPairs (outcome result) (sheet_asked request.now lists.now) request.now.areas.now row_runs.new column_runs.new }
    ensures fewest { FewestPlan (outcome result) (sheet_asked request.now lists.now) request.now.areas.now row_runs.new column_runs.new }
    ensures largest { LargestPlan (outcome result) (sheet_asked request.now lists.now) request.now.areas.now }
{
    let shared = prepare(request, lists)?;
    let sheet = SettledSheet {
        shared: &shared,
        lists,
        areas: request.areas,
    };
    sheet.plan_areas(row_runs, column_runs)
}

// The same plan, whose runs are written nowhere.
pub fn count_pages(request: &Request, lists: &SheetLists) -> Result<Plan, Refusal>
    ensures { call.Counted (call.counted (sheet_asked request.now lists.now) request.now.areas.now) (outcome result) }
{
    let shared = prepare(request, lists)?;
    let sheet = SettledSheet {
        shared: &shared,
        lists,
        areas: request.areas,
    };
    sheet.counted_plan()
}

// Writes the runs of one area, by its number from 1, at a permille to the fronts of two lent lists: no scale is searched.
pub fn write_area(
    request: &Request,
    lists: &SheetLists,
    number: u64,
    permille: u16,
    row_runs: &mut [u64],
    column_runs: &mut [u64],
) -> Result<RunCounts, Refusal>
    ensures { let sheet = sheet_asked request.now lists.now in
        call.AreaWrote (call.area_written sheet request.now.areas.now number permille row_runs.old column_runs.old) (outcome result)
        row_runs.old column_runs.old row_runs.new column_runs.new }
{
    let shared = prepare(request, lists)?;
    let sheet = SettledSheet {
        shared: &shared,
        lists,
        areas: request.areas,
    };
    sheet.write_numbered(number, permille, row_runs, column_runs)
}
