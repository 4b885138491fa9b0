// One area: ready to be cut, its scale, counted and written. Document 01, sections "Scale" and "Pages", and document 02, T-02.
ghost use Rattle.std.specs.Prelude.{◌≡◌, []};
ghost use Rattle.planner_rules.specs.Slots.{written};
ghost use Rattle.planner_rules.specs.Lent.{flat};
ghost use Rattle.planner_rules.specs.Scale.{scale_of};
ghost use Rattle.planner_rules.specs.Plan as call;
ghost use Rattle.planner_rules.specs.Steps as step;
ghost use Rattle.planner.specs.Bodies.{IsBody, BodyOf, sheet_in, sides_in, rows_in, columns_in, row_runs, column_runs};

use crate::cut::{count_cut, write_cut};
use crate::fitted::FittedAxis;
use crate::places::place_of;
use crate::scale::fit_scale;
use crate::settled::SettledSheet;
use crate::sheet_area::SheetArea;
use crate::slots::Measured;
use planner_rules::{
    AreaNotes, AreaPlan, Axis, AxisLists, AxisRange, ChosenScale, CountedArea, FinalCut, Fit,
    Frames, PageSide, PrintRange, Ready, ReadyArea, ReadyTitle, Shared, SheetLists, Stretch,
};
use planner_setup::{axis_range, fixed_scale, looked_at};
use planner_titles::body_start;
use units::Fixed;

// What an area came to, and what its runs go by there. That those frames are the area's is said by each function: a ghost field could say it only of an
// area that stands in the struct, and the functions would have to say which that is.
#[derive(Clone, Copy)]
pub(crate) struct FramedCount {
    pub counted: CountedArea,
    pub frames: Frames,
}

// Finds the body of an axis beside its title.
#[inline(always)]
fn ready_axis(axis: AxisRange, side: Fixed, title: ReadyTitle, indexes: &[u32]) -> Ready
    requires { step.Startable indexes.now title axis.first }
    ensures { result ≡ step.ready_from side title (call.axis_for axis indexes.now [] [] [] []) }
{
    let widened = title.widened.title;
    let start = body_start(widened, axis.first);
    let from = place_of(indexes, start);
    let end = place_of(indexes, u64::from(axis.last) + 1);
    Ready {
        fit: Fit {
            page: PageSide {
                side,
                headings: axis.headings,
                titles: title.total,
            },
            stretch: Stretch {
                title: widened,
                lo: start as u32,
                hi: axis.last,
            },
            target: axis.target,
        },
        from,
        to: from.max(end),
    }
}

// An axis of an area with the slots of its body.
#[inline(always)]
fn fitted<'a>(ready: Ready, axis: AxisLists<'a>) -> FittedAxis<'a>
    requires { call.Cuttable ready axis.slots.indexes.now axis.slots.sizes.now }
    ensures { IsBody ready axis.entry result }
{
    FittedAxis {
        fit: ready.fit,
        merges: axis.merges,
        slots: Measured::of(axis.slots).part(ready.from, ready.to),
    }
}

// What an area comes to by its final cuts.
#[inline(always)]
fn area_from(scale: ChosenScale, rows: FinalCut, columns: FinalCut) -> CountedArea
    requires { step.Addable rows columns }
    ensures { result ≡ step.area_from rows columns (scale_of scale) }
{
    CountedArea {
        area: AreaPlan {
            permille: scale.permille,
            unreachable: scale.unreachable,
            row_runs: rows.runs,
            column_runs: columns.runs,
            rows_empty: rows.empty,
            columns_empty: columns.empty,
        },
        notes: AreaNotes {
            clamped: scale.clamp,
            unreachable: scale.unreachable,
            expansions: rows.expansions + columns.expansions,
            shifts: rows.shifts + columns.shifts,
            overflows: rows.overflows + columns.overflows,
        },
    }
}

impl<'a> SettledSheet<'a> {
    // Finds both bodies of an area.
    pub(crate) fn ready(&self, range: PrintRange) -> SheetArea<'a>
        requires fine_area { step.FineArea range }
        ensures sheet_is { result.sheet ≡ self.now }
        ensures range_is { result.ready.range ≡ range }
    {
        let Shared {
            settings,
            sides,
            rows,
            columns,
        } = *self.shared;
        let lists = self.lists;
        let row_axis = axis_range(Axis::Rows, settings, range, rows.asked);
        let column_axis = axis_range(Axis::Columns, settings, range, columns.asked);
        SheetArea {
            sheet: *self,
            ready: ReadyArea {
                range,
                rows: ready_axis(row_axis, sides.height, rows, lists.rows.slots.indexes),
                columns: ready_axis(
                    column_axis,
                    sides.width,
                    columns,
                    lists.columns.slots.indexes,
                ),
            },
        }
    }
}

impl<'a> SheetArea<'a> {
    // An axis of its body.
    #[inline(always)]
    fn body(&self, axis: Axis) -> FittedAxis<'a>
        ensures { BodyOf axis self.now result }
    {
        match axis {
            Axis::Rows => fitted(self.ready.rows, self.sheet.lists.rows),
            Axis::Columns => fitted(self.ready.columns, self.sheet.lists.columns),
        }
    }

    // What the runs of both axes go by at a permille.
    #[inline(always)]
    fn frames_at(&self, permille: u16) -> Frames
        ensures { result ≡ step.frames_of self.now.ready permille }
    {
        Frames {
            rows: self.body(Axis::Rows).frame_at(permille),
            columns: self.body(Axis::Columns).frame_at(permille),
        }
    }

    // Its scale: by fitting, or by percent.
    #[inline(always)]
    fn choose_scale(&self) -> ChosenScale
        ensures { let of = self.now in
            scale_of result ≡ call.chosen_scale of.sheet.shared.now.settings (sides_in of.sheet) (rows_in of) (columns_in of) }
    {
        let settings = self.sheet.shared.settings;
        if settings.fit {
            return fit_scale(self.body(Axis::Rows), self.body(Axis::Columns));
        }
        fixed_scale(settings.percent)
    }

    // Counts its final cuts at a scale. With fit on, no break is looked at.
    #[inline(always)]
    pub(crate) fn count_at(&self, scale: ChosenScale) -> FramedCount
        ensures counted { let of = self.now in
            result.counted ≡ call.counted_at (sides_in of.sheet) (rows_in of) (columns_in of) (scale_of scale) }
        ensures few_cut { step.FewCut result.counted }
        ensures frames_are { result.frames ≡ step.frames_of self.now.ready result.counted.area.permille }
    {
        let fit = self.sheet.shared.settings.fit;
        let SheetLists { rows, columns } = *self.sheet.lists;
        let frames = self.frames_at(scale.permille);
        let row_cut = count_cut(
            self.body(Axis::Rows),
            frames.rows,
            scale.permille,
            looked_at(fit, rows.breaks),
        );
        let column_cut = count_cut(
            self.body(Axis::Columns),
            frames.columns,
            scale.permille,
            looked_at(fit, columns.breaks),
        );
        FramedCount {
            counted: area_from(scale, row_cut, column_cut),
            frames,
        }
    }

    // Counts it at the scale that is chosen for it.
    #[inline(always)]
    pub(crate) fn count(&self) -> FramedCount
        ensures counted { let of = self.now in
            result.counted ≡ (call.area_layout (sides_in of.sheet) (sheet_in of.sheet) of.ready.range).counted }
        ensures few { step.Few result.counted }
        ensures frames_are { result.frames ≡ step.frames_of self.now.ready result.counted.area.permille }
    {
        self.count_at(self.choose_scale())
    }

    // Writes its runs by their frames to the fronts of two lists.
    #[inline(always)]
    pub(crate) fn write_by(
        &self,
        frames: Frames,
        area: AreaPlan,
        rows: &mut [u64],
        columns: &mut [u64],
    )
        requires writable { let of = self.now in
            step.Writable of.sheet.shared.now (sheet_in of.sheet) of.ready.range area rows.old columns.old }
        requires frames_are { frames ≡ step.frames_of self.now.ready area.permille }
        ensures { let of = self.now in
            (rows.new ≡ written (flat (row_runs of area.permille)) rows.old)
            × (columns.new ≡ written (flat (column_runs of area.permille)) columns.old) }
    {
        let fit = self.sheet.shared.settings.fit;
        let lists = self.sheet.lists;
        write_cut(
            self.body(Axis::Rows),
            frames.rows,
            area.rows_empty,
            self.ready.range.first_row,
            looked_at(fit, lists.rows.breaks),
            rows,
        );
        write_cut(
            self.body(Axis::Columns),
            frames.columns,
            area.columns_empty,
            self.ready.range.first_column,
            looked_at(fit, lists.columns.breaks),
            columns,
        );
    }

    // Writes its runs as they were counted to the fronts of two lists.
    pub(crate) fn write(&self, area: AreaPlan, rows: &mut [u64], columns: &mut [u64])
        requires writable { let of = self.now in
            step.Writable of.sheet.shared.now (sheet_in of.sheet) of.ready.range area rows.old columns.old }
        ensures { let of = self.now in
            (rows.new ≡ written (flat (row_runs of area.permille)) rows.old)
            × (columns.new ≡ written (flat (column_runs of area.permille)) columns.old) }
    {
        let frames = self.frames_at(area.permille);
        self.write_by(frames, area, rows, columns);
    }
}
