// An area of a settled sheet, ready to be cut: so both axes can be cut.
ghost use Rattle.std.specs.Prelude.{◌≡◌};
ghost use Rattle.planner_rules.specs.Steps.{ready_in};

use crate::settled::SettledSheet;
use planner_rules::ReadyArea;

#[derive(Clone, Copy)]
pub(crate) struct SheetArea<'a> {
    pub sheet: SettledSheet<'a>,
    pub ready: ReadyArea,
    ghost is_ready: { let lists = sheet.lists.now in
        ready ≡ ready_in sheet.shared.now ready.range lists.rows.slots.indexes.now lists.columns.slots.indexes.now },
}
