// A sheet whose questions 4 to 10 were answered with yes: what its areas share, its lists, and the areas.
ghost use Rattle.planner_rules.specs.Asked.{sheet_by};
ghost use Rattle.planner_rules.specs.Steps.{FineAreas, Settled};

use planner_rules::{PrintRange, Shared, SheetLists};

// Each of the three calls writes it out: a function that made it would say in its contract what each field is, and that the questions were asked,
// which is longer than the three literals.
#[derive(Clone, Copy)]
pub(crate) struct SettledSheet<'a> {
    pub shared: &'a Shared,
    pub lists: &'a SheetLists<'a>,
    pub areas: &'a [PrintRange],
    ghost settled: { Settled shared.now (sheet_by shared.now lists.now) },
    ghost fine: { FineAreas areas.now },
}
