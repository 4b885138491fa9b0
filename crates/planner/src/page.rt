// What an axis has on a page, at a scale: document 01, section "Scale".
ghost use Rattle.planner_rules.specs.Scale.{Low};

use planner_rules::PageSide;

// Headings and titles are small.
#[derive(Clone, Copy)]
pub(crate) struct ScaledPage {
    pub side: PageSide,
    pub permille: u16,
    ghost low: { Low side },
}
