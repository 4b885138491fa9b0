// An axis to be fitted and cut: document 01, section "Scale".
ghost use Rattle.std.specs.Prelude.{◌≡◌};
ghost use Rattle.planner_rules.specs.Scale.{Low};
ghost use Rattle.planner_rules.specs.Plan.{ready_frame};

use crate::page::ScaledPage;
use crate::scale::capacity_at;
use crate::slots::Measured;
use planner_rules::{Fit, Frame, MergeList};

// Its page, stretch and target, its merges, and the slots of its body. Headings and titles are small.
#[derive(Clone, Copy)]
pub(crate) struct FittedAxis<'a> {
    pub fit: Fit,
    pub merges: MergeList<'a>,
    pub slots: Measured<'a>,
    ghost low: { Low fit.page },
}

impl FittedAxis<'_> {
    // What its runs go by at a permille.
    pub(crate) fn frame_at(self, permille: u16) -> Frame
        ensures { result ≡ ready_frame self.entry.fit permille }
    {
        let Fit {
            page: side,
            stretch,
            ..
        } = self.fit;
        let page = ScaledPage { side, permille };
        let untitled = capacity_at(page, 0);
        let titled = if side.titles == 0 {
            untitled
        } else {
            capacity_at(page, side.titles)
        };
        Frame {
            untitled,
            titled,
            title: stretch.title,
            lo: stretch.lo,
            hi: stretch.hi,
        }
    }
}
