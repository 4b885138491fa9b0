// The pages of a plan in a list of four by value. `list_pages` fills a list that is lent to it; here an array is lent and handed back, so
// that a caller of `list_four` holds no reference to page records.
#![tactic(auto)]

ghost use Rattle.std.specs.Prelude.{◌≡◌};
ghost use Rattle.units.specs.Refusals.{outcome};
ghost use Rattle.planner_rules.specs.Pages as section;

use planner_rules::{Page, Plan, RunLists};
use units::Refusal;

// The list as the call left it, and what was answered.
#[derive(Clone, Copy)]
pub struct Four {
    pub pages: [Page; 4],
    pub answer: Result<u64, Refusal>,
}

// Writes the pages of a plan, in order, to the front of a list of four, over the lists of runs that were lent to the plan. It answers how
// many, or refuses and writes nothing.
pub fn list_four(mut list: [Page; 4], plan: &Plan, runs: RunLists<'_>) -> Four
    ensures { let rows = runs.entry.rows.now in
        let columns = runs.entry.columns.now in
        let listed = section.list_pages plan.now rows columns 4 in
        (outcome result.answer ≡ listed) × (result.pages ≡ section.pages_lent listed (section.pages_of plan.now rows columns) list) }
{
    let answer = planner_pages::list_pages(&mut list, plan, runs);
    Four {
        pages: list,
        answer,
    }
}
