// The lines of a plan: document 01, section "Jobs", and document 02, T-02. No `Display`, as in `text.rt`.
ghost use Rattle.std.specs.Prelude.{◌≡◌, ◌+◌, ◌≤◌, length};
ghost use Rattle.units.specs.Outcome.{given};
ghost use Rattle.units.specs.Refusals.{outcome, by_number};
ghost use Rattle.job_report.specs.Lines as section;

use crate::text::Text;
use planner_rules::{NoteNumbers, Notes, Page, Plan};
use units::Refusal;

// The first area's permille; 0 where there is no area.
fn first_permille(plan: &Plan) -> u16
    ensures { result ≡ section.first_permille plan.now }
{
    let areas = plan.areas.as_slice();
    areas.first().map_or(0, |area| area.permille)
}

impl Text<'_> {
    // The first area's permille and the pages.
    #[tactic(auto, unfolding(crate::specs::Lines::plan_line))]
    fn plan(&mut self, plan: &Plan)
        requires { self.old.at + 47 ≤ length self.old.out.now }
        ensures put { section.TextPut (section.plan_line plan.now) self.old self.new }
        ensures upper_bound { self.new.at ≤ self.old.at + 47 }
    {
        let list = [first_permille(plan) as u64, plan.pages];
        self.line(b"plan", &list);
    }

    // The nine notes in order.
    #[tactic(auto, unfolding(crate::specs::Lines::notes_line))]
    fn notes(&mut self, notes: Notes)
        requires { self.old.at + 195 ≤ length self.old.out.now }
        ensures { section.TextPut (section.notes_line notes) self.old self.new }
    {
        let list = NoteNumbers::from(notes);
        self.line(b"notes", &list);
    }

    // The number of a refusal.
    #[tactic(auto, unfolding(crate::specs::Lines::refusal_line))]
    fn refusal(&mut self, number: u8)
        requires { self.old.at + 24 ≤ length self.old.out.now }
        ensures { section.TextPut (section.refusal_line number) self.old self.new }
    {
        let list = [number as u64];
        self.line(b"no", &list);
    }

    // The number of an area, from 1, and its permille.
    #[tactic(auto, unfolding(crate::specs::Lines::area_line))]
    fn area(&mut self, number: u64, permille: u16)
        requires { self.old.at + 47 ≤ length self.old.out.now }
        ensures { section.TextPut (section.area_line number permille) self.old self.new }
    {
        let list = [number, permille as u64];
        self.line(b"area", &list);
    }

    // A page and its number.
    #[tactic(auto, unfolding(crate::specs::Lines::page_line))]
    pub(crate) fn page(&mut self, number: u64, page: Page)
        requires { self.old.at + 194 ≤ length self.old.out.now }
        ensures { section.TextPut (section.page_line number page) self.old self.new }
    {
        let rows = page.rows;
        let columns = page.columns;
        let list = [
            number,
            page.vertical as u64,
            page.horizontal as u64,
            rows.first as u64,
            rows.last as u64,
            columns.first as u64,
            columns.last as u64,
            rows.size,
            columns.size,
        ];
        self.line(b"page", &list);
    }

    // The first two lines of a plan.
    fn plan_head(&mut self, plan: &Plan)
        requires { self.old.at + 242 ≤ length self.old.out.now }
        ensures { section.TextPut (section.head_lines (given plan.now)) self.old self.new }
    {
        self.plan(plan);
        self.notes(plan.notes);
    }

    // These, or the line of a refusal.
    fn head(&mut self, planning: &Result<Plan, Refusal>)
        requires { self.old.at + 242 ≤ length self.old.out.now }
        ensures { section.TextPut (section.head_lines (outcome planning.now)) self.old self.new }
    {
        match planning {
            Ok(plan) => self.plan_head(plan),
            Err(refusal) => self.refusal(refusal.number()),
        }
    }

    // The same where a refusal is any number, of a question or not.
    fn told(&mut self, planning: &Result<Plan, u8>)
        requires { self.old.at + 242 ≤ length self.old.out.now }
        ensures { section.TextPut (section.head_lines (by_number planning.now)) self.old self.new }
    {
        match planning {
            Ok(plan) => self.plan_head(plan),
            Err(number) => self.refusal(*number),
        }
    }
}

// Each call below makes a `Text`, puts one thing and answers the place. No helper that takes the putting as a closure: its contract would say of
// any closure what `LinesPut` says of these, and be longer than the two lines that it saves each of them.

// The first lines of what a plan is told by, or the line of a refusal, at the start of `out`; it answers how many bytes.
pub fn head_lines(planning: &Result<Plan, Refusal>, out: &mut [u8; 256]) -> usize
    ensures { section.LinesPut (section.head_lines (outcome planning.now)) result out.old out.new }
{
    let mut text = Text { out, at: 0 };
    text.head(planning);
    text.at
}

// The same of an answer whose refusal is any number, of a question or not.
pub fn told_lines(planning: &Result<Plan, u8>, out: &mut [u8; 256]) -> usize
    ensures { section.LinesPut (section.head_lines (by_number planning.now)) result out.old out.new }
{
    let mut text = Text { out, at: 0 };
    text.told(planning);
    text.at
}

// The line of a refusal by its number, be it that of a question or not, at the start of `out`; it answers how many bytes.
pub fn refusal_line(number: u8, out: &mut [u8; 256]) -> usize
    ensures { section.LinesPut (section.refusal_line number) result out.old out.new }
{
    let mut text = Text { out, at: 0 };
    text.refusal(number);
    text.at
}

// The line before the pages of a later area, at the start of `out`; it answers how many bytes.
pub fn area_line(number: u64, permille: u16, out: &mut [u8; 256]) -> usize
    ensures { section.LinesPut (section.area_line number permille) result out.old out.new }
{
    let mut text = Text { out, at: 0 };
    text.area(number, permille);
    text.at
}

// The line of a page, at the start of `out`; it answers how many bytes.
pub fn page_line(number: u64, page: Page, out: &mut [u8; 256]) -> usize
    ensures { section.LinesPut (section.page_line number page) result out.old out.new }
{
    let mut text = Text { out, at: 0 };
    text.page(number, page);
    text.at
}
