// A plan and a page as numbers, for a caller in another language: a number and a lent array stand for a `Result`, as the C interface needs.
#![tactic(auto)]

ghost use Rattle.std.specs.Prelude.{◌≡◌, ◌≤◌, min};
ghost use Rattle.units.specs.Refusals.{outcome, by_number};
ghost use Rattle.yuzhbani_answers.specs.Numbers as section;
ghost use Rattle.yuzhbani_answers.specs.Answers.{answer_to, numbers_of, HadBack, PageHanded, put_in};

use planner_rules::{AreaPlan, AreaPlans, NoteNumbers, Notes, Page, PageOrder, Plan};
use std::array;
use units::Refusal;

// Any number above 0 is over then down. No `From<u64>`: `PageOrder` is not of this crate.
pub fn order_from(n: u64) -> PageOrder
    ensures { result ≡ section.order_from n }
{
    PageOrder::from(n > 0)
}

// The largest that fits stands for any number above it. Beside `index_of` of `planner_compare`: one function for both would be generic over the type
// and over its largest number, which no trait of std gives, and would be longer than both.
pub fn u16_from(n: u64) -> u16
    ensures { result ≡ min n 65535 }
{
    u16::try_from(n).unwrap_or(u16::MAX)
}

// The six numbers of an area.
fn area_numbers(area: AreaPlan) -> [u64; 6]
    ensures value { result ≡ section.area_numbers area }
    ensures area_back { section.AreaBack area }
{
    [
        u64::from(area.permille),
        area.unreachable,
        area.row_runs as u64,
        area.column_runs as u64,
        u64::from(area.rows_empty),
        u64::from(area.columns_empty),
    ]
}

// The count of areas, the pages, the order and the notes, then six numbers for each of eight areas, as they stand.
fn put_plan(numbers: &mut [u64; 60], plan: &Plan)
    ensures numbers_after { numbers.new ≡ section.plan_numbers plan.now }
    ensures plan_value { section.plan_from (section.plan_numbers plan.now) ≡ plan.now }
{
    *numbers = [0; 60];
    numbers[..3].copy_from_slice(&[plan.areas.count as u64, plan.pages, plan.order as u64]);
    numbers[3..12].copy_from_slice(&NoteNumbers::from(plan.notes));
    // As a slice: of an array behind a `&` no fact says that it has eight.
    for (k, area) in plan.areas.plans[..].iter().enumerate() {
        let at = 12 + 6 * k;
        numbers[at..at + 6].copy_from_slice(&area_numbers(*area));
    }
}

// The answer of a plan call; the numbers of its plan are put, or nothing. Not by `put`: the sixty go to the lent array area after area, and would be
// made in another array first, to be copied, and the proof would say of both what `plan_numbers` says.
#[inline(always)]
pub fn put_planning(planning: Result<Plan, Refusal>, numbers: &mut [u64; 60]) -> u8
    ensures value { result ≡ answer_to (outcome planning) }
    ensures numbers_after { numbers.new ≡ numbers_of (outcome planning) numbers.old }
    ensures had_back { HadBack (outcome planning) }
{
    match planning {
        Ok(plan) => {
            put_plan(numbers, &plan);
            0
        }
        Err(refusal) => refusal.number(),
    }
}

// The same of an answer whose refusal is any number, of a question or not.
#[inline(always)]
pub fn put_told(planning: Result<Plan, u8>, numbers: &mut [u64; 60]) -> u8
    ensures value { result ≡ answer_to (by_number planning) }
    ensures numbers_after { numbers.new ≡ numbers_of (by_number planning) numbers.old }
    ensures had_back { HadBack (by_number planning) }
{
    match planning {
        Ok(plan) => {
            put_plan(numbers, &plan);
            0
        }
        Err(number) => number,
    }
}

// Sixty numbers of a plan, whoever wrote them.
#[derive(Clone, Copy)]
pub struct PlanNumbers<'a>(pub &'a [u64; 60]);

impl PlanNumbers<'_> {
    #[tactic(auto, unfolding(crate::specs::Numbers::area_from))]
    fn area(self, at: usize) -> AreaPlan
        requires { at ≤ 54 }
        ensures { result ≡ section.area_from self.entry.0.now at }
    {
        AreaPlan {
            permille: u16_from(self.0[at]),
            unreachable: self.0[at + 1],
            row_runs: self.0[at + 2] as usize,
            column_runs: self.0[at + 3] as usize,
            rows_empty: self.0[at + 4] > 0,
            columns_empty: self.0[at + 5] > 0,
        }
    }

    // The areas, by their count; of more than eight, those that stand there are meant.
    #[tactic(auto, unfolding(crate::specs::Numbers::areas_from))]
    fn areas(self) -> AreaPlans
        ensures { result ≡ section.areas_from self.entry.0.now }
    {
        AreaPlans {
            count: self.0[0] as usize,
            plans: array::from_fn(|k| self.area(12 + 6 * k)),
        }
    }
}

impl From<PlanNumbers<'_>> for Plan {
    ghost from_gives = { λ numbers plan. plan ≡ section.plan_from numbers.0.now };

    #[tactic(auto, unfolding(crate::specs::Numbers::plan_from))]
    fn from(read: PlanNumbers<'_>) -> Plan {
        let numbers = read.0;
        Plan {
            areas: read.areas(),
            pages: numbers[1],
            order: order_from(numbers[2]),
            notes: Notes::from(array::from_fn(|k| numbers[3 + k])),
        }
    }
}

// What an answer and sixty numbers stand for. A refusal stays the number it is: the C interface takes any, and not each is a question's.
pub fn told(answer: u8, numbers: &[u64; 60]) -> Result<Plan, u8>
    ensures { by_number result ≡ section.told answer numbers.now }
{
    if answer > 0 {
        return Err(answer);
    }
    Ok(Plan::from(PlanNumbers(numbers)))
}

// The answer of a call: the numbers that it gives are put, or nothing.
#[inline(always)]
pub fn put<const N: usize>(answer: Result<[u64; N], Refusal>, to: &mut [u64; N]) -> u8
    ensures value { result ≡ answer_to (outcome answer.entry) }
    ensures numbers_after { to.new ≡ put_in (outcome answer.entry) to.old }
{
    match answer {
        Ok(numbers) => {
            *to = numbers;
            0
        }
        Err(refusal) => refusal.number(),
    }
}

// The twelve numbers of a page.
fn page_numbers(page: Page) -> [u64; 12]
    ensures { result ≡ section.page_numbers page }
{
    let rows = page.rows;
    let columns = page.columns;
    [
        page.vertical as u64,
        page.horizontal as u64,
        rows.first as u64,
        rows.last as u64,
        rows.size,
        rows.empty_body as u64,
        rows.manual_break as u64,
        columns.first as u64,
        columns.last as u64,
        columns.size,
        columns.empty_body as u64,
        columns.manual_break as u64,
    ]
}

// The answer of a page call; the numbers of its page are put, or nothing.
pub fn put_page(answer: Result<Page, Refusal>, numbers: &mut [u64; 12]) -> u8
    ensures { PageHanded (outcome answer) result numbers.old numbers.new }
{
    put(answer.map(page_numbers), numbers)
}

// The same of an answer whose refusal is any number, of a question or not.
pub fn put_told_page(answer: Result<Page, u8>, numbers: &mut [u64; 12]) -> u8
    ensures { PageHanded (by_number answer) result numbers.old numbers.new }
{
    match answer {
        Ok(page) => {
            *numbers = page_numbers(page);
            0
        }
        Err(told) => told,
    }
}
