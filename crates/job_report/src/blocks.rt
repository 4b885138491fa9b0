// Blocks of page lines (document 01, section "Jobs"), for a program that writes many at a time. A block has pages of one area. No `Display`,
// as in `text.rt`.
ghost use Rattle.std.specs.Prelude.{◌≡◌, ◌<◌, length};
ghost use Rattle.planner_rules.specs.Areas.{plans_in};
ghost use Rattle.job_report.specs.Blocks as section;

use crate::text::Text;
use planner_pages::{area_page, page_spot};
use planner_rules::{AreaPlan, Plan, RunLists, Spot};
use units::Refusal;

// The last place at which 256 bytes of a block are left.
const LAST: usize = 65_280;

// A block: how many pages have their lines in it, and how many bytes the lines are. (A count, and not the next number: the number after the
// last page of 2^64 - 1 is no u64.)
#[derive(Clone, Copy)]
pub struct Block {
    pub pages: u64,
    pub bytes: usize,
}

// The area that a page belongs to.
fn area_at(plan: &Plan, spot: Spot) -> AreaPlan
    requires { spot.area < length (plans_in plan.now.areas) }
    ensures { result ≡ section.area_of plan.now spot }
{
    plan.areas.as_slice()[spot.area]
}

// Puts the lines of an area's pages from one that is there on. No number goes past the plan's count.
fn lines_held(
    plan: &Plan,
    from: u64,
    spot: Spot,
    runs: RunLists<'_>,
    out: &mut [u8; 65536],
) -> Block
    requires { section.There plan.now from spot runs.rows.now runs.columns.now }
    ensures { section.LinesHeld from (section.pages_on plan.now runs.entry.rows.now runs.entry.columns.now from spot) result
        out.old out.new }
{
    let order = plan.order;
    let area = area_at(plan, spot);
    let most = plan.pages - from;
    let mut pages = 0;
    let mut text = Text { out, at: 0 };
    // No `for`: whether there is room for a line is known once the one before is put.
    while (text.at <= LAST) & (pages <= most) {
        let own = spot.before as u64 + pages + 1;
        let answer = area_page(order, area, own, runs);
        let Ok(page) = answer else {
            break;
        };
        text.page(from + pages, page);
        pages += 1;
    }
    Block {
        pages,
        bytes: text.at,
    }
}

// Puts the lines of the pages from a number on, of the area that this page belongs to, at the start of `out`, as long as there is such a page
// and 256 bytes are left, and answers how many; or refuses and writes nothing. The lists hold the area's runs at the front.
pub fn area_block(
    plan: &Plan,
    from: u64,
    runs: RunLists<'_>,
    out: &mut [u8; 65536],
) -> Result<Block, Refusal>
    ensures { section.BlockPut (section.block_pages plan.now runs.entry.rows.now runs.entry.columns.now from) from result
        out.old out.new }
{
    let spot = page_spot(plan, from).ok_or(Refusal::NoSuchNumber)?;
    let area = area_at(plan, spot);
    let _first = area_page(plan.order, area, 1, runs)?;
    Ok(lines_held(plan, from, spot, runs, out))
}
