// What settings come to, before anything is cut: document 01, sections "Paper and content", "Titles" and "Scale".
#![tactic(auto)]

ghost use Rattle.std.specs.Prelude.{◌≡◌};
ghost use Rattle.planner_rules.specs.Scale.{fixed_scale, meets, middle, scale_of};
ghost use Rattle.planner_rules.specs.Plan as call;

use planner_rules::{Axis, AxisRange, ChosenScale, ContentSides, PrintRange, Settings, Title};
use units::Refusal;

// What an absent percent and an absent target mean.
const DEFAULT_PERCENT: u16 = 100;

const DEFAULT_TARGET: u16 = 1;

// What headings take of a page's height, and of its width.
const ROW_HEADINGS: u64 = 17_408;

const COLUMN_HEADINGS: u64 = 38_912;

// The scale of a percent, clamped.
#[tactic(auto, unfolding(planner_rules::specs::Scale::fixed_scale))]
pub fn fixed_scale(percent: Option<u16>) -> ChosenScale
    ensures { scale_of result ≡ fixed_scale percent }
{
    let asked = percent.unwrap_or(DEFAULT_PERCENT);
    let kept = asked.clamp(10, 400);
    ChosenScale {
        permille: kept * 10,
        clamp: u64::from(asked != kept),
        unreachable: 0,
    }
}

// An axis of a range as it is cut: the grid's last index, the headings, and the most pages along it.
pub fn axis_range(axis: Axis, settings: Settings, range: PrintRange, title: Title) -> AxisRange
    ensures { call.IsRange axis result settings range title }
{
    let (first, last, headings, target) = match axis {
        Axis::Rows => (
            range.first_row,
            range.last_row,
            ROW_HEADINGS,
            settings.fit_height,
        ),
        Axis::Columns => (
            range.first_column,
            range.last_column,
            COLUMN_HEADINGS,
            settings.fit_width,
        ),
    };
    AxisRange {
        limit: axis.limit(),
        first,
        last,
        title,
        headings: if settings.headings { headings } else { 0 },
        target: target.unwrap_or(DEFAULT_TARGET),
    }
}

// The breaks that are looked at: with fit on, none.
pub fn looked_at(fit: bool, breaks: &[u32]) -> &[u32]
    ensures { result.now ≡ call.looked_at fit breaks.now }
{
    if fit { &[] } else { breaks }
}

// The content's width and height, with what was noted of paper and margins.
#[tactic(auto, unfolding(planner_rules::specs::Plan::content_sides))]
pub fn content_sides(settings: Settings) -> Result<ContentSides, Refusal>
    ensures { call.sides_outcome result ≡ call.content_sides settings }
{
    let code = settings.paper;
    let margins = settings.margins;
    let paper = geometry::paper_geometry(code, settings.landscape);
    let placed = geometry::content_geometry(paper.geometry, margins)?;
    Ok(ContentSides {
        width: placed.content.width,
        height: placed.content.height,
        unknown: paper.unknown_paper,
        invalid: placed.invalid_margins,
    })
}

// A target of 0 bounds nothing.
pub fn meets_target(target: u16, runs: usize) -> bool
    ensures { result ≡ meets target runs }
{
    target == 0 || runs <= target as usize
}

// The Rust's middle: low + (high - low) / 2, rounded up.
#[tactic(auto, unfolding(planner_rules::specs::Scale::middle))]
pub fn middle_of(low: u16, high: u16) -> u16
    ensures { result ≡ middle low high }
{
    low + high.saturating_sub(low).div_ceil(2)
}
