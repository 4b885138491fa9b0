// Rows or columns that are repeated on every page: document 01, section "Titles".
#![tactic(auto)]

ghost use Rattle.std.specs.Prelude.{◌≡◌};
ghost use Rattle.planner_rules.specs.Titles.{body_start, limit_of, normalized, no_merge, widens, widen_to, pass, expand, widened, widen_title};
ghost use Rattle.units.specs.Refusals.{outcome};

use planner_questions::{all_within, pairs_ordered};
use planner_rules::{
    Axis, Expanded, MERGE_PART, MergeList, MergeTest, Normalized, Span, Title, Widened,
};
use units::Refusal;

// The title, unless its first is above its last or its last beyond the limit.
#[tactic(auto, unfolding(planner_rules::specs::Titles::normalized))]
fn normalize_repeat(title: Title, limit: u32) -> Normalized
    ensures { result ≡ normalized limit title }
{
    let Title::Pair(first, last) = title else {
        return Normalized {
            title: Title::Absent,
            ignored: 0,
        };
    };
    if first <= last && last <= limit {
        return Normalized { title, ignored: 0 };
    }
    Normalized {
        title: Title::Absent,
        ignored: 1,
    }
}

// The span, widened to a merge that meets it.
#[tactic(auto, unfolding(planner_rules::specs::Titles::widen_to))]
fn widen_to(span: Span, first: u32, last: u32) -> Span
    ensures { result ≡ widen_to span first last }
{
    if first <= span.last && span.first <= last {
        return Span {
            first: span.first.min(first),
            last: span.last.max(last),
        };
    }
    span
}

// Whether a merge widens a span, asked without a branch.
#[derive(Clone, Copy)]
struct Widens {
    span: Span,
}

impl MergeTest for Widens {
    ghost says = { λ t. widens t.span };

    #[inline(always)]
    fn says(&self, first: u32, last: u32) -> bool {
        let span = self.span;
        (first <= span.last)
            & ((span.first <= last) & !((span.first <= first) & (last <= span.last)))
    }
}

// What a part of the merges makes of the span.
fn widen_by_part(span: Span, merges: MergeList) -> Span
    ensures { result ≡ pass merges.entry.firsts.now merges.entry.lasts.now span }
{
    if merges.none(&Widens { span }) {
        return span;
    }
    let mut wide = span;
    for (first, last) in merges.firsts.iter().zip(merges.lasts) {
        wide = widen_to(wide, *first, *last);
    }
    wide
}

// Passes over all merges widen the pair, until one changes nothing. A pass takes the merges part by part.
fn expand_repeat_for_merges(asked: Span, merges: MergeList) -> Expanded
    ensures { result ≡ expand merges.entry.firsts.now merges.entry.lasts.now asked.first asked.last }
{
    let mut span = asked;
    let mut expanded = 0;
    // A `loop`, as document 01 has it: that a pass was the last is known once it is over.
    let title = loop {
        let previous = span;
        let parts = merges
            .firsts
            .chunks(MERGE_PART)
            .zip(merges.lasts.chunks(MERGE_PART));
        for (firsts, lasts) in parts {
            span = widen_by_part(span, MergeList { firsts, lasts });
        }
        if previous == span {
            break Title::Pair(span.first, span.last);
        }
        expanded += 1;
    };
    Expanded { title, expanded }
}

// The title that the pages repeat: ignored where it does not hold, then widened.
#[tactic(auto, unfolding(planner_rules::specs::Titles::widened, planner_rules::specs::Titles::widened_from))]
pub fn widened_title(limit: u32, title: Title, merges: MergeList) -> Widened
    ensures { result ≡ widened limit title merges.entry.firsts.now merges.entry.lasts.now }
{
    let Normalized {
        title: kept,
        ignored,
    } = normalize_repeat(title, limit);
    let Title::Pair(first, last) = kept else {
        return Widened {
            title: Title::Absent,
            ignored,
            expanded: 0,
        };
    };
    let Expanded { title, expanded } = expand_repeat_for_merges(Span { first, last }, merges);
    Widened {
        title,
        ignored,
        expanded,
    }
}

// The title of an axis, normalized and widened by its merges.
#[tactic(auto, unfolding(planner_rules::specs::Titles::widen_title))]
pub fn widen_title(axis: Axis, title: Title, merges: MergeList) -> Result<Widened, Refusal>
    ensures { outcome result ≡ widen_title (limit_of axis) title merges.entry.firsts.now merges.entry.lasts.now }
{
    if merges.firsts.len() != merges.lasts.len() || !pairs_ordered(merges) {
        return Err(Refusal::MalformedLists);
    }
    let limit = axis.limit();
    if !all_within(merges.lasts, limit) {
        return Err(Refusal::OutsideGrid);
    }
    Ok(widened_title(limit, title, merges))
}

// Where the body of a range starts, which may be past the largest index.
#[tactic(auto, unfolding(planner_rules::specs::Titles::body_start))]
pub fn body_start(title: Title, first: u32) -> u64
    ensures { result ≡ body_start title first }
{
    let Title::Pair(from, to) = title else {
        return u64::from(first);
    };
    if from <= first && first <= to {
        return u64::from(to) + 1;
    }
    u64::from(first)
}
