// The merge that is used at a boundary: document 01, section "Runs".
ghost use Rattle.std.specs.Prelude.{◌≡◌};
ghost use Rattle.planner_rules.specs.Titles.{holds};
ghost use Rattle.planner_rules.specs.Runs.{nearer, holding, holding_onto};

use planner_rules::{MERGE_PART, MergeList, MergeTest, Span};

// Whether a merge holds a boundary, asked without a branch.
#[derive(Clone, Copy)]
struct Holds {
    b: u32,
}

impl MergeTest for Holds {
    ghost says = { λ t f l. holds f l t.b };

    #[inline(always)]
    fn says(&self, first: u32, last: u32) -> bool {
        (first < self.b) & (self.b <= last)
    }
}

// What holds b, of a pair and of what was found before: the earlier of both by first, then last.
#[tactic(auto, unfolding(planner_rules::specs::Runs::nearer, planner_rules::specs::Runs::earlier))]
fn nearer_of(span: Span, b: u32, held: Option<Span>) -> Option<Span>
    ensures { result ≡ nearer span.first span.last b held }
{
    if span.holds(b) {
        Some(held.map_or(span, |found| span.min(found)))
    } else {
        held
    }
}

// The earliest of some merges that hold b, clipped to the stretch, and of what was found before.
fn earliest_of(merges: MergeList, clip: Span, b: u32, found: Option<Span>) -> Option<Span>
    ensures { result ≡ holding_onto clip.first clip.last b merges.entry.firsts.now merges.entry.lasts.now found }
{
    let firsts = merges.firsts;
    let lasts = merges.lasts;
    let mut held = found;
    // By number from the back, as the definition goes. As the `min` of a zip from the front, clipped, filtered and chained with what was found before,
    // it was tried: that this is the definition's (`returns`) stayed unproved.
    for i in (0..firsts.len().min(lasts.len())).rev() {
        let clipped = Span {
            first: firsts[i].max(clip.first),
            last: lasts[i].min(clip.last),
        };
        held = nearer_of(clipped, b, held);
    }
    held
}

// The earliest merge that holds b, clipped to a stretch.
pub fn holding_merge(merges: MergeList, clip: Span, b: u32) -> Option<Span>
    ensures { result ≡ holding clip.first clip.last b merges.entry.firsts.now merges.entry.lasts.now }
{
    let count = merges.firsts.len().min(merges.lasts.len());
    let last_parts = merges.lasts[..count].rchunks(MERGE_PART);
    let mut held = None;
    for (firsts, lasts) in merges.firsts[..count].rchunks(MERGE_PART).zip(last_parts) {
        let part = MergeList { firsts, lasts };
        if !part.none(&Holds { b }) {
            held = earliest_of(part, clip, b, held);
        }
    }
    held
}
