// Places among the slots of an axis, whose indexes rise: searches by halving, as the Rust's. Document 01, section "Runs".
ghost use Rattle.std.specs.Prelude.{◌≡◌, ◌≤◌, length};
ghost use Rattle.planner_rules.specs.Slots.{Rising, below};
ghost use Rattle.planner_rules.specs.Runs.{moved};

use crate::slots::Measured;
use planner_rules::{Cut, Span};

// How many slots have an index below the limit. Two such places bound the slots from one index to another. No function of both: of none between
// them a title answers 0, a body an empty tally and an area a place twice, and a pair would need that it is ordered, and both values, in its contract.
pub(crate) fn place_of(indexes: &[u32], limit: u64) -> usize
    requires { Rising indexes.now }
    ensures value { result ≡ below limit indexes.now }
    ensures upper_bound { result ≤ length indexes.now }
{
    indexes.partition_point(|i| u64::from(*i) < limit)
}

// The cut of a break at the place p, whose boundary `held` holds.
pub(crate) fn moved_cut(held: Option<Span>, prev: usize, p: usize, slots: Measured) -> Cut
    ensures { result ≡ moved held prev p slots.entry.indexes.now }
{
    let Some(span) = held else {
        return Cut {
            place: p,
            shifted: false,
        };
    };
    let start = place_of(slots.indexes, u64::from(span.first));
    if start > prev {
        return Cut {
            place: start,
            shifted: true,
        };
    }
    let end = place_of(slots.indexes, u64::from(span.last) + 1);
    Cut {
        place: end,
        shifted: true,
    }
}
