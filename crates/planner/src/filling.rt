// Slots taken onto a sum: document 01, section "Runs", filling.
ghost use Rattle.std.specs.Prelude.{◌≡◌, ◌+◌, ◌*◌, ◌≤◌, ◌<◌, length, take, drop};
ghost use Rattle.planner_rules.specs.Slots.{Small, sum};
ghost use Rattle.planner_rules.specs.Runs.{more, natural};

use crate::slots::{Measured, SomeSlots};

// The slots that a run has so far, and their sum.
#[derive(Clone, Copy)]
pub(crate) struct Filling {
    pub slots: usize,
    pub sum: u64,
}

// The sum of a stretch.
pub(crate) fn total(slots: Measured) -> u64
    ensures { result ≡ sum slots.entry.sizes.now }
{
    slots.sizes.iter().sum()
}

// The sum of eight sizes. Written out by pairs, which shows its bound at once: `sum` would require it, of a list that is known by its length alone.
fn sum_of_eight(s: &[u64]) -> u64
    requires small { Small s.now }
    requires s_len { length s.now ≡ 8 }
    ensures value { result ≡ sum s.now }
    ensures upper_bound { result ≤ 8 * 1073741824 }
{
    let low = (s[0] + s[1]) + (s[2] + s[3]);
    let high = (s[4] + s[5]) + (s[6] + s[7]);
    low + high
}

// Fills a run by eight slots at a time, with one branch for them all, while the sum stays within the capacity: its first slot, and those that eight
// more take with them.
fn fill_by_eight(head: SomeSlots, capacity: u64) -> Filling
    ensures sizes_value { let ss = head.entry.slots.sizes.now in
        result.slots + more capacity result.sum (drop result.slots ss) ≡ natural capacity ss }
    ensures sum_value { result.sum ≡ sum (take result.slots head.entry.slots.sizes.now) }
    ensures le_slots { (1 ≤ result.slots) × (result.slots ≤ length head.entry.slots.sizes.now) × (result.sum ≤ 1073741824 * result.slots) }
{
    let mut filling = Filling {
        slots: 1,
        sum: head.slots.sizes[0],
    };
    for eight in head.slots.sizes[1..].chunks_exact(8) {
        let sum = filling.sum + sum_of_eight(eight);
        if sum > capacity {
            return filling;
        }
        filling = Filling {
            slots: filling.slots + 8,
            sum,
        };
    }
    filling
}

// What a run takes by filling alone: the first slot, and the next while the sum stays within the capacity.
pub(crate) fn natural_fill(head: SomeSlots, capacity: u64) -> Filling
    ensures slots_value { result.slots ≡ natural capacity head.entry.slots.sizes.now }
    ensures sum_value { result.sum ≡ sum (take result.slots head.entry.slots.sizes.now) }
    ensures le_slots { (1 ≤ result.slots) × (result.slots ≤ length head.entry.slots.sizes.now) }
{
    let mut filling = fill_by_eight(head, capacity);
    for size in &head.slots.sizes[filling.slots..] {
        let sum = filling.sum + *size;
        if sum > capacity {
            return filling;
        }
        filling = Filling {
            slots: filling.slots + 1,
            sum,
        };
    }
    filling
}
