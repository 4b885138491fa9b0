// Measured slots that the questions were asked of, or a part of them.
ghost use Rattle.std.specs.Prelude.{◌≡◌, ◌≤◌, ◌<◌, length, MatchOption};
ghost use Rattle.planner_rules.specs.Slots.{Slots, mid};

use planner_rules::SlotList;

// Their indexes rise, their sizes are small, and they are equally many.
#[derive(Clone, Copy)]
pub(crate) struct Measured<'a> {
    pub indexes: &'a [u32],
    pub sizes: &'a [u64],
    ghost are: { Slots indexes.now sizes.now },
}

// Measured slots, at least one: a run starts at the first.
#[derive(Clone, Copy)]
pub(crate) struct SomeSlots<'a> {
    pub slots: Measured<'a>,
    ghost some: { 0 < length slots.sizes.now },
}

impl<'a> Measured<'a> {
    // The slots of an axis, which the questions were asked of.
    #[inline(always)]
    pub(crate) fn of(list: SlotList<'a>) -> Measured<'a>
        requires { Slots list.indexes.now list.sizes.now }
        ensures { (result.indexes ≡ list.entry.indexes) × (result.sizes ≡ list.entry.sizes) }
    {
        let SlotList { indexes, sizes } = list;
        Measured { indexes, sizes }
    }

    // These slots, where there is one.
    #[inline(always)]
    pub(crate) fn some(self) -> Option<SomeSlots<'a>>
        ensures { MatchOption result (length self.entry.sizes.now ≡ 0) (λ head. head.slots ≡ self.entry) }
    {
        if self.sizes.is_empty() {
            return None;
        }
        Some(SomeSlots { slots: self })
    }

    // The slots from one place to another.
    pub(crate) fn part(self, from: usize, to: usize) -> Measured<'a>
        requires ordered { from ≤ to }
        requires inside { to ≤ length self.sizes.now }
        ensures indexes_are { result.indexes.now ≡ mid from to self.entry.indexes.now }
        ensures sizes_are { result.sizes.now ≡ mid from to self.entry.sizes.now }
    {
        Measured {
            indexes: &self.indexes[from..to],
            sizes: &self.sizes[from..to],
        }
    }

    // The slots from a place on.
    pub(crate) fn after(self, n: usize) -> Measured<'a>
        requires { n ≤ length self.sizes.now }
        ensures indexes_are { let is = self.entry.indexes.now in result.indexes.now ≡ mid n (length is) is }
        ensures sizes_are { let ss = self.entry.sizes.now in result.sizes.now ≡ mid n (length ss) ss }
    {
        Measured {
            indexes: &self.indexes[n..],
            sizes: &self.sizes[n..],
        }
    }
}
