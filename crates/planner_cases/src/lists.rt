// The lists of an axis, as they were read.
use crate::fields::List;
use planner_rules::{AxisLists, MergeList, SlotList};

#[derive(Drop)]
pub(crate) struct Lists {
    pub(crate) indexes: List<u32>,
    pub(crate) sizes: List<u64>,
    pub(crate) merge_firsts: List<u32>,
    pub(crate) merge_lasts: List<u32>,
    pub(crate) breaks: List<u32>,
}

impl Lists {
    pub(crate) fn lend(&self) -> AxisLists<'_> {
        AxisLists {
            slots: SlotList {
                indexes: &self.indexes,
                sizes: &self.sizes,
            },
            merges: MergeList {
                firsts: &self.merge_firsts,
                lasts: &self.merge_lasts,
            },
            breaks: &self.breaks,
        }
    }
}
