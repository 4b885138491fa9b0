// What a title takes of a page: document 01, section "Titles".
ghost use Rattle.std.specs.Prelude.{◌≡◌, true, ◌<◌, ◌^◌, length};
ghost use Rattle.planner_rules.specs.Slots.{Slots};
ghost use Rattle.planner_rules.specs.Questions.{all_within};
ghost use Rattle.planner_rules.specs.Titles.{limit_of, title_total};
ghost use Rattle.planner_rules.specs.Steps.{TitleReady};

use crate::filling::total;
use crate::places::place_of;
use crate::slots::Measured;
use planner_rules::{Axis, AxisLists, ReadyTitle, Title};
use planner_titles::widened_title;

// The sum of the measured slots in the title.
fn title_total(title: Title, slots: Measured) -> u64
    ensures { result ≡ title_total title slots.entry.indexes.now slots.entry.sizes.now }
{
    let Title::Pair(first, last) = title else {
        return 0;
    };
    let start = place_of(slots.indexes, u64::from(first));
    let end = place_of(slots.indexes, u64::from(last) + 1);
    if end <= start {
        return 0;
    }
    total(slots.part(start, end))
}

// A title of the job, ready for all areas: widened, and with its total.
pub(crate) fn ready_title(axis: Axis, asked: Title, lists: AxisLists) -> ReadyTitle
    requires slots { Slots lists.slots.indexes.now lists.slots.sizes.now }
    requires merge_lasts_value { all_within (limit_of axis) lists.merges.lasts.now ≡ true }
    ensures asked_value { result.asked ≡ asked }
    ensures title_ready { TitleReady result (limit_of axis) lists.entry.slots.indexes.now lists.entry.slots.sizes.now
        lists.entry.merges.firsts.now lists.entry.merges.lasts.now }
    ensures few { length lists.entry.merges.firsts.now < 2 ^ 63 }
{
    let widened = widened_title(axis.limit(), asked, lists.merges);
    ReadyTitle {
        asked,
        widened,
        total: title_total(widened.title, Measured::of(lists.slots)),
    }
}
