// What is asked of a plan beside its lists, as 61 numbers.
#![tactic(auto)]

ghost use Rattle.std.specs.Prelude.{◌≡◌, ◌≤◌};
ghost use Rattle.units.specs.Outcome.{given};
ghost use Rattle.planner_rules.specs.Questions.{ask, no_or};
ghost use Rattle.planner_rules.specs.Partition.{no_of};
ghost use Rattle.yuzhbani_request.specs.Request as section;

use arrayvec::ArrayVec;
use geometry::Margins;
use job_records::MarginBits;
use job_settings::margin_setting;
use planner_compare::index_of;
use planner_rules::{PrintRange, Request, Settings, Title};
use std::array;
use units::Refusal;
use yuzhbani_answers::{order_from, u16_from};

// What a caller asks, as 61 numbers.
#[derive(Clone, Copy)]
pub struct RequestNumbers<'a>(pub &'a [u64; 61]);

impl RequestNumbers<'_> {
    fn setting(self, at: usize) -> Option<u16>
        requires { at ≤ 59 }
        ensures { result ≡ section.setting_from self.entry.0.now at }
    {
        (self.0[at] > 0).then_some(u16_from(self.0[at + 1]))
    }

    fn title(self, at: usize) -> Title
        requires { at ≤ 58 }
        ensures { result ≡ section.title_from self.entry.0.now at }
    {
        if self.0[at] > 0 {
            Title::Pair(index_of(self.0[at + 1]), index_of(self.0[at + 2]))
        } else {
            Title::Absent
        }
    }

    #[tactic(auto, unfolding(crate::specs::Request::margins_from))]
    fn margins(self) -> Option<Margins>
        ensures { result ≡ section.margins_from self.entry.0.now }
    {
        margin_setting(
            (self.0[3] > 0).then_some(MarginBits {
                left: self.0[4],
                right: self.0[5],
                top: self.0[6],
                bottom: self.0[7],
                header: self.0[8],
                footer: self.0[9],
            }),
        )
    }

    fn cell_limit(self) -> Option<u64>
        ensures { result ≡ section.cell_limit_from self.entry.0.now }
    {
        (self.0[20] > 0).then_some(self.0[21])
    }

    #[tactic(auto, unfolding(crate::specs::Request::settings_from))]
    fn settings(self) -> Settings
        ensures { result ≡ section.settings_from self.entry.0.now }
    {
        Settings {
            paper: self.setting(0),
            landscape: self.0[2] > 0,
            margins: self.margins(),
            percent: self.setting(10),
            fit: self.0[12] > 0,
            fit_width: self.setting(13),
            fit_height: self.setting(15),
            order: order_from(self.0[17]),
            headings: self.0[18] > 0,
            page_limit: self.0[19],
            cell_limit: self.cell_limit(),
        }
    }

    #[tactic(auto, unfolding(crate::specs::Request::range_from))]
    fn range(self, at: usize) -> PrintRange
        requires { at ≤ 57 }
        ensures { result ≡ section.range_from self.entry.0.now at }
    {
        PrintRange {
            first_row: index_of(self.0[at]),
            first_column: index_of(self.0[at + 1]),
            last_row: index_of(self.0[at + 2]),
            last_column: index_of(self.0[at + 3]),
        }
    }

    // The areas that stand there, up to so many.
    #[tactic(auto, unfolding(crate::specs::Request::areas_from))]
    fn first_areas(self) -> ArrayVec<PrintRange, 8>
        ensures { result.items ≡ section.areas_from self.entry.0.now }
    {
        let mut areas = ArrayVec::from(array::from_fn(|k| self.range(23 + 4 * k)));
        areas.truncate(self.0[22] as usize);
        areas
    }

    // The areas; 4 where there is none, or a ninth.
    #[tactic(auto, unfolding(crate::specs::Request::areas_counted))]
    pub fn areas(self) -> Result<ArrayVec<PrintRange, 8>, Refusal>
        ensures { let asked = self.entry.0.now in
            section.areas_outcome result ≡ ask 4 (section.areas_counted asked) (given (section.areas_from asked)) }
    {
        if (1..=8).contains(&self.0[22]) {
            Ok(self.first_areas())
        } else {
            Err(Refusal::MisplacedRecord)
        }
    }

    // All that is asked, with the areas.
    pub fn request<'a>(self, areas: &'a [PrintRange]) -> Request<'a>
        ensures settings_are { result.settings ≡ section.settings_from self.entry.0.now }
        ensures areas_are { result.areas.now ≡ areas.now }
        ensures titles_are { let asked = self.entry.0.now in
            (result.row_title ≡ section.row_title_from asked) × (result.column_title ≡ section.column_title_from asked) }
    {
        Request {
            settings: self.settings(),
            areas,
            row_title: self.title(55),
            column_title: self.title(58),
        }
    }

    // 5: a fit and an order are 0 or 1, in numbers as in bytes.
    #[tactic(auto, unfolding(crate::specs::Request::flags_hold))]
    pub fn flags_hold(self) -> Result<(), Refusal>
        ensures { no_of result ≡ no_or 5 (section.flags_hold self.entry.0.now) 0 }
    {
        if (self.0[12] <= 1) & (self.0[17] <= 1) {
            Ok(())
        } else {
            Err(Refusal::BadFlag)
        }
    }
}
