// Page plans of measured worksheets: document 01, sections "Titles", "Runs", "Scale" and "Pages", and document 02, T-02.
#![tactic(auto)]

mod area;
mod areas;
mod cut;
mod filling;
mod fitted;
mod page;
mod partition;
mod places;
mod plan;
mod runs;
mod scale;
mod settled;
mod sheet_area;
mod slots;
mod title;

pub use partition::partition_axis_with_breaks;
pub use plan::{count_pages, plan_pages, write_area};
