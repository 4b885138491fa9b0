// Lends a list of four pages, through the crate `planner_page_list`, and writes what was answered and each place of the list: a page as
// document 01, section "Jobs", writes it, and whether `page_numbered` gives the same page, `ok` or `bad`; or whether the place is as it was.
#![tactic(auto)]

mod cases;
mod listed;

fn main() {
    cases::say_all();
}
