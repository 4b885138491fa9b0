// The places of a list after the call, compared with the pages by number and with what stood there before.
use job_report::page_line;
use planner_page_list::list_four;
use planner_pages::page_numbered;
use planner_rules::{Page, PageRun, Plan, RunLists};
use std::io::{self, Write};

// Whether something holds, as it is printed.
fn verdict(holds: bool) -> &'static str {
    if holds { "ok" } else { "bad" }
}

// What stands in each place before the call: no page of a plan.
const BLANK: Page = Page {
    vertical: 5,
    horizontal: 9,
    rows: BLANK_RUN,
    columns: BLANK_RUN,
};

const BLANK_RUN: PageRun = PageRun {
    first: 8,
    last: 7,
    size: 6,
    empty_body: true,
    manual_break: true,
};

// A plan and its runs.
#[derive(Drop)]
pub(crate) struct Planned<'a> {
    pub(crate) plan: Plan,
    pub(crate) runs: RunLists<'a>,
}

impl Planned<'_> {
    fn page(&self, number: u64) -> Option<Page> {
        page_numbered(&self.plan, number, self.runs).ok()
    }

    // Says a place, from 1, in whose list so many pages were written.
    fn say_place<W: Write>(
        &self,
        number: u64,
        page: &Page,
        count: u64,
        out: &mut W,
    ) -> io::Result<()> {
        if number > count {
            return writeln!(out, "as it was {number} {}", verdict(*page == BLANK));
        }
        let mut line = [0; 256];
        let end = page_line(number, *page, &mut line);
        out.write_all(&line[..end])?;
        let found = self.page(number) == Some(*page);
        writeln!(out, "by number {number} {}", verdict(found))
    }

    // Lists the pages, and says what was answered and each place.
    pub(crate) fn say<W: Write>(&self, out: &mut W) -> io::Result<()> {
        let four = list_four([BLANK; 4], &self.plan, self.runs);
        match four.answer {
            Ok(count) => writeln!(out, "pages {count}")?,
            Err(refusal) => writeln!(out, "{refusal}")?,
        }
        let count = four.answer.unwrap_or(0);
        for (number, page) in (1..).zip(&four.pages) {
            self.say_place(number, page, count, out)?;
        }
        Ok(())
    }
}
