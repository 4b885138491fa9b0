// Answers as text. A plan is `plan`, the count of areas, the pages, the order and the nine notes; then of each area the permille, whether it is
// unreachable, the runs of rows and of columns, and whether the rows and the columns are empty. A page is `page`, the vertical and the
// horizontal number, and both runs, with first, last, size, empty mark and manual mark.
use planner_pages::page_numbered;
use planner_rules::{
    AreaPlan, NoteNumbers, Notes, Page, PageRun, Plan, RunLists, Tally, Title, Widened,
};
use std::fmt;
use units::Refusal;

// An answer, or `no` and the number of the refusal.
#[derive(Drop)]
pub(crate) struct Answer<T>(pub(crate) Result<T, Refusal>);

impl<T: fmt::Display> fmt::Display for Answer<T> {
    fn fmt<W: fmt::Write>(&self, f: &mut fmt::Formatter<W>) -> fmt::Result {
        match &self.0 {
            Ok(value) => write!(f, "{value}"),
            Err(refusal) => write!(f, "{refusal}"),
        }
    }
}

// The numbers of a list, after a `;`.
#[derive(Drop)]
pub(crate) struct Numbers<'a>(pub(crate) &'a [u64]);

impl fmt::Display for Numbers<'_> {
    fn fmt<W: fmt::Write>(&self, f: &mut fmt::Formatter<W>) -> fmt::Result {
        write!(f, ";")?;
        for number in self.0 {
            write!(f, " {number}")?;
        }
        Ok(())
    }
}

// A title, and the notes of titles ignored and expanded.
#[derive(Drop)]
pub(crate) struct WidenedTitle(pub(crate) Widened);

impl fmt::Display for WidenedTitle {
    fn fmt<W: fmt::Write>(&self, f: &mut fmt::Formatter<W>) -> fmt::Result {
        match self.0.title {
            Title::Absent => write!(f, "absent")?,
            Title::Pair(first, last) => write!(f, "title {first} {last}")?,
        }
        write!(f, " {} {}", self.0.ignored, self.0.expanded)
    }
}

// The counts of runs, expansions and shifts.
#[derive(Drop)]
pub(crate) struct RunCount(pub(crate) Tally);

impl fmt::Display for RunCount {
    fn fmt<W: fmt::Write>(&self, f: &mut fmt::Formatter<W>) -> fmt::Result {
        let Tally {
            runs,
            expansions,
            shifts,
        } = self.0;
        write!(f, "runs {runs} {expansions} {shifts}")
    }
}

#[derive(Drop)]
pub(crate) struct PlanText(pub(crate) Plan);

impl fmt::Display for PlanText {
    fn fmt<W: fmt::Write>(&self, f: &mut fmt::Formatter<W>) -> fmt::Result {
        let Plan {
            areas,
            pages,
            order,
            notes,
        } = &self.0;
        let order = *order as u64;
        write!(
            f,
            "plan {} {pages} {order}{}",
            areas.count,
            NotesText(*notes)
        )?;
        for area in areas.as_slice() {
            write!(f, "{}", AreaText(*area))?;
        }
        Ok(())
    }
}

#[derive(Drop)]
struct NotesText(Notes);

impl fmt::Display for NotesText {
    fn fmt<W: fmt::Write>(&self, f: &mut fmt::Formatter<W>) -> fmt::Result {
        for number in NoteNumbers::from(self.0) {
            write!(f, " {number}")?;
        }
        Ok(())
    }
}

#[derive(Drop)]
struct AreaText(AreaPlan);

impl fmt::Display for AreaText {
    fn fmt<W: fmt::Write>(&self, f: &mut fmt::Formatter<W>) -> fmt::Result {
        let area = &self.0;
        write!(f, " {} {}", area.permille, area.unreachable)?;
        write!(f, " {} {}", area.row_runs, area.column_runs)?;
        let rows_empty = u8::from(area.rows_empty);
        let columns_empty = u8::from(area.columns_empty);
        write!(f, " {rows_empty} {columns_empty}")
    }
}

#[derive(Drop)]
pub(crate) struct PageText(Page);

impl fmt::Display for PageText {
    fn fmt<W: fmt::Write>(&self, f: &mut fmt::Formatter<W>) -> fmt::Result {
        let page = &self.0;
        write!(f, "page {} {}", page.vertical, page.horizontal)?;
        write!(f, "{}{}", RunText(page.rows), RunText(page.columns))
    }
}

#[derive(Drop)]
struct RunText(PageRun);

impl fmt::Display for RunText {
    fn fmt<W: fmt::Write>(&self, f: &mut fmt::Formatter<W>) -> fmt::Result {
        let run = &self.0;
        write!(f, " {} {} {}", run.first, run.last, run.size)?;
        let empty_body = u8::from(run.empty_body);
        let manual_break = u8::from(run.manual_break);
        write!(f, " {empty_body} {manual_break}")
    }
}

// The page with a number.
pub(crate) fn numbered_page(plan: &Plan, number: u64, runs: RunLists<'_>) -> Answer<PageText> {
    let page = page_numbered(plan, number, runs);
    Answer(page.map(PageText))
}
