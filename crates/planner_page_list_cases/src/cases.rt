// Plans whose pages are listed. Slots are 400,000 each, on Letter.
use crate::listed::Planned;
use arrayvec::ArrayVec;
use planner::plan_pages;
use planner_rules::{
    AxisLists, MergeList, PageOrder, Plan, PrintRange, RUN_NUMBERS, Request, RunLists, Settings,
    SheetLists, SlotList, Title,
};
use std::io::Write;
use units::Refusal;

// Standard output.
const STDOUT: i32 = 1;

// The bytes that what is said of a plan has room for.
const SAID: usize = 1024;

// The sizes of the slots of an axis, of which there are at most five.
const SIZES: [u64; 5] = [400_000; 5];

// The numbers of the lists of runs: these plans have at most five runs of rows and three of columns.
const ROW_NUMBERS: usize = 5 * RUN_NUMBERS;

const COLUMN_NUMBERS: usize = 3 * RUN_NUMBERS;

// A sheet by its slots, and how its areas are printed.
#[derive(Clone, Copy)]
struct Case<'a> {
    name: &'a str,
    percent: Option<u16>,
    order: PageOrder,
    ranges: &'a [PrintRange],
    rows: &'a [u32],
    columns: &'a [u32],
    row_breaks: &'a [u32],
}

// The example of document 01, section "Jobs": three rows and two columns.
const EXAMPLE: Case<'static> = Case {
    name: "three rows and two columns, down then over",
    percent: None,
    order: PageOrder::DownThenOver,
    ranges: &[WHOLE],
    rows: &[0, 1, 2],
    columns: &[0, 1],
    row_breaks: &[],
};

const WHOLE: PrintRange = PrintRange {
    first_row: 0,
    first_column: 0,
    last_row: 2,
    last_column: 1,
};

const FIRST_COLUMN: PrintRange = PrintRange {
    last_column: 0,
    ..WHOLE
};

const FIVE_ROWS: PrintRange = PrintRange {
    last_row: 4,
    last_column: 0,
    ..WHOLE
};

const TWO_ROWS: PrintRange = PrintRange {
    last_row: 1,
    ..WHOLE
};

const FIRST_CELL: PrintRange = PrintRange {
    last_row: 0,
    last_column: 0,
    ..WHOLE
};

const LAST_CELL: PrintRange = PrintRange {
    first_row: 2,
    first_column: 1,
    ..WHOLE
};

const OUTSIDE: PrintRange = PrintRange {
    first_row: 3,
    first_column: 5,
    last_row: 4,
    last_column: 6,
};

const CASES: [Case<'static>; 6] = [
    EXAMPLE,
    Case {
        name: "three rows and two columns, over then down",
        order: PageOrder::OverThenDown,
        ..EXAMPLE
    },
    // Three rows with a break before the second: both pages carry marks.
    Case {
        name: "a manual break, and no columns",
        ranges: &[FIRST_COLUMN],
        columns: &[],
        row_breaks: &[1],
        ..EXAMPLE
    },
    // Five rows, each on a page of its own.
    Case {
        name: "five pages, four places",
        percent: Some(200),
        ranges: &[FIVE_ROWS],
        rows: &[0, 1, 2, 3, 4],
        columns: &[0],
        ..EXAMPLE
    },
    // Two areas that overlap: three rows of a column, then two rows of two columns.
    Case {
        name: "two areas",
        ranges: &[FIRST_COLUMN, TWO_ROWS],
        ..EXAMPLE
    },
    // Three areas of a page each, in job order: the last cell, the first one, and one without a slot.
    Case {
        name: "three areas",
        ranges: &[LAST_CELL, FIRST_CELL, OUTSIDE],
        ..EXAMPLE
    },
];

fn settings(percent: Option<u16>, order: PageOrder) -> Settings {
    Settings {
        paper: None,
        landscape: false,
        margins: None,
        percent,
        fit: false,
        fit_width: None,
        fit_height: None,
        order,
        headings: false,
        page_limit: 10_000,
        cell_limit: None,
    }
}

// The slots of an axis that has no merges, and its breaks.
fn axis<'a>(indexes: &'a [u32], breaks: &'a [u32]) -> AxisLists<'a> {
    let count = indexes.len().min(SIZES.len());
    AxisLists {
        slots: SlotList {
            indexes,
            sizes: &SIZES[..count],
        },
        merges: MergeList {
            firsts: &[],
            lasts: &[],
        },
        breaks,
    }
}

impl Case<'_> {
    // Plans, which writes the runs to the lists.
    fn plan(&self, row_runs: &mut [u64], column_runs: &mut [u64]) -> Result<Plan, Refusal> {
        let request = Request {
            settings: settings(self.percent, self.order),
            areas: self.ranges,
            row_title: Title::Absent,
            column_title: Title::Absent,
        };
        let lists = SheetLists {
            rows: axis(self.rows, self.row_breaks),
            columns: axis(self.columns, &[]),
        };
        plan_pages(&request, &lists, row_runs, column_runs)
    }

    // Plans, and lists the pages.
    fn say<W: Write>(&self, out: &mut W) -> std::io::Result<()> {
        writeln!(out, "{}", self.name)?;
        let mut row_runs = [0; ROW_NUMBERS];
        let mut column_runs = [0; COLUMN_NUMBERS];
        match self.plan(&mut row_runs, &mut column_runs) {
            Ok(plan) => {
                let planned = Planned {
                    plan,
                    runs: RunLists {
                        rows: &row_runs,
                        columns: &column_runs,
                    },
                };
                planned.say(out)
            }
            Err(_) => writeln!(out, "no plan"),
        }
    }
}

// Says what each case comes to, one after another.
pub(crate) fn say_all() {
    for case in &CASES {
        let mut said = ArrayVec::<u8, SAID>::new();
        // It fits: a case has at most ten lines.
        let _ = case.say(&mut said);
        io::write_all(STDOUT, &said);
    }
}
