// What the settings of a job mean, also where their records are absent: document 01, section "Jobs".
#![tactic(auto)]

ghost use Rattle.std.specs.Prelude.{◌≡◌};
ghost use Rattle.job_records.specs.Areas.{ranges_in};
ghost use Rattle.job_settings.specs.Meaning as section;

use arrayvec::ArrayVec;
use geometry::Margins;
use job_records::{JobAreas, MarginBits, Range, float};
use planner_rules::{PageOrder, PrintRange, Settings, Title};

// The settings of a job, in the order of their records. `fit` and `order` are bytes, as in their records: what each byte means, whatever it is, `fit_on`
// and `over_then_down` say.
#[derive(Clone, Copy)]
pub struct JobSettings {
    pub paper: Option<u16>,
    pub landscape: bool,
    pub margins: Option<MarginBits>,
    pub percent: Option<u16>,
    pub fit_width: Option<u16>,
    pub fit_height: Option<u16>,
    pub fit: Option<u8>,
    pub order: Option<u8>,
    pub headings: bool,
    pub page_limit: Option<u64>,
    pub cell_limit: Option<u64>,
    pub areas: JobAreas,
    pub row_title: Title,
    pub column_title: Title,
}

// Whether the pages are fitted: by FT, or, where it is absent, by whether a target is there.
pub fn fit_on(fit: Option<u8>, fit_width: Option<u16>, fit_height: Option<u16>) -> bool
    ensures { result ≡ section.fit_on fit fit_width fit_height }
{
    match fit {
        None => fit_width.is_some() | fit_height.is_some(),
        Some(x) => x == 1,
    }
}

// Whether pages go over, then down.
pub fn over_then_down(order: Option<u8>) -> bool
    ensures { result ≡ section.over_then_down order }
{
    order == Some(1)
}

// The most pages that a plan may have, where a job does not say.
const DEFAULT_PAGE_LIMIT: u64 = 10_000;

// The most pages that a plan may have.
pub fn page_limit(limit: Option<u64>) -> u64
    ensures { result ≡ section.limit_of limit }
{
    limit.unwrap_or(DEFAULT_PAGE_LIMIT)
}

fn inches_of(bits: MarginBits) -> Margins
    ensures { result ≡ section.inches_of bits }
{
    Margins {
        left: float(bits.left),
        right: float(bits.right),
        top: float(bits.top),
        bottom: float(bits.bottom),
        header: float(bits.header),
        footer: float(bits.footer),
    }
}

// The six margins as floats, for content geometry.
pub fn margin_setting(margins: Option<MarginBits>) -> Option<Margins>
    ensures { result ≡ section.margin_setting margins }
{
    margins.map(inches_of)
}

// The settings as the planner takes them.
impl From<&JobSettings> for Settings {
    ghost from_gives = { λ read settings. settings ≡ section.settings_for read.now };

    fn from(read: &JobSettings) -> Settings {
        Settings {
            paper: read.paper,
            landscape: read.landscape,
            margins: margin_setting(read.margins),
            percent: read.percent,
            fit: fit_on(read.fit, read.fit_width, read.fit_height),
            fit_width: read.fit_width,
            fit_height: read.fit_height,
            order: PageOrder::from(over_then_down(read.order)),
            headings: read.headings,
            page_limit: page_limit(read.page_limit),
            cell_limit: read.cell_limit,
        }
    }
}

// A range as the planner takes it. No `From`: neither type is of this crate.
pub fn range_for(cells: Range) -> PrintRange
    ensures { result ≡ section.range_for cells }
{
    PrintRange {
        first_row: cells.first_row,
        first_column: cells.first_column as u32,
        last_row: cells.last_row,
        last_column: cells.last_column as u32,
    }
}

// The areas as the planner takes them. No `From`, as for a range.
pub fn areas_for(read: &JobAreas) -> ArrayVec<PrintRange, 8>
    ensures { result.items ≡ section.areas_for (ranges_in read.now) }
{
    let mut areas = ArrayVec::new();
    for cells in read.as_slice() {
        areas.push(range_for(*cells));
    }
    areas
}
