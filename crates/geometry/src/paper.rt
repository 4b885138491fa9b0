// Paper sizes, and what margins leave of a page: document 01, section "Paper and content".
ghost use Rattle.std.specs.Prelude.{◌≡◌, pos};
ghost use Rattle.units.specs.Outcome.{given};
ghost use Rattle.units.specs.Units.{length_outcome, less_of};
ghost use Rattle.geometry.specs.Paper as Section;
ghost use Rattle.geometry.specs.Lengths as Lengths;

use std::fmt;
use std::fmt::Write;
use units::{Fixed, Rect, Refusal, inches_to_fixed};

// A paper's code and its sides as they lie on the page.
#[derive(Clone, Copy, Debug, PartialEq, Eq)]
pub struct PaperGeometry {
    pub paper_code: u16,
    pub width: Fixed,
    pub height: Fixed,
}

// What `paper_geometry` answers: the paper, and how many codes were not known. A number, 0 or 1, and no bool: it is a count, which a plan's notes add
// up and hand to C, as that of `ContentGeometry` is.
#[derive(Clone, Copy, Debug, PartialEq, Eq)]
pub struct Paper {
    pub geometry: PaperGeometry,
    pub unknown_paper: u64,
}

// Six margins in inches.
pub type Margins = units::Margins<f64>;

// Where the content, the header and the footer stand, and how many times margins did not hold: a count of 0 or 1, as of a `Paper`.
#[derive(Clone, Copy, Debug, PartialEq, Eq)]
pub struct ContentGeometry {
    pub content: Rect,
    pub header_y: Fixed,
    pub footer_y: Fixed,
    pub invalid_margins: u64,
}

// Its seven numbers, the rectangle's first.
impl fmt::Display for ContentGeometry {
    fn fmt<W: fmt::Write>(&self, f: &mut fmt::Formatter<W>) -> fmt::Result {
        let rect = self.content;
        write!(f, "{} {} {} {} ", rect.x, rect.y, rect.width, rect.height)?;
        write!(
            f,
            "{} {} {}",
            self.header_y, self.footer_y, self.invalid_margins
        )
    }
}

// A paper's code, and its upright width and height in units.
type Sheet = (u16, u32, u32);

// What an absent code means, and one that the list does not have.
const LETTER: Sheet = (1, 835584, 1081344);

// The list of papers.
const SHEETS: [Sheet; 35] = [
    LETTER,
    (2, 835584, 1081344),
    (3, 1081344, 1671168),
    (4, 1671168, 1081344),
    (5, 835584, 1376256),
    (6, 540672, 835584),
    (7, 712704, 1032192),
    (8, 1149460, 1625499),
    (9, 812750, 1149460),
    (10, 812750, 1149460),
    (11, 572795, 812750),
    (12, 967559, 1366193),
    (13, 681162, 967559),
    (14, 835584, 1277952),
    (15, 832101, 1064315),
    (16, 983040, 1376256),
    (17, 1081344, 1671168),
    (18, 835584, 1081344),
    (19, 380928, 872448),
    (20, 405504, 933888),
    (21, 442368, 1019904),
    (22, 466944, 1081344),
    (23, 491520, 1130496),
    (24, 1671168, 2162688),
    (25, 2162688, 3342336),
    (26, 3342336, 4325376),
    (27, 425726, 851452),
    (28, 626978, 886284),
    (29, 1253957, 1772568),
    (30, 886284, 1253957),
    (31, 441207, 626978),
    (42, 967559, 1366193),
    (43, 387024, 572795),
    (66, 1625499, 2298920),
    (70, 406375, 572795),
];

// The upright paper of a code that the list has; any other resolves to Letter, with a note.
fn resolved(code: u16) -> Paper
    ensures { given (Section.paper_found result) ≡ Section.upright (Section.resolved code Section.sheets) }
{
    match SHEETS.iter().find(|sheet| sheet.0 == code) {
        Some(sheet) => upright(*sheet, 0),
        None => upright(LETTER, 1),
    }
}

fn upright(sheet: Sheet, unknown_paper: u64) -> Paper
    ensures { Section.paper_found result ≡ record { code = sheet.0; width = pos sheet.1; height = pos sheet.2; unknown = unknown_paper } }
{
    let (paper_code, width, height) = sheet;
    Paper {
        geometry: PaperGeometry {
            paper_code,
            width: Fixed::from_raw(i64::from(width)),
            height: Fixed::from_raw(i64::from(height)),
        },
        unknown_paper,
    }
}

// The paper as it lies on the page: landscape swaps its sides.
fn turned(paper: Paper, landscape: bool) -> Paper
    ensures { Section.paper_found result ≡ Section.turned landscape (Section.paper_found paper) }
{
    if landscape {
        let upright = paper.geometry;
        return Paper {
            geometry: PaperGeometry {
                width: upright.height,
                height: upright.width,
                ..upright
            },
            ..paper
        };
    }
    paper
}

// The paper of a code, Letter where it is absent or unlisted, turned where it is landscape.
pub fn paper_geometry(code: Option<u16>, landscape: bool) -> Paper
    ensures { given (Section.paper_found result) ≡ Section.paper_geometry code landscape }
{
    turned(resolved(code.unwrap_or(LETTER.0)), landscape)
}

// Finite and at least 0.
fn usable(inches: f64) -> bool
    ensures { result ≡ Section.usable inches }
{
    inches >= 0.0 && inches.is_finite()
}

fn all_usable(m: Margins) -> bool
    ensures { result ≡ Section.all_usable m }
{
    usable(m.left)
        && usable(m.right)
        && usable(m.top)
        && usable(m.bottom)
        && usable(m.header)
        && usable(m.footer)
}

// Whether inches, times 96, is less than a paper side in pixels: each operation rounded as f64.
fn shorter(inches: f64, side: Fixed) -> bool
    ensures { result ≡ Section.shorter inches side.0 }
{
    inches * 96.0 < std::num::nearest_i64_to_f64(side.raw()) / 1024.0
}

#[tactic(auto, unfolding(crate::specs::Paper::margins_hold))]
fn margins_hold(paper: PaperGeometry, m: Margins) -> bool
    ensures { result ≡ Section.margins_hold paper.width.0 paper.height.0 m }
{
    all_usable(m)
        && shorter(m.left + m.right, paper.width)
        && shorter(m.top + m.bottom, paper.height)
        && shorter(m.header, paper.height)
        && shorter(m.footer, paper.height)
}

// Six margins in units.
type MarginLengths = units::Margins<Fixed>;

// The default left and right margins in units: 0.7 inches.
const DEFAULT_SIDE: i64 = 68813;

// The default top and bottom margins in units: 0.75 inches.
const DEFAULT_END: i64 = 73728;

// The default header and footer margins in units: 0.3 inches.
const DEFAULT_LINE: i64 = 29491;

// The footer's own line in units: 16 pixels.
const FOOTER_LINE: i64 = 16384;

// Six margins in units, where none of them overflows.
fn in_units(m: Margins) -> Result<MarginLengths, Refusal>
    ensures { Lengths.margins_outcome result ≡ Lengths.in_units m }
{
    Ok(MarginLengths {
        left: inches_to_fixed(m.left)?,
        right: inches_to_fixed(m.right)?,
        top: inches_to_fixed(m.top)?,
        bottom: inches_to_fixed(m.bottom)?,
        header: inches_to_fixed(m.header)?,
        footer: inches_to_fixed(m.footer)?,
    })
}

// The content between six margins in units.
#[inline(always)]
fn content_from(
    paper: PaperGeometry,
    m: MarginLengths,
    invalid_margins: u64,
) -> Result<ContentGeometry, Refusal>
    ensures { Section.content_outcome result ≡ Section.placed (given m.left.0) (given m.top.0)
        (less_of (less_of (given paper.width.0) (given m.left.0)) (given m.right.0))
        (less_of (less_of (given paper.height.0) (given m.top.0)) (given m.bottom.0))
        (given m.header.0) (less_of (less_of (given paper.height.0) (given m.footer.0)) (given (pos 16384))) invalid_margins }
{
    let content = Rect {
        x: m.left,
        y: m.top,
        width: paper.width.less_both(m.left, m.right)?,
        height: paper.height.less_both(m.top, m.bottom)?,
    };
    Ok(ContentGeometry {
        content,
        header_y: m.header,
        footer_y: paper
            .height
            .less_both(m.footer, Fixed::from_raw(FOOTER_LINE))?,
        invalid_margins,
    })
}

// The content between six margins.
fn content_between(
    paper: PaperGeometry,
    m: Margins,
    invalid_margins: u64,
) -> Result<ContentGeometry, Refusal>
    ensures { Section.content_outcome result ≡ Section.content_between paper.width.0 paper.height.0 m invalid_margins }
{
    content_from(paper, in_units(m)?, invalid_margins)
}

// The content between the default margins.
#[inline(always)]
fn default_content(paper: PaperGeometry, invalid_margins: u64) -> Result<ContentGeometry, Refusal>
    ensures { Section.content_outcome result ≡ Section.content_between paper.width.0 paper.height.0 Section.default_margins invalid_margins }
{
    let side = Fixed::from_raw(DEFAULT_SIDE);
    let end = Fixed::from_raw(DEFAULT_END);
    let line = Fixed::from_raw(DEFAULT_LINE);
    let lengths = MarginLengths {
        left: side,
        right: side,
        top: end,
        bottom: end,
        header: line,
        footer: line,
    };
    content_from(paper, lengths, invalid_margins)
}

// What the margins leave of a paper; margins that do not hold are replaced, all six.
pub fn content_geometry(
    paper: PaperGeometry,
    margins: Option<Margins>,
) -> Result<ContentGeometry, Refusal>
    ensures { Section.content_outcome result ≡ Section.content_geometry paper.width.0 paper.height.0 margins }
{
    let Some(m) = margins else {
        return default_content(paper, 0);
    };
    if margins_hold(paper, m) {
        content_between(paper, m, 0)
    } else {
        default_content(paper, 1)
    }
}
