// The marks before the records, in the order of the records: document 01, section "Jobs".
ghost use Rattle.std.specs.Prelude.{◌≡◌, ◌∷◌};
ghost use Rattle.job_records.specs.Marks.{mark_of, bytes_of};

// What a record is, by the mark before it.
#[derive(Clone, Copy, Debug, PartialEq, Eq, PartialOrd, Ord)]
pub enum Mark {
    Paper,
    Landscape,
    Margins,
    Percent,
    FitWidth,
    FitHeight,
    Fit,
    Order,
    Headings,
    PageLimit,
    CellLimit,
    Area,
    RowTitle,
    ColumnTitle,
    Row,
    Column,
    Merge,
    RowBreak,
    ColumnBreak,
    End,
}

impl Mark {
    // The mark whose bytes spell a number. The format gives these bytes, which do not rise with the marks: no tag of `Mark` is one.
    #[tactic(auto, unfolding(crate::specs::Marks::mark_of))]
    #[inline(always)]
    pub fn spelled(number: u16) -> Option<Mark>
        ensures { result ≡ mark_of number }
    {
        let mark = match number.to_le_bytes() {
            [b'P', b'C'] => Mark::Paper,
            [b'L', b'A'] => Mark::Landscape,
            [b'M', b'G'] => Mark::Margins,
            [b'S', b'C'] => Mark::Percent,
            [b'F', b'W'] => Mark::FitWidth,
            [b'F', b'H'] => Mark::FitHeight,
            [b'F', b'T'] => Mark::Fit,
            [b'O', b'D'] => Mark::Order,
            [b'H', b'D'] => Mark::Headings,
            [b'L', b'P'] => Mark::PageLimit,
            [b'U', b'C'] => Mark::CellLimit,
            [b'A', b'R'] => Mark::Area,
            [b'T', b'R'] => Mark::RowTitle,
            [b'T', b'C'] => Mark::ColumnTitle,
            [b'R', b'W'] => Mark::Row,
            [b'C', b'L'] => Mark::Column,
            [b'M', b'R'] => Mark::Merge,
            [b'B', b'R'] => Mark::RowBreak,
            [b'B', b'C'] => Mark::ColumnBreak,
            [b'E', b'N'] => Mark::End,
            _ => return None,
        };
        Some(mark)
    }

    // How many bytes a record with this mark has, the mark counted.
    #[inline(always)]
    pub fn bytes(self) -> usize
        ensures { result ≡ bytes_of self }
    {
        match self {
            Mark::Landscape | Mark::Headings | Mark::End => 2,
            Mark::Fit | Mark::Order => 3,
            Mark::Paper | Mark::Percent | Mark::FitWidth | Mark::FitHeight | Mark::ColumnBreak => 4,
            Mark::ColumnTitle | Mark::RowBreak => 6,
            Mark::PageLimit | Mark::CellLimit | Mark::RowTitle => 10,
            Mark::Column => 12,
            Mark::Area | Mark::Row | Mark::Merge => 14,
            Mark::Margins => 50,
        }
    }
}
