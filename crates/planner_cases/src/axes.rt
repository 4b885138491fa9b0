// Axes: a title that merges widen, and the runs of an axis. The head of an axis is
//
//     2   axis, 0 rows or 1 columns; title, 0 absent or 1 given
//     2   six lengths: indexes, sizes, merges' firsts, merges' lasts, breaks, and the numbers of the lent list of runs
//     8   the range's first and last, the title's first and last
//     16  capacity untitled, capacity titled
//
// digits for each field. After it come the indexes (8 digits each), the sizes (16), the merges' firsts, the merges' lasts and the breaks (8).
use crate::fields::{Fault, Fields, List, read_list, read_part};
use crate::lent::{ROWS, Runs, numbers_from};
use crate::lists::Lists;
use crate::replay::Case;
use crate::text::{Answer, Numbers, RunCount, WidenedTitle};
use planner::partition_axis_with_breaks;
use planner_rules::{Axis, AxisSetup, MergeList, Title};
use planner_titles::widen_title;
use std::io::{self, Write};

// The bytes of a head.
const HEAD: usize = 94;

#[derive(Clone, Copy)]
struct Lengths {
    indexes: u8,
    sizes: u8,
    merge_firsts: u8,
    merge_lasts: u8,
    breaks: u8,
    runs: u8,
}

impl Lengths {
    fn read(fields: &mut Fields) -> Result<Self, Fault> {
        Ok(Self {
            indexes: fields.next()?,
            sizes: fields.next()?,
            merge_firsts: fields.next()?,
            merge_lasts: fields.next()?,
            breaks: fields.next()?,
            runs: fields.next()?,
        })
    }
}

#[derive(Clone, Copy)]
struct Head {
    axis: Axis,
    lengths: Lengths,
    setup: AxisSetup,
}

impl Head {
    fn read() -> Result<Self, Fault> {
        let head = read_part(HEAD);
        let mut fields = Fields::new(&head);
        let axis = if fields.next()? {
            Axis::Columns
        } else {
            Axis::Rows
        };
        let titled = fields.next()?;
        let lengths = Lengths::read(&mut fields)?;
        let (first, last) = (fields.next()?, fields.next()?);
        let title = read_title(&mut fields, titled)?;
        let (untitled, titled) = (fields.next()?, fields.next()?);
        let setup = AxisSetup {
            first,
            last,
            title,
            untitled,
            titled,
        };
        Ok(Self {
            axis,
            lengths,
            setup,
        })
    }
}

// The title of two indexes, if one is given.
pub(crate) fn read_title(fields: &mut Fields, given: bool) -> Result<Title, Fault> {
    let (first, last) = (fields.next()?, fields.next()?);
    Ok(if given {
        Title::Pair(first, last)
    } else {
        Title::Absent
    })
}

#[derive(Drop)]
pub(crate) struct TitleCase {
    axis: Axis,
    title: Title,
    merge_firsts: List<u32>,
    merge_lasts: List<u32>,
}

impl Case for TitleCase {
    fn read() -> Result<Self, Fault> {
        let head = Head::read()?;
        Ok(Self {
            axis: head.axis,
            title: head.setup.title,
            merge_firsts: read_list(head.lengths.merge_firsts)?,
            merge_lasts: read_list(head.lengths.merge_lasts)?,
        })
    }

    fn answer<W: Write>(&mut self, out: &mut W) -> io::Result<()> {
        let merges = MergeList {
            firsts: &self.merge_firsts,
            lasts: &self.merge_lasts,
        };
        let widened = widen_title(self.axis, self.title, merges);
        let answer = widened.map(WidenedTitle);
        writeln!(out, "{}", Answer(answer))
    }
}

#[derive(Drop)]
pub(crate) struct RunsCase {
    axis: Axis,
    setup: AxisSetup,
    lists: Lists,
    runs: Runs,
}

impl Case for RunsCase {
    fn read() -> Result<Self, Fault> {
        let head = Head::read()?;
        let lengths = head.lengths;
        Ok(Self {
            axis: head.axis,
            setup: head.setup,
            lists: Lists {
                indexes: read_list(lengths.indexes)?,
                sizes: read_list(lengths.sizes)?,
                merge_firsts: read_list(lengths.merge_firsts)?,
                merge_lasts: read_list(lengths.merge_lasts)?,
                breaks: read_list(lengths.breaks)?,
            },
            runs: numbers_from(ROWS, lengths.runs),
        })
    }

    // Cuts, which writes the runs to the lent list, and answers that whole.
    fn answer<W: Write>(&mut self, out: &mut W) -> io::Result<()> {
        let lists = self.lists.lend();
        let tally = partition_axis_with_breaks(self.axis, self.setup, lists, &mut self.runs);
        let runs = Numbers(&self.runs);
        let answer = tally.map(RunCount);
        writeln!(out, "{}{runs}", Answer(answer))
    }
}
