// The settings of a job, each with whether its record is there: document 01, section "Jobs".
ghost use Rattle.std.specs.Prelude.{◌≤◌, ◌≡◌, true, length};
ghost use Rattle.job_records.specs.Records.{records, marked, MG, AR};
ghost use Rattle.job_records.specs.Marks.{place};
ghost use Rattle.job_reader.specs.Settings as section;
ghost use Rattle.job_reader.specs.Walk.{is_number, is_flag, is_title};

use job_records::{MarginBits, Mark, Record};
use job_settings::JobSettings;
use job_walk::{SortedJob, areas_of, find_record, limit_of};
use planner_rules::Title;

fn number_of(job: SortedJob<'_>, wanted: Mark) -> Option<u16>
    requires { is_number (place wanted) ≡ true }
    ensures { result ≡ section.number_from (marked (place wanted) (records job.entry.bytes.now)) }
{
    match find_record(job.bytes, wanted)? {
        Record::Paper(x) | Record::Scale(x) | Record::Wide(x) | Record::High(x) => Some(x),
        _ => unreachable!(),
    }
}

fn flag_of(job: SortedJob<'_>, wanted: Mark) -> Option<u8>
    requires { is_flag (place wanted) ≡ true }
    ensures { result ≡ section.flag_from (marked (place wanted) (records job.entry.bytes.now)) }
{
    match find_record(job.bytes, wanted)? {
        Record::Fit(x) | Record::Order(x) => Some(x),
        _ => unreachable!(),
    }
}

fn is_there(job: SortedJob<'_>, wanted: Mark) -> bool
    ensures { result ≡ section.is_there (marked (place wanted) (records job.entry.bytes.now)) }
{
    find_record(job.bytes, wanted).is_some()
}

// No other record has margins: a reader for any kind would take the kind as a closure, and say in it what this says.
fn margins_of(job: SortedJob<'_>) -> Option<MarginBits>
    ensures { result ≡ section.margins_from (marked MG (records job.entry.bytes.now)) }
{
    match find_record(job.bytes, Mark::Margins)? {
        Record::Margin(margins) => Some(margins),
        _ => unreachable!(),
    }
}

fn title_of(job: SortedJob<'_>, wanted: Mark) -> Title
    requires { is_title (place wanted) ≡ true }
    ensures { result ≡ section.title_from (marked (place wanted) (records job.entry.bytes.now)) }
{
    let Some(found) = find_record(job.bytes, wanted) else {
        return Title::Absent;
    };
    match found {
        Record::TitleRows(first, last) => Title::Pair(first, last),
        Record::TitleColumns(first, last) => Title::Pair(u32::from(first), u32::from(last)),
        _ => unreachable!(),
    }
}

pub(crate) fn settings_of(job: SortedJob<'_>) -> JobSettings
    requires { length (marked AR (records job.bytes.now)) ≤ 8 }
    ensures { result ≡ section.settings_of (records job.entry.bytes.now) }
{
    JobSettings {
        paper: number_of(job, Mark::Paper),
        landscape: is_there(job, Mark::Landscape),
        margins: margins_of(job),
        percent: number_of(job, Mark::Percent),
        fit_width: number_of(job, Mark::FitWidth),
        fit_height: number_of(job, Mark::FitHeight),
        fit: flag_of(job, Mark::Fit),
        order: flag_of(job, Mark::Order),
        headings: is_there(job, Mark::Headings),
        page_limit: limit_of(job.bytes, Mark::PageLimit),
        cell_limit: limit_of(job.bytes, Mark::CellLimit),
        areas: areas_of(job.bytes),
        row_title: title_of(job, Mark::RowTitle),
        column_title: title_of(job, Mark::ColumnTitle),
    }
}
