// The records of a job one by one, those that are looked for by their mark, the limits and the areas: document 01, section "Jobs".
#![tactic(auto)]

ghost use Rattle.std.specs.Prelude.{◌≡◌, ◌≤◌, ◌<◌, map, take, drop};
ghost use Rattle.std.specs.Iterator.{YieldsFirst, item_count};
ghost use Rattle.job_records.specs.Marks.{place};
ghost use Rattle.job_records.specs.Records.{step, records, AR};
ghost use Rattle.job_records.specs.Areas.{held_ranges, pushed};
ghost use Rattle.job_walk.specs.Walk as walk;
ghost use Rattle.job_walk.specs.Areas as section;

mod sorted;

use job_records::{Head, JobAreas, Mark, Range, Record, read_record};
pub use sorted::SortedJob;

// The next record before the EN, or none.
pub fn next_record(s: &[u8]) -> Option<Head>
    ensures { result ≡ walk.before (step s.now) }
{
    read_record(s).filter(|head| head.found.mark() != Mark::End)
}

// The records of a job before the EN.
#[derive(Clone, Copy)]
pub struct Records<'a> {
    pub rest: &'a [u8],
}

impl<'a> Iterator for Records<'a> {
    type Item = Record;

    ghost next_gives = { YieldsFirst walk.left };

    ghost remaining = { item_count walk.left };

    #[inline(always)]
    fn next(&mut self) -> Option<Record> {
        let head = next_record(self.rest)?;
        self.rest = &self.rest[head.bytes..];
        Some(head.found)
    }
}

// The place of a mark in the order of the records, from 1.
fn place_of(mark: Mark) -> u8
    ensures { result ≡ place mark }
{
    mark as u8 + 1
}

// The record whose mark has the place `wanted` that has so many of them before it, if there is one: of any number, be it a mark's place or not. The
// first record with a later mark ends the search.
pub fn find_record_after(bytes: &[u8], wanted: u8, before: usize) -> Option<Record>
    ensures { result ≡ walk.first_of (drop before (walk.in_place wanted (records bytes.now))) }
{
    let mut left = before;
    for found in (Records { rest: bytes }) {
        let place = place_of(found.mark());
        if place > wanted {
            break;
        }
        if place == wanted {
            if left == 0 {
                return Some(found);
            }
            left -= 1;
        }
    }
    None
}

// The first record with a mark, if there is one.
pub fn find_record(bytes: &[u8], wanted: Mark) -> Option<Record>
    ensures { result ≡ walk.first_of (walk.in_place (place wanted) (records bytes.now)) }
{
    find_record_after(bytes, place_of(wanted), 0)
}

// The limit of pages or of cells, by its mark; of any other mark there is none.
pub fn limit_of(bytes: &[u8], wanted: Mark) -> Option<u64>
    ensures { result ≡ section.limit_in (place wanted) (walk.in_place (place wanted) (records bytes.now)) }
{
    match find_record(bytes, wanted)? {
        Record::Limit(most) | Record::Cells(most) => Some(most),
        _ => None,
    }
}

// One area more, at the place after those that count.
#[inline(always)]
fn add(areas: &mut JobAreas, cells: Range)
    requires { areas.old.count < 8 }
    ensures { areas.new ≡ pushed areas.old cells }
{
    areas.ranges[areas.count] = cells;
    areas.count += 1;
}

// The first areas, in job order, so many at most.
fn first_areas(bytes: &[u8], most: usize) -> JobAreas
    requires { most ≤ 8 }
    ensures { result ≡ held_ranges (take most (map section.range_from (walk.in_place AR (records bytes.now)))) }
{
    let mut areas = JobAreas::new();
    for found in (Records { rest: bytes }) {
        if found.mark() > Mark::Area || areas.count == most {
            break;
        }
        if let Record::Area(cells) = found {
            add(&mut areas, cells);
        }
    }
    areas
}

// The areas, in job order: at most eight, for no job has more.
pub fn areas_of(bytes: &[u8]) -> JobAreas
    ensures { result ≡ held_ranges (take 8 (map section.range_from (walk.in_place AR (records bytes.now)))) }
{
    first_areas(bytes, 8)
}

// The first of the areas, with a count that is told: no more are held than it says, and no more than eight.
pub fn counted_areas_of(bytes: &[u8], count: usize) -> JobAreas
    ensures { result ≡ section.areas_held count (take count (walk.in_place AR (records bytes.now))) }
{
    JobAreas {
        count,
        ..first_areas(bytes, count.min(8))
    }
}
