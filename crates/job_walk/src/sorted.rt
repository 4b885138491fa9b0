// A job, or the end of one, that was asked whether its records are in order.
ghost use Rattle.job_records.specs.Marks.{place};
ghost use Rattle.job_records.specs.Records.{records};
ghost use Rattle.job_walk.specs.Walk.{Sorted, sorted_prop};

use job_records::Mark;

// Its marks never fall, and none stands before the first.
#[derive(Clone, Copy)]
pub struct SortedJob<'a> {
    pub bytes: &'a [u8],
    pub first: Mark,
    ghost sorted: { Sorted (place first) (records bytes.now) } by { sorted_prop (place first) (records bytes.now) },
}
