// The records of a job, read one by one from its bytes: document 01, section "Jobs".
#![tactic(auto)]

mod little_endian;
mod marks;
mod records;

pub use little_endian::{float, signed};
pub use marks::Mark;
pub use records::{Head, JobAreas, MarginBits, Merge, Range, Record, Slot, read_record};
