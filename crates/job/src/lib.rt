// Jobs as bytes, planned: document 01, sections "Jobs" and "Questions in order". Reading and planning are seen by their promises only.
#![tactic(auto)]

mod bytes;
mod wanted;

pub use bytes::{count_job, plan_job, write_job_area};
