// A job's settings and lists, read from its bytes: document 01, section "Jobs".
#![tactic(auto)]

mod lists;
mod settings;

pub use lists::{Job, JobLists, LentAxis, LentMerges, LentSlots, read_job};
