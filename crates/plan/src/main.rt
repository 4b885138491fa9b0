// Plans the job on standard input and prints the plan, or `no` and the number of a refusal: document 01, section "Jobs", and document 02, T-02.
// It counts all pages first, then plans area by area in the same lists. What could not be read or written is said on standard error, and
// the status is then 2; else it is 0.
#![tactic(auto)]

mod failure;
mod printed;

use arrayvec::ArrayVec;
use failure::Failure;
use job_questions::MOST_BYTES;
use std::io::{self, Read};
use std::process::ExitCode;

// One byte more than a job may have: whoever sends so many has sent too many, and no more are read.
const MOST: usize = MOST_BYTES + 1;

// The status where something could not be read or written.
const FAILED: u8 = 2;

// Prints what the job on standard input comes to.
fn run(rt: &HostRuntime) -> Result<(), Failure> {
    let mut job = ArrayVec::<u8, MOST>::new();
    io::copy(&mut rt.reader().take(MOST as u64), &mut job).map_err(|_| Failure::Input)?;
    printed::print_plan(&job, &mut io::writer(rt))
}

fn main(rt: HostRuntime) -> ExitCode {
    match run(&rt) {
        Ok(()) => ExitCode::SUCCESS,
        Err(failure) => {
            // Where standard error takes nothing either, the status is all that is left to say it.
            let _ = eprintln!(rt; "plan: {failure}");
            ExitCode::from(FAILED)
        }
    }
}
