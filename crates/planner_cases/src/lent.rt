// Lists of runs that are lent to a call, with numbers of their own.
use arrayvec::ArrayVec;
use planner_rules::RUN_NUMBERS;

// The most runs of a list.
const RUNS: usize = 48;

// The most numbers of a list: so many runs, and three numbers that make up none.
const NUMBERS: usize = RUN_NUMBERS * RUNS + 3;

// A list of runs.
pub(crate) type Runs = ArrayVec<u64, NUMBERS>;

// The numbers that the lists start with.
pub(crate) const ROWS: u64 = 2_000_000;

pub(crate) const COLUMNS: u64 = 2_500_000;

// So many numbers from a first on, each one more.
pub(crate) fn numbers_from(first: u64, count: u8) -> Runs {
    let numbers = (0..usize::from(count).min(NUMBERS)).map(|i| first.wrapping_add(i as u64));
    let mut runs = Runs::new();
    let _fits = runs.extend(numbers);
    runs
}

// The same, but that the first run has the mark 0, and after so many others another has it again.
pub(crate) fn marked_from(first: u64, count: u8, others: u8) -> Runs {
    let step = RUN_NUMBERS * (usize::from(others).min(RUNS) + 1);
    let mut runs = numbers_from(first, count);
    for mark in runs.iter_mut().skip(RUN_NUMBERS - 1).step_by(step) {
        *mark = 0;
    }
    runs
}
