// Answers a list of inputs on standard input, by a line each. The file `stdout` has the Rust's answers to the list in `stdin`, in which
// document 01's worked cases of titles, runs and percents stand among the limits of each call.
#![tactic(auto)]

mod axes;
mod fields;
mod lent;
mod lists;
mod numbered;
mod plans;
mod replay;
mod text;

fn main() {
    replay::answer_all();
}
