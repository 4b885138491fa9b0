// Plans the jobs of a list on standard input, and prints for each what program `plan` prints, and an empty line. The file `stdout` has the
// Rust's answers to the list in `stdin`.
#![tactic(auto)]

mod block;
mod planned;
mod replay;

fn main() {
    replay::answer_all();
}
