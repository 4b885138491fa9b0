// What ends the program before all was printed.
use thiserror::Error;

#[derive(Clone, Copy, Debug, Error)]
pub(crate) enum Failure {
    #[error("standard input could not be read")]
    Input,
    #[error("standard output could not be written: the plan is cut short")]
    Output,
    // None of a plan that was counted is: each area of it is taken, and each block.
    #[error("the plan that was counted is refused")]
    Refused,
}
