use elements::Refusal;
use std::io;

// What a case is answered by in place of its answer; or printing failed.
#[derive(Drop)]
pub enum Stop {
    // the line is no case
    BadLine,
    Refused(Refusal),
    // a book that is longer than the slice that it was read into
    LongBook,
    Print(io::Error),
}

impl From<Refusal> for Stop {
    fn from(refused: Refusal) -> Stop {
        Stop::Refused(refused)
    }
}

impl From<io::Error> for Stop {
    fn from(error: io::Error) -> Stop {
        Stop::Print(error)
    }
}
