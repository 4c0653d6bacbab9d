// Why a case has no line, or no whole one.
use std::io;

#[derive(Clone, Copy, Debug)]
pub enum Stop {
    // The case is cut, unknown or beyond the limits.
    Cut,
    // Reading or printing has failed.
    Failed(io::Error),
}

impl From<io::Error> for Stop {
    fn from(error: io::Error) -> Stop {
        Stop::Failed(error)
    }
}
