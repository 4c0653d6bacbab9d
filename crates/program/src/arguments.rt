// The words of the command line by their places: the program's name, a verb, and the arguments that this takes.
use std::env::FillError;
use std::rt::Env;

pub const VERB: usize = 1;

pub const FIRST: usize = 2;

pub const SECOND: usize = 3;

pub const THIRD: usize = 4;

// How many words there are where a verb has one argument, two or three.
pub const WITH_ONE: usize = FIRST + 1;

pub const WITH_TWO: usize = SECOND + 1;

pub const WITH_THREE: usize = THIRD + 1;

// How many words there are; more than any verb takes count as one more than that.
pub fn count(env: &impl Env) -> usize {
    let mut words = 0;
    for i in 0..WITH_THREE + 1 {
        match env.arg(i, &mut []) {
            Err(FillError::NotPresent) => break,
            _ => words = i + 1,
        }
    }
    words
}
