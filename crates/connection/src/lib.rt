// The call table of a connection, by value: when it is good, its step on a judged frame and on a release, and what that raises in a tally row.
#![tactic(auto)]

pub mod call_record;
pub mod forms;
pub mod good;
pub mod judge;
pub mod numbers;
pub mod slots;
pub mod step;
pub mod tallies;

use calls::Call;
use constants::limit;

#[derive(Clone, Copy)]
pub struct CallTable {
    pub slots: [Call; limit::CALLS],
}

// The answer and the next table.
#[derive(Clone, Copy)]
pub struct Stepped<E> {
    pub answer: Result<(), E>,
    pub table: CallTable,
}
