// Names for the numbers of the format; definitions keep the numerals.
// Where the two meet, in `papers` and specs/Table.antt, each number stands beside the words of docs/FORMAT.md.
#![tactic(auto)]

pub mod format;
pub mod frame_kind;
pub mod kind;
pub mod limit;
pub mod numbered;
pub mod papers;
pub mod refusal;
pub mod side;
