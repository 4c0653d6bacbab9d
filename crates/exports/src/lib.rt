// The entries for programs in other languages: functions of numbers and slices, which the static library of `exports_c` hands out under the same names.
// Each gives the answer's number and stores the answer's other numbers into cells that the caller lends, as many as there is room for.
#![tactic(auto)]

pub mod frames;
pub mod indexes;
mod numbers;
pub mod payloads;
mod planning;
pub mod receive;
pub mod release;
pub mod salvages;
pub mod scalars;
pub mod schemas;
mod settling;

// What an answer tells of the call table: the number, the bytes used and the calls open afterwards.
#[derive(Clone, Copy)]
pub struct Kept {
    pub number: u32,
    pub used: usize,
    pub open: usize,
}
