// Values: what a payload's bytes and a sheet's rows mean. The definitions stand in specs/, their laws in proofs/.
#![tactic(auto)]

use constants::limit;

// A row of a sheet (docs/FORMAT.md): the type, place, length and count of one value.
#[derive(Clone, Copy)]
pub struct Row {
    pub ty: u32,
    pub place: u32,
    pub length: u32,
    pub count: u32,
}

// The most pairs of a map, as `pairs_allowed` has it.
pub const MOST_PAIRS: usize = limit::PAIRS;
