// The entries for programs in other languages, as a static library: each hands its numbers and slices on to the function of its name in `exports`.
#![tactic(auto)]

pub mod frames;
pub mod indexes;
pub mod payloads;
pub mod receive;
pub mod release;
pub mod salvages;
pub mod scalars;
pub mod schemas;
