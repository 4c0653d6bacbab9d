// What frames and payloads are made of: VarUInts, little-endian numbers and presence bitmaps.
#![tactic(auto)]

pub mod bitmap;
pub mod little;
pub mod varuint;
