// The code of the schema table: its check, access to its rows, and extension. What they mean is defined in the crate `schema`.
#![tactic(auto)]

pub mod access;
pub mod checking;
pub mod extension;
pub mod file;
pub mod good;
pub mod kind;
pub mod marks;
pub mod product;
pub mod rows;
pub mod search;
