// One row of a sheet (docs/FORMAT.md) over its bytes, handed out as a value where its type is a scalar, a string or bytes.
#![tactic(auto)]

pub mod entry;
pub mod float;
pub mod number;

#[derive(Clone, Copy)]
pub enum Scalar {
    Truth(bool),
    Signed(i64),
    Unsigned(u64),
    // A float with its bits beside it, which decide equality.
    Float32(f32, u32),
    Float64(f64, u64),
    // Where the content of a string or of bytes stands.
    Span { place: usize, length: usize },
}
