// Lent slices: bytes put and copied into them, and spans of them. The laws that every store's proof cites stand in proofs/.
#![tactic(auto)]

ghost use Rattle.std.specs.Prelude.{◌≡◌, [], ◌∷◌, ◌+◌, ◌≤◌, ◌<◌, length};
ghost use Rattle.buffer.specs.Span.{span};
ghost use Rattle.buffer.specs.Store.{put, written};

// One byte, where the slice has a place for it.
pub fn put_byte(out: &mut [u8], pos: usize, b: u8)
    ensures { out.new ≡ put out.old pos (b ∷ []) }
{
    if pos < out.len() {
        out[pos] = b;
    }
}

// The n bytes of the source at a place, each where the slice has a place for it. They go byte by byte: `copy_from_slice` of two lent slices calls `memmove`, which a
// program beside the static library would have to bring.
pub fn put_span(out: &mut [u8], pos: usize, source: &[u8], from: usize, n: usize)
    requires { from + n ≤ length source.now }
    ensures { out.new ≡ put out.old pos (span source.now from n) }
{
    if pos < out.len() {
        let m = n.min(out.len() - pos);
        for i in 0..m {
            out[pos + i] = source[from + i];
        }
    }
}

// The bytes of src into d from at on.
pub fn copy(d: &mut [u8], at: usize, src: &[u8])
    requires { at + length src.now ≤ length d.old }
    ensures { d.new ≡ written d.old at src.now }
{
    put_span(d, at, src, 0, src.len());
}
