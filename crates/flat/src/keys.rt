// The keys of a map in the walk that judges; the other walk keeps none.
ghost use Rattle.std.specs.Prelude.{◌≡◌, true, false, ◌∷◌, ◌+◌, ◌/◌, ◌≤◌, ◌<◌, length};
ghost use Rattle.buffer.specs.Span.{span};
ghost use Rattle.value.specs.Read.{among};
ghost use Rattle.walks.specs.Keys.{keys_in, Kept};

// Whether the n bytes at a place are the content of one of the first i keys; they are kept as the next. A walk that does not judge knows that they are not,
// and keeps none.
pub fn is_repeated(
    s: &[u8],
    keys: &mut [usize],
    i: usize,
    place: usize,
    n: usize,
    judging: bool,
) -> bool
    requires { (place < 4294967296) × (n < 4294967296) × (place + n ≤ length s.now) × (judging ≡ true → (i + 4 < length keys.old / 2) × Kept s.now keys.old true i) }
    ensures value { judging ≡ false → result ≡ false }
    ensures value_2 { judging ≡ true → result ≡ among (span s.now place n) (keys_in s.now keys.old i) }
    ensures i_after { judging ≡ true → keys_in s.now keys.new (i + 1) ≡ span s.now place n ∷ keys_in s.now keys.old i }
    ensures kept { judging ≡ true → Kept s.now keys.new true (i + 1) }
{
    if !judging {
        return false;
    }
    walks::key::is_repeated(s, keys, i, place, n, true)
}
