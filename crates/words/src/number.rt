// A number in decimal, read.
ghost use Rattle.std.specs.Prelude.{◌≡◌};
ghost use Rattle.words.specs.Number.{is_digit as digitTest, parsed_of};

// The base of a decimal.
const BASE: u64 = 10;

fn is_digit(b: u8) -> bool
    ensures { result ≡ digitTest b }
{
    (b'0' <= b) & (b <= b'9')
}

// The number that a word stands for, of at most 64 bits; none where it is empty or another byte than a digit is in it.
#[tactic(auto, using(crate::proofs::Numbers::number_turns))]
pub fn number_of(word: &[u8]) -> Option<u64>
    ensures { result ≡ parsed_of word.now }
{
    if word.is_empty() {
        return None;
    }
    let mut n: u64 = 0;
    for &b in word {
        if !is_digit(b) {
            return None;
        }
        n = n.checked_mul(BASE)?.checked_add((b - b'0') as u64)?;
    }
    Some(n)
}
