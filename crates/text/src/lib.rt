// Pages: texts put one after the other into a lent buffer, each byte where the buffer has a place for it.
#![tactic(auto)]

ghost use Rattle.std.specs.Prelude.{◌≡◌, [], ◌∷◌, ◌+◌, ◌≤◌, length};
ghost use Rattle.text.specs.Decimal.{decimal};
ghost use Rattle.text.specs.Page.{line_of};
ghost use Rattle.text.specs.Text.{AddedTo, field};

// The base of a decimal, and the code of its first digit.
const BASE: u64 = 10;

const ZERO: u64 = 48;

// A lent buffer, and how many bytes have been put into it from its start on; those past its end are counted too.
#[derive(Drop)]
pub struct Page<'a> {
    pub out: &'a mut [u8],
    pub len: usize,
}

impl<'a> Page<'a> {
    // The page on a whole buffer, with nothing put.
    pub fn on(out: &'a mut [u8]) -> Page<'a>
        ensures empty { (result.len ≡ 0) × (result.out.now ≡ out.old) }
        ensures name { result.out.ghost_name ≡ out.entry.ghost_name }
    {
        Page { out, len: 0 }
    }

    #[tactic(auto, unfolding(crate::specs::Text::put_on))]
    pub fn put_byte(&mut self, b: u8)
        requires { self.old.len + 1 ≤ 18446744073709551615 }
        ensures added { AddedTo self.old self.new (b ∷ []) }
        ensures value { self.new.len ≡ self.old.len + 1 }
    {
        buffer::put_byte(self.out, self.len, b);
        self.len += 1;
    }

    // A word.
    #[tactic(auto, unfolding(crate::specs::Text::put_on))]
    pub fn put_word(&mut self, word: &[u8])
        requires { self.old.len + length word.now ≤ 18446744073709551615 }
        ensures added { AddedTo self.old self.new word.now }
        ensures value { self.new.len ≡ self.old.len + length word.now }
    {
        buffer::put_span(self.out, self.len, word, 0, word.len());
        self.len += word.len();
    }

    // A number in decimal: at most 20 digits.
    #[tactic(auto, using(crate::proofs::Texts::put_both, crate::proofs::Decimals::decimal_small, crate::proofs::Decimals::decimal_more))]
    pub fn put_decimal(&mut self, n: u64)
        requires { self.old.len + 21 ≤ 18446744073709551615 }
        ensures added { AddedTo self.old self.new (decimal n) }
        ensures upper_bound { self.new.len ≤ self.old.len + 20 }
    {
        if n < BASE {
            self.put_byte((ZERO + n) as u8);
            return;
        }
        self.put_decimal(n / BASE);
        self.put_byte((ZERO + n % BASE) as u8);
    }

    // A blank and a number.
    #[tactic(auto, using(crate::proofs::Texts::put_both), unfolding(crate::specs::Text::field))]
    pub fn put_field(&mut self, n: u64)
        requires { self.old.len + 22 ≤ 18446744073709551615 }
        ensures added { AddedTo self.old self.new (field n) }
        ensures upper_bound { self.new.len ≤ self.old.len + 21 }
    {
        self.put_byte(b' ');
        self.put_decimal(n);
    }

    // Line n of some lines, without its end; nothing where there is no such line.
    #[tactic(auto, using(crate::proofs::Pages::line_turns, crate::proofs::Texts::put_both, crate::proofs::Texts::put_none))]
    pub fn put_line(&mut self, lines: &[u8], n: u64)
        requires { self.old.len + length lines.now ≤ 18446744073709551615 }
        ensures added { AddedTo self.old self.new (line_of n lines.now) }
        ensures upper_bound { self.new.len ≤ self.old.len + length lines.now }
    {
        let mut left = n;
        for &b in lines {
            if b == b'\n' {
                if left == 0 {
                    return;
                }
                left -= 1;
            } else if left == 0 {
                self.put_byte(b);
            }
        }
    }
}
