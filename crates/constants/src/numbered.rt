// What has a number of the format: a refusal, or a number itself.
ghost use Rattle.std.specs.Prelude.{◌≡◌, ℕ};
ghost use Rattle.constants.specs.Number.{number_of};

use crate::refusal::{Refusal, Refused};

pub trait Numbered {
    ghost number: { Self → ℕ };

    fn number(&self) -> u32
        ensures { result ≡ number self.now };
}

impl Numbered for u32 {
    ghost number = { λ n. n };

    fn number(&self) -> u32 {
        *self
    }
}

impl Numbered for Refusal {
    ghost number = { number_of };

    fn number(&self) -> u32 {
        u32::from(*self)
    }
}

impl Numbered for Refused {
    ghost number = { λ refused. number_of refused.refusal };

    fn number(&self) -> u32 {
        u32::from(self.refusal)
    }
}
