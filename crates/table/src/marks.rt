// Flags of entries that were passed: another entry is compared with them only where its flag is taken, for else it is none of them.
ghost use Rattle.std.specs.Prelude.{◌≡◌, ◌<◌, false, true, get_or, set, replicate, MatchOption};

// So many times may a flag be taken before the search is given up, unless its flags are of numbers mixed.
const MOST_SEARCHES: usize = 16;

// Which of N flags are taken, and how often one was that was taken before. An array, since the library takes no memory.
#[derive(Drop)]
pub struct Marks<const N: usize> {
    pub taken: [bool; N],
    pub mixing: bool,
    searches: usize,
}

impl<const N: usize> Marks<N> {
    pub fn new(mixing: bool) -> Marks<N>
        ensures taken { result.taken ≡ replicate N false }
        ensures mixing { result.mixing ≡ mixing }
    {
        Marks {
            taken: [false; N],
            mixing,
            searches: 0,
        }
    }

    // Takes a flag, and tells whether it was taken before. There is no answer where that was so too often.
    pub fn take(&mut self, flag: usize) -> Option<bool>
        requires { flag < N }
        ensures answer { MatchOption result (self.old.mixing ≡ false) (λ was. (was ≡ get_or self.old.taken flag false) × (self.new.taken ≡ set self.old.taken flag true)) }
        ensures mixing { self.new.mixing ≡ self.old.mixing }
    {
        let was = self.taken[flag];
        if was {
            if self.searches < MOST_SEARCHES {
                self.searches += 1;
            } else if !self.mixing {
                return None;
            }
        }
        self.taken[flag] = true;
        Some(was)
    }
}
