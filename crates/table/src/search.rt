// Searches among the numbers below n, by a test.
ghost use Rattle.std.specs.Prelude.{ℕ, ◌<◌};
ghost use Rattle.table.specs.Search.{Lowest, Every};

// The lowest number that passes.
#[tactic(auto, unfolding(crate::specs::Search::Lowest))]
pub fn lowest<F: Fn(usize) -> bool>(n: usize, test: F) -> Option<usize>
    requires { (i : ℕ) → i < n → F.pre test i }
    ensures { Lowest (F.post test) n result }
{
    for i in 0..n {
        if test(i) {
            return Some(i);
        }
    }
    None
}

// Whether all pass.
#[tactic(auto, unfolding(crate::specs::Search::Every))]
pub fn every<F: Fn(usize) -> bool>(n: usize, test: F) -> bool
    requires { (i : ℕ) → i < n → F.pre test i }
    ensures { Every (F.post test) n result }
{
    for i in 0..n {
        if !test(i) {
            return false;
        }
    }
    true
}
