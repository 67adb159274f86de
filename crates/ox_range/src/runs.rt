//! A run of satoshis: its first number and how many there are.

ghost use Rattle.std.specs.Prelude.{◌≡◌, ℕ, ◌+◌, ◌^◌, ◌<◌, ◌==◌, List, length, slice_index};
ghost use Rattle.std.specs.Prelude.{position};
ghost use Rattle.ox_range.specs.Runs.{numbers_of, AreMaximal, runs_of};

/// Consecutive numbers: `first`, `first + 1` and so on, `count` of them.
#[derive(Clone, Copy, Default, PartialEq, Eq)]
pub struct Run {
    /// The first number.
    pub first: u64,
    /// How many there are.
    pub count: u64,
}

/// The number at this place among the numbers of the runs.
pub(crate) fn number_at(runs: &[Run], place: u64) -> u64
    requires maximal { AreMaximal runs.now }
    requires within { place < length (numbers_of runs.now) }
    ensures { result ≡ slice_index (numbers_of runs.now) place }
{
    let mut left = place;
    for run in runs {
        if left < run.count {
            return run.first + left;
        }
        left -= run.count;
    }
    unreachable!()
}

/// The first place of this number among the numbers of the runs.
pub(crate) fn place_among(runs: &[Run], number: u64) -> Option<u64>
    requires maximal { AreMaximal runs.now }
    requires fits { length (numbers_of runs.now) < 2 ^ 64 }
    ensures { result ≡ position (λ x. x == number) (numbers_of runs.now) }
{
    let mut before = 0;
    for run in runs {
        if run.first <= number && number - run.first < run.count {
            return Some(before + (number - run.first));
        }
        before += run.count;
    }
    None
}

/// One list of numbers has one list of maximal runs.
pub fn runs_are_determined()
    ensures { (a b : List Run) → AreMaximal a → AreMaximal b → numbers_of a ≡ numbers_of b → a ≡ b }
{}

/// The runs of any list have its numbers, in order.
pub fn runs_have_their_numbers()
    ensures { (numbers : List ℕ) → numbers_of (runs_of numbers) ≡ numbers }
{}
