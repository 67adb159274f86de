//! How much of a piece is taken at a time.

ghost use Rattle.std.specs.Prelude.{◌≡◌, ◌≤◌};
ghost use Rattle.ox_short_site.specs.Portion.{bytes_of};

/// How much of a piece is taken at a time.
#[derive(Clone, Copy, PartialEq, Eq)]
pub enum Portion {
    /// One byte of it.
    OneByte,
    /// Half of it, rounded up.
    Half,
}

impl Portion {
    /// How many bytes of a piece of so many are taken: none of none, and else at least one.
    pub fn of(self, size: usize) -> usize
        ensures exact { result ≡ bytes_of self size }
        ensures most { result ≤ size }
        ensures some { 1 ≤ size → 1 ≤ result }
    {
        match self {
            Portion::OneByte => size.min(1),
            Portion::Half => size - size / 2,
        }
    }
}
