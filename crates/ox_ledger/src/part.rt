//! What of a change is about runes.

ghost use Rattle.std.specs.Prelude.{◌≡◌};
ghost use Rattle.ox_ledger.specs.Part.{counts_at, counts_of, with_counts};

use crate::holders::Placement;
use ox_bytes::List;
use ox_etching::RuneRow;

/// What is counted of a rune.
#[derive(Clone, Copy, PartialEq, Eq)]
pub struct Counts {
    /// How many mints there were.
    pub mints: u128,
    /// How much of it was burned.
    pub burned: u128,
}

/// What is counted of the rune at a place, before and after.
#[derive(Clone, Copy, PartialEq, Eq)]
pub struct CountChange {
    /// The rune's number.
    pub place: u32,
    /// What was counted.
    pub before: Counts,
    /// What is.
    pub after: Counts,
}

/// What of a change between two states of the ledger is about runes.
pub struct RunePart {
    /// The balances that are gone, by rising outpoint. One that changed is in both lists.
    pub before: List<Placement>,
    /// The balances that came, by rising outpoint.
    pub after: List<Placement>,
    /// The changed counts of earlier runes, by rising place.
    pub counts: List<CountChange>,
    /// The runes that were appended.
    pub appended: List<RuneRow>,
}

/// By hand, so that whoever drops a part makes one call, and proves nothing of its fields.
impl Drop for RunePart {
    fn drop(self) {
        let RunePart {
            before: _before,
            after: _after,
            counts: _counts,
            appended: _appended,
        } = self;
    }
}

/// What is counted of a rune.
pub(crate) fn counts_of(row: &RuneRow) -> Counts
    ensures { result ≡ counts_of row.now }
{
    Counts {
        mints: row.mints,
        burned: row.burned,
    }
}

/// What is counted before a change, or after it.
pub(crate) fn counts_at(change: &CountChange, before: bool) -> Counts
    ensures { result ≡ counts_at before change.now }
{
    if before { change.before } else { change.after }
}

/// A rune with other counts.
pub(crate) fn with_counts(row: &RuneRow, counts: Counts) -> RuneRow
    ensures { result ≡ with_counts row.now counts }
{
    RuneRow {
        mints: counts.mints,
        burned: counts.burned,
        ..*row
    }
}
