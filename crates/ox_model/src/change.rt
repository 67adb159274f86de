//! What one block changes.

use ox_bytes::List;
use ox_inscribe::SharedRow;
use ox_ledger::RunePart;
use ox_range::Ranges;
use ox_rules::TableRows;

/// What one block changes in the index: with the index before it, it gives the one after it, and
/// the other way round.
pub struct Change {
    /// The block's hash, in serialized order.
    pub hash: [u8; 32],
    /// The outputs before it that are gone or different after it, by rising outpoint.
    pub gone: TableRows,
    /// The outputs after it that are new or different, by rising outpoint.
    pub came: TableRows,
    /// The satoshis that it lost, in the order in which they were.
    pub lost: Ranges,
    /// The inscriptions that it revealed, by number. They are shared with the index that has them.
    pub inscriptions: List<SharedRow>,
    /// What it changed of runes and balances.
    pub runes: RunePart,
}

/// By hand, so that whoever drops a change makes one call, and proves nothing of its fields.
impl Drop for Change {
    fn drop(self) {
        let Change {
            hash: _hash,
            gone: _gone,
            came: _came,
            lost: _lost,
            inscriptions: _inscriptions,
            runes: _runes,
        } = self;
    }
}
