//! What the blocks of a chain leave, as plain data.

use ox_allocation::Balances;
use ox_block::OutPoint;
use ox_bytes::List;
use ox_etching::RuneRow;
use ox_inscribe::SharedRow;
use ox_range::Ranges;
use ox_rules::OutRow;
use std::collections::BTreeMap;

/// An index as plain data. `index_in` of `specs/Plain.antt` says which index it is.
pub struct Index {
    /// The blocks' hashes, by height, each in serialized order.
    pub hashes: List<[u8; 32]>,
    /// The unspent outputs, by outpoint.
    pub outs: BTreeMap<OutPoint, OutRow>,
    /// The satoshis that no output holds any more, in the order in which they were lost.
    pub lost: Ranges,
    /// The inscriptions, by their numbers. They may be shared with others that have them.
    pub inscriptions: List<SharedRow>,
    /// What outputs hold of runes, by outpoint.
    pub bal: BTreeMap<OutPoint, Balances>,
    /// The runes, by their etchings.
    pub runes: List<RuneRow>,
}

/// By hand, so that whoever drops an index makes one call, and proves nothing of its fields.
impl Drop for Index {
    fn drop(self) {
        let Index {
            hashes: _hashes,
            outs: _outs,
            lost: _lost,
            inscriptions: _inscriptions,
            bal: _bal,
            runes: _runes,
        } = self;
    }
}
