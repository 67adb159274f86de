//! Terms of minting at the greatest height, which no block reaches.

use ox_block::Txid;
use ox_etching::{RuneRow, minted};
use ox_runestone::{RuneId, Terms};

/// Whether a rune that was etched at height 100 is minted at the greatest height, where minting
/// begins or ends so many blocks behind its etching.
fn is_open_at_last(offset_start: Option<u64>, offset_end: Option<u64>) -> bool {
    let terms = Terms {
        amount: Some(7),
        cap: Some(2),
        height_start: None,
        height_end: None,
        offset_start,
        offset_end,
    };
    let rune = RuneRow {
        id: RuneId { block: 100, tx: 1 },
        name: 0,
        spacers: 0,
        divisibility: 0,
        symbol: None,
        premine: 0,
        terms: Some(terms),
        mints: 0,
        burned: 0,
        etching: Txid([7; 32]),
    };
    minted(&rune, u32::MAX) == Some(7)
}

#[test]
fn offsets_stop_at_the_greatest_number(rt: HostRuntime) {
    assert!(rt; is_open_at_last(None, Some(u64::MAX)));
    assert!(rt; !is_open_at_last(Some(u64::MAX), None));
}
