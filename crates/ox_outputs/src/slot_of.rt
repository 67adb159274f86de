//! Where a slot is.

use ox_block::OutPoint;

/// A slot's outpoint, and its place.
#[derive(Clone, Copy)]
pub(crate) struct SlotOf {
    pub(crate) at: OutPoint,
    pub(crate) place: u32,
}
