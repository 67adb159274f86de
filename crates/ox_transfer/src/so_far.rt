//! What a block's transactions did so far.

use ox_range::Ranges;
use ox_rules::MovedTx;
use std::alloc::Global;

/// What the transactions of a block at this height did so far: their entries, the satoshis that are
/// lost by displacement, and the fees. The room for the parts of one transaction's outputs serves
/// each in turn.
#[derive(Drop)]
pub(crate) struct MovedSoFar {
    pub(crate) alloc: Global,
    pub(crate) height: u32,
    pub(crate) moved: Vec<MovedTx>,
    pub(crate) lost: Ranges,
    pub(crate) fees: Ranges,
    pub(crate) parts: Vec<Ranges>,
}
