//! The runes of a transaction, dealt to its outputs.

ghost use Rattle.std.specs.Prelude.{◌≡◌, ◌<◌, length, IfOk};
ghost use Rattle.std.specs.Option.{ForSome};
ghost use Rattle.ox_allocation.specs.Allocation.{allocation_of};

use crate::balances::{Balances, Pool};
use crate::deal::{Deal, holders_of};
use crate::hands::Hands;
use crate::whole::{give_whole, heir_of};
use ox_block::TxOut;
use ox_bytes::{List, Memory};
use ox_runestone::{Edict, RuneId};
use std::alloc::Global;

/// What a pool's runes have come to.
#[derive(Drop)]
pub struct Allocated {
    /// The runes of each output, in the outputs' order.
    pub given: List<Balances>,
    /// The runes that are burned.
    pub burned: Balances,
}

/// Deals a transaction's runes to its outputs (Runes specification, "Edicts" and "Unallocated
/// Runes"): the edicts in order, and what they leave to the pointer's output, else to the first
/// that doesn't begin with OP_RETURN, else to nobody. What nobody is given is burned, and what
/// outputs with OP_RETURN are given. Edicts for block 0, transaction 0 mean the rune that is etched
/// here, and an edict's output from their number on means all outputs. `Memory` where there is none
/// left.
pub fn allocate(
    alloc: Global,
    pool: Pool,
    edicts: &[Edict],
    etched: Option<RuneId>,
    pointer: Option<u32>,
    outputs: &[TxOut],
) -> Result<Allocated, Memory>
    requires pointer { ForSome pointer (λ place. place < length outputs.now) }
    ensures given { IfOk result (λ a.
        a.given ≡ (allocation_of pool edicts.now etched pointer outputs.now).given) }
    ensures burned { IfOk result (λ a.
        a.burned ≡ (allocation_of pool edicts.now etched pointer outputs.now).burned) }
{
    if edicts.is_empty() {
        let heir = heir_of(alloc, pointer, outputs)?;
        return give_whole(alloc, pool, heir, outputs);
    }
    let holders = holders_of(alloc, outputs)?;
    let left = pool.into_amounts(alloc)?;
    let mut deal = Deal::new(alloc, left, Hands::empty(alloc, outputs)?, &holders);
    deal.follow_all(etched, edicts)?;
    let heir = match pointer {
        Some(place) => Some(place as usize),
        None => holders.first().copied(),
    };
    let hands = deal.give_rest(heir)?;
    hands.into_allocated(alloc)
}
