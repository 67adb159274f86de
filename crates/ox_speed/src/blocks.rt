//! A block whose last transaction's satoshis have been moved.

ghost use Rattle.std.specs.Prelude.{◌≡◌, ◌+◌, IfOk, OnOk};
ghost use Rattle.ox_block.specs.Spelling.{Lawful};
ghost use Rattle.ox_sat.specs.Heights.{first_at};
ghost use Rattle.ox_sat.specs.Profiles.{profile_named};
ghost use Rattle.ox_sat.specs.declared.profiles.ProfileName.TheVariants.{Regtest};
ghost use Rattle.ox_outputs.specs.Table.{rows_in};
ghost use Rattle.ox_transfer.specs.Apart.{HoldsOnce};
ghost use Rattle.ox_inscribe.specs.Moves.{AreMovesOf};

use crate::feed::next_block;
use ox_block::{Block, read_block, txids_of};
use ox_inscribe::{Memory, transfers_tell_of_transactions};
use ox_outputs::Outputs;
use ox_rules::Moved;
use ox_sat::{ProfileName, profile_of};
use ox_transfer::transfer;
use std::alloc::Global;

/// No outputs.
fn fresh(alloc: Global) -> Outputs
    ensures { HoldsOnce (first_at (profile_named Regtest) 0) (rows_in result) }
{
    Outputs::new(alloc)
}

/// A block, and what its transactions did with satoshis.
#[derive(Drop)]
pub(crate) struct Done {
    pub(crate) block: Block,
    pub(crate) moved: Moved,
}

/// Moves the satoshis of a block of a regression-test chain. `Memory` also where it is refused.
fn move_block(alloc: Global, table: &mut Outputs, bytes: &[u8], height: u32) -> Result<Done, Memory>
    requires { HoldsOnce (first_at (profile_named Regtest) height) (rows_in table.old) }
    ensures once { OnOk result
        (HoldsOnce (first_at (profile_named Regtest) (height + 1)) (rows_in table.new)) }
    ensures moves { IfOk result (λ done. AreMovesOf done.block.txs done.moved.txs) }
{
    let p = profile_of(ProfileName::Regtest);
    let Ok(block) = read_block(alloc, bytes) else {
        return Err(Memory);
    };
    let ids = txids_of(alloc, &block)?;
    let Ok(moved) = transfer(alloc, table, &p, &block, &ids, height) else {
        return Err(Memory);
    };
    transfers_tell_of_transactions();
    Ok(Done { block, moved })
}

/// The second of two blocks. `Memory` also where there are no two.
pub(crate) fn loaded(alloc: Global, feed: &[u8]) -> Result<Done, Memory>
    ensures { IfOk result (λ done. AreMovesOf done.block.txs done.moved.txs) }
{
    let Some((first, behind)) = next_block(feed) else {
        return Err(Memory);
    };
    let Some((second, _)) = next_block(behind) else {
        return Err(Memory);
    };
    let mut table = fresh(alloc);
    move_block(alloc, &mut table, first, 0)?;
    move_block(alloc, &mut table, second, 1)
}
