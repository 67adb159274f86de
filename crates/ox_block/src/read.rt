//! The public call that reads a block.

ghost use Rattle.std.specs.Prelude.{◌≡◌, ℕ, List, IfOk, Ok};
ghost use Rattle.ox_block.specs.declared.block.Block.{Block};
ghost use Rattle.ox_block.specs.Spelling.{Spells};
ghost use Rattle.ox_block.specs.Reading.{block_of};
ghost use Rattle.ox_block.specs.Fields.{fault_of, fault_in};
ghost use Rattle.ox_block.specs.Answer.{Gives, Tells};

use crate::block::Block;
use crate::fault::BlockFault;
use crate::reading::whole_block;
use ox_bytes::{BLOCK_LIMIT, ReadError};
use std::alloc::Global;

/// The block, or the place of the first fault.
#[tactic(auto, unfolding(crate::specs::Reading::block_of))]
fn block_or_place(alloc: Global, bytes: &[u8]) -> Result<Block, BlockFault>
    ensures { Gives result (block_of bytes.now) }
{
    if bytes.len() > BLOCK_LIMIT {
        return Err(BlockFault::Malformed { at: BLOCK_LIMIT });
    }
    match whole_block(alloc, bytes) {
        Ok(block) => Ok(block),
        Err(ReadError::Memory) => Err(BlockFault::Memory),
        Err(ReadError::Fault(fault)) => Err(BlockFault::Malformed {
            at: bytes.len().saturating_sub(fault.left),
        }),
    }
}

/// The block that the bytes spell, all of the bytes. `Malformed` exactly where they spell no lawful
/// block, with the place of the first fault from left to right: the first byte of the first field
/// that is cut, not in its shortest form or against a rule, or 4,000,000 where there are more bytes
/// than that. `Memory` where there is none for the block.
///
/// Each script and each witness stack is copied once. Before the values that a count announces are
/// read it takes room for at most four of them, and of transactions for at most as much memory as
/// there are bytes left.
pub fn read_block(alloc: Global, bytes: &[u8]) -> Result<Block, BlockFault>
    // What is read is lawful, and is spelled so.
    ensures found { IfOk result (λ block. Spells bytes.now block) }
    // What is lawful and is spelled so is read, unless memory runs out.
    ensures only { (block : Block) → Spells bytes.now block → Gives result (Ok block) }
    // The place is that of the first field at fault, and there is none where a block is read.
    ensures place { Tells result (fault_of bytes.now) }
    // The block or the place is what reading on lists gives.
    ensures exact { Gives result (block_of bytes.now) }
{
    block_or_place(alloc, bytes)
}

/// The first field at fault stands where reading on lists stops, and there is none where that gives
/// a block.
pub fn fields_agree_with_reading()
    ensures { (bytes : List ℕ) → fault_of bytes ≡ fault_in (block_of bytes) }
{}
