//! The public call that writes a block.

ghost use Rattle.std.specs.Prelude.{◌≡◌, Ok, IfOk};
ghost use Rattle.ox_block.specs.declared.block.Block.{Block};
ghost use Rattle.ox_block.specs.Spelling.{spell, Lawful};
ghost use Rattle.ox_block.specs.Reading.{block_of};

use crate::block::Block;
use crate::spelling::put_block;
use ox_bytes::{Bytes, Memory};
use std::alloc::Global;

/// The bytes of a block, by its spelling. `Memory` where there is none for them.
pub fn write_block(alloc: Global, block: &Block) -> Result<Bytes, Memory>
    ensures { IfOk result (λ bytes. bytes ≡ spell block.now) }
{
    let mut bytes = Bytes::empty(alloc);
    put_block(&mut bytes, block)?;
    Ok(bytes)
}

/// What is written of a lawful block is read as that block.
pub fn written_reads_back()
    ensures { (block : Block) → Lawful block → block_of (spell block) ≡ Ok block }
{}
