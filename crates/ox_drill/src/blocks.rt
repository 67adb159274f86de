//! The made blocks, one after the other.

ghost use Rattle.std.specs.Prelude.{◌≡◌, ◌<◌, ◌+◌, ◌-◌, ◌^◌, IfOk};
ghost use Rattle.ox_block.specs.Spelling.{spell};
ghost use Rattle.ox_drill.specs.Blocks.{behind_of};
ghost use Rattle.ox_drill.specs.Chain.{drill_block};

use ox_block::{Txid, hash, txid_of, write_block};
use ox_bytes::{Bytes, Memory};
use ox_gen::block;
use std::alloc::Global;

/// What the block of a height stands behind.
#[derive(Clone, Copy, PartialEq, Eq)]
pub struct Behind {
    /// The height.
    pub height: u32,
    /// The hash of the block before, in serialized order; zeros before the first.
    pub tip: [u8; 32],
    /// The id of that block's coinbase; zeros before the first.
    pub paid: Txid,
}

/// What the first block stands behind.
pub fn first_behind() -> Behind
    ensures { result ≡ behind_of 0 }
{
    Behind {
        height: 0,
        tip: [0; 32],
        paid: Txid([0; 32]),
    }
}

/// The bytes of the block of a height, and what the next one stands behind. `Memory` where there is
/// none for them.
pub fn next_block(alloc: Global, behind: &Behind) -> Result<(Bytes, Behind), Memory>
    requires place { behind.now ≡ behind_of behind.now.height }
    requires low { behind.now.height < 2 ^ 32 - 1 }
    ensures bytes { IfOk result (λ made. made.0 ≡ spell (drill_block behind.now.height)) }
    ensures next { IfOk result (λ made. made.1 ≡ behind_of (behind.now.height + 1)) }
{
    let block = block(alloc, behind.height, &behind.tip, &behind.paid)?;
    let bytes = write_block(alloc, &block)?;
    let tip = hash(&block.header);
    let paid = txid_of(&block.txs.as_slice()[0]);
    let next = Behind {
        height: behind.height + 1,
        tip,
        paid,
    };
    Ok((bytes, next))
}
