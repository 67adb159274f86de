//! What `/blockhash/{height}` says.

ghost use Rattle.std.specs.Prelude.{◌≡◌, IfOk, option_map, slice_get};
ghost use Rattle.serde_json.specs.Written.{compact_text};
ghost use Rattle.ox_replies.specs.Blocks.{block_tree};
ghost use Rattle.ox_query.specs.Written.{Adds, tokens_of};

use crate::bodies::Body;
use crate::values::write_hash;
use ox_bytes::{Bytes, Memory};
use ox_model::View;
use std::alloc::Global;

/// Writes the block of a height and its hash.
fn write_block(out: &mut Body, height: u64, hash: &[u8; 32])
    ensures { Adds out.old out.new (tokens_of (block_tree height hash.now)) }
{
    out.begin_object();
    out.key("hash");
    write_hash(out, hash);
    out.key("height");
    out.u64(height);
    out.end_object();
}

/// The block of a height and its hash.
fn block_body(alloc: Global, height: u64, hash: &[u8; 32]) -> Result<Bytes, Memory>
    ensures { IfOk result (λ body. body ≡ compact_text (block_tree height hash.now)) }
{
    let mut out = Body::new(alloc);
    write_block(&mut out, height, hash);
    out.into_bytes()
}

/// The block at a height, if there is one. `Memory` where there is none for it.
pub(crate) fn block_at<V: View>(
    alloc: Global,
    live: &V,
    height: u64,
) -> Result<Option<Bytes>, Memory>
    ensures { IfOk result (λ found. found ≡ option_map compact_text
        (option_map (block_tree height) (slice_get (V.index live.now).hashes height))) }
{
    if height >= u64::from(live.blocks()) {
        return Ok(None);
    }
    match live.hash_of(height as u32) {
        Some(hash) => Ok(Some(block_body(alloc, height, hash)?)),
        None => Ok(None),
    }
}
