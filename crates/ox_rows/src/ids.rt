//! Outpoints and ids.

ghost use Rattle.std.specs.Prelude.{◌≡◌, ◌++◌};
ghost use Rattle.std.specs.Int.{w32, to_le_bytes};
ghost use Rattle.ox_block.specs.Spelling.{outpoint};
ghost use Rattle.ox_rows.specs.FrontLaws.{inscription_id_fronts, outpoint_fronts, rune_id_fronts};
ghost use Rattle.ox_rows.specs.RowFits.{FitsInsId, FitsOutPoint, FitsRuneId};
ghost use Rattle.ox_rows.specs.RowReading.{inscription_id_at, outpoint_at, rune_id_at};
ghost use Rattle.ox_rows.specs.RowSpelling.{inscription_id, rune_id};

use crate::readable::Readable;
use crate::writable::Writable;
use ox_block::{OutPoint, Txid};
use ox_bytes::{Bytes, Memory, ReadError};
use ox_envelope::InsId;
use ox_runestone::RuneId;
use std::alloc::Global;

impl Readable for OutPoint {
    ghost at = { outpoint_at };

    #[tactic(auto, unfolding(crate::specs::RowReading::outpoint_at))]
    fn read(alloc: Global, bytes: &[u8]) -> Result<(OutPoint, &[u8]), ReadError> {
        let (txid, rest) = <[u8; 32] as Readable>::read(alloc, bytes)?;
        let (index, rest) = u32::read(alloc, rest)?;
        let at = OutPoint {
            txid: Txid(txid),
            index,
        };
        Ok((at, rest))
    }

    ghost fronts = { outpoint_fronts };
}

impl Writable for OutPoint {
    ghost spelling = { outpoint };

    ghost fits = { FitsOutPoint };

    ghost keeps = { λ at. Unit {0} };

    fn put(&self, bytes: &mut Bytes) -> Result<(), Memory> {
        bytes.append(&place_bytes(&self.txid.0, self.index))
    }
}

/// A transaction's id and a place in it, spelled.
pub(crate) fn place_bytes(txid: &[u8; 32], index: u32) -> [u8; 36]
    ensures { result ≡ txid.now ++ to_le_bytes w32 index }
{
    let mut bytes = [0; 36];
    let (front, back) = bytes.split_at_mut(32);
    front.copy_from_slice(txid);
    back.copy_from_slice(&index.to_le_bytes());
    bytes
}

impl Readable for InsId {
    ghost at = { inscription_id_at };

    #[tactic(auto, unfolding(crate::specs::RowReading::inscription_id_at))]
    fn read(alloc: Global, bytes: &[u8]) -> Result<(InsId, &[u8]), ReadError> {
        let (txid, rest) = <[u8; 32] as Readable>::read(alloc, bytes)?;
        let (index, rest) = u32::read(alloc, rest)?;
        Ok((InsId { txid, index }, rest))
    }

    ghost fronts = { inscription_id_fronts };
}

impl Writable for InsId {
    ghost spelling = { inscription_id };

    ghost fits = { FitsInsId };

    ghost keeps = { λ id. Unit {0} };

    fn put(&self, bytes: &mut Bytes) -> Result<(), Memory> {
        bytes.append(&place_bytes(&self.txid, self.index))
    }
}

/// A rune's id, spelled.
pub(crate) fn rune_id_bytes(id: RuneId) -> [u8; 12]
    ensures spelled { result ≡ rune_id id }
    ensures fits { FitsRuneId id }
{
    let mut bytes = [0; 12];
    let (block, tx) = bytes.split_at_mut(8);
    block.copy_from_slice(&id.block.to_le_bytes());
    tx.copy_from_slice(&id.tx.to_le_bytes());
    bytes
}

impl Readable for RuneId {
    ghost at = { rune_id_at };

    #[tactic(auto, unfolding(crate::specs::RowReading::rune_id_at))]
    fn read(alloc: Global, bytes: &[u8]) -> Result<(RuneId, &[u8]), ReadError> {
        let (block, rest) = u64::read(alloc, bytes)?;
        let (tx, rest) = u32::read(alloc, rest)?;
        Ok((RuneId { block, tx }, rest))
    }

    ghost fronts = { rune_id_fronts };
}

impl Writable for RuneId {
    ghost spelling = { rune_id };

    ghost fits = { FitsRuneId };

    ghost keeps = { λ id. Unit {0} };

    fn put(&self, bytes: &mut Bytes) -> Result<(), Memory> {
        let id = *self;
        bytes.append(&rune_id_bytes(id))
    }
}
