//! The coinbase of a made block, before it commits to witnesses and with its commitment.

ghost use Rattle.std.specs.Prelude.{◌≡◌, ◌++◌, ◌∷◌, [], IfOk};
ghost use Rattle.ox_block.specs.Commitment.{commitment_front, commitment_to, with_commitment};
ghost use Rattle.ox_block.specs.Hashes.{double_hash};
ghost use Rattle.ox_gen.specs.Made.{coinbase as bare_coinbase, height_script as height_bytes};
ghost use Rattle.ox_gen.specs.Made.{nothing, zeros};

use crate::parts::{claim, made_tx, open_output};
use ox_block::{OutPoint, Outs, Script, Tx, TxOut, Txid, Witness};
use ox_bytes::Memory;
use sha2::{Digest, Sha256};
use std::alloc::Global;

/// A script that commits to witnesses begins so (BIP 141).
const FRONT: [u8; 6] = [0x6a, 0x24, 0xaa, 0x21, 0xa9, 0xed];

/// What a coinbase spends: no output.
const NOTHING: OutPoint = OutPoint {
    txid: Txid([0; 32]),
    index: u32::MAX,
};

/// A coinbase's script: the push of its height in four bytes.
fn height_script(height: u32) -> [u8; 5]
    ensures { result ≡ height_bytes height }
{
    let [a, b, c, d] = height.to_le_bytes();
    [4, a, b, c, d]
}

/// The coinbase of this height, before it commits to witnesses.
pub(crate) fn coinbase(alloc: Global, height: u32) -> Result<Tx, Memory>
    ensures { IfOk result (λ tx. tx ≡ bare_coinbase height) }
{
    let outputs = Outs::one(alloc, open_output(alloc, claim(height))?);
    let witness = Witness::new(alloc);
    made_tx(alloc, NOTHING, &height_script(height), witness, outputs)
}

/// SHA-256 twice over a witness root and a reserved value of zeros.
fn committed_hash(root: &[u8; 32]) -> [u8; 32]
    ensures { result ≡ double_hash (root.now ++ zeros) }
{
    let mut pair = [0; 64];
    pair[..32].copy_from_slice(root);
    let once = Sha256::digest(&pair[..]);
    Sha256::digest(&once[..])
}

/// The output that commits to a witness root by a reserved value of zeros.
fn commitment(alloc: Global, root: &[u8; 32]) -> Result<TxOut, Memory>
    ensures { IfOk result (λ output. output ≡ commitment_to root.now zeros) }
{
    let mut script = [0; 38];
    script[..6].copy_from_slice(&FRONT);
    script[6..].copy_from_slice(&committed_hash(root));
    Ok(TxOut {
        value: 0,
        script: Script::copy(alloc, &script)?,
    })
}

/// The coinbase of this height, which commits to a witness root by a reserved value of zeros.
pub(crate) fn committing_coinbase(alloc: Global, height: u32, root: &[u8; 32]) -> Result<Tx, Memory>
    ensures { IfOk result (λ tx. tx ≡ with_commitment root.now zeros (bare_coinbase height)) }
{
    let open = open_output(alloc, claim(height))?;
    let outputs = Outs::two(alloc, open, commitment(alloc, root)?);
    let mut witness = Witness::new(alloc);
    witness.push(&[0; 32])?;
    made_tx(alloc, NOTHING, &height_script(height), witness, outputs)
}
