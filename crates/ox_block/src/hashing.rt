//! Hashes of headers and transactions.

ghost use Rattle.std.specs.Prelude.{◌≡◌, ◌++◌, List, ℕ, IfOk, OnOk};
ghost use Rattle.sha2.specs.Hashers.{Holds256};
ghost use Rattle.ox_block.specs.Hashes.{double_hash, block_hash, txid, wtxid};
ghost use Rattle.ox_block.specs.Spelling.{stripped_form, tx};

use crate::block::{Header, Tx, Txid};
use crate::spelling::{put_header, put_stripped, put_tx};
use ox_bytes::Memory;
use sha2::{Digest, Sha256};

/// The digest of the digest of what the hasher holds.
fn twice(hasher: Sha256) -> [u8; 32]
    ensures { (message : List ℕ) → Holds256 hasher message → result ≡ double_hash message }
{
    let once = hasher.finalize();
    Sha256::digest(&once[..])
}

/// SHA-256 twice over bytes that stand together, which the hasher needn't copy.
fn twice_over(bytes: &[u8]) -> [u8; 32]
    ensures { result ≡ double_hash bytes.now }
{
    let once = Sha256::digest(bytes);
    Sha256::digest(&once[..])
}

/// SHA-256 twice over two hashes, one after the other.
pub fn hash_pair(left: &[u8; 32], right: &[u8; 32]) -> [u8; 32]
    ensures { result ≡ double_hash (left.now ++ right.now) }
{
    let mut pair = [0; 64];
    let (front, back) = pair.split_at_mut(32);
    front.copy_from_slice(left);
    back.copy_from_slice(right);
    twice_over(&pair)
}

/// The hash of a block: SHA-256 twice over the 80 bytes of its header, in serialized order.
#[tactic(auto, unfolding(crate::specs::Hashes::block_hash))]
pub fn hash(header: &Header) -> [u8; 32]
    ensures { result ≡ block_hash header.now }
{
    let mut hasher = Sha256::new();
    match put_header(&mut hasher, header) {
        Ok(()) => twice(hasher),
    }
}

/// The id of a transaction: SHA-256 twice over its form without marker, flag and witnesses, in
/// serialized order.
#[tactic(auto, unfolding(crate::specs::Hashes::txid))]
pub fn txid_of(tx: &Tx) -> Txid
    ensures { result.0 ≡ txid tx.now }
{
    let mut hasher = Sha256::new();
    match put_stripped(&mut hasher, tx) {
        Ok(()) => Txid(twice(hasher)),
    }
}

/// Writes down a transaction without marker, flag and witnesses, in place of what some room held.
fn put_form(room: &mut Vec<u8>, tx: &Tx) -> Result<(), Memory>
    ensures { OnOk result (room.new.items ≡ stripped_form tx.now) }
{
    room.clear();
    put_stripped(room, tx)?;
    Ok(())
}

/// The id of a transaction, as `txid_of` gives it. Its form is written down in some room, which is
/// cleared before: to hash it at once costs less than piece by piece. `Memory` where there is none
/// for the form.
#[tactic(auto, unfolding(crate::specs::Hashes::txid))]
pub(crate) fn txid_in(room: &mut Vec<u8>, tx: &Tx) -> Result<Txid, Memory>
    ensures { IfOk result (λ id. id.0 ≡ txid tx.now) }
{
    put_form(room, tx)?;
    Ok(Txid(twice_over(room)))
}

/// The id over a transaction's whole form (BIP 141): with marker, flag and witnesses where it is
/// marked.
#[tactic(auto, unfolding(crate::specs::Hashes::wtxid))]
pub fn wtxid_of(tx: &Tx) -> Txid
    ensures { result.0 ≡ wtxid tx.now }
{
    let mut hasher = Sha256::new();
    match put_tx(&mut hasher, tx) {
        Ok(()) => Txid(twice(hasher)),
    }
}

/// Writes down a whole transaction, in place of what some room held.
fn put_whole(room: &mut Vec<u8>, whole: &Tx) -> Result<(), Memory>
    ensures { OnOk result (room.new.items ≡ tx whole.now) }
{
    room.clear();
    put_tx(room, whole)?;
    Ok(())
}

/// The id over a transaction's whole form, as `wtxid_of` gives it, by some room as in `txid_in`.
/// `Memory` where there is none for the form.
#[tactic(auto, unfolding(crate::specs::Hashes::wtxid))]
pub(crate) fn wtxid_in(room: &mut Vec<u8>, tx: &Tx) -> Result<Txid, Memory>
    ensures { IfOk result (λ id. id.0 ≡ wtxid tx.now) }
{
    put_whole(room, tx)?;
    Ok(Txid(twice_over(room)))
}
