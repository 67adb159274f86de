//! What a transaction says about runes.

ghost use Rattle.std.specs.Prelude.{◌≡◌, ◌^◌, ◌<◌, ℕ, false, true, length, IfOk, Some};
ghost use Rattle.std.specs.Option.{option_copied, option_map, option_map_or, IfSome};
ghost use Rattle.ox_block.specs.declared.block.Txid.{Txid};
ghost use Rattle.ox_runestone.specs.Artifact.{artifact_of};
ghost use Rattle.ox_runestone.specs.Payload.{is_stone};
ghost use Rattle.ox_ledger.specs.Runes.{artifact_at, etching_by, is_taken, mint_at, mint_by};
ghost use Rattle.ox_ledger.specs.Runes.{mint_of, name_of, stone_in};

use crate::table::RuneTable;
use ox_block::{Tx, TxOut};
use ox_bytes::Memory;
use ox_etching::{RuneRow, Spot, etched, minted};
use ox_rules::SpentRows;
use ox_runestone::{Artifact, RuneId, is_stone};
use ox_sat::Profile;

/// The first output's script that is a runestone's.
fn stone_in(outputs: &[TxOut]) -> Option<&[u8]>
    ensures first { option_copied result ≡ stone_in outputs.now }
    ensures stone { IfSome result (λ script. is_stone script.now ≡ true) }
{
    for output in outputs {
        let script = output.script.as_slice();
        if is_stone(script) {
            return Some(script);
        }
    }
    None
}

/// How many outputs there are. `Memory` for 2^32 and more, which no memory holds.
pub(crate) fn count_of(outputs: &[TxOut]) -> Result<u32, Memory>
    ensures count { IfOk result (λ count. count ≡ length outputs.now) }
    ensures fits { IfOk result (λ count. length outputs.now < 2 ^ 32) }
{
    let count = outputs.len();
    if count > u32::MAX as usize {
        return Err(Memory);
    }
    Ok(count as u32)
}

/// The script of a transaction's runestone. Before the height at which runes start it is not read.
pub(crate) fn stone_at<'a>(p: &Profile, height: u32, body: &'a Tx) -> Option<&'a [u8]>
    ensures exact { (tx : ℕ) (id : Txid) → option_map
        (λ script. artifact_of script (length body.now.outputs)) (option_copied result)
        ≡ artifact_at
        (record { profile = p.now; height = height; tx = tx; txid = id }) body.now }
    ensures stone { IfSome result (λ script. is_stone script.now ≡ true) }
{
    if (height as u64) < p.rune_start {
        return None;
    }
    stone_in(body.outputs.as_slice())
}

/// The rune that an artifact mints.
fn mint_of(artifact: &Artifact) -> Option<RuneId>
    ensures { result ≡ mint_of artifact.now }
{
    match artifact {
        Artifact::Stone(stone) => stone.mint,
        Artifact::Cenotaph { mint, .. } => *mint,
    }
}

/// The name that an artifact etches.
fn name_of(artifact: &Artifact) -> Option<u128>
    ensures { result ≡ name_of artifact.now }
{
    match artifact {
        Artifact::Stone(stone) => stone.etching?.name,
        Artifact::Cenotaph { name, .. } => *name,
    }
}

/// The mint of a rune with its amount, where it is open.
fn mint_at(table: &RuneTable, height: u32, id: RuneId) -> Option<(RuneId, u128)>
    ensures { result ≡ mint_at height table.now.now (Some id) }
{
    let row = table.get(table.by_id(id)?);
    let amount = minted(row, height)?;
    Some((id, amount))
}

/// The mint of a transaction with this artifact.
pub(crate) fn mint_by(table: &RuneTable, height: u32, artifact: &Artifact) -> Option<(RuneId, u128)>
    ensures { result ≡ mint_by height table.now.now (Some artifact.now) }
{
    mint_at(table, height, mint_of(artifact)?)
}

/// Whether a name that an artifact etches is taken.
fn is_taken(table: &RuneTable, artifact: &Artifact) -> bool
    ensures { result ≡ option_map_or (is_taken table.now.now) (name_of artifact.now) false }
{
    match name_of(artifact) {
        Some(name) => table.by_name(name).is_some(),
        None => false,
    }
}

/// The rune that a transaction with this artifact etches.
pub(crate) fn etching_by(
    table: &RuneTable,
    at: Spot,
    body: &Tx,
    spent: &SpentRows,
    artifact: &Artifact,
) -> Option<RuneRow>
    ensures { result ≡ etching_by at body.now spent.now table.now.now (Some artifact.now) }
{
    let is_taken = is_taken(table, artifact);
    etched(at, body, spent, artifact, is_taken)
}
