//! Etchings that stand: Runes specification, "Etching" and "Cenotaphs".

ghost use Rattle.std.specs.Prelude.{◌≡◌};
ghost use Rattle.ox_etching.specs.Etched.{etched, etching_of, id_of, may_be_given, name_alone};
ghost use Rattle.ox_etching.specs.Etched.{row_of};

use crate::commitment::commits;
use crate::row::RuneRow;
use crate::spot::Spot;
use ox_block::{Tx, Txid};
use ox_name::{is_reserved, minimum, reserved_name};
use ox_rules::SpentRows;
use ox_runestone::{Artifact, Etching, RuneId};
use ox_sat::Profile;

/// Whether a name may be given at a height: it is at least the least name of the height, and not
/// reserved.
fn may_be_given(p: &Profile, height: u32, name: u128) -> bool
    ensures { result ≡ may_be_given p.now height name }
{
    name >= minimum(p.rune_start, p.interval, height as u64) && !is_reserved(name)
}

/// The etching of a cenotaph: its name, and nothing else.
fn name_alone(name: u128) -> Etching
    ensures { result ≡ name_alone name }
{
    Etching {
        name: Some(name),
        spacers: None,
        divisibility: None,
        symbol: None,
        premine: None,
        terms: None,
        turbo: false,
    }
}

/// What an artifact etches.
fn etching_of(artifact: &Artifact) -> Option<Etching>
    ensures { result ≡ etching_of artifact.now }
{
    match artifact {
        Artifact::Stone(stone) => stone.etching,
        Artifact::Cenotaph { name, .. } => name.map(name_alone),
    }
}

/// Where a transaction etches, which is the id of its rune.
fn id_of(at: &Spot) -> RuneId
    ensures { result ≡ id_of at.now }
{
    RuneId {
        block: at.height as u64,
        tx: at.tx,
    }
}

/// A rune that is new, with what its etching says.
fn row_of(id: RuneId, txid: Txid, etching: &Etching, name: u128) -> RuneRow
    ensures { result ≡ row_of id txid etching.now name }
{
    RuneRow {
        id,
        name,
        spacers: etching.spacers.unwrap_or(0),
        divisibility: etching.divisibility.unwrap_or(0),
        symbol: etching.symbol,
        premine: etching.premine.unwrap_or(0),
        terms: etching.terms,
        mints: 0,
        burned: 0,
        etching: txid,
    }
}

/// The new rune of the transaction at a spot, which has this artifact and spends these rows: one
/// for each input, in input order, and none for a coinbase. Whether a rune has the name that is
/// etched is handed in. `None` where nothing is etched, or the etching is ignored.
///
/// A name that is given has to be at least the least one of the height, not reserved, not taken,
/// and committed to (`commits`): else the etching is ignored. Without one the rune gets the name
/// that is reserved for its place. A cenotaph etches a name that it gives, without spacers,
/// symbol, divisibility, premine and terms (Runes specification, "Etching" and "Cenotaphs").
///
/// Tapscripts are read only where all else lets the name stand.
pub fn etched(
    at: Spot,
    body: &Tx,
    spent: &SpentRows,
    artifact: &Artifact,
    is_taken: bool,
) -> Option<RuneRow>
    ensures { result ≡ etched at body.now spent.now artifact.now is_taken }
{
    let etching = etching_of(artifact)?;
    let name = match etching.name {
        None => reserved_name(at.height, at.tx),
        Some(name) => {
            let is_free = may_be_given(&at.profile, at.height, name) && !is_taken;
            if !(is_free && commits(body, spent, name, at.height)) {
                return None;
            }
            name
        }
    };
    Some(row_of(id_of(&at), at.txid, &etching, name))
}
