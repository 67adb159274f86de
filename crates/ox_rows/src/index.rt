//! An index as rows.

ghost use Rattle.std.specs.Prelude.{◌≡◌, ◌++◌, List, ℕ, length, IfOk, OnOk, Ok};
ghost use Rattle.ox_bytes.specs.Reading.{GivesOrMemory};
ghost use Rattle.ox_model.specs.Index.{Index as ChainIndex};
ghost use Rattle.ox_plain.specs.Plain.{index_in};
ghost use Rattle.ox_rows.specs.Answer.{Answers, BeginWith, front_of};
ghost use Rattle.ox_rows.specs.RowFits.{FitsIndex, KeepsIndex};
ghost use Rattle.ox_rows.specs.RowReading.{index_at};
ghost use Rattle.ox_rows.specs.RowSpelling.{index_rows};
ghost use Rattle.ox_rows.specs.Seen.{index_seen};

use crate::fault::RowsFault;
use crate::lists::list_of;
use crate::put::put_list;
use crate::sats::{put_sats, sats_of};
use crate::tables::{outputs_table_of, placements_table_of, put_table};
use ox_bytes::{Bytes, Memory, ReadError};
use ox_plain::Index;
use std::alloc::Global;

#[tactic(auto, unfolding(crate::specs::RowReading::index_at))]
fn index_of(alloc: Global, bytes: &[u8]) -> Result<(Index, &[u8]), ReadError>
    ensures { GivesOrMemory (λ x. (index_in x.0, x.1.now)) result (index_at bytes.now) }
{
    let (hashes, rest) = list_of(alloc, bytes)?;
    let (outs, rest) = outputs_table_of(alloc, rest)?;
    let (lost, rest) = sats_of(alloc, rest)?;
    let (inscriptions, rest) = list_of(alloc, rest)?;
    let (bal, rest) = placements_table_of(alloc, rest)?;
    let (runes, rest) = list_of(alloc, rest)?;
    let index = Index {
        hashes,
        outs,
        lost,
        inscriptions,
        bal,
        runes,
    };
    Ok((index, rest))
}

fn index_or_place(alloc: Global, bytes: &[u8]) -> Result<(Index, usize), RowsFault>
    ensures { Answers index_seen result (front_of index_at bytes.now) }
{
    match index_of(alloc, bytes) {
        Ok((index, rest)) => Ok((index, bytes.len().saturating_sub(rest.len()))),
        Err(ReadError::Memory) => Err(RowsFault::Memory),
        Err(ReadError::Fault(fault)) => Err(RowsFault::NotRows {
            at: bytes.len().saturating_sub(fault.left),
        }),
    }
}

/// The index whose rows the bytes begin with, and how many bytes these take. What follows isn't
/// looked at. `NotRows` exactly where they begin with no rows of an index, with the place of the
/// first byte of the first field that doesn't fit. `Memory` where there is none for the index:
/// however many items are told, none is taken for those that aren't there.
pub fn read_index(alloc: Global, bytes: &[u8]) -> Result<(Index, usize), RowsFault>
    // What is read has a spelling, and the bytes begin with it.
    ensures found { IfOk result (λ x. BeginWith FitsIndex index_rows bytes.now (index_seen x)) }
    // What has a spelling is read from it, whatever follows, unless memory runs out.
    ensures only { (index : ChainIndex) (rest : List ℕ) → FitsIndex index
        → bytes.now ≡ index_rows index ++ rest
        → Answers index_seen result (Ok (index, length (index_rows index))) }
    // The index or the place is what reading on lists gives.
    ensures exact { Answers index_seen result (front_of index_at bytes.now) }
{
    index_or_place(alloc, bytes)
}

/// Puts the rows of an index behind bytes. It asks that satoshis are in range and that no list of
/// balances is empty, as in each sound index; outpoints rise in whatever order the tables were
/// filled. `Memory` where there is none for them, and where a list has 2^32 items or more.
#[tactic(auto, unfolding(crate::specs::RowSpelling::index_rows))]
pub fn put_index(bytes: &mut Bytes, index: &Index) -> Result<(), Memory>
    requires { KeepsIndex (index_in index.now) }
    ensures ok { OnOk result (bytes.new ≡ bytes.old ++ index_rows (index_in index.now)) }
    ensures fits { OnOk result (FitsIndex (index_in index.now)) }
{
    put_list(bytes, index.hashes.as_slice())?;
    put_table(bytes, &index.outs)?;
    put_sats(bytes, &index.lost)?;
    put_list(bytes, index.inscriptions.as_slice())?;
    put_table(bytes, &index.bal)?;
    put_list(bytes, index.runes.as_slice())
}

/// The rows of an index. What it asks and when it is `Memory` is as for `put_index`.
pub fn write_index(alloc: Global, index: &Index) -> Result<Bytes, Memory>
    requires { KeepsIndex (index_in index.now) }
    ensures rows { IfOk result (λ bytes. bytes ≡ index_rows (index_in index.now)) }
    ensures fits { OnOk result (FitsIndex (index_in index.now)) }
{
    let mut bytes = Bytes::empty(alloc);
    put_index(&mut bytes, index)?;
    Ok(bytes)
}
