//! An index whose satoshis and balances needn't keep to the form, spelled.

use ox_block::OutPoint;
use ox_bytes::{Bytes, Memory, put_u32le, put_u64le};
use ox_plain::Index;
use ox_range::Ranges;
use ox_rows::{Writable, put_count, put_list, put_text};
use ox_rules::OutRow;
use std::alloc::Global;

/// Puts satoshis, run by run.
fn put_runs(bytes: &mut Bytes, sats: &Ranges) -> Result<(), Memory> {
    let runs = sats.runs();
    put_count(bytes, runs.len())?;
    for run in runs {
        put_u64le(bytes, run.first)?;
        put_u64le(bytes, run.count)?;
    }
    Ok(())
}

/// Puts an output behind its outpoint.
fn put_output(bytes: &mut Bytes, at: &OutPoint, row: &OutRow) -> Result<(), Memory> {
    at.put(bytes)?;
    put_text(bytes, row.script.as_slice())?;
    put_u32le(bytes, row.height)?;
    put_runs(bytes, &row.sats)
}

/// Puts the hashes, the outputs and the lost satoshis of an index.
fn put_front(bytes: &mut Bytes, index: &Index) -> Result<(), Memory> {
    put_list(bytes, index.hashes.as_slice())?;
    put_count(bytes, index.outs.len())?;
    for (at, row) in &index.outs {
        put_output(bytes, at, row)?;
    }
    put_runs(bytes, &index.lost)
}

/// Puts the inscriptions, the balances and the runes of an index.
fn put_back(bytes: &mut Bytes, index: &Index) -> Result<(), Memory> {
    put_list(bytes, index.inscriptions.as_slice())?;
    put_count(bytes, index.bal.len())?;
    for (at, held) in &index.bal {
        at.put(bytes)?;
        put_list(bytes, held.as_slice())?;
    }
    put_list(bytes, index.runes.as_slice())
}

/// The rows of an index.
pub fn rows_of(alloc: Global, index: &Index) -> Result<Bytes, Memory> {
    let mut bytes = Bytes::empty(alloc);
    put_front(&mut bytes, index)?;
    put_back(&mut bytes, index)?;
    Ok(bytes)
}
