//! The body of a checkpoint, read.

ghost use Rattle.std.specs.Prelude.{◌≡◌, IfOk};
ghost use Rattle.std.specs.Option.{option_map};
ghost use Rattle.std.specs.Result.{result_ok};
ghost use Rattle.ox_bytes.specs.Reading.{times};
ghost use Rattle.ox_plain.specs.Plain.{index_in};
ghost use Rattle.ox_rows.specs.Reading.{list_at};
ghost use Rattle.ox_rows.specs.RowReading.{change_at, index_at};
ghost use Rattle.ox_files.specs.Body.{body_at, body_of, whole};

use ox_bytes::{List, Memory, u32le_field};
use ox_model::Change;
use ox_plain::Index;
use ox_rows::{RowsFault, read_change, read_index};
use std::alloc::Global;

/// The index and the changes that these bytes spell; `None` where they spell none, or where
/// something stands behind them. `Memory` where there is none for these.
pub(crate) fn read_body(
    alloc: Global,
    bytes: &[u8],
) -> Result<Option<(Index, List<Change>)>, Memory>
    ensures { IfOk result (λ found. option_map (λ x. body_of (index_in x.0) x.1) found
        ≡ whole (body_at bytes.now)) }
{
    let Some((index, rest)) = index_of(alloc, bytes)? else {
        return Ok(None);
    };
    let Some((changes, rest)) = changes_of(alloc, rest)? else {
        return Ok(None);
    };
    if !rest.is_empty() {
        return Ok(None);
    }
    Ok(Some((index, changes)))
}

/// The change that these bytes spell; `None` where they spell none, or where something stands
/// behind it. `Memory` where there is none for it.
pub(crate) fn whole_change(alloc: Global, bytes: &[u8]) -> Result<Option<Change>, Memory>
    ensures { IfOk result (λ found. found ≡ whole (change_at bytes.now)) }
{
    let Some((change, behind)) = change_of(alloc, bytes)? else {
        return Ok(None);
    };
    if !behind.is_empty() {
        return Ok(None);
    }
    Ok(Some(change))
}

/// The index that the bytes begin with, if they do, and what stands behind it.
fn index_of(alloc: Global, bytes: &[u8]) -> Result<Option<(Index, &[u8])>, Memory>
    ensures { IfOk result (λ found. option_map (λ x. (index_in x.0, x.1.now)) found
        ≡ result_ok (index_at bytes.now)) }
{
    match read_index(alloc, bytes) {
        Ok((index, taken)) => Ok(Some((index, &bytes[taken..]))),
        Err(RowsFault::NotRows { .. }) => Ok(None),
        Err(RowsFault::Memory) => Err(Memory),
    }
}

/// The change that the bytes begin with, if they do, and what stands behind it.
fn change_of(alloc: Global, bytes: &[u8]) -> Result<Option<(Change, &[u8])>, Memory>
    ensures { IfOk result (λ found. option_map (λ x. (x.0, x.1.now)) found
        ≡ result_ok (change_at bytes.now)) }
{
    match read_change(alloc, bytes) {
        Ok((change, taken)) => Ok(Some((change, &bytes[taken..]))),
        Err(RowsFault::NotRows { .. }) => Ok(None),
        Err(RowsFault::Memory) => Err(Memory),
    }
}

/// The list of changes that the bytes begin with, if they do: how many in 4 bytes, and these; and
/// what stands behind them.
fn changes_of(alloc: Global, bytes: &[u8]) -> Result<Option<(List<Change>, &[u8])>, Memory>
    ensures { IfOk result (λ found. option_map (λ x. (x.0, x.1.now)) found
        ≡ result_ok (list_at change_at bytes.now)) }
{
    match u32le_field(bytes) {
        Ok((count, rest)) => so_many_of(alloc, count, rest),
        Err(_) => Ok(None),
    }
}

/// That many changes, if the bytes begin with them, and what stands behind. However many are told,
/// no memory is taken for those that aren't there.
fn so_many_of(
    alloc: Global,
    count: u32,
    bytes: &[u8],
) -> Result<Option<(List<Change>, &[u8])>, Memory>
    ensures { IfOk result (λ found. option_map (λ x. (x.0, x.1.now)) found
        ≡ result_ok (times change_at count bytes.now)) }
{
    let mut changes = List::new(alloc);
    let mut rest = bytes;
    for _ in 0..count {
        let Some((change, after)) = change_of(alloc, rest)? else {
            return Ok(None);
        };
        changes.push(change)?;
        rest = after;
    }
    Ok(Some((changes, rest)))
}
