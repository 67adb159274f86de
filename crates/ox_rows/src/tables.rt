//! Outputs and balances by outpoint.

ghost use Rattle.std.specs.Prelude.{◌≡◌, ◌++◌, All, IfOk, None, OnOk};
ghost use Rattle.std.specs.BTreeMap.{IsFromIterResult};
ghost use Rattle.std.specs.List.{AllByRecursion, flat_map};
ghost use Rattle.ox_bytes.specs.Reading.{GivesOrMemory};
ghost use Rattle.ox_block.specs.Spelling.{outpoint};
ghost use Rattle.ox_rules.specs.Outputs.{outpoint_cmp};
ghost use Rattle.ox_rows.specs.Fits.{FitsList};
ghost use Rattle.ox_rows.specs.RowFits.{FitsOutPoint};
ghost use Rattle.ox_rows.specs.Reading.{rising_at};
ghost use Rattle.ox_rows.specs.RowReading.{outpoint_at, outputs_at, placements_at};
ghost use Rattle.ox_rows.specs.Seen.{by_outpoint};
ghost use Rattle.ox_rows.specs.Spelling.{list};

use crate::put::put_count;
use crate::readable::Readable;
use crate::rising::rising_of;
use crate::writable::Writable;
use ox_allocation::Balances;
use ox_block::OutPoint;
use ox_bytes::{Bytes, Memory, ReadError, u32le_field};
use ox_rules::OutRow;
use std::alloc::{AllocError, Global};
use std::collections::BTreeMap;

/// A table of rows.
pub(crate) fn table_of<X: Drop>(
    alloc: Global,
    rows: Vec<(OutPoint, X)>,
) -> Result<BTreeMap<OutPoint, X>, AllocError>
    ensures { IfOk result (IsFromIterResult outpoint_cmp rows.items) }
{
    rows.into_iter().collect(alloc)
}

/// That many rows by their outpoints, which rise: the table is made of all of them at once, without
/// a search for each. `Memory` where there is none for them.
fn rising_table_of<X: Readable + Drop>(
    alloc: Global,
    count: u32,
    bytes: &[u8],
) -> Result<(BTreeMap<OutPoint, X>, &[u8]), ReadError>
    ensures { GivesOrMemory (λ x. (x.0.entries, x.1.now)) result
        (rising_at outpoint_cmp outpoint_at X.at None count bytes.now) }
{
    let (rows, rest) = rising_of(alloc, count, bytes)?;
    Ok((table_of(alloc, rows)?, rest))
}

/// Outputs: how many in 4 bytes, and these by rising outpoint.
#[tactic(auto, unfolding(crate::specs::RowReading::outputs_at))]
pub(crate) fn outputs_table_of(
    alloc: Global,
    bytes: &[u8],
) -> Result<(BTreeMap<OutPoint, OutRow>, &[u8]), ReadError>
    ensures { GivesOrMemory (λ x. (x.0.entries, x.1.now)) result (outputs_at bytes.now) }
{
    let (count, rest) = u32le_field(bytes)?;
    rising_table_of(alloc, count, rest)
}

/// Balances of outputs: how many outputs in 4 bytes, and these by rising outpoint.
#[tactic(auto, unfolding(crate::specs::RowReading::placements_at))]
pub(crate) fn placements_table_of(
    alloc: Global,
    bytes: &[u8],
) -> Result<(BTreeMap<OutPoint, Balances>, &[u8]), ReadError>
    ensures { GivesOrMemory (λ x. (x.0.entries, x.1.now)) result (placements_at bytes.now) }
{
    let (count, rest) = u32le_field(bytes)?;
    rising_table_of(alloc, count, rest)
}

/// Puts a table: how many outpoints in 4 bytes, and each, as they rise, with what is there.
/// `Memory` where there is none for it, and where they are more than 4 bytes can count.
pub(crate) fn put_table<X: Writable>(
    bytes: &mut Bytes,
    table: &BTreeMap<OutPoint, X>,
) -> Result<(), Memory>
    requires { All (λ e. X.keeps e.1) (by_outpoint table.now.entries) }
    ensures ok { OnOk result (bytes.new ≡ bytes.old
        ++ list (λ e. outpoint e.0 ++ X.spelling e.1) (by_outpoint table.now.entries)) }
    ensures fits { OnOk result
        (FitsList (λ e. FitsOutPoint e.0 × X.fits e.1) (by_outpoint table.now.entries)) }
{
    put_count(bytes, table.len())?;
    put_rows(bytes, table)
}

/// Puts each outpoint and what is there, without a count.
fn put_rows<X: Writable>(bytes: &mut Bytes, table: &BTreeMap<OutPoint, X>) -> Result<(), Memory>
    requires { AllByRecursion (λ e. X.keeps e.1) table.now.entries }
    ensures ok { OnOk result (bytes.new
        ≡ bytes.old ++ flat_map (λ e. outpoint e.0 ++ X.spelling e.1) table.now.entries) }
    ensures fits { OnOk result
        (AllByRecursion (λ e. FitsOutPoint e.0 × X.fits e.1) table.now.entries) }
{
    for (at, row) in table {
        at.put(bytes)?;
        row.put(bytes)?;
    }
    Ok(())
}
