//! What a block reveals.

ghost use Rattle.std.specs.Prelude.{◌≡◌, ◌-◌, ◌<◌, ◌≤◌, ◌++◌, ◌∷◌, [], not, length, take};
ghost use Rattle.std.specs.Prelude.{drop, reverse, All, IfOk, OnOk};
ghost use Rattle.std.specs.List.{AllZip, list_any};
ghost use Rattle.ox_inscribe.specs.Moves.{AreMovesOf, IsMoveOf};
ghost use Rattle.ox_inscribe.specs.Reveal.{goes_to_fees, revealed_by, revealed_by_all};
ghost use Rattle.ox_inscribe.specs.Reveal.{revealed_from, reveal_of};
ghost use Rattle.ox_inscribe.specs.Reveal.{revealing_all, revealing_of, row_of, rows_of};
ghost use Rattle.ox_inscribe.specs.Scenes.{fees_of, revealing, rows_if};

use crate::parents::{bears, parents_among};
use crate::row::InsRow;
use crate::rows::Rows;
use crate::scene::Scene;
use crate::shared::SharedRow;
use crate::sightings::{Sighting, sightings_of};
use ox_block::{Block, Tx};
use ox_bytes::Memory;
use ox_envelope::InsId;
use ox_range_index::RangeIndex;
use ox_rules::{Moved, MovedTx, value_sum};
use std::alloc::Global;

/// The row of an envelope. So many of the rows stood before its transaction, and the others are
/// those of the transaction's envelopes before it.
fn row_of(
    alloc: Global,
    scene: &Scene<'_>,
    rows: &Rows,
    before: u32,
    seen: Sighting,
) -> Result<SharedRow, Memory>
    requires before { before ≤ length rows.now.rows }
    requires marks { seen.says.marks < 128 }
    ensures { IfOk result (λ row. row
        ≡ row_of (revealing scene.now) (take before rows.now.rows) rows.now.rows
        (length rows.now.rows - before) seen) }
{
    let named = seen.says.parents.as_slice();
    let parents = parents_among(alloc, &scene.joined, rows, before, named)?;
    let sat = scene.sat_of(&seen);
    let marks = seen.marks(bears(rows, sat));
    let says = seen.says;
    let row = InsRow {
        id: InsId {
            txid: scene.txid.0,
            index: rows.len() - before,
        },
        height: scene.height,
        content_type: says.content_type,
        body: says.body,
        metadata: says.metadata,
        metaprotocol: says.metaprotocol,
        encoding: says.encoding,
        pointer: says.pointer,
        delegate: says.delegate,
        parents,
        marks,
        sat,
    };
    SharedRow::new(alloc, row)
}

/// Puts the row of an envelope behind the others, and whether its satoshi goes to the fees behind
/// those of the block's rows. `Memory` also where there would be 2^32 rows.
fn reveal_one(
    alloc: Global,
    rows: &mut Rows,
    fees: &mut Vec<bool>,
    scene: &Scene<'_>,
    before: u32,
    seen: Sighting,
) -> Result<(), Memory>
    requires before { before ≤ length rows.old.rows }
    requires marks { seen.says.marks < 128 }
    ensures rows { OnOk result (rows.new.rows ≡ rows.old.rows
        ++ row_of (revealing scene.now) (take before rows.old.rows) rows.old.rows
        (length rows.old.rows - before) seen ∷ []) }
    ensures fees { OnOk result (fees.new.items
        ≡ fees.old.items ++ goes_to_fees (revealing scene.now) seen ∷ []) }
    ensures front { take (length rows.old.rows) rows.new.rows ≡ rows.old.rows }
    ensures jubilee { rows.new.jubilee ≡ rows.old.jubilee }
{
    let in_fees = scene.goes_to_fees(&seen);
    let row = row_of(alloc, scene, rows, before, seen)?;
    rows.push(row)?;
    fees.push(in_fees)?;
    Ok(())
}

/// Puts the rows of a transaction's envelopes behind the others, which all stood before it.
fn reveal_seen(
    alloc: Global,
    rows: &mut Rows,
    fees: &mut Vec<bool>,
    scene: &Scene<'_>,
    mut seen: Vec<Sighting>,
) -> Result<(), Memory>
    requires marks { All (λ one. one.says.marks < 128) seen.items }
    ensures rows { OnOk result (rows.new.rows ≡ rows.old.rows ++ rows_of
        (revealed_from (revealing scene.now) rows.old.rows rows.old.rows 0 seen.items)) }
    ensures fees { OnOk result (fees.new.items ≡ fees.old.items ++ fees_of
        (revealed_from (revealing scene.now) rows.old.rows rows.old.rows 0 seen.items)) }
    ensures front { take (length rows.old.rows) rows.new.rows ≡ rows.old.rows }
    ensures jubilee { rows.new.jubilee ≡ rows.old.jubilee }
{
    let before = rows.len();
    seen.reverse();
    while let Some(one) = seen.pop() {
        reveal_one(alloc, rows, fees, scene, before, one)?;
    }
    Ok(())
}

/// Puts the rows that a transaction reveals behind the others. One without an envelope costs a look
/// at its witnesses.
fn reveal_tx(
    alloc: Global,
    rows: &mut Rows,
    fees: &mut Vec<bool>,
    tx: &Tx,
    did: &MovedTx,
    height: u32,
) -> Result<(), Memory>
    requires moved { IsMoveOf tx.now did.now }
    ensures rows { OnOk result (rows.new.rows ≡ rows.old.rows
        ++ rows_of (revealed_by rows.old.rows (revealing_of height tx.now did.now))) }
    ensures fees { OnOk result (fees.new.items ≡ fees.old.items
        ++ fees_of (revealed_by rows.old.rows (revealing_of height tx.now did.now))) }
    ensures front { take (length rows.old.rows) rows.new.rows ≡ rows.old.rows }
    ensures jubilee { rows.new.jubilee ≡ rows.old.jubilee }
{
    let held = did.joined.len();
    let seen = sightings_of(alloc, tx.inputs.as_slice(), did.spent.as_slice(), held)?;
    if seen.is_empty() {
        return Ok(());
    }
    let scene = Scene {
        txid: did.txid,
        height,
        joined: RangeIndex::new(alloc, &did.joined)?,
        taken: value_sum(tx.outputs.as_slice()),
    };
    reveal_seen(alloc, rows, fees, &scene, seen)
}

/// Puts the rows that transactions reveal behind the others, in the order of their envelopes, and
/// answers of each whether its satoshi goes to the fees.
fn reveal_txs(
    alloc: Global,
    rows: &mut Rows,
    txs: &[Tx],
    moved: &[MovedTx],
    height: u32,
) -> Result<Vec<bool>, Memory>
    requires moved { AllZip IsMoveOf txs.now moved.now }
    ensures rows { OnOk result (rows.new.rows ≡ rows.old.rows
        ++ rows_of (revealed_by_all rows.old.rows (revealing_all height txs.now moved.now))) }
    ensures fees { IfOk result (λ fees. fees.items
        ≡ fees_of (revealed_by_all rows.old.rows (revealing_all height txs.now moved.now))) }
    ensures front { take (length rows.old.rows) rows.new.rows ≡ rows.old.rows }
    ensures jubilee { rows.new.jubilee ≡ rows.old.jubilee }
{
    let mut fees = Vec::new(alloc);
    for (place, tx) in txs.iter().enumerate() {
        reveal_tx(alloc, rows, &mut fees, tx, &moved[place], height)?;
    }
    Ok(fees)
}

/// All but the first.
fn behind_first<T>(all: &[T]) -> &[T]
    ensures { result.now ≡ drop 1 all.now }
{
    match all.split_first() {
        Some((_, rest)) => rest,
        None => all,
    }
}

/// Takes the last rows away and gives them from the last to the first: those whose flag isn't set,
/// and those whose flag is.
fn take_apart(
    alloc: Global,
    rows: &mut Rows,
    fees: &[bool],
) -> Result<(Vec<SharedRow>, Vec<SharedRow>), Memory>
    requires each { length fees.now ≤ length rows.old.rows }
    ensures kept { IfOk result (λ parts. parts.0.items ≡ reverse
        (rows_if not fees.now (drop (length rows.old.rows - length fees.now) rows.old.rows))) }
    ensures gone { IfOk result (λ parts. parts.1.items ≡ reverse
        (rows_if (λ fee. fee) fees.now
        (drop (length rows.old.rows - length fees.now) rows.old.rows))) }
    ensures rows { OnOk result
        (rows.new.rows ≡ take (length rows.old.rows - length fees.now) rows.old.rows) }
    ensures front { take (length rows.old.rows - length fees.now) rows.new.rows
        ≡ take (length rows.old.rows - length fees.now) rows.old.rows }
    ensures jubilee { rows.new.jubilee ≡ rows.old.jubilee }
{
    let mut kept = Vec::new(alloc);
    let mut gone = Vec::new(alloc);
    for behind in 0..fees.len() {
        let Some(row) = rows.pop() else {
            unreachable!()
        };
        if fees[fees.len() - 1 - behind] {
            gone.push(row)?;
        } else {
            kept.push(row)?;
        }
    }
    Ok((kept, gone))
}

/// Whether a flag is set.
fn any_set(fees: &[bool]) -> bool
    ensures { result ≡ list_any (λ fee. fee) fees.now }
{
    fees.iter().any(|fee| *fee)
}

/// Puts rows behind others, the last of them first.
fn put_back(rows: &mut Rows, mut more: Vec<SharedRow>) -> Result<(), Memory>
    ensures rows { OnOk result (rows.new.rows ≡ rows.old.rows ++ reverse more.items) }
    ensures front { take (length rows.old.rows) rows.new.rows ≡ rows.old.rows }
    ensures jubilee { rows.new.jubilee ≡ rows.old.jubilee }
{
    while let Some(row) = more.pop() {
        rows.push(row)?;
    }
    Ok(())
}

/// Puts the last rows into their order: those whose satoshi goes to the fees come last.
fn put_in_order(alloc: Global, rows: &mut Rows, fees: &[bool]) -> Result<(), Memory>
    requires each { length fees.now ≤ length rows.old.rows }
    ensures rows { OnOk result (let start = length rows.old.rows - length fees.now in
        rows.new.rows ≡ take start rows.old.rows
        ++ (rows_if not fees.now (drop start rows.old.rows)
        ++ rows_if (λ fee. fee) fees.now (drop start rows.old.rows))) }
    ensures front { take (length rows.old.rows - length fees.now) rows.new.rows
        ≡ take (length rows.old.rows - length fees.now) rows.old.rows }
    ensures jubilee { rows.new.jubilee ≡ rows.old.jubilee }
{
    if !any_set(fees) {
        return Ok(());
    }
    let (kept, gone) = take_apart(alloc, rows, fees)?;
    put_back(rows, kept)?;
    put_back(rows, gone)
}

/// Puts the rows that a block reveals behind the others. `Memory` where there is none for them: the
/// others still stand in front.
pub(crate) fn reveal_rows(
    alloc: Global,
    rows: &mut Rows,
    moved: &Moved,
    block: &Block,
    height: u32,
) -> Result<(), Memory>
    requires moved { AreMovesOf block.now.txs moved.now.txs }
    ensures rows { OnOk result (rows.new.rows ≡ rows.old.rows
        ++ reveal_of rows.old.rows height block.now.txs moved.now.txs) }
    ensures front { take (length rows.old.rows) rows.new.rows ≡ rows.old.rows }
    ensures jubilee { rows.new.jubilee ≡ rows.old.jubilee }
{
    let txs = behind_first(block.txs.as_slice());
    let moved = behind_first(moved.txs.as_slice());
    rows.expect(txs, moved);
    let fees = reveal_txs(alloc, rows, txs, moved, height)?;
    put_in_order(alloc, rows, &fees)
}
