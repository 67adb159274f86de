//! The rows that a transaction makes.

ghost use Rattle.std.specs.Prelude.{◌≡◌, ◌≤◌, ◌^◌, ◌++◌, [], length, reverse, IfOk, OnOk};
ghost use Rattle.std.specs.FinMap as map;
ghost use Rattle.ox_block.specs.Spelling.{most_bytes};
ghost use Rattle.ox_rules.specs.Outputs.{sats_of};
ghost use Rattle.ox_rules.specs.Transfer.{as_list, place_rows};
ghost use Rattle.ox_transfer.specs.Apart.{Apart};
ghost use Rattle.ox_rules.specs.Deal.{all_parts};
ghost use Rattle.ox_transfer.specs.Parts.{placed_of};

use crate::so_far::MovedSoFar;
use ox_block::{OutPoint, TxOut, Txid};
use ox_range::Ranges;
use ox_rules::{Memory, OutRow, OutTable};

/// Places a row. One that it displaces goes to the displaced ones, and its satoshis are lost.
fn place_row<O: OutTable>(
    table: &mut O,
    at: OutPoint,
    row: OutRow,
    displaced: &mut Vec<OutRow>,
    lost: &mut Ranges,
) -> Result<(), Memory>
    requires apart { Apart (2 ^ 63) (O.contents table.old) (row.sats ++ lost.old) }
    ensures table { OnOk result (O.contents table.new ≡ map.insert (O.contents table.old) at row) }
    ensures rows { OnOk result
        (displaced.new.items
        ≡ displaced.old.items ++ as_list (map.get (O.contents table.old) at)) }
    ensures lost { OnOk result
        (lost.new ≡ lost.old ++ sats_of (as_list (map.get (O.contents table.old) at))) }
    ensures mark { O.marked table.new ≡ O.marked table.old }
{
    if let Some(old) = table.place(&at, row)? {
        lost.join(&old.sats)?;
        displaced.push(old)?;
    }
    Ok(())
}

/// Places the outputs of a transaction in order, each with its part of the satoshis, of which the
/// last output's is the first, and leaves no part. It answers the rows that are displaced, whose
/// satoshis are lost.
pub(crate) fn place_outputs<O: OutTable>(
    table: &mut O,
    txid: Txid,
    outputs: &[TxOut],
    so_far: &mut MovedSoFar,
) -> Result<Vec<OutRow>, Memory>
    requires few { length outputs.now ≤ most_bytes }
    requires each { length (reverse so_far.old.parts.items) ≡ length outputs.now }
    requires apart { Apart (2 ^ 63) (O.contents table.old)
        (all_parts (reverse so_far.old.parts.items) ++ so_far.old.lost) }
    ensures rows { IfOk result
        (λ displaced. place_rows so_far.old.height txid 0 outputs.now
        (reverse so_far.old.parts.items) (O.contents table.old)
        ≡ placed_of displaced.items (O.contents table.new)) }
    ensures lost { IfOk result
        (λ displaced. so_far.new.lost ≡ so_far.old.lost ++ sats_of displaced.items) }
    ensures emptied { OnOk result (so_far.new.parts.items ≡ []) }
    ensures others { OnOk result (so_far.new
        ≡ record so_far.old { lost = so_far.new.lost; parts = so_far.new.parts }) }
    ensures mark { O.marked table.new ≡ O.marked table.old }
{
    let mut displaced = Vec::new(so_far.alloc);
    for (index, output) in outputs.iter().enumerate() {
        let Some(sats) = so_far.parts.pop() else {
            unreachable!()
        };
        let row = OutRow {
            script: output.script.try_clone(so_far.alloc)?,
            height: so_far.height,
            sats,
        };
        let at = OutPoint {
            txid,
            index: index as u32,
        };
        place_row(table, at, row, &mut displaced, &mut so_far.lost)?;
    }
    Ok(displaced)
}
