//! The rows that a transaction spends.

ghost use Rattle.std.specs.Prelude.{◌≡◌, ◌≤◌, ◌^◌, [], length, IfOk, OnOk};
ghost use Rattle.std.specs.FinMap as map;
ghost use Rattle.ox_block.specs.Spelling.{most_bytes};
ghost use Rattle.ox_rules.specs.Outputs.{sats_of};
ghost use Rattle.ox_rules.specs.Transfer.{or_refuse, take_rows};
ghost use Rattle.ox_transfer.specs.Answer.{Answers};
ghost use Rattle.ox_transfer.specs.Apart.{Apart};
ghost use Rattle.ox_transfer.specs.Parts.{taken_of};

use ox_block::{OutPoint, TxIn};
use ox_range::Ranges;
use ox_rules::{OutRow, OutTable, Refusal, SpentRows, Why};
use std::alloc::Global;

/// Rows that were taken out of the table, and their satoshis, joined.
#[derive(Drop)]
pub(crate) struct TakenRows {
    pub(crate) rows: SpentRows,
    pub(crate) sats: Ranges,
}

/// Takes the row out that the input at this place names.
fn take_row<O: OutTable>(table: &mut O, tx: u32, input: u32, at: &OutPoint) -> Result<OutRow, Why>
    ensures row { Answers (λ row. row) result
        (or_refuse (Refusal.UnknownOutput tx input at.now)
        (map.get (O.contents table.old) at.now)) }
    ensures left { OnOk result (O.contents table.new ≡ map.remove (O.contents table.old) at.now) }
    ensures mark { O.marked table.new ≡ O.marked table.old }
{
    match table.take(at)? {
        Some(row) => Ok(row),
        None => Err(Why::Refused(Refusal::UnknownOutput { tx, input, at: *at })),
    }
}

/// Takes the rows out that the inputs of the transaction at this place name, in input order.
pub(crate) fn take_inputs<O: OutTable>(
    alloc: Global,
    table: &mut O,
    tx: u32,
    inputs: &[TxIn],
) -> Result<TakenRows, Why>
    requires few { length inputs.now ≤ most_bytes }
    requires apart { Apart (2 ^ 63) (O.contents table.old) [] }
    ensures taken { Answers (λ taken. taken_of taken.rows (O.contents table.new)) result
        (take_rows tx 0 inputs.now (O.contents table.old)) }
    ensures joined { IfOk result (λ taken. taken.sats ≡ sats_of taken.rows) }
    ensures mark { O.marked table.new ≡ O.marked table.old }
{
    let mut rows = SpentRows::new(alloc);
    let mut sats = Ranges::empty(alloc);
    for (place, input) in inputs.iter().enumerate() {
        let row = take_row(table, tx, place as u32, &input.from)?;
        sats.join(&row.sats)?;
        rows.push(row)?;
    }
    Ok(TakenRows { rows, sats })
}
