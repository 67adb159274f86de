//! The index in memory as plain data.

ghost use Rattle.std.specs.Prelude.{◌≡◌, IsTrue, IsSome, IfOk, OnOk};
ghost use Rattle.std.specs.BTreeMap.{insert_entry};
ghost use Rattle.std.specs.FinMap.{find, from_entries, get, is_sorted};
ghost use Rattle.ox_block.specs.declared.block.OutPoint.{OutPoint};
ghost use Rattle.ox_rules.specs.Outputs.{outpoint_cmp};
ghost use Rattle.ox_allocation.specs.Dealing.{IsPool};
ghost use Rattle.ox_ledger.specs.Ledger.{runes_in};
ghost use Rattle.ox_outputs.specs.Table.{rows_in};
ghost use Rattle.ox_index.specs.Tables.{with_some};

use super::Live;
use ox_allocation::{Balances, Pool};
use ox_block::OutPoint;
use ox_bytes::{List, Memory};
use ox_ledger::Ledger;
use ox_model::RuneRow;
use ox_outputs::{InOrder, Outputs};
use ox_plain::Index;
use ox_range::Ranges;
use ox_rules::OutRow;
use ox_runestone::RuneId;
use std::alloc::Global;
use std::collections::BTreeMap;

impl Live {
    ghost use Rattle.ox_index.specs.Live.{index_in as shown};
    ghost use Rattle.ox_plain.specs.Plain.{index_in as stands};

    /// The index as plain data: all that counts of it, and no mark. Inscriptions are shared, all
    /// else is copied. It costs a sort of the outputs, and a look-up of the runes that each of them
    /// holds. `Memory` where there is none for it.
    pub fn plain(&self) -> Result<Index, Memory>
        ensures { IfOk result (λ plain. stands plain ≡ shown self.now) }
    {
        let (outs, bal) = tables_of(self.alloc, &self.parts.outputs, &self.parts.ledger)?;
        let inscriptions = self.parts.shelf.rows_from(0)?;
        let runes = runes_of(self.alloc, &self.parts.ledger)?;
        let (hashes, lost) = self.lists()?;
        Ok(Index {
            hashes,
            outs,
            lost,
            inscriptions,
            bal,
            runes,
        })
    }

    /// What counts of the blocks' hashes and of the lost satoshis. `Memory` where there is none for
    /// them.
    fn lists(&self) -> Result<(List<[u8; 32]>, Ranges), Memory>
        ensures hashes { IfOk result (λ lists. lists.0 ≡ (shown self.now).hashes) }
        ensures lost { IfOk result (λ lists. lists.1 ≡ (shown self.now).lost) }
    {
        let lost = self.lost.front(self.shown.lost)?;
        let hashes = Vec::from_slice(self.alloc, self.hashes())?;
        Ok((List::from_vec(hashes), lost))
    }
}

/// The outputs by outpoint, and what they hold of runes. No other output holds any. `Memory` where
/// there is none for them.
fn tables_of(
    alloc: Global,
    outputs: &Outputs,
    ledger: &Ledger,
) -> Result<(BTreeMap<OutPoint, OutRow>, BTreeMap<OutPoint, Balances>), Memory>
    requires { (at : OutPoint) → IsSome (get (runes_in ledger.now).bal at)
        → IsSome (get (rows_in outputs.now) at) }
    ensures outs { IfOk result (λ tables. from_entries tables.0.entries ≡ rows_in outputs.now) }
    ensures balances { IfOk result
        (λ tables. from_entries tables.1.entries ≡ (runes_in ledger.now).bal) }
{
    let order = outputs.in_order()?;
    let outs = table_of(alloc, &order)?;
    let bal = balances_of(alloc, &order, ledger)?;
    Ok((outs, bal))
}

/// Rows by rising outpoint as a table. `Memory` where there is none for it.
fn table_of(alloc: Global, order: &InOrder<'_>) -> Result<BTreeMap<OutPoint, OutRow>, Memory>
    requires { IsTrue (is_sorted outpoint_cmp order.now) }
    ensures { IfOk result (λ table. table.entries ≡ order.now) }
{
    let mut table = BTreeMap::new(alloc);
    for n in 0..order.len() {
        if let Some((at, row)) = order.get(n) {
            put_row(alloc, &mut table, *at, row)?;
        }
    }
    Ok(table)
}

/// Puts a copy of a row into a table. `Memory` where there is none for it.
fn put_row(
    alloc: Global,
    table: &mut BTreeMap<OutPoint, OutRow>,
    at: OutPoint,
    row: &OutRow,
) -> Result<(), Memory>
    ensures { OnOk result
        (table.new.entries ≡ insert_entry outpoint_cmp table.old.entries at row.now) }
{
    table.insert(at, row.copy(alloc)?)?;
    Ok(())
}

/// What these outputs hold of runes, by outpoint, where no other output holds any. `Memory` where
/// there is none for it.
fn balances_of(
    alloc: Global,
    order: &InOrder<'_>,
    ledger: &Ledger,
) -> Result<BTreeMap<OutPoint, Balances>, Memory>
    requires { (at : OutPoint) → IsSome (get (runes_in ledger.now).bal at)
        → IsSome (find outpoint_cmp at order.now) }
    ensures { IfOk result (λ table. from_entries table.entries ≡ (runes_in ledger.now).bal) }
{
    let mut table = BTreeMap::new(alloc);
    for n in 0..order.len() {
        if let Some((at, _)) = order.get(n) {
            put_held(alloc, &mut table, *at, ledger.balance(at))?;
        }
    }
    Ok(table)
}

/// Puts what an output holds of runes into a table, if it holds any. `Memory` where there is none
/// for it.
fn put_held(
    alloc: Global,
    table: &mut BTreeMap<OutPoint, Balances>,
    at: OutPoint,
    held: &[(RuneId, u128)],
) -> Result<(), Memory>
    requires { IsPool held.now }
    ensures { OnOk result (from_entries {R = outpoint_cmp} table.new.entries
        ≡ with_some (from_entries table.old.entries) at held.now) }
{
    if !held.is_empty() {
        table.insert(at, copy_of(alloc, held)?)?;
    }
    Ok(())
}

/// What an output holds of runes, once more. `Memory` where there is none for it.
fn copy_of(alloc: Global, held: &[(RuneId, u128)]) -> Result<Balances, Memory>
    requires { IsPool held.now }
    ensures { IfOk result (λ copy. copy ≡ held.now) }
{
    let mut pool = Pool::new(alloc);
    for (id, amount) in held {
        pool.add(*id, *amount)?;
    }
    pool.into_balances(alloc)
}

/// The runes by their etchings. `Memory` where there is none for the list of them.
fn runes_of(alloc: Global, ledger: &Ledger) -> Result<List<RuneRow>, Memory>
    ensures { IfOk result (λ runes. runes ≡ (runes_in ledger.now).runes) }
{
    let mut runes = List::new(alloc);
    for n in 0..ledger.len() {
        runes.push(*ledger.rune(n))?;
    }
    Ok(runes)
}
