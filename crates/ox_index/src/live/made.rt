//! An index in memory, made from plain data.

ghost use Rattle.std.specs.Prelude.{◌≡◌, ◌≤◌, ℕ, IsTrue, IfOk};
ghost use Rattle.std.specs.FinMap.{from_entries, is_sorted};
ghost use Rattle.ox_block.specs.declared.block.OutPoint.{OutPoint};
ghost use Rattle.ox_rules.specs.Outputs.{outpoint_cmp, sats_held, times};
ghost use Rattle.ox_sat.specs.Profiles.{IsProfile};
ghost use Rattle.ox_ledger.specs.Balanced.{Balanced};
ghost use Rattle.ox_ledger.specs.Ledger.{mark_in, runes_in};
ghost use Rattle.ox_outputs.specs.Table.{rows_in};
ghost use Rattle.ox_model.specs.Index.{runes_of};
ghost use Rattle.ox_index.specs.Tables.{state_of};
ghost use Rattle.ox_index.specs.Parts.{held_in};
ghost use Rattle.ox_plain.specs.Plain.{index_in as stands};

use super::Live;
use crate::parts::{Parts, append};
use ox_allocation::Balances;
use ox_block::OutPoint;
use ox_bytes::{List, Memory};
use ox_inscribe::{SharedRow, Shelf};
use ox_ledger::{Ledger, Placement, RunePart};
use ox_model::{OutTable, RuneRow};
use ox_outputs::Outputs;
use ox_plain::Index;
use ox_range::Growing;
use ox_rules::OutRow;
use ox_sat::Profile;
use std::alloc::Global;
use std::collections::BTreeMap;
use std::mem;

impl Live {
    ghost use Rattle.std.specs.Prelude.{None};
    ghost use Rattle.ox_model.specs.Sound.{IsSound};
    ghost use Rattle.ox_index.specs.Live.{index_in, marked_in, profile_in};

    /// The index in memory that stands as this plain data, of a chain that counts by this profile;
    /// it has to be sound. There is no mark. Hashes and outputs are moved, inscriptions shared,
    /// lost satoshis, balances and runes copied, and each table of the plain data is dropped once
    /// it is read. `Memory` where there is none, or where there are 2^32 inscriptions.
    pub fn of(alloc: Global, p: &Profile, index: Index) -> Result<Live, Memory>
        requires known { IsProfile p.now }
        requires sound { IsSound p.now (stands index) }
        ensures profile { IfOk result (λ live. profile_in live ≡ p.now) }
        ensures index { IfOk result (λ live. index_in live ≡ stands index) }
        ensures no_mark { IfOk result (λ live. marked_in live ≡ None) }
    {
        let mut index = index;
        let hashes = mem::replace(&mut index.hashes, List::new(alloc));
        let lost = Growing::of(alloc, &index.lost)?;
        let parts = parts_of(alloc, p, index)?;
        Ok(Live::unmarked(alloc, hashes.into_vec(), parts, lost))
    }
}

/// The parts that hold what the tables of this plain data do. Its outputs hold no satoshi twice,
/// and its runes are balanced. `Memory` where there is none, or where there are 2^32 inscriptions.
fn parts_of(alloc: Global, p: &Profile, index: Index) -> Result<Parts, Memory>
    requires known { IsProfile p.now }
    requires once { (sat : ℕ) → times sat (sats_held (stands index).outs) ≤ 1 }
    requires balanced { Balanced (runes_of (stands index)) }
    ensures held { IfOk result (λ parts. held_in parts ≡ record {
      outs = (stands index).outs;
      inscriptions = index.inscriptions;
      runes = runes_of (stands index);
    }) }
    ensures profile { IfOk result (λ parts. parts.profile ≡ p.now) }
{
    let mut index = index;
    let outs = mem::replace(&mut index.outs, BTreeMap::new(alloc));
    let outputs = outputs_of(alloc, outs)?;
    let inscriptions = mem::replace(&mut index.inscriptions, List::new(alloc));
    let shelf = shelf_of(alloc, p.jubilee, inscriptions)?;
    let bal = mem::replace(&mut index.bal, BTreeMap::new(alloc));
    let runes = mem::replace(&mut index.runes, List::new(alloc));
    let ledger = ledger_of(alloc, p, bal, runes)?;
    Ok(Parts {
        alloc,
        profile: *p,
        outputs,
        shelf,
        ledger,
    })
}

/// The unspent outputs that have these rows, which are moved. They hold no satoshi twice. `Memory`
/// where there is none for them.
fn outputs_of(alloc: Global, rows: BTreeMap<OutPoint, OutRow>) -> Result<Outputs, Memory>
    requires { (sat : ℕ) → times sat (sats_held (from_entries rows.entries)) ≤ 1 }
    ensures { IfOk result (λ outputs. rows_in outputs ≡ from_entries rows.entries) }
{
    let mut rows = rows;
    let mut outputs = Outputs::new(alloc);
    while let Some((at, row)) = rows.pop_first() {
        outputs.place(&at, row)?;
    }
    outputs.begin()?;
    Ok(outputs)
}

/// The inscriptions in this order, which are shared. `Memory` where there is none for them, or
/// where there are 2^32.
fn shelf_of(alloc: Global, jubilee: u64, rows: List<SharedRow>) -> Result<Shelf, Memory>
    ensures rows { IfOk result (λ shelf. shelf.rows ≡ rows) }
    ensures jubilee { IfOk result (λ shelf. shelf.jubilee ≡ jubilee) }
{
    let mut shelf = Shelf::new(alloc, jubilee);
    append(&mut shelf, rows.as_slice())?;
    Ok(shelf)
}

/// The ledger of these runes, of which outputs hold so much; they are balanced. Nothing is due, and
/// its mark stands there. `Memory` where there is none for them.
fn ledger_of(
    alloc: Global,
    p: &Profile,
    bal: BTreeMap<OutPoint, Balances>,
    runes: List<RuneRow>,
) -> Result<Ledger, Memory>
    requires { Balanced (state_of bal.entries runes) }
    ensures runes { IfOk result (λ ledger. runes_in ledger ≡ state_of bal.entries runes) }
    ensures mark { IfOk result (λ ledger. mark_in ledger ≡ Some (state_of bal.entries runes)) }
    ensures profile { IfOk result (λ ledger. ledger.profile ≡ p.now) }
{
    let part = RunePart {
        before: List::new(alloc),
        after: listed(alloc, bal)?,
        counts: List::new(alloc),
        appended: runes,
    };
    let mut ledger = Ledger::empty(alloc, p);
    ledger.begin();
    ledger.again(&part)?;
    ledger.begin();
    Ok(ledger)
}

/// The entries of a table by rising outpoint, which are moved. `Memory` where there is none for the
/// list of them.
fn listed(alloc: Global, table: BTreeMap<OutPoint, Balances>) -> Result<List<Placement>, Memory>
    ensures entries { IfOk result (λ list. list ≡ table.entries) }
    ensures rising { IfOk result (λ list. IsTrue (is_sorted outpoint_cmp list)) }
{
    let mut table = table;
    let mut list = Vec::with_capacity(alloc, table.len())?;
    while let Some(entry) = table.pop_first() {
        list.push(entry)?;
    }
    Ok(List::from_vec(list))
}
