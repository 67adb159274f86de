//! To the other end of a change.

ghost use Rattle.std.specs.Prelude.{◌≡◌, ◌-◌, false, ◌&&◌, ◌∷◌, [], length, take, is_some};
ghost use Rattle.std.specs.Prelude.{bytes_eq, IfOk, OnOk};
ghost use Rattle.std.specs.Option.{IfSome};
ghost use Rattle.std.specs.Bool.{OnFalse, OnTrue};
ghost use Rattle.std.specs.List.{ends_with};
ghost use Rattle.ox_ledger.specs.Part.{counts_at, earlier_end, later_end};
ghost use Rattle.ox_model.specs.Change.{outputs_changed, redone, undone};
ghost use Rattle.ox_model.specs.Index.{runes_of};
ghost use Rattle.ox_plain.specs.Ends.{begins_in, counts_stand, difference_ends, earlier_runes};
ghost use Rattle.ox_plain.specs.Ends.{ends_in, is_at_end, other_side, part_begins, part_ends};
ghost use Rattle.ox_plain.specs.Plain.{index_in};
ghost use Rattle.ox_plain.specs.Same.{same_inscription, same_output, same_rune};
ghost use Rattle.ox_plain.specs.Tables.{runes_in};

use crate::counts::{counts_stand, recount_all};
use crate::index::Index;
use crate::lists::{cut, cut_sats, ends_with, push_again, push_all, push_sats};
use crate::tables::{difference_ends, exchange};
use ox_allocation::Balances;
use ox_block::OutPoint;
use ox_bytes::{List, Memory};
use ox_etching::RuneRow;
use ox_ledger::RunePart;
use ox_model::Change;
use std::alloc::Global;
use std::collections::BTreeMap;

/// Balances by outpoint.
type Table = BTreeMap<OutPoint, Balances>;

impl Index {
    /// Goes to the other end of a change: where `back` is true, to the index before a change that
    /// ends in this one, else to the index after a change that begins in this one. `false` exactly
    /// where the change doesn't end here, or doesn't begin here: the index is as before. It costs
    /// by the change, and by the logarithm of a table for each of its rows. `Memory` where there is
    /// none left, and where the index would have more lost satoshis than a `u64` counts: the index
    /// is to be dropped then.
    pub fn step(&mut self, alloc: Global, change: &Change, back: bool) -> Result<bool, Memory>
        ensures told { IfOk result
            (λ is. is ≡ is_at_end back (index_in self.old) change.now) }
        ensures leads { IfOk result (λ is. OnTrue is
            (index_in self.new ≡ other_side back (index_in self.old) change.now)) }
        ensures stays { IfOk result (λ is. OnFalse is (index_in self.new ≡ index_in self.old)) }
    {
        if back {
            self.undo(alloc, change)
        } else {
            self.redo(alloc, change)
        }
    }

    /// Whether a change ends in this index, but for the satoshis that it lost.
    fn has_at_end(&self, change: &Change) -> bool
        ensures { result ≡ (ends_with bytes_eq self.now.hashes (change.now.hash ∷ [])
            && (difference_ends same_output (index_in self.now).outs (outputs_changed change.now)
            && (ends_with same_inscription self.now.inscriptions change.now.inscriptions
            && part_ends (runes_of (index_in self.now)) change.now.runes))) }
    {
        self.hashes.as_slice().ends_with(&[change.hash])
            && difference_ends(&self.outs, change.gone.as_slice(), change.came.as_slice())
            && ends_with(self.inscriptions.as_slice(), change.inscriptions.as_slice())
            && part_ends(&self.bal, &self.runes, &change.runes)
    }

    /// Goes back to the index before a change that ends in this one.
    fn undo(&mut self, alloc: Global, change: &Change) -> Result<bool, Memory>
        ensures told { IfOk result (λ is. is ≡ ends_in (index_in self.old) change.now) }
        ensures leads { IfOk result (λ is. OnTrue is
            (index_in self.new ≡ undone (index_in self.old) change.now)) }
        ensures stays { IfOk result (λ is. OnFalse is (index_in self.new ≡ index_in self.old)) }
    {
        if !self.has_at_end(change) || !cut_sats(&mut self.lost, &change.lost)? {
            return Ok(false);
        }
        cut_last(alloc, &mut self.hashes, 1);
        cut_last(alloc, &mut self.inscriptions, change.inscriptions.len());
        exchange(
            alloc,
            &mut self.outs,
            change.came.as_slice(),
            change.gone.as_slice(),
        )?;
        undo_runes(alloc, &mut self.bal, &mut self.runes, &change.runes)?;
        Ok(true)
    }

    /// Whether a change begins in this index.
    fn has_at_start(&self, change: &Change) -> bool
        ensures { result ≡ begins_in (index_in self.now) change.now }
    {
        difference_ends(&self.outs, change.came.as_slice(), change.gone.as_slice())
            && part_begins(&self.bal, &self.runes, &change.runes)
    }

    /// Goes on to the index after a change that begins in this one.
    fn redo(&mut self, alloc: Global, change: &Change) -> Result<bool, Memory>
        ensures told { IfOk result (λ is. is ≡ begins_in (index_in self.old) change.now) }
        ensures leads { IfOk result (λ is. OnTrue is
            (index_in self.new ≡ redone (index_in self.old) change.now)) }
        ensures stays { IfOk result (λ is. OnFalse is (index_in self.new ≡ index_in self.old)) }
    {
        if !self.has_at_start(change) {
            return Ok(false);
        }
        self.hashes.push(change.hash)?;
        push_sats(&mut self.lost, &change.lost)?;
        push_again(
            alloc,
            &mut self.inscriptions,
            change.inscriptions.as_slice(),
        )?;
        exchange(
            alloc,
            &mut self.outs,
            change.gone.as_slice(),
            change.came.as_slice(),
        )?;
        redo_runes(alloc, &mut self.bal, &mut self.runes, &change.runes)?;
        Ok(true)
    }
}

/// The index at the other end of a change, if the change ends in this one (`back`), or begins in
/// it. This one stays. It costs by the index. `Memory` where there is none for it, and where it
/// would have more lost satoshis than a `u64` counts.
pub fn other_end(
    alloc: Global,
    index: &Index,
    change: &Change,
    back: bool,
) -> Result<Option<Index>, Memory>
    ensures told { IfOk result (λ other.
        is_some other ≡ is_at_end back (index_in index.now) change.now) }
    ensures is { IfOk result (λ other. IfSome other (λ found.
        index_in found ≡ other_side back (index_in index.now) change.now)) }
{
    let mut other = index.copy(alloc)?;
    if other.step(alloc, change, back)? {
        Ok(Some(other))
    } else {
        Ok(None)
    }
}

/// Takes so many values off the end of a list, or all where it has fewer.
fn cut_last<T: Drop>(alloc: Global, list: &mut List<T>, count: usize)
    ensures { list.new ≡ take (length list.old - count) list.old }
{
    let left = list.len().saturating_sub(count);
    cut(alloc, list, left);
}

/// Whether a part ends in these balances and runes.
fn part_ends(bal: &Table, runes: &List<RuneRow>, part: &RunePart) -> bool
    ensures { result ≡ part_ends (runes_in bal.now.entries runes.now) part.now }
{
    difference_ends(bal, part.before.as_slice(), part.after.as_slice())
        && runes_end(runes.as_slice(), part)
}

/// Whether runes end with those that a part appended, and the others are as after it.
fn runes_end(runes: &[RuneRow], part: &RunePart) -> bool
    ensures { result ≡ (ends_with same_rune runes.now part.now.appended
        && counts_stand (counts_at false) (earlier_runes runes.now part.now) part.now.counts) }
{
    let appended = part.appended.as_slice();
    if !runes.ends_with(appended) {
        return false;
    }
    let left = runes.len() - appended.len();
    counts_stand(&runes[..left], part.counts.as_slice(), false)
}

/// Whether a part begins in these balances and runes.
fn part_begins(bal: &Table, runes: &List<RuneRow>, part: &RunePart) -> bool
    ensures { result ≡ part_begins (runes_in bal.now.entries runes.now) part.now }
{
    difference_ends(bal, part.after.as_slice(), part.before.as_slice())
        && counts_stand(runes.as_slice(), part.counts.as_slice(), true)
}

/// Goes back to the balances and runes before a part. After `Memory` a part of that may be done.
fn undo_runes(
    alloc: Global,
    bal: &mut Table,
    runes: &mut List<RuneRow>,
    part: &RunePart,
) -> Result<(), Memory>
    ensures { OnOk result (runes_in bal.new.entries runes.new
        ≡ earlier_end (runes_in bal.old.entries runes.old) part.now) }
{
    cut_last(alloc, runes, part.appended.len());
    recount_all(alloc, runes, part.counts.as_slice(), true);
    exchange(alloc, bal, part.after.as_slice(), part.before.as_slice())
}

/// Goes on to the balances and runes after a part. After `Memory` a part of that may be done.
fn redo_runes(
    alloc: Global,
    bal: &mut Table,
    runes: &mut List<RuneRow>,
    part: &RunePart,
) -> Result<(), Memory>
    ensures { OnOk result (runes_in bal.new.entries runes.new
        ≡ later_end (runes_in bal.old.entries runes.old) part.now) }
{
    recount_all(alloc, runes, part.counts.as_slice(), false);
    push_all(runes, part.appended.as_slice())?;
    exchange(alloc, bal, part.before.as_slice(), part.after.as_slice())
}
