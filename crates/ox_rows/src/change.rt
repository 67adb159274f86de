//! A change as rows.

ghost use Rattle.std.specs.Prelude.{◌≡◌, ◌++◌, List, ℕ, length, IfOk, OnOk, Ok};
ghost use Rattle.ox_bytes.specs.Reading.{GivesOrMemory, run_at};
ghost use Rattle.ox_model.specs.declared.change.Change.{Change};
ghost use Rattle.ox_rows.specs.Answer.{Answers, BeginWith, front_of};
ghost use Rattle.ox_rows.specs.Reading.{four_at, sats_at};
ghost use Rattle.ox_rows.specs.RowFits.{FitsChange, KeepsChange};
ghost use Rattle.ox_rows.specs.RowReading.{change_at, counts_at, outputs_at, placements_at};
ghost use Rattle.ox_rows.specs.RowReading.{runes_at};
ghost use Rattle.ox_rows.specs.RowSpelling.{change_rows};

use crate::balances::placements_of;
use crate::counts::counts_of;
use crate::fault::RowsFault;
use crate::lists::list_of;
use crate::outputs::outputs_of;
use crate::put::put_list;
use crate::readable::Readable;
use crate::sats::{put_sats, sats_of};
use ox_bytes::{Bytes, Memory, ReadError};
use ox_ledger::RunePart;
use ox_model::Change;
use ox_range::Ranges;
use ox_rules::TableRows;
use std::alloc::Global;

/// What a change begins with: its block's hash, the outputs that go, those that come, and the
/// satoshis that are lost.
#[tactic(auto, unfolding(crate::specs::Reading::four_at))]
fn begin_of(
    alloc: Global,
    bytes: &[u8],
) -> Result<(([u8; 32], TableRows, TableRows, Ranges), &[u8]), ReadError>
    ensures { GivesOrMemory (λ x. (x.0, x.1.now)) result
        (four_at (run_at 32) outputs_at outputs_at sats_at bytes.now) }
{
    let (hash, rest) = <[u8; 32] as Readable>::read(alloc, bytes)?;
    let (gone, rest) = outputs_of(alloc, rest)?;
    let (came, rest) = outputs_of(alloc, rest)?;
    let (lost, rest) = sats_of(alloc, rest)?;
    Ok(((hash, gone, came, lost), rest))
}

/// What a change says of runes.
#[tactic(auto, unfolding(crate::specs::Reading::four_at))]
fn runes_of(alloc: Global, bytes: &[u8]) -> Result<(RunePart, &[u8]), ReadError>
    ensures { GivesOrMemory
        (λ x. ((x.0.before, x.0.after, x.0.counts, x.0.appended), x.1.now)) result
        (four_at placements_at placements_at counts_at runes_at bytes.now) }
{
    let (before, rest) = placements_of(alloc, bytes)?;
    let (after, rest) = placements_of(alloc, rest)?;
    let (counts, rest) = counts_of(alloc, rest)?;
    let (appended, rest) = list_of(alloc, rest)?;
    let runes = RunePart {
        before,
        after,
        counts,
        appended,
    };
    Ok((runes, rest))
}

fn change_of(alloc: Global, bytes: &[u8]) -> Result<(Change, &[u8]), ReadError>
    ensures { GivesOrMemory (λ x. (x.0, x.1.now)) result (change_at bytes.now) }
{
    let ((hash, gone, came, lost), rest) = begin_of(alloc, bytes)?;
    let (inscriptions, rest) = list_of(alloc, rest)?;
    let (runes, rest) = runes_of(alloc, rest)?;
    let change = Change {
        hash,
        gone,
        came,
        lost,
        inscriptions,
        runes,
    };
    Ok((change, rest))
}

fn change_or_place(alloc: Global, bytes: &[u8]) -> Result<(Change, usize), RowsFault>
    ensures { Answers (λ x. x) result (front_of change_at bytes.now) }
{
    match change_of(alloc, bytes) {
        Ok((change, rest)) => Ok((change, bytes.len().saturating_sub(rest.len()))),
        Err(ReadError::Memory) => Err(RowsFault::Memory),
        Err(ReadError::Fault(fault)) => Err(RowsFault::NotRows {
            at: bytes.len().saturating_sub(fault.left),
        }),
    }
}

/// The change whose rows the bytes begin with, and how many bytes these take. What follows isn't
/// looked at. `NotRows` exactly where they begin with no rows of a change, with the place of the
/// first byte of the first field that doesn't fit. `Memory` where there is none for the change:
/// however many items are told, none is taken for those that aren't there.
pub fn read_change(alloc: Global, bytes: &[u8]) -> Result<(Change, usize), RowsFault>
    // What is read has a spelling, and the bytes begin with it.
    ensures found { IfOk result (BeginWith FitsChange change_rows bytes.now) }
    // What has a spelling is read from it, whatever follows, unless memory runs out.
    ensures only { (change : Change) (rest : List ℕ) → FitsChange change
        → bytes.now ≡ change_rows change ++ rest
        → Answers (λ x. x) result (Ok (change, length (change_rows change))) }
    // The change or the place is what reading on lists gives.
    ensures exact { Answers (λ x. x) result (front_of change_at bytes.now) }
{
    change_or_place(alloc, bytes)
}

/// Puts the rows of a change behind bytes. It asks that keys rise, that satoshis are in range and
/// that no list of balances is empty, as in each change between two sound indexes. `Memory` where
/// there is none for them, and where a list has 2^32 items or more.
#[tactic(auto, unfolding(crate::specs::RowSpelling::change_rows))]
pub fn put_change(bytes: &mut Bytes, change: &Change) -> Result<(), Memory>
    requires { KeepsChange change.now }
    ensures ok { OnOk result (bytes.new ≡ bytes.old ++ change_rows change.now) }
    ensures fits { OnOk result (FitsChange change.now) }
{
    bytes.append(&change.hash)?;
    put_list(bytes, change.gone.as_slice())?;
    put_list(bytes, change.came.as_slice())?;
    put_sats(bytes, &change.lost)?;
    put_list(bytes, change.inscriptions.as_slice())?;
    put_list(bytes, change.runes.before.as_slice())?;
    put_list(bytes, change.runes.after.as_slice())?;
    put_list(bytes, change.runes.counts.as_slice())?;
    put_list(bytes, change.runes.appended.as_slice())
}

/// The rows of a change. What it asks and when it is `Memory` is as for `put_change`.
pub fn write_change(alloc: Global, change: &Change) -> Result<Bytes, Memory>
    requires { KeepsChange change.now }
    ensures rows { IfOk result (λ bytes. bytes ≡ change_rows change.now) }
    ensures fits { OnOk result (FitsChange change.now) }
{
    let mut bytes = Bytes::empty(alloc);
    put_change(&mut bytes, change)?;
    Ok(bytes)
}

impl Readable for Change {
    ghost use Rattle.ox_rows.specs.FrontLaws.{change_fronts};

    ghost at = { change_at };

    fn read(alloc: Global, bytes: &[u8]) -> Result<(Change, &[u8]), ReadError> {
        change_of(alloc, bytes)
    }

    ghost fronts = { change_fronts };
}
