//! What is counted of runes.

ghost use Rattle.std.specs.Prelude.{◌≡◌, map, IfOk};
ghost use Rattle.ox_bytes.specs.Reading.{GivesOrMemory};
ghost use Rattle.ox_rows.specs.FrontLaws.{counts_then_fronts};
ghost use Rattle.ox_rows.specs.RowFits.{FitsCountChange};
ghost use Rattle.ox_rows.specs.RowSpelling.{count_change};
ghost use Rattle.ox_rows.specs.RowReading.{count_change_of, counts_at, counts_then_at};

use crate::readable::{Readable, four_of};
use crate::rising::rising_of;
use crate::writable::Writable;
use ox_bytes::{Bytes, List, Memory, ReadError, u32le_field};
use ox_ledger::{CountChange, Counts};
use std::alloc::Global;

/// What is counted of a rune before a change and after it.
#[derive(Clone, Copy)]
pub(crate) struct CountsThen {
    pub(crate) mints_before: u128,
    pub(crate) mints_after: u128,
    pub(crate) burned_before: u128,
    pub(crate) burned_after: u128,
}

impl Readable for CountsThen {
    ghost at = { counts_then_at };

    fn read(alloc: Global, bytes: &[u8]) -> Result<(CountsThen, &[u8]), ReadError> {
        let ((mints_before, mints_after, burned_before, burned_after), rest) = four_of(
            alloc, bytes,
        )?;
        let counts = CountsThen {
            mints_before,
            mints_after,
            burned_before,
            burned_after,
        };
        Ok((counts, rest))
    }

    ghost fronts = { counts_then_fronts };
}

/// Changed counts, spelled.
fn count_change_bytes(change: CountChange) -> [u8; 68]
    ensures spelled { result ≡ count_change change }
    ensures fits { FitsCountChange change }
{
    let mut bytes = [0; 68];
    let (front, burned_after) = bytes.split_at_mut(52);
    let (front, burned_before) = front.split_at_mut(36);
    let (front, mints_after) = front.split_at_mut(20);
    let (place, mints_before) = front.split_at_mut(4);
    place.copy_from_slice(&change.place.to_le_bytes());
    mints_before.copy_from_slice(&change.before.mints.to_le_bytes());
    mints_after.copy_from_slice(&change.after.mints.to_le_bytes());
    burned_before.copy_from_slice(&change.before.burned.to_le_bytes());
    burned_after.copy_from_slice(&change.after.burned.to_le_bytes());
    bytes
}

impl Writable for CountChange {
    ghost spelling = { count_change };

    ghost fits = { FitsCountChange };

    ghost keeps = { λ c. Unit {0} };

    fn put(&self, bytes: &mut Bytes) -> Result<(), Memory> {
        bytes.append(&count_change_bytes(*self))
    }
}

/// Changed counts: how many in 4 bytes, and these by rising place.
#[tactic(auto, unfolding(crate::specs::RowReading::counts_at))]
pub(crate) fn counts_of(
    alloc: Global,
    bytes: &[u8],
) -> Result<(List<CountChange>, &[u8]), ReadError>
    ensures { GivesOrMemory (λ x. (x.0, x.1.now)) result (counts_at bytes.now) }
{
    let (count, rest) = u32le_field(bytes)?;
    let (rows, rest) = rising_of(alloc, count, rest)?;
    Ok((changes_of(alloc, &rows)?, rest))
}

fn changes_of(alloc: Global, rows: &[(u32, CountsThen)]) -> Result<List<CountChange>, Memory>
    ensures { IfOk result (λ changes. changes ≡ map count_change_of rows.now) }
{
    let mut changes = Vec::with_capacity(alloc, rows.len())?;
    for row in rows {
        changes.push_reserved(change_of(*row));
    }
    Ok(List::from_vec(changes))
}

fn change_of(row: (u32, CountsThen)) -> CountChange
    ensures { result ≡ count_change_of row }
{
    let (place, counts) = row;
    CountChange {
        place,
        before: Counts {
            mints: counts.mints_before,
            burned: counts.burned_before,
        },
        after: Counts {
            mints: counts.mints_after,
            burned: counts.burned_after,
        },
    }
}
