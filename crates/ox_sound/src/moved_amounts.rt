//! How much of each rune comes and goes.

ghost use Rattle.std.specs.Prelude.{◌≡◌, ◌+◌, IfOk, IsTrue, if◌then◌else◌};
ghost use Rattle.std.specs.List.{list_all};
ghost use Rattle.ox_runestone.specs.declared.stone.RuneId.{RuneId as Id};
ghost use Rattle.ox_allocation.specs.Balances.{is_same};
ghost use Rattle.ox_ledger.specs.Balanced.{made_of};
ghost use Rattle.ox_sound.specs.Amounts.{amount_at, sum_of};
ghost use Rattle.ox_sound.specs.Keeps.{KeepsAmounts, amount_placed, burned_more, count_keeps};
ghost use Rattle.ox_sound.specs.Keeps.{counted_of, minted_more, sum_counted, sum_new};
ghost use Rattle.ox_sound.specs.Rows.{is_bounded};

use crate::rows::{amount_of, made_of};
use ox_allocation::Balances;
use ox_block::OutPoint;
use ox_bytes::Memory;
use ox_etching::RuneRow;
use ox_ledger::{CountChange, RunePart};
use ox_runestone::RuneId;
use std::alloc::Global;
use std::collections::BTreeMap;

/// How much there is of each rune, by its id.
type Sums = BTreeMap<RuneId, u128>;

/// How much there is of a rune.
fn amount_at(sums: &Sums, id: RuneId) -> u128
    ensures { result ≡ amount_at sums.now id }
{
    match sums.get(&id) {
        Some(sum) => *sum,
        None => 0,
    }
}

/// Adds so much of a rune; nothing is kept of a rune of which there is none. `false` where its sum
/// passes 128 bits. `Memory` where there is none for it.
fn add_one(sums: &mut Sums, id: RuneId, amount: u128) -> Result<bool, Memory>
    ensures { IfOk result (λ is. IsTrue is → (other : Id) → amount_at sums.new other
        ≡ amount_at sums.old other + (if is_same id other then amount else 0)) }
{
    if amount == 0 {
        return Ok(true);
    }
    let Some(sum) = amount_at(sums, id).checked_add(amount) else {
        return Ok(false);
    };
    sums.insert(id, sum)?;
    Ok(true)
}

/// Adds what one output holds. `false` where a sum passes 128 bits. `Memory` where there is none
/// for the sums.
fn add_balances(sums: &mut Sums, balances: &[(RuneId, u128)]) -> Result<bool, Memory>
    ensures { IfOk result (λ is. IsTrue is → (other : Id)
        → amount_at sums.new other ≡ amount_at sums.old other + sum_of balances.now other) }
{
    for (id, amount) in balances {
        if !add_one(sums, *id, *amount)? {
            return Ok(false);
        }
    }
    Ok(true)
}

/// Adds what outputs hold. `false` where a sum passes 128 bits. `Memory` where there is none for
/// the sums.
fn add_placed(sums: &mut Sums, rows: &[(OutPoint, Balances)]) -> Result<bool, Memory>
    ensures { IfOk result (λ is. IsTrue is → (other : Id)
        → amount_at sums.new other ≡ amount_at sums.old other + amount_placed rows.now other) }
{
    for (_, balances) in rows {
        if !add_balances(sums, balances.as_slice())? {
            return Ok(false);
        }
    }
    Ok(true)
}

/// Adds so much of a rune to what comes, and so much to what goes. `false` where a sum passes 128
/// bits. `Memory` where there is none for the sums.
fn add_both(
    coming: &mut Sums,
    going: &mut Sums,
    id: RuneId,
    comes: u128,
    goes: u128,
) -> Result<bool, Memory>
    ensures coming { IfOk result (λ is. IsTrue is → (other : Id) → amount_at coming.new other
        ≡ amount_at coming.old other + (if is_same id other then comes else 0)) }
    ensures going { IfOk result (λ is. IsTrue is → (other : Id) → amount_at going.new other
        ≡ amount_at going.old other + (if is_same id other then goes else 0)) }
{
    if !add_one(coming, id, comes)? {
        return Ok(false);
    }
    if !add_one(going, id, goes)? {
        return Ok(false);
    }
    Ok(true)
}

/// Adds how much more was burned of a rune with changed counts to what comes, and how much more was
/// minted to what goes, if the rune is there. `false` where that or a sum passes 128 bits. `Memory`
/// where there is none for the sums.
fn add_count(
    coming: &mut Sums,
    going: &mut Sums,
    runes: &[RuneRow],
    change: &CountChange,
) -> Result<bool, Memory>
    requires { IsTrue (count_keeps runes.now change.now) }
    ensures coming { IfOk result (λ is. IsTrue is → (other : Id) → amount_at coming.new other
        ≡ amount_at coming.old other + counted_of burned_more runes.now other change.now) }
    ensures going { IfOk result (λ is. IsTrue is → (other : Id) → amount_at going.new other
        ≡ amount_at going.old other + counted_of minted_more runes.now other change.now) }
{
    let Some(row) = runes.get(change.place as usize) else {
        return Ok(true);
    };
    let burned = change.after.burned - change.before.burned;
    let mints = change.after.mints - change.before.mints;
    match mints.checked_mul(amount_of(row)) {
        Some(minted) => add_both(coming, going, row.id, burned, minted),
        None => Ok(false),
    }
}

/// Adds what changed counts come to. `false` where a sum passes 128 bits. `Memory` where there is
/// none for the sums.
fn add_counts(
    coming: &mut Sums,
    going: &mut Sums,
    runes: &[RuneRow],
    counts: &[CountChange],
) -> Result<bool, Memory>
    requires { IsTrue (list_all (count_keeps runes.now) counts.now) }
    ensures coming { IfOk result (λ is. IsTrue is → (other : Id) → amount_at coming.new other
        ≡ amount_at coming.old other + sum_counted burned_more runes.now counts.now other) }
    ensures going { IfOk result (λ is. IsTrue is → (other : Id) → amount_at going.new other
        ≡ amount_at going.old other + sum_counted minted_more runes.now counts.now other) }
{
    for change in counts {
        if !add_count(coming, going, runes, change)? {
            return Ok(false);
        }
    }
    Ok(true)
}

/// Adds what of new runes was burned to what comes, and what their etching and mints gave to what
/// goes. `false` where a sum passes 128 bits. `Memory` where there is none for the sums.
fn add_new(coming: &mut Sums, going: &mut Sums, appended: &[RuneRow]) -> Result<bool, Memory>
    requires { IsTrue (list_all is_bounded appended.now) }
    ensures coming { IfOk result (λ is. IsTrue is → (other : Id) → amount_at coming.new other
        ≡ amount_at coming.old other + sum_new (λ row. row.burned) appended.now other) }
    ensures going { IfOk result (λ is. IsTrue is → (other : Id) → amount_at going.new other
        ≡ amount_at going.old other + sum_new made_of appended.now other) }
{
    for row in appended {
        if !add_both(coming, going, row.id, row.burned, made_of(row))? {
            return Ok(false);
        }
    }
    Ok(true)
}

/// Adds what comes of each rune and is burned of it, and what goes, is minted and is etched.
/// `false` where a sum passes 128 bits. `Memory` where there is none for the sums.
fn add_all(
    coming: &mut Sums,
    going: &mut Sums,
    runes: &[RuneRow],
    part: &RunePart,
) -> Result<bool, Memory>
    requires counts { IsTrue (list_all (count_keeps runes.now) part.now.counts) }
    requires bounded { IsTrue (list_all is_bounded part.now.appended) }
    ensures coming { IfOk result (λ is. IsTrue is → (id : Id) → amount_at coming.new id
        ≡ amount_at coming.old id + amount_placed part.now.after id
        + sum_counted burned_more runes.now part.now.counts id
        + sum_new (λ row. row.burned) part.now.appended id) }
    ensures going { IfOk result (λ is. IsTrue is → (id : Id) → amount_at going.new id
        ≡ amount_at going.old id + amount_placed part.now.before id
        + sum_counted minted_more runes.now part.now.counts id
        + sum_new made_of part.now.appended id) }
{
    if !add_placed(coming, part.after.as_slice())? {
        return Ok(false);
    }
    if !add_placed(going, part.before.as_slice())? {
        return Ok(false);
    }
    if !add_counts(coming, going, runes, part.counts.as_slice())? {
        return Ok(false);
    }
    if !add_new(coming, going, part.appended.as_slice())? {
        return Ok(false);
    }
    Ok(true)
}

/// Whether two tables of sums are the same.
fn are_same(sums: &Sums, others: &Sums) -> bool
    ensures { IsTrue result → (id : Id) → amount_at sums.now id ≡ amount_at others.now id }
{
    sums == others
}

/// Whether of each rune what comes and is burned is what is gone, is minted and is etched. `Memory`
/// where there is none for the sums.
pub(crate) fn do_amounts_keep(
    alloc: Global,
    runes: &[RuneRow],
    part: &RunePart,
) -> Result<bool, Memory>
    requires counts { IsTrue (list_all (count_keeps runes.now) part.now.counts) }
    requires bounded { IsTrue (list_all is_bounded part.now.appended) }
    ensures { IfOk result (λ keep. IsTrue keep → KeepsAmounts runes.now part.now) }
{
    let mut coming = BTreeMap::new(alloc);
    let mut going = BTreeMap::new(alloc);
    Ok(add_all(&mut coming, &mut going, runes, part)? && are_same(&coming, &going))
}
