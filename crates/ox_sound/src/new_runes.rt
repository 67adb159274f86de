//! Runes that a change appends, its counts, and the balances that come.

ghost use Rattle.std.specs.Prelude.{◌≡◌, ◌&&◌, ◌||◌, ◌==◌, ℕ, not, IfOk, IsTrue, is_some};
ghost use Rattle.std.specs.BTreeSet.{contains};
ghost use Rattle.std.specs.List.{list_all, list_any};
ghost use Rattle.std.specs.Ordering.{nat_cmp};
ghost use Rattle.ox_runestone.specs.declared.stone.RuneId.{RuneId as Id};
ghost use Rattle.ox_etching.specs.declared.row.RuneRow.{RuneRow as Row};
ghost use Rattle.ox_ledger.specs.Runes.{Placement, by_id};
ghost use Rattle.ox_sound.specs.Keeps.{count_keeps, has_new_id, new_runes_keep};
ghost use Rattle.ox_sound.specs.Rows.{are_amounts, is_amount, is_bounded};

use crate::amounts::burned_by_id;
use crate::held::do_rise;
use crate::rows::{cap_of, do_names_differ, is_bounded};
use ox_allocation::Balances;
use ox_block::OutPoint;
use ox_bytes::Memory;
use ox_etching::RuneRow;
use ox_ledger::CountChange;
use ox_runestone::RuneId;
use ox_sat::Profile;
use std::alloc::Global;
use std::cmp::Ordering;
use std::collections::BTreeSet;

/// Whether counts of a rune that is there rise, and it isn't minted beyond its cap.
fn does_count_keep(runes: &[RuneRow], change: &CountChange) -> bool
    ensures { result ≡ count_keeps runes.now change.now }
{
    change.before.mints <= change.after.mints
        && change.before.burned <= change.after.burned
        && match runes.get(change.place as usize) {
            Some(row) => change.after.mints <= cap_of(row),
            None => true,
        }
}

/// Whether counts of runes rise, and none is minted beyond its cap.
pub(crate) fn do_counts_keep(runes: &[RuneRow], counts: &[CountChange]) -> bool
    ensures { result ≡ list_all (count_keeps runes.now) counts.now }
{
    for change in counts {
        if !does_count_keep(runes, change) {
            return false;
        }
    }
    true
}

/// Whether the id of a rune is of the block at this height, and not that of the rune that is there
/// from the start, where the profile has it.
fn has_new_id(p: &Profile, height: u64, row: &RuneRow) -> bool
    ensures { result ≡ has_new_id p.now height row.now }
{
    row.id.block == height && !(p.first_rune && row.id.block == 1 && row.id.tx == 0)
}

/// Whether each rune has an id of the block at this height, and numbers within their bounds.
fn are_of_block(p: &Profile, height: u64, appended: &[RuneRow]) -> bool
    ensures { result ≡ list_all (λ (row : Row). has_new_id p.now height row && is_bounded row)
        appended.now }
{
    for row in appended {
        if !has_new_id(p, height, row) || !is_bounded(row) {
            return false;
        }
    }
    true
}

/// The names of runes. `Memory` where there is none for them.
fn names_of(alloc: Global, runes: &[RuneRow]) -> Result<BTreeSet<u128>, Memory>
    ensures { IfOk result (λ names. (name : ℕ) → contains nat_cmp names name
        ≡ list_any (λ (row : Row). row.name == name) runes.now) }
{
    let mut names = BTreeSet::new(alloc);
    for row in runes {
        names.insert(row.name)?;
    }
    Ok(names)
}

/// Whether no rune has one of these names. It costs by the runes.
fn are_named_apart(names: &BTreeSet<u128>, runes: &[RuneRow]) -> bool
    ensures { result ≡ list_all (λ (row : Row). not (contains nat_cmp names.now row.name))
        runes.now }
{
    for row in runes {
        if names.contains(&row.name) {
            return false;
        }
    }
    true
}

/// Whether new runes have ids and names of their own, also among themselves, and numbers within
/// their bounds. Where there are some, it costs by all runes, since none is found by its name.
/// `Memory` where there is none for names.
pub(crate) fn do_new_runes_keep(
    alloc: Global,
    p: &Profile,
    runes: &[RuneRow],
    height: u64,
    appended: &[RuneRow],
) -> Result<bool, Memory>
    ensures { IfOk result (λ keep. IsTrue keep
        → IsTrue (new_runes_keep p.now height runes.now appended.now)) }
{
    if appended.is_empty() {
        return Ok(true);
    }
    if !are_of_block(p, height, appended) {
        return Ok(false);
    }
    if burned_by_id(alloc, appended)?.is_none() {
        return Ok(false);
    }
    if !do_names_differ(alloc, appended)? {
        return Ok(false);
    }
    let names = names_of(alloc, appended)?;
    Ok(are_named_apart(&names, runes))
}

/// Whether a rune with an id is found among these, as it is where it is there and ids rise. It
/// costs a logarithm.
fn is_found(runes: &[RuneRow], id: RuneId) -> bool
    ensures { IsTrue result → IsTrue (is_some (by_id runes.now id)) }
{
    let mut left = runes;
    while !left.is_empty() {
        let (front, back) = left.split_at(left.len() / 2);
        let Some((row, rest)) = back.split_first() else {
            return false;
        };
        match row.id.cmp(&id) {
            Ordering::Less => left = rest,
            Ordering::Equal => return true,
            Ordering::Greater => left = front,
        }
    }
    false
}

/// Whether one of two holds.
fn is_either(first: bool, second: bool) -> bool
    ensures { result ≡ (first || second) }
{
    first || second
}

/// Whether a rune with an id is found among earlier or new ones.
fn is_known(runes: &[RuneRow], appended: &[RuneRow], id: RuneId) -> bool
    ensures { IsTrue result
        → IsTrue (is_some (by_id runes.now id) || is_some (by_id appended.now id)) }
{
    is_either(is_found(runes, id), is_found(appended, id))
}

/// Whether each balance is of a rune that is found among earlier or new ones, and not 0.
fn are_found(runes: &[RuneRow], appended: &[RuneRow], balances: &[(RuneId, u128)]) -> bool
    ensures { IsTrue result → IsTrue (list_all (is_amount (λ (id : Id).
        is_some (by_id runes.now id) || is_some (by_id appended.now id))) balances.now) }
{
    for (id, amount) in balances {
        if *amount == 0 || !is_known(runes, appended, *id) {
            return false;
        }
    }
    true
}

/// Whether these are balances of earlier or new runes, one at least.
fn are_balances(runes: &[RuneRow], appended: &[RuneRow], balances: &[(RuneId, u128)]) -> bool
    ensures { IsTrue result → IsTrue (are_amounts (λ (id : Id).
        is_some (by_id runes.now id) || is_some (by_id appended.now id)) balances.now) }
{
    !balances.is_empty() && do_rise(balances) && are_found(runes, appended, balances)
}

/// Whether all that come are balances of earlier or new runes.
pub(crate) fn do_balances_keep(
    runes: &[RuneRow],
    appended: &[RuneRow],
    came: &[(OutPoint, Balances)],
) -> bool
    ensures { IsTrue result → IsTrue (list_all (λ (row : Placement). are_amounts (λ (id : Id).
        is_some (by_id runes.now id) || is_some (by_id appended.now id)) row.1) came.now) }
{
    for (_, balances) in came {
        if !are_balances(runes, appended, balances.as_slice()) {
            return false;
        }
    }
    true
}
