//! How much there is of each rune.

ghost use Rattle.std.specs.Prelude.{◌≡◌, ℕ, ◌+◌, Option, Some, if◌then◌else◌, is_some};
ghost use Rattle.std.specs.Prelude.{IfOk, IfSome, IsTrue, ◌↔◌, ◌==◌};
ghost use Rattle.std.specs.List.{list_all};
ghost use Rattle.std.specs.BTreeMap.{get};
ghost use Rattle.std.specs.FinMap.{values};
ghost use Rattle.ox_runestone.specs.declared.stone.RuneId.{RuneId as Id};
ghost use Rattle.ox_allocation.specs.Balances.{id_cmp, is_same};
ghost use Rattle.ox_etching.specs.declared.row.RuneRow.{RuneRow as Row};
ghost use Rattle.ox_ledger.specs.Balanced.{made_of};
ghost use Rattle.ox_sound.specs.Amounts.{AreAmounts, as_amount, balances_in, burned_in, sum_held};
ghost use Rattle.ox_sound.specs.Amounts.{sum_of};
ghost use Rattle.ox_sound.specs.Rows.{ids_differ, is_bounded};

use crate::rows::made_of;
use ox_allocation::Balances;
use ox_block::OutPoint;
use ox_bytes::Memory;
use ox_etching::RuneRow;
use ox_runestone::RuneId;
use std::alloc::Global;
use std::collections::BTreeMap;

/// How much there is of each rune, by its id; `None` where that passes 128 bits.
pub(crate) type Amounts = BTreeMap<RuneId, Option<u128>>;

/// So much more; `None` where that passes 128 bits, or what there was did.
fn more(sum: Option<u128>, amount: u128) -> Option<u128>
    ensures { (n : ℕ) → sum ≡ as_amount n → result ≡ as_amount (n + amount) }
{
    sum?.checked_add(amount)
}

/// What was burned of each rune, by its id. `None` exactly where two runes have one id. `Memory`
/// where there is none for the table.
pub(crate) fn burned_by_id(alloc: Global, runes: &[RuneRow]) -> Result<Option<Amounts>, Memory>
    ensures differ { IfOk result (λ found. is_some found ≡ ids_differ runes.now) }
    ensures burned { IfOk result (λ found. IfSome found (λ amounts.
        AreAmounts amounts (burned_in runes.now) (λ id. 0))) }
{
    let mut amounts = BTreeMap::new(alloc);
    for row in runes {
        if amounts.insert(row.id, more(Some(0), row.burned))?.is_some() {
            return Ok(None);
        }
    }
    Ok(Some(amounts))
}

/// Adds so much of a rune. Nothing is kept of a rune that isn't there.
fn add_one(amounts: &mut Amounts, id: RuneId, amount: u128)
    ensures { (there : Id → Option ℕ) (held : Id → ℕ) → AreAmounts amounts.old there held
        → AreAmounts amounts.new there
        (λ other. held other + (if is_same id other then amount else 0)) }
{
    if let Some(sum) = amounts.get_mut(&id) {
        *sum = more(*sum, amount);
    }
}

/// Adds what one output holds.
fn add(amounts: &mut Amounts, balances: &[(RuneId, u128)])
    ensures { (there : Id → Option ℕ) (held : Id → ℕ) → AreAmounts amounts.old there held
        → AreAmounts amounts.new there (λ id. held id + sum_of balances.now id) }
{
    for (id, amount) in balances {
        add_one(amounts, *id, *amount);
    }
}

/// Adds what all outputs hold.
pub(crate) fn add_all(amounts: &mut Amounts, bal: &BTreeMap<OutPoint, Balances>)
    ensures { (there : Id → Option ℕ) (held : Id → ℕ) → AreAmounts amounts.old there held
        → AreAmounts amounts.new there
        (λ id. held id + sum_held (values (balances_in bal.now)) id) }
{
    for balances in bal.values() {
        add(amounts, balances.as_slice());
    }
}

/// Whether there is so much of a rune as its etching and its mints gave.
fn is_made(amounts: &Amounts, row: &RuneRow) -> bool
    requires { IsTrue (is_bounded row.now) }
    ensures { IsTrue result ↔ (get id_cmp amounts.now row.now.id ≡ Some (Some (made_of row.now))) }
{
    match amounts.get(&row.id) {
        Some(Some(amount)) => *amount == made_of(row),
        _ => false,
    }
}

/// Whether there is so much of each rune as its etching and its mints gave.
pub(crate) fn are_made(amounts: &Amounts, runes: &[RuneRow]) -> bool
    requires { IsTrue (list_all is_bounded runes.now) }
    ensures { (held : Id → ℕ) → IsTrue (ids_differ runes.now)
        → AreAmounts amounts.now (burned_in runes.now) held
        → result ≡ list_all (λ (row : Row). held row.id + row.burned == made_of row) runes.now }
{
    for row in runes {
        if !is_made(amounts, row) {
            return false;
        }
    }
    true
}
