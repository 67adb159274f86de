//! What outputs hold of runes.

ghost use Rattle.std.specs.Prelude.{◌≡◌, ℕ, List};
ghost use Rattle.std.specs.List.{list_all};
ghost use Rattle.ox_runestone.specs.declared.stone.RuneId.{RuneId as Id};
ghost use Rattle.ox_etching.specs.declared.row.RuneRow.{RuneRow};
ghost use Rattle.ox_sound.specs.Amounts.{AreAmounts, balances_in, burned_in};
ghost use Rattle.ox_sound.specs.Amounts.{is_among, outputs_in};
ghost use Rattle.ox_sound.specs.Rows.{are_amounts, are_held, is_amount, rise};

use crate::amounts::Amounts;
use ox_allocation::Balances;
use ox_block::OutPoint;
use ox_rules::OutRow;
use ox_runestone::RuneId;
use std::collections::BTreeMap;

/// Whether each rune is below the next.
pub(crate) fn do_rise(balances: &[(RuneId, u128)]) -> bool
    ensures { result ≡ rise balances.now }
{
    for next in 1..balances.len() {
        if !balances[next - 1].0.cmp(&balances[next].0).is_lt() {
            return false;
        }
    }
    true
}

/// Whether each rune is there, and no amount is 0.
fn are_there(amounts: &Amounts, balances: &[(RuneId, u128)]) -> bool
    ensures { result ≡ list_all (is_amount (is_among amounts.now)) balances.now }
{
    for (id, amount) in balances {
        if *amount == 0 || !amounts.contains_key(id) {
            return false;
        }
    }
    true
}

/// Whether these are balances of runes that are there, one at least.
fn are_known(amounts: &Amounts, balances: &[(RuneId, u128)]) -> bool
    ensures { result ≡ are_amounts (is_among amounts.now) balances.now }
{
    !balances.is_empty() && do_rise(balances) && are_there(amounts, balances)
}

/// Whether unspent outputs hold all balances, and these are of runes that are there.
pub(crate) fn are_held(
    outs: &BTreeMap<OutPoint, OutRow>,
    amounts: &Amounts,
    bal: &BTreeMap<OutPoint, Balances>,
) -> bool
    ensures { (runes : List RuneRow) (held : Id → ℕ)
        → AreAmounts amounts.now (burned_in runes) held
        → result ≡ are_held runes (outputs_in outs.now) (balances_in bal.now) }
{
    for (at, balances) in bal.iter() {
        if !outs.contains_key(at) || !are_known(amounts, balances.as_slice()) {
            return false;
        }
    }
    true
}
