//! Runes, each by itself, and their names.

ghost use Rattle.std.specs.Prelude.{◌≡◌, ◌+◌, ◌*◌, ◌^◌, ◌<◌, IfOk, IsTrue};
ghost use Rattle.ox_ledger.specs.Balanced.{amount_per_mint, cap_in, made_of};
ghost use Rattle.ox_sound.specs.Rows.{has_right_name, has_right_supply, has_small_numbers};
ghost use Rattle.ox_sound.specs.Rows.{is_bounded, names_differ};

use ox_bytes::Memory;
use ox_etching::RuneRow;
use ox_name::{is_reserved, reserved_name};
use ox_runestone::RuneId;
use std::alloc::Global;
use std::collections::BTreeSet;

/// How many mints the rune may have.
pub(crate) fn cap_of(row: &RuneRow) -> u128
    ensures { result ≡ cap_in row.now.terms }
{
    match &row.terms {
        Some(terms) => terms.cap.unwrap_or(0),
        None => 0,
    }
}

/// What a mint gives.
pub(crate) fn amount_of(row: &RuneRow) -> u128
    ensures { result ≡ amount_per_mint row.now.terms }
{
    match &row.terms {
        Some(terms) => terms.amount.unwrap_or(0),
        None => 0,
    }
}

/// What the etching of a rune and its mints gave.
pub(crate) fn made_of(row: &RuneRow) -> u128
    requires { IsTrue (is_bounded row.now) }
    ensures { result ≡ made_of row.now }
{
    row.premine + row.mints * amount_of(row)
}

/// The place of an etching as one number: the block's height, and the transaction's place in the
/// lowest 32 bits.
fn place_of(id: RuneId) -> u128
    ensures value { result ≡ id.block * 2 ^ 32 + id.tx }
    ensures small { result < 2 ^ 97 }
{
    ((id.block as u128) << 32) + id.tx as u128
}

/// Whether the name, where it is reserved, is that of the etching's place.
fn has_right_name(row: &RuneRow) -> bool
    ensures { result ≡ has_right_name row.now }
{
    !is_reserved(row.name) || row.name == reserved_name(0, 0) + place_of(row.id)
}

/// Whether the supply is below 2^128, and there were no more mints than the cap.
fn has_right_supply(row: &RuneRow) -> bool
    ensures { result ≡ has_right_supply row.now }
{
    let cap = cap_of(row);
    match cap.checked_mul(amount_of(row)) {
        Some(minted) => row.premine.checked_add(minted).is_some() && row.mints <= cap,
        None => false,
    }
}

/// Whether divisibility and spacers are within their bounds, and the place of the transaction is,
/// as any of 32 bits.
fn has_small_numbers(row: &RuneRow) -> bool
    ensures { result ≡ has_small_numbers row.now }
{
    // Read, so that it is known to be of 32 bits.
    let _tx = row.id.tx;
    row.divisibility <= 38 && row.spacers < 1 << 27
}

/// Whether the numbers of the rune are within their bounds.
#[tactic(auto, unfolding(crate::specs::Rows::is_bounded))]
pub(crate) fn is_bounded(row: &RuneRow) -> bool
    ensures { result ≡ is_bounded row.now }
{
    has_small_numbers(row) && has_right_name(row) && has_right_supply(row)
}

/// Whether no two runes have one name. `Memory` where there is none for the names.
pub(crate) fn do_names_differ(alloc: Global, runes: &[RuneRow]) -> Result<bool, Memory>
    ensures { IfOk result (λ differ. differ ≡ names_differ runes.now) }
{
    let mut met = BTreeSet::new(alloc);
    for row in runes {
        if !met.insert(row.name)? {
            return Ok(false);
        }
    }
    Ok(true)
}
