//! The whole index.

ghost use Rattle.std.specs.Prelude.{◌≡◌, ◌&&◌, ◌↔◌, IfOk, IsTrue};
ghost use Rattle.std.specs.List.{list_all};
ghost use Rattle.ox_sat.specs.Profiles.{IsProfile};
ghost use Rattle.ox_model.specs.Sound.{IsSound, is_of_chain};
ghost use Rattle.ox_plain.specs.Plain.{index_in};
ghost use Rattle.ox_sound.specs.Amounts.{balances_in, outputs_in};
ghost use Rattle.ox_sound.specs.Rows.{are_held, are_settled, ids_differ, is_bounded};
ghost use Rattle.ox_sound.specs.Sound.{heights_pass, inscriptions_pass, is_etched, is_minted};
ghost use Rattle.ox_sound.specs.Sound.{is_revealed, outputs_pass, runes_pass, sats_pass, sound};

use crate::amounts::{add_all, are_made, burned_by_id};
use crate::held::are_held;
use crate::rows::{do_names_differ, is_bounded};
use crate::sats::are_once;
use ox_bytes::Memory;
use ox_etching::RuneRow;
use ox_inscribe::InsRow;
use ox_plain::Index;
use ox_sat::{Profile, first};
use std::alloc::Global;

/// Whether no block stands above the last height.
#[tactic(auto, unfolding(crate::specs::Sound::heights_pass))]
fn are_heights_sound(p: &Profile, index: &Index) -> bool
    ensures { result ≡ heights_pass p.now (index_in index.now) }
{
    (index.hashes.len() as u64).saturating_sub(1) <= p.last
}

/// Whether each output comes from a block of the chain.
fn are_outputs_sound(index: &Index) -> bool
    ensures { result ≡ outputs_pass (index_in index.now) }
{
    let blocks = index.hashes.len() as u64;
    index
        .outs
        .values()
        .all(|row| u64::from(row.height) < blocks)
}

/// Whether an inscription's satoshi, where it has one, is below this number.
fn is_minted(first: u64, sat: Option<u64>) -> bool
    ensures { result ≡ is_minted first sat }
{
    match sat {
        Some(sat) => sat < first,
        None => true,
    }
}

/// Whether an inscription comes from one of so many blocks, and its satoshi, where it has one, is
/// below this number.
pub(crate) fn is_revealed(blocks: u64, first: u64, row: &InsRow) -> bool
    ensures { result ≡ is_revealed blocks first row.now }
{
    u64::from(row.height) < blocks && is_minted(first, row.sat)
}

/// Whether each inscription comes from a block of the chain, and is on a satoshi that could be
/// claimed so far, or on none.
fn are_inscriptions_sound(p: &Profile, index: &Index) -> bool
    requires { IsProfile p.now }
    ensures { result ≡ inscriptions_pass p.now (index_in index.now) }
{
    let blocks = index.hashes.len() as u64;
    let first = first(p, blocks);
    for shared in index.inscriptions.as_slice() {
        if !is_revealed(blocks, first, shared.row()) {
            return false;
        }
    }
    true
}

/// Whether each satoshi that a block could claim so far is in one place, and no other is. `Memory`
/// where there is none for the runs.
fn are_sats_sound(alloc: Global, p: &Profile, index: &Index) -> Result<bool, Memory>
    requires { IsProfile p.now }
    ensures { IfOk result (λ pass. pass ≡ sats_pass p.now (index_in index.now)) }
{
    let first = first(p, index.hashes.len() as u64);
    are_once(alloc, &index.outs, &index.lost, first)
}

/// Whether a rune comes from one of so many blocks, or is the one that is there from the start,
/// where the profile has it: its id is 1:0.
fn is_of_chain(p: &Profile, blocks: u64, row: &RuneRow) -> bool
    ensures { result ≡ is_of_chain p.now blocks row.now }
{
    row.id.block < blocks || (p.first_rune && row.id.block == 1 && row.id.tx == 0)
}

/// Whether a rune is of the chain, and its numbers are within their bounds.
fn is_etched(p: &Profile, blocks: u64, row: &RuneRow) -> bool
    ensures { result ≡ is_etched p.now blocks row.now }
{
    is_of_chain(p, blocks, row) && is_bounded(row)
}

/// Whether each rune is of the chain, and its numbers are within their bounds.
fn are_rows_sound(p: &Profile, blocks: u64, runes: &[RuneRow]) -> bool
    ensures { result ≡ list_all (is_etched p.now blocks) runes.now }
{
    for row in runes {
        if !is_etched(p, blocks, row) {
            return false;
        }
    }
    true
}

/// Whether ids are distinct, unspent outputs hold all balances, these are of runes that are there,
/// and what there is of each rune is what its etching and its mints gave. A sum that passes 128
/// bits never is: what a rune's etching and mints gave is below 2^128. `Memory` where there is none
/// for the sums.
fn are_amounts_sound(alloc: Global, index: &Index) -> Result<bool, Memory>
    requires { IsTrue (list_all is_bounded index.now.runes) }
    ensures { IfOk result (λ pass. pass ≡ (ids_differ index.now.runes
        && are_held index.now.runes (outputs_in index.now.outs) (balances_in index.now.bal)
        && are_settled index.now.runes (balances_in index.now.bal))) }
{
    let runes = index.runes.as_slice();
    let Some(mut amounts) = burned_by_id(alloc, runes)? else {
        return Ok(false);
    };
    if !are_held(&index.outs, &amounts, &index.bal) {
        return Ok(false);
    }
    add_all(&mut amounts, &index.bal);
    Ok(are_made(&amounts, runes))
}

/// Whether what holds of the runes of every chain holds of these. `Memory` where there is none for
/// the names or the sums.
fn are_runes_sound(alloc: Global, p: &Profile, index: &Index) -> Result<bool, Memory>
    ensures { IfOk result (λ pass. pass ≡ runes_pass p.now (index_in index.now)) }
{
    let runes = index.runes.as_slice();
    if !are_rows_sound(p, index.hashes.len() as u64, runes) {
        return Ok(false);
    }
    if !do_names_differ(alloc, runes)? {
        return Ok(false);
    }
    are_amounts_sound(alloc, index)
}

/// Whether heights, outputs and inscriptions are sound.
fn are_rows_of_chain(p: &Profile, index: &Index) -> bool
    requires { IsProfile p.now }
    ensures { result ≡ (heights_pass p.now (index_in index.now)
        && outputs_pass (index_in index.now) && inscriptions_pass p.now (index_in index.now)) }
{
    are_heights_sound(p, index) && are_outputs_sound(index) && are_inscriptions_sound(p, index)
}

/// Whether the whole index passes the test. `Memory` where there is none for runs, names and sums.
fn passes(alloc: Global, p: &Profile, index: &Index) -> Result<bool, Memory>
    requires { IsProfile p.now }
    ensures { IfOk result (λ pass. pass ≡ sound p.now (index_in index.now)) }
{
    if !are_rows_of_chain(p, index) {
        return Ok(false);
    }
    if !are_sats_sound(alloc, p, index)? {
        return Ok(false);
    }
    are_runes_sound(alloc, p, index)
}

/// Whether all that holds of the index of every chain of this profile holds of the index: no block
/// stands above the profile's last height; outputs, inscriptions and runes come from blocks of the
/// chain, the first rune of mainnet aside; each satoshi below the next height's first is in one
/// place, an output's list or the lost one, and no other is in any; an inscription is on one of
/// these, or on none; ids and names of runes are distinct and their numbers within their bounds;
/// unspent outputs alone hold runes, which are there; and what outputs hold of a rune and what was
/// burned of it is its premine and what its mints gave.
///
/// No list of satoshis is made: the answer costs by the rows and the runs, and by a logarithm for
/// their order. A sum of balances that passes 128 bits makes it `false`, since premine and mints
/// are below 2^128 together. `Memory` where there is none for runs, names and sums.
pub fn is_sound(alloc: Global, p: &Profile, index: &Index) -> Result<bool, Memory>
    requires { IsProfile p.now }
    // The answer is the test's.
    ensures exact { IfOk result (λ answer. answer ≡ sound p.now (index_in index.now)) }
    // It is `true` exactly where the index is sound.
    ensures holds { IfOk result (λ answer. IsTrue answer ↔ IsSound p.now (index_in index.now)) }
{
    passes(alloc, p, index)
}
