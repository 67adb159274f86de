//! Whether a change leaves a sound index, told by the change and by what it touches.

ghost use Rattle.std.specs.Prelude.{◌≡◌, ◌+◌, IfOk, IsTrue, length};
ghost use Rattle.std.specs.List.{list_all};
ghost use Rattle.ox_sat.specs.Profiles.{IsProfile};
ghost use Rattle.ox_model.specs.Change.{redone};
ghost use Rattle.ox_model.specs.Sound.{IsSound};
ghost use Rattle.ox_plain.specs.Ends.{begins_in};
ghost use Rattle.ox_plain.specs.Plain.{index_in};
ghost use Rattle.ox_sound.specs.Keeps.{Keeps, KeepsRunes, heights_keep, inscriptions_keep};
ghost use Rattle.ox_sound.specs.Keeps.{outputs_keep};
ghost use Rattle.ox_sound.specs.Sound.{is_revealed};

use crate::moved_amounts::do_amounts_keep;
use crate::moved_places::do_places_keep;
use crate::moved_sats::do_sats_keep;
use crate::new_runes::{do_balances_keep, do_counts_keep, do_new_runes_keep};
use crate::sound::is_revealed;
use ox_block::OutPoint;
use ox_bytes::Memory;
use ox_inscribe::SharedRow;
use ox_model::Change;
use ox_plain::Index;
use ox_rules::OutRow;
use ox_sat::{Profile, first};
use std::alloc::Global;

/// Whether one block more is allowed.
fn do_heights_keep(p: &Profile, before: &Index) -> bool
    ensures { result ≡ heights_keep p.now (index_in before.now) }
{
    before.hashes.len() as u64 <= p.last
}

/// Whether outputs that come are of heights up to the new one.
fn do_outputs_keep(height: u64, came: &[(OutPoint, OutRow)]) -> bool
    ensures { result ≡ outputs_keep height came.now }
{
    for (_, row) in came {
        if u64::from(row.height) > height {
            return false;
        }
    }
    true
}

/// Whether inscriptions come from one of so many blocks, and their satoshis, where they have one,
/// are below this number.
fn are_revealed(blocks: u64, first: u64, rows: &[SharedRow]) -> bool
    ensures { IsTrue result → IsTrue (list_all (is_revealed blocks first) rows.now) }
{
    for shared in rows {
        if !is_revealed(blocks, first, shared.row()) {
            return false;
        }
    }
    true
}

/// Whether inscriptions are of heights up to the new one, and on satoshis that could be claimed up
/// to it.
fn do_inscriptions_keep(p: &Profile, height: u64, change: &Change) -> bool
    requires profile { IsProfile p.now }
    ensures { IsTrue result → IsTrue (inscriptions_keep p.now height change.now) }
{
    let Some(blocks) = height.checked_add(1) else {
        return false;
    };
    are_revealed(blocks, first(p, blocks), change.inscriptions.as_slice())
}

/// Whether the change keeps the rules on runes. `Memory` where there is none for names and sums.
fn do_runes_keep(
    alloc: Global,
    p: &Profile,
    before: &Index,
    change: &Change,
) -> Result<bool, Memory>
    ensures { IfOk result (λ keep. IsTrue keep
        → KeepsRunes p.now (index_in before.now) change.now) }
{
    let runes = before.runes.as_slice();
    let part = &change.runes;
    let appended = part.appended.as_slice();
    if !do_counts_keep(runes, part.counts.as_slice()) {
        return Ok(false);
    }
    if !do_balances_keep(runes, appended, part.after.as_slice()) {
        return Ok(false);
    }
    if !do_new_runes_keep(alloc, p, runes, before.hashes.len() as u64, appended)? {
        return Ok(false);
    }
    do_amounts_keep(alloc, runes, part)
}

/// Whether the change keeps the rules that look at rows alone.
fn do_rows_keep(p: &Profile, before: &Index, change: &Change) -> bool
    requires profile { IsProfile p.now }
    ensures heights { IsTrue result → IsTrue (heights_keep p.now (index_in before.now)) }
    ensures outputs { IsTrue result
        → IsTrue (outputs_keep (length before.now.hashes) change.now.came) }
    ensures inscriptions { IsTrue result
        → IsTrue (inscriptions_keep p.now (length before.now.hashes) change.now) }
{
    let height = before.hashes.len() as u64;
    do_heights_keep(p, before)
        && do_outputs_keep(height, change.came.as_slice())
        && do_inscriptions_keep(p, height, change)
}

/// Whether the change keeps all rules. `Memory` where there is none for runs, names and sums.
fn does_keep(alloc: Global, p: &Profile, before: &Index, change: &Change) -> Result<bool, Memory>
    requires profile { IsProfile p.now }
    requires begins { IsTrue (begins_in (index_in before.now) change.now) }
    ensures { IfOk result (λ keep. IsTrue keep → Keeps p.now (index_in before.now) change.now) }
{
    if !do_rows_keep(p, before, change) {
        return Ok(false);
    }
    if !do_places_keep(before, change) {
        return Ok(false);
    }
    if !do_sats_keep(alloc, p, before.hashes.len() as u64, change)? {
        return Ok(false);
    }
    do_runes_keep(alloc, p, before, change)
}

/// Whether a change that begins in a sound index keeps rules under which the index after it is
/// sound, too: one block more is allowed, and what comes is of heights up to the new one; satoshis
/// that come and are lost are those that are gone and the new height's; balances come at outputs
/// that stand after, and at outputs that go nothing is left; new runes have ids and names of their
/// own; and of each rune, what comes and is burned is what is gone, is minted and is etched.
///
/// Where it is `true` the index after the change is sound. Nothing is said of `false`: there
/// `is_sound` decides. It is `true` for the changes of a chain. It costs by the change, and by the
/// logarithm of the index for each of its rows; where the change has new runes, also by the number
/// of runes, since none is found by its name. `Memory` where there is none for runs, names and
/// sums.
pub fn keeps_sound(
    alloc: Global,
    p: &Profile,
    before: &Index,
    change: &Change,
) -> Result<bool, Memory>
    requires profile { IsProfile p.now }
    requires sound { IsSound p.now (index_in before.now) }
    requires begins { IsTrue (begins_in (index_in before.now) change.now) }
    ensures { IfOk result (λ keeps. IsTrue keeps
        → IsSound p.now (redone (index_in before.now) change.now)) }
{
    does_keep(alloc, p, before, change)
}
