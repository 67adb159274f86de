//! Whether changes lead from one sound index to another, as tests on plain data.

ghost use Rattle.std.specs.Prelude.{◌≡◌, ◌&&◌, IsTrue, IfOk, OnOk};
ghost use Rattle.std.specs.Bool.{OnFalse, OnTrue};
ghost use Rattle.ox_sat.specs.Profiles.{IsProfile};
ghost use Rattle.ox_model.specs.Change.{redone};
ghost use Rattle.ox_model.specs.Sound.{IsSound};
ghost use Rattle.ox_plain.specs.Ends.{begins_in};
ghost use Rattle.ox_plain.specs.Plain.{index_in};
ghost use Rattle.ox_sound.specs.Sound.{sound};
ghost use Rattle.ox_files.specs.Body.{body_of, is_kept, leads_down};

use ox_bytes::Memory;
use ox_model::Change;
use ox_plain::Index;
use ox_sat::Profile;
use ox_sound::{is_sound, keeps_sound};
use std::alloc::Global;

/// Whether there are no more of these changes than may be kept, and they lead down from the index,
/// which is as before then. `Memory` as for `leads_down`.
pub(crate) fn is_kept(
    alloc: Global,
    p: &Profile,
    depth: u16,
    index: &mut Index,
    changes: &[Change],
) -> Result<bool, Memory>
    requires { IsProfile p.now }
    ensures told { IfOk result (λ kept.
        kept ≡ is_kept p.now depth (body_of (index_in index.old) changes.now)) }
    ensures stays { IfOk result (λ kept. OnTrue kept (index_in index.new ≡ index_in index.old)) }
{
    if changes.len() > depth as usize {
        return Ok(false);
    }
    leads_down(alloc, p, index, changes)
}

/// Whether an index is sound, and each of these changes, the newest first, ends where those before
/// it are undone and leaves a sound one there. The index is as before then.
///
/// It goes back to the oldest of these indexes, of which it tests the whole, and comes on again. So
/// it costs by one index and by the changes, where these keep the rules of `keeps_sound`. It calls
/// itself once for each change, of which `is_kept` lets at most a thousand through. `Memory` where
/// there is none for the tests and the steps: the index is to be dropped then.
fn leads_down(
    alloc: Global,
    p: &Profile,
    index: &mut Index,
    changes: &[Change],
) -> Result<bool, Memory>
    requires { IsProfile p.now }
    ensures told { IfOk result (λ lead.
        lead ≡ leads_down p.now (index_in index.old) changes.now) }
    ensures stays { IfOk result (λ lead. OnTrue lead (index_in index.new ≡ index_in index.old)) }
{
    let Some((change, older)) = changes.split_first() else {
        return is_sound(alloc, p, index);
    };
    if !index.step(alloc, change, true)? {
        return Ok(false);
    }
    if !leads_down(alloc, p, index, older)? {
        return Ok(false);
    }
    goes_on(alloc, p, index, change)
}

/// Whether a change begins in this index, which is sound, and leaves a sound one: the index is that
/// one then, and else as before. `Memory` where there is none for the test and the steps: the index
/// is to be dropped then.
pub(crate) fn leads_on(
    alloc: Global,
    p: &Profile,
    index: &mut Index,
    change: &Change,
) -> Result<bool, Memory>
    requires profile { IsProfile p.now }
    requires sound { IsSound p.now (index_in index.old) }
    ensures told { IfOk result (λ lead. lead ≡ (begins_in (index_in index.old) change.now
        && sound p.now (redone (index_in index.old) change.now))) }
    ensures leads { IfOk result (λ lead. OnTrue lead
        (index_in index.new ≡ redone (index_in index.old) change.now)) }
    ensures stays { IfOk result (λ lead. OnFalse lead (index_in index.new ≡ index_in index.old)) }
{
    if !does_begin(alloc, index, change)? {
        return Ok(false);
    }
    if !goes_on(alloc, p, index, change)? {
        index.step(alloc, change, true)?;
        return Ok(false);
    }
    Ok(true)
}

/// Whether a change begins in this index, which stays as it is. It goes to the index after the
/// change and back again, so it costs by the change. `Memory` where there is none for the steps:
/// the index is to be dropped then.
fn does_begin(alloc: Global, index: &mut Index, change: &Change) -> Result<bool, Memory>
    ensures told { IfOk result (λ is. is ≡ begins_in (index_in index.old) change.now) }
    ensures stays { OnOk result (index_in index.new ≡ index_in index.old) }
{
    if !index.step(alloc, change, false)? {
        return Ok(false);
    }
    index.step(alloc, change, true)?;
    Ok(true)
}

/// Goes on from a sound index to the one after a change that begins in it, and answers whether that
/// one is sound: by what the change touches where this is enough to say so, else by the whole.
/// `Memory` where there is none for the test and the step: the index is to be dropped then.
fn goes_on(alloc: Global, p: &Profile, index: &mut Index, change: &Change) -> Result<bool, Memory>
    requires profile { IsProfile p.now }
    requires sound { IsSound p.now (index_in index.old) }
    requires begins { IsTrue (begins_in (index_in index.old) change.now) }
    ensures told { IfOk result (λ is.
        is ≡ sound p.now (redone (index_in index.old) change.now)) }
    ensures leads { OnOk result
        (index_in index.new ≡ redone (index_in index.old) change.now) }
{
    let keeps = keeps_sound(alloc, p, index, change)?;
    index.step(alloc, change, false)?;
    if keeps {
        return Ok(true);
    }
    is_sound(alloc, p, index)
}
