//! The body of a checkpoint, read as its bytes come.

ghost use Rattle.std.specs.Prelude.{◌≡◌, List, ℕ, IfOk, IfErr, OnOk};
ghost use Rattle.std.specs.Option.{option_map};
ghost use Rattle.ox_plain.specs.Plain.{index_in};
ghost use Rattle.ox_rows.specs.Coming.{Calls, GivesNext, IsAhead};
ghost use Rattle.ox_files.specs.Body.{body_at, body_of, whole};
ghost use Rattle.ox_checkpoint.specs.Coming.{Halted, SpellsNone};

use ox_bytes::{List, Memory, ReadError};
use ox_model::Change;
use ox_plain::Index;
use ox_rows::{NextFault, Source, Window, is_at_end, list_from, read_index_from};
use std::alloc::Global;

/// Why a body isn't read to where it tells what it is.
#[derive(Clone, Copy, Debug, PartialEq, Eq)]
pub enum BodyFault<F> {
    /// There was no memory for what it spells.
    Memory,
    /// What the source ended by.
    Source(F),
}

impl<F> From<Memory> for BodyFault<F> {
    ghost use Rattle.ox_checkpoint.specs.declared.coming.BodyFault.TheVariants as faults;

    ghost from_gives = { λ _ e. e ≡ faults.Memory };

    fn from(_memory: Memory) -> BodyFault<F> {
        BodyFault::Memory
    }
}

/// The index and the changes that the bytes which come spell; `None` where they spell none, or
/// where something stands behind them. `Memory` where there is none for these; `Source` where the
/// source ends, by what it ends by.
pub(crate) fn body_from<W, S: Source<W>>(
    alloc: Global,
    source: &mut S,
    world: &mut W,
) -> Result<Option<(Index, List<Change>)>, BodyFault<S::Fault>>
    requires { S.ready source.old world.old }
    ensures body { (bytes : List ℕ) → S.comes source.old world.old bytes
        → IfOk result (λ found. option_map (λ x. body_of (index_in x.0) x.1) found
        ≡ whole (body_at bytes)) }
    ensures went { OnOk result (S.went source.old world.old source.new world.new) }
    ensures ended { IfErr result (λ fault.
        Halted S.went S.ended source.old world.old fault source.new world.new) }
{
    let mut window = Window::new(alloc);
    match whole_body(alloc, &mut window, source, world) {
        Ok(found) => Ok(found),
        Err(NextFault::Read(ReadError::Fault(_))) => Ok(None),
        Err(NextFault::Read(ReadError::Memory)) => Err(BodyFault::Memory),
        Err(NextFault::Source(fault)) => Err(BodyFault::Source(fault)),
    }
}

/// The body that comes; `None` where something comes behind it.
fn whole_body<W, S: Source<W>>(
    alloc: Global,
    window: &mut Window,
    source: &mut S,
    world: &mut W,
) -> Result<Option<(Index, List<Change>)>, NextFault<S::Fault>>
    requires { S.ready source.old world.old }
    ensures body { (bytes : List ℕ) → IsAhead (S.comes source.old world.old) window.old bytes
        → IfOk result (λ found. option_map (λ x. body_of (index_in x.0) x.1) found
        ≡ whole (body_at bytes)) }
    ensures none { (bytes : List ℕ) → IsAhead (S.comes source.old world.old) window.old bytes
        → IfErr result (SpellsNone (whole (body_at bytes))) }
    ensures calls { Calls S.went S.ended source.old world.old result source.new world.new }
{
    let (index, changes) = front_of_body(alloc, window, source, world)?;
    if !is_at_end(alloc, window, source, world)? {
        return Ok(None);
    }
    Ok(Some((index, changes)))
}

/// The body that comes, whatever comes behind it.
#[tactic(auto, unfolding(ox_files::specs::Body::body_at))]
fn front_of_body<W, S: Source<W>>(
    alloc: Global,
    window: &mut Window,
    source: &mut S,
    world: &mut W,
) -> Result<(Index, List<Change>), NextFault<S::Fault>>
    requires { S.ready source.old world.old }
    ensures read { (bytes : List ℕ) → IsAhead (S.comes source.old world.old) window.old bytes
        → GivesNext (λ x. body_of (index_in x.0) x.1)
        (IsAhead (S.comes source.new world.new) window.new) result (body_at bytes) }
    ensures calls { Calls S.went S.ended source.old world.old result source.new world.new }
    ensures ready { OnOk result (S.ready source.new world.new) }
{
    let index = read_index_from(alloc, window, source, world)?;
    let changes = list_from::<Change, W, S>(alloc, window, source, world)?;
    Ok((index, changes))
}
