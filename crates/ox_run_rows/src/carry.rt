//! Commands that are carried out on one store.

ghost use Rattle.std.specs.Prelude.{◌≡◌, IsTrue, IfOk, IfSome};
ghost use Rattle.ox_gated.specs.Tail.{Holds};

use crate::say_store::{print_outcome, print_store};
use ox_feed::Command;
use ox_model::{Change, Refusal};
use ox_outside::Site;
use ox_store::{Kept, Moving, Ready, Store, Why};
use std::alloc::Global;
use std::io;

/// What a command changes, and the newest block after it.
#[derive(Clone, Copy)]
pub struct Moved {
    /// Whether a block is taken back.
    pub is_back: bool,
    /// The hash of the block that moves.
    pub hash: [u8; 32],
    /// How many outputs go.
    pub gone: usize,
    /// How many outputs come.
    pub came: usize,
    /// The newest block's height and hash afterwards, if there is one.
    pub tip: Option<(u32, [u8; 32])>,
}

/// What came of a command.
#[derive(Clone, Copy)]
pub enum Outcome {
    /// Its record is written.
    Done(Moved),
    /// It was prepared, and a call failed.
    Failed(Moved),
    /// It is refused, and the store is as before.
    Refused(Refusal),
    /// There is no memory for it, or no number for its record: the store is as before.
    Memory,
}

/// What came of a command, and the store after it; none where a call failed.
#[derive(Drop)]
struct Turn {
    outcome: Outcome,
    store: Option<Store>,
}

/// A command with this change.
fn moved_with(is_back: bool, change: &Change, tip: Option<(u32, [u8; 32])>) -> Moved {
    Moved {
        is_back,
        hash: change.hash,
        gone: change.gone.len(),
        came: change.came.len(),
        tip,
    }
}

/// What a prepared command changes.
fn moved_by(ready: &Ready) -> Moved {
    match ready.moving() {
        Moving::On(change) => moved_with(false, change, ready.tip()),
        Moving::Back(change) => moved_with(true, change, ready.tip()),
    }
}

/// Writes the record of a prepared command.
fn commit<S: Site>(ready: Ready, site: &mut S) -> Turn
    requires { IsTrue (S.told site.old) → Holds S.Site ready.tail site.old }
    ensures told { S.told site.new ≡ S.told site.old }
    ensures holds { IsTrue (S.told site.old)
        → IfSome result.store (λ store. Holds S.Site store.tail site.new) }
{
    let moved = moved_by(&ready);
    match ready.commit(site) {
        Ok(store) => Turn {
            outcome: Outcome::Done(moved),
            store: Some(store),
        },
        Err(_) => Turn {
            outcome: Outcome::Failed(moved),
            store: None,
        },
    }
}

/// Why a command isn't prepared.
fn outcome_of(why: Why) -> Outcome {
    match why {
        Why::Refused(refusal) => Outcome::Refused(refusal),
        Why::Memory => Outcome::Memory,
    }
}

/// Carries a command out, if the number of commands isn't used up.
fn carry_out<S: Site>(store: Store, command: &Command, site: &mut S) -> Turn
    requires { IsTrue (S.told site.old) → Holds S.Site store.tail site.old }
    ensures told { S.told site.new ≡ S.told site.old }
    ensures holds { IsTrue (S.told site.old)
        → IfSome result.store (λ after. Holds S.Site after.tail site.new) }
{
    if store.commands() == u64::MAX {
        return Turn {
            outcome: Outcome::Memory,
            store: Some(store),
        };
    }
    match store.prepare(command) {
        Ok(ready) => commit(ready, site),
        Err(Kept { store, why }) => Turn {
            outcome: outcome_of(why),
            store: Some(store),
        },
    }
}

/// Carries a command out, and prints what came of it. The store after it; none where a call failed.
fn carry_out_aloud<S: Site>(
    rt: &impl Print,
    alloc: Global,
    store: Store,
    command: &Command,
    site: &mut S,
) -> io::Result<Option<Store>>
    requires { IsTrue (S.told site.old) → Holds S.Site store.tail site.old }
    ensures told { S.told site.new ≡ S.told site.old }
    ensures holds { IsTrue (S.told site.old)
        → IfOk result (λ after. IfSome after (λ store. Holds S.Site store.tail site.new)) }
{
    let turn = carry_out(store, command, site);
    print_outcome(rt, alloc, &turn.outcome)?;
    Ok(turn.store)
}

/// Carries commands out on a store until a call fails, and prints what came of each, and then what
/// the store says of itself, unless a call failed.
pub fn carry_out_all<S: Site>(
    rt: &impl Print,
    alloc: Global,
    store: Store,
    commands: &[Command],
    site: &mut S,
) -> io::Result<()>
    requires { IsTrue (S.told site.old) → Holds S.Site store.tail site.old }
{
    let mut store = store;
    for command in commands {
        match carry_out_aloud(rt, alloc, store, command, site)? {
            Some(after) => store = after,
            None => return Ok(()),
        }
    }
    print_store(rt, alloc, &store)
}
