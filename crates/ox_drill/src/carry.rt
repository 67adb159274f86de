//! Commands, carried out by a store one after the other.

ghost use Rattle.std.specs.Prelude.{◌≡◌, ◌+◌, ◌-◌, ◌<◌, ◌^◌, [], ◌∷◌, replicate, IsTrue, OnOk};
ghost use Rattle.ox_feed.specs.declared.command.Command.TheVariants as commands;
ghost use Rattle.ox_block.specs.Spelling.{spell};
ghost use Rattle.ox_drill.specs.Blocks.{behind_of};
ghost use Rattle.ox_drill.specs.Chain.{blocks_from, connects, drill_block};
ghost use Rattle.ox_drill.specs.Drill.{Carries, InStep, StopsOnDisk};

use crate::blocks::{Behind, next_block};
use ox_feed::Command;
use ox_gated::Halt;
use ox_outside::Site;
use ox_store::{Kept, Store, Why};
use std::alloc::Global;

/// Carries out a command. A refused one leaves the store as it is.
fn carry<S: Site>(store: Store, command: &Command, site: &mut S) -> Result<Store, Halt>
    requires in_step { IsTrue (S.told site.old) → InStep S.Site store site.old }
    requires few { store.commands < 2 ^ 64 - 1 }
    ensures carries { Carries S.Site store (command.now ∷ []) result site.old site.new }
    ensures stops { StopsOnDisk S.Site result site.old site.new }
{
    match store.prepare(command) {
        Ok(ready) => Ok(ready.commit(site)?),
        Err(Kept { store, why }) => match why {
            Why::Refused(_refusal) => Ok(store),
            Why::Memory => Err(Halt::Memory),
        },
    }
}

/// Connects the block of the next height.
fn connect_next<S: Site>(
    alloc: Global,
    store: Store,
    behind: &mut Behind,
    site: &mut S,
) -> Result<Store, Halt>
    requires place { behind.old ≡ behind_of behind.old.height }
    requires low { behind.old.height < 2 ^ 32 - 1 }
    requires in_step { IsTrue (S.told site.old) → InStep S.Site store site.old }
    requires few { store.commands < 2 ^ 64 - 1 }
    ensures next { OnOk result (behind.new ≡ behind_of (behind.old.height + 1)) }
    ensures carries { let bytes = spell (drill_block behind.old.height) in
        Carries S.Site store (commands.Connect bytes ∷ []) result site.old site.new }
    ensures stops { StopsOnDisk S.Site result site.old site.new }
{
    let (bytes, next) = next_block(alloc, behind)?;
    let store = carry(store, &Command::Connect(bytes), site)?;
    *behind = next;
    Ok(store)
}

/// Connects the blocks of so many heights.
pub(crate) fn connect_blocks<S: Site>(
    alloc: Global,
    store: Store,
    behind: &mut Behind,
    count: u32,
    site: &mut S,
) -> Result<Store, Halt>
    requires place { behind.old ≡ behind_of behind.old.height }
    requires low { behind.old.height + count < 2 ^ 32 }
    requires in_step { IsTrue (S.told site.old) → InStep S.Site store site.old }
    requires few { store.commands + count < 2 ^ 64 }
    ensures next { OnOk result (behind.new ≡ behind_of (behind.old.height + count)) }
    ensures carries { Carries S.Site store (connects (blocks_from behind.old.height count)) result
        site.old site.new }
    ensures stops { StopsOnDisk S.Site result site.old site.new }
{
    let mut store = store;
    for _done in 0..count {
        store = connect_next(alloc, store, behind, site)?;
    }
    Ok(store)
}

/// Takes so many of the newest blocks back.
pub(crate) fn disconnect_blocks<S: Site>(
    store: Store,
    count: u32,
    site: &mut S,
) -> Result<Store, Halt>
    requires in_step { IsTrue (S.told site.old) → InStep S.Site store site.old }
    requires few { store.commands + count < 2 ^ 64 }
    ensures carries { Carries S.Site store (replicate count commands.Disconnect) result
        site.old site.new }
    ensures stops { StopsOnDisk S.Site result site.old site.new }
{
    let mut store = store;
    for _done in 0..count {
        store = carry(store, &Command::Disconnect, site)?;
    }
    Ok(store)
}
