//! A command, carried out by a store and replied to.

ghost use Rattle.std.specs.Prelude.{◌≡◌, ◌+◌, ◌-◌, ◌<◌, ◌^◌, Ok, IsTrue, IfOk, OnErr, IfSome};
ghost use Rattle.ox_outside.specs.Counts.{IsFailure, Rose, StopsAtFault};
ghost use Rattle.ox_outside.specs.Runs.{LeavesOnly};
ghost use Rattle.ox_http.specs.Written.{written};
ghost use Rattle.ox_gated.specs.Tail.{Holds};
ghost use Rattle.ox_gated.specs.Writes.{OnlyWrites};
ghost use Rattle.ox_files.specs.Stands.{stands};
ghost use Rattle.ox_rules.specs.declared.refusal.Refusal.{Refusal as Cause};
ghost use Rattle.ox_rules.specs.declared.why.Why.TheVariants as whys;
ghost use Rattle.ox_store.specs.Ready.{StandsForEither};
ghost use Rattle.ox_desk.specs.Desk.{ComesOf, stack_behind};
ghost use Rattle.ox_desk.specs.Replies.{refused_reply};

use crate::held::{HeldStore, holders_behind};
use crate::newest::{Rooms, accepted_reply};
use crate::refused::refused_reply;
use ox_bytes::Bytes;
use ox_feed::Command;
use ox_gated::DiskFault;
use ox_outside::Site;
use ox_store::{Kept, Why};
use std::alloc::Global;

/// The store behind a command, and the bytes of the reply; `None` where there was no memory for the
/// command or for the reply: nothing has changed then.
#[derive(Drop)]
pub(crate) struct Carried {
    pub(crate) store: HeldStore,
    pub(crate) told: Option<Bytes>,
}

/// The store as it is, and what is told of a command that isn't carried out. The memory for a 409
/// is taken once the store is as before.
fn refuse(alloc: Global, store: HeldStore, why: Why, close: bool) -> Carried
    ensures store { result.store ≡ store }
    ensures told { IfSome result.told (λ bytes. (cause : Cause)
        × (why ≡ whys.Refused cause) × (bytes ≡ written (refused_reply cause close))) }
{
    match why {
        Why::Refused(refusal) => Carried {
            store,
            told: refused_reply(alloc, refusal, close).ok(),
        },
        Why::Memory => Carried { store, told: None },
    }
}

/// Carries out a command, and makes the reply. All memory of an accepted command and of its reply
/// is taken before its record is written; where there is none for the step of the holders, they are
/// let go. At any moment of the call a crash leaves files that stand
/// for the stack before the command or for the one after it. `DiskFault` only where a call on a
/// file failed; the store is gone then.
pub(crate) fn carry_command<S: Site>(
    alloc: Global,
    store: HeldStore,
    command: &Command,
    close: bool,
    site: &mut S,
) -> Result<Carried, DiskFault>
    requires holds { IsTrue (S.told site.old) → Holds S.Site store.tail site.old }
    requires few { store.commands < 2 ^ 64 - 1 }
    ensures carries { IfOk result (λ carried.
        ComesOf store command.now close carried.told carried.store) }
    ensures holds { IsTrue (S.told site.old)
        → IfOk result (λ carried. Holds S.Site carried.store.tail site.new) }
    ensures stands { IsTrue (S.told site.old) → stands (S.seen site.old) ≡ Ok store.stack
        → IfOk result (λ carried. stands (S.seen site.new) ≡ Ok carried.store.stack) }
    ensures any_moment { IsTrue (S.told site.old) → stands (S.seen site.old) ≡ Ok store.stack
        → LeavesOnly S.Site site.old site.new (λ r.
        StandsForEither store.stack (stack_behind store.stack command.now) r.files) }
    ensures failed { OnErr result (Rose (S.counts site.old).disk (S.counts site.new).disk) }
    ensures counted { StopsAtFault (IsFailure result) ⊥ ⊥ (S.counts site.old) (S.counts site.new) }
    ensures writes { OnlyWrites S.Site site.old site.new }
{
    let Ok(rooms) = Rooms::new(alloc) else {
        return Ok(Carried { store, told: None });
    };
    let (store, holders) = store.into_parts();
    match store.prepare(command) {
        Ok(ready) => {
            let bytes = accepted_reply(rooms, ready.tip(), close);
            let holders = holders_behind(holders, ready.moving());
            let Ok(store) = ready.commit(site) else {
                return Err(DiskFault);
            };
            Ok(Carried {
                store: HeldStore::of(store, holders),
                told: Some(bytes),
            })
        }
        Err(Kept { store, why }) => { Ok(refuse(alloc, HeldStore::of(store, holders), why, close)) }
    }
}
