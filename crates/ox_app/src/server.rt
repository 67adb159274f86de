//! A server over a store, and over any desk: so many turns, one after another, and what they come
//! to.

ghost use Rattle.std.specs.Prelude.{◌≡◌, ◌≢◌, ◌+◌, ◌≤◌, [], Err, Ok as Stood, Some, IsTrue};
ghost use Rattle.std.specs.Prelude.{IfOk, OnErr, IsErrOf};
ghost use Rattle.std.specs.Option.{ForSome};
ghost use Rattle.ox_outside.specs.Counts.{Rose, StopsAtFault, greatest};
ghost use Rattle.ox_outside.specs.Log.{Grows};
ghost use Rattle.ox_outside.specs.Runs.{Calls, LeavesOnly};
ghost use Rattle.ox_gated.specs.Tail.{Holds};
ghost use Rattle.ox_links.specs.Survives.{Survives};
ghost use Rattle.ox_links.specs.Turned.{CutShort, IsFewer};
ghost use Rattle.ox_turns.specs.Follows.{Follows, ShowsFrontsIn};
ghost use Rattle.ox_files.specs.Stands.{stands};
ghost use Rattle.ox_desk.specs.Servers.{server_on};
ghost use Rattle.ox_app.specs.Turns.{RunPromises, Served, StandFor};
ghost use Rattle.ox_app.specs.declared.server.ServeFault.TheVariants as faults;

use ox_desk::StoreDesk;
use ox_outside::Site;
use ox_store::Store;
use ox_turns::{Desk, TurnFault, Turns};
use std::alloc::Global;

/// Why a server stopped before its turns were made.
#[derive(Clone, Copy, Debug, PartialEq, Eq)]
pub enum ServeFault {
    /// A call on a file failed.
    DiskFault,
    /// A door failed.
    DoorFault,
    /// There is no memory for what it serves from, or for its links. No turn was begun.
    Memory,
}

/// What a server counted.
#[derive(Clone, Copy, PartialEq, Eq)]
pub struct Totals {
    /// The requests that were answered. What was no request, and what ran out of memory, isn't
    /// counted.
    pub requests: u64,
    /// Those of them that were GETs for whose path a reply was kept since the last accepted
    /// command.
    pub hits: u64,
}

impl From<TurnFault> for ServeFault {
    ghost use Rattle.ox_app.specs.Turns.{fault_of_turn};

    ghost from_gives = { λ turn fault. fault ≡ fault_of_turn turn };

    fn from(fault: TurnFault) -> ServeFault {
        match fault {
            TurnFault::DiskFault => ServeFault::DiskFault,
            TurnFault::DoorFault => ServeFault::DoorFault,
        }
    }
}

/// Makes so many turns, of slots that are free as yet. A fault of a file or of a door ends them; a
/// link's faults end that link alone.
fn go_round<S: Site, D: Desk<S>>(
    turns: &mut Turns,
    times: u64,
    site: &mut S,
    desk: &mut D,
) -> Result<(), ServeFault>
    requires first { turns.old.place ≡ 0 }
    requires follows { ForSome (S.log site.old) (λ log. Follows D.server
        (record { log = log; state = D.state desk.old }) [] turns.old.slots (D.state desk.old)) }
    requires rests { D.rests desk.old site.old }
    requires room { D.asked desk.old + times ≤ greatest }
    ensures promises { RunPromises S.Site D.Desk times result site.old site.new
        desk.old desk.new }
    ensures begun { result ≢ Err faults.Memory }
{
    for _ in 0..times {
        turns.turn(site, desk)?;
    }
    Ok(())
}

/// Makes so many turns of a server that no link has come to yet. `Memory` where there is none for
/// its slots and for the room of a hearing: then neither desk nor site was called. `DiskFault` and
/// `DoorFault` only where that count rose in the call; at `DoorFault` fewer turns were made, and
/// no other was begun.
fn serve_desk<S: Site, D: Desk<S>>(
    alloc: Global,
    times: u64,
    site: &mut S,
    desk: &mut D,
) -> Result<(), ServeFault>
    requires rests { D.rests desk.old site.old }
    requires room { D.asked desk.old + times ≤ greatest }
    ensures promises { RunPromises S.Site D.Desk times result site.old site.new
        desk.old desk.new }
    ensures memory { IsErrOf result ServeFault.Memory → site.new ≡ site.old }
{
    let Ok(mut turns) = Turns::new(alloc) else {
        return Err(ServeFault::Memory);
    };
    go_round(&mut turns, times, site, desk)
}

/// Serves links by a store that was just opened, for so many turns: it answers requests, and
/// carries out the commands of the operator's links. All memory of its own is taken before the
/// first turn, so that `Memory` comes with nothing done. `DiskFault` and `DoorFault` only where
/// that count rose in the call, which ends with it; at `DoorFault` fewer turns were made, and no
/// other was begun. A link's faults end that link alone.
pub fn serve_store<S: Site>(
    alloc: Global,
    store: Store,
    turns: u64,
    site: &mut S,
) -> Result<Totals, ServeFault>
    requires fresh { store.commands ≡ 0 }
    requires holds { IsTrue (S.told site.old) → Holds S.Site store.tail site.old }
    requires stood { IsTrue (S.told site.old) → stands (S.seen site.old) ≡ Stood store.stack }
    // All turns were made, and this was counted of their answers.
    ensures served { IfOk result (λ totals. Grows (Served server_on store.stack turns
        (S.counts site.old) (S.counts site.new) totals.requests totals.hits)
        (S.log site.old) (S.log site.new)) }
    ensures cut { OnErr result (result ≢ Err faults.Memory
        → Grows (CutShort server_on store.stack turns) (S.log site.old) (S.log site.new)) }
    ensures fewer { IsErrOf result ServeFault.DoorFault
        → Grows (IsFewer server_on store.stack turns) (S.log site.old) (S.log site.new) }
    ensures memory { IsErrOf result ServeFault.Memory → site.new ≡ site.old }
    // However it ended: on each link a front of its answers is shown, and at each moment files and
    // log survive a crash.
    ensures fronts { Grows (ShowsFrontsIn server_on store.stack) (S.log site.old) (S.log site.new) }
    ensures survives { IsTrue (S.told site.old) → LeavesOnly S.Site site.old site.new (λ r.
        Grows (λ events. Survives server_on store.stack StandFor events r.files)
        (S.log site.old) (Some r.log)) }
    ensures disk_fault { IsErrOf result ServeFault.DiskFault
        → Rose (S.counts site.old).disk (S.counts site.new).disk }
    ensures door_fault { IsErrOf result ServeFault.DoorFault
        → Rose (S.counts site.old).door (S.counts site.new).door }
    ensures counted { StopsAtFault (result ≡ Err faults.DiskFault) ⊥ ⊥
        (S.counts site.old) (S.counts site.new) }
    ensures calls { Calls S.Site site.old site.new }
{
    let Ok(mut desk) = StoreDesk::new(alloc, store) else {
        return Err(ServeFault::Memory);
    };
    match serve_desk(alloc, turns, site, &mut desk) {
        Ok(()) => Ok(Totals {
            requests: desk.requests(),
            hits: desk.hits(),
        }),
        Err(fault) => Err(fault),
    }
}
