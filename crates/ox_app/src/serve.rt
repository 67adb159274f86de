//! A server over a store.

ghost use Rattle.std.specs.Prelude.{◌≡◌, ◌≢◌, ◌≤◌, [], Ok, Err, Some, IsTrue};
ghost use Rattle.ox_outside.specs.Log.{Grows};
ghost use Rattle.ox_outside.specs.Runs.{Calls, LeavesOnly};
ghost use Rattle.ox_gated.specs.Tail.{Holds};
ghost use Rattle.ox_model.specs.Stack.{Stack};
ghost use Rattle.ox_files.specs.Stands.{Misfit, stands};
ghost use Rattle.ox_desk.specs.Servers.{server_on};
ghost use Rattle.ox_app.specs.Turns.{StandFor};
ghost use Rattle.ox_app.specs.Headline.{AddsNoImage};
ghost use Rattle.ox_app.specs.Serve.{DoorFails, LeavesServing, RunsServer, SurvivesLinks};
ghost use Rattle.ox_app.specs.Serve.{totals_line as totals_told};
ghost use Rattle.ox_app.specs.Show.{DiskFails, EndsAtFault, ShowFails};
ghost use Rattle.ox_app.specs.Stacks.{ServesSome};
ghost use Rattle.ox_app.specs.Status.{IsServeStatus, IsUnopened, fault_status};
ghost use Rattle.ox_app.specs.Subcommands.{IsTurns};
ghost use Rattle.ox_app.specs.Unopened.{SaysNotStore};
ghost use Rattle.ox_app.specs.declared.status.Status.TheVariants as ends;

use crate::server::{ServeFault, Totals, serve_store};
use crate::show::show_all;
use crate::status::Status;
use crate::unopened::explain;
use itoa::Buffer;
use ox_bytes::{Bytes, Room};
use ox_outside::{Failed, Site};
use ox_store::Store;
use std::alloc::Global;

/// How many bytes the line has at most that tells what was counted: 16 of words, two numbers of at
/// most 20 digits each.
const LONGEST_TOTALS: usize = 56;

/// The line that tells what was counted, in memory that was taken before.
#[tactic(auto, unfolding(crate::specs::Serve::totals_line))]
fn totals_line(room: Room<u8>, totals: Totals) -> Bytes
    requires empty { room.filled ≡ [] }
    requires spare { 56 ≤ room.spare }
    ensures { result ≡ totals_told totals.requests totals.hits }
{
    let mut room = room;
    room.put(b"requests ");
    room.put(Buffer::new().format(totals.requests).as_bytes());
    room.put(b" hits ");
    room.put(Buffer::new().format(totals.hits).as_bytes());
    room.put(b"\n");
    room.into_bytes()
}

/// How a run ends whose turns a fault ended.
fn fault_of(fault: ServeFault) -> Status
    ensures { result ≡ fault_status fault }
{
    match fault {
        ServeFault::DiskFault => Status::DiskFault,
        ServeFault::DoorFault => Status::DoorFault,
        ServeFault::Memory => Status::Memory,
    }
}

/// Serves by a store that was opened, and tells what was counted.
fn serve_by<S: Site>(
    alloc: Global,
    room: Room<u8>,
    store: Store,
    turns: u64,
    site: &mut S,
) -> Status
    requires empty { room.filled ≡ [] }
    requires spare { 56 ≤ room.spare }
    requires some { 1 ≤ turns }
    requires fresh { store.commands ≡ 0 }
    requires holds { IsTrue (S.told site.old) → Holds S.Site store.tail site.old }
    requires stood { IsTrue (S.told site.old) → stands (S.seen site.old) ≡ Ok store.stack }
    ensures serves { Grows (RunsServer server_on store.stack turns result
        (S.counts site.old) (S.counts site.new)) (S.log site.old) (S.log site.new) }
    ensures survives { IsTrue (S.told site.old) → LeavesOnly S.Site site.old site.new (λ r.
        Grows (SurvivesLinks server_on store.stack StandFor r.files)
        (S.log site.old) (Some r.log)) }
    ensures memory { result ≡ ends.Memory → S.log site.new ≡ S.log site.old }
    ensures opened { result ≢ ends.NotStore }
    ensures status { IsServeStatus result }
    ensures disk_fault { result ≡ ends.DiskFault → DiskFails S.Site site.old site.new }
    ensures door_fault { result ≡ ends.DoorFault → DoorFails S.Site site.old site.new }
    ensures show_fault { result ≡ ends.ShowFault → ShowFails S.Site site.old site.new }
    ensures stops { EndsAtFault result (S.counts site.old) (S.counts site.new) }
    ensures calls { Calls S.Site site.old site.new }
{
    match serve_store(alloc, store, turns, site) {
        Ok(totals) => match show_all(site, totals_line(room, totals).as_slice()) {
            Ok(()) => Status::Done,
            Err(Failed) => Status::ShowFault,
        },
        Err(fault) => fault_of(fault),
    }
}

/// Opens the store, makes so many turns of a server, and shows what was counted. The line's memory
/// is taken first, and the server's own before the first turn, so that `Memory` comes with nothing
/// logged.
pub fn serve<S: Site>(alloc: Global, site: &mut S, turns: u64) -> Status
    requires turns { IsTurns turns }
    // On files that stand for a stack.
    ensures serves { IsTrue (S.told site.old) → (stack : Stack)
        → stands (S.seen site.old) ≡ Ok stack
        → (result ≢ ends.NotStore)
        × Grows (RunsServer server_on stack turns result (S.counts site.old) (S.counts site.new))
        (S.log site.old) (S.log site.new) }
    ensures survives { IsTrue (S.told site.old) → (stack : Stack)
        → stands (S.seen site.old) ≡ Ok stack
        → LeavesOnly S.Site site.old site.new (λ r.
        Grows (LeavesServing S.may_leave site.old server_on stack StandFor r.files)
        (S.log site.old) (Some r.log)) }

    // Where the log alone is told.
    ensures logged { result ≢ ends.NotStore → ServesSome S.Site turns result site.old site.new }

    // On files that stand for none.
    ensures unopened { IsTrue (S.told site.old) → (misfit : Misfit)
        → stands (S.seen site.old) ≡ Err misfit
        → IsUnopened result }
    ensures unsaid { IsTrue (S.told site.old) → (misfit : Misfit)
        → stands (S.seen site.old) ≡ Err misfit
        → result ≢ ends.NotStore → S.log site.new ≡ S.log site.old }
    ensures looks { IsTrue (S.told site.old) → (misfit : Misfit)
        → stands (S.seen site.old) ≡ Err misfit
        → AddsNoImage S.Site site.old site.new }
    ensures no_store { result ≡ ends.NotStore → AddsNoImage S.Site site.old site.new }
    ensures not_store { result ≡ ends.NotStore → SaysNotStore S.Site site.old site.new }

    ensures memory { result ≡ ends.Memory → S.log site.new ≡ S.log site.old }
    ensures status { IsServeStatus result }
    ensures disk_fault { result ≡ ends.DiskFault → DiskFails S.Site site.old site.new }
    ensures door_fault { result ≡ ends.DoorFault → DoorFails S.Site site.old site.new }
    ensures show_fault { result ≡ ends.ShowFault → ShowFails S.Site site.old site.new }
    ensures stops { EndsAtFault result (S.counts site.old) (S.counts site.new) }
    ensures calls { Calls S.Site site.old site.new }
{
    let Ok(room) = Room::new(alloc, LONGEST_TOTALS) else {
        return Status::Memory;
    };
    match Store::open(alloc, site) {
        Ok(store) => serve_by(alloc, room, store, turns, site),
        Err(fault) => explain(alloc, fault, site),
    }
}
