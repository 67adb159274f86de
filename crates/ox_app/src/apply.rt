//! A run over a feed and a store.

ghost use Rattle.std.specs.Prelude.{◌≡◌, ◌≢◌, ◌⊎◌, ◌+◌, ◌-◌, ◌<◌, ◌≤◌, ◌^◌, ℕ, Some, Ok, Err};
ghost use Rattle.std.specs.Prelude.{IsTrue, IfOk, IfSome, IsErrOf};
ghost use Rattle.ox_outside.specs.Log.{Grows};
ghost use Rattle.ox_feed.specs.Feed.{IsTooMuch, feed_limit, bytes_left};
ghost use Rattle.ox_model.specs.Replies.{after_on, replies_on};
ghost use Rattle.ox_model.specs.Stack.{Stack};
ghost use Rattle.ox_files.specs.Stands.{Misfit, stands};
ghost use Rattle.ox_app.specs.Apply.{CarriesOutNext, DuringLine};
ghost use Rattle.ox_app.specs.Headline.{AddsNoImage, Leaves, RunsFeed, StopsBefore, Survives};
ghost use Rattle.ox_outside.specs.Runs.{Calls, LeavesOnly};
ghost use Rattle.ox_gated.specs.Tail.{Holds, IsSettled};
ghost use Rattle.ox_gated.specs.declared.fault.Halt.TheVariants as halts;
ghost use Rattle.ox_app.specs.Show.{DiskFails, EndsAtFault, EndsAtStop, HearFails, ShowFails};
ghost use Rattle.ox_app.specs.Stacks.{FeedsSome};
ghost use Rattle.ox_app.specs.Status.{IsApplyStatus, IsUnopened, status_of};
ghost use Rattle.ox_app.specs.Unopened.{SaysNotStore};
ghost use Rattle.ox_app.specs.declared.stop.Stop.TheVariants as stops;
ghost use Rattle.ox_app.specs.declared.status.Status.TheVariants as ends;

use crate::carry::{CarriedLine, carry_out};
use crate::show::show_all;
use crate::status::Status;
use crate::stop::{Stop, status};
use crate::unopened::explain;
use ox_bytes::Bytes;
use ox_feed::Lines;
use ox_outside::Site;
use ox_store::Store;
use std::alloc::Global;

/// Hears the next line and carries it out; `None` at the end of the feed.
fn next_carried<S: Site>(
    alloc: Global,
    lines: &mut Lines,
    store: Store,
    site: &mut S,
) -> Result<Option<CarriedLine>, Stop>
    requires holds { IsTrue (S.told site.old) → Holds S.Site store.tail site.old }
    requires few { store.commands < 2 ^ 64 - 1 }
    ensures told { Grows (CarriesOutNext lines.old store.stack result lines.new)
        (S.log site.old) (S.log site.new) }
    ensures during { IsTrue (S.told site.old) → stands (S.seen site.old) ≡ Ok store.stack
        → LeavesOnly S.Site site.old site.new (λ r.
        Grows (DuringLine lines.old store.stack lines.new r.files) (S.log site.old) (Some r.log)) }
    ensures holds { IsTrue (S.told site.old)
        → IfOk result (λ carried. IfSome carried (λ c. Holds S.Site c.store.tail site.new)) }
    ensures stands { IsTrue (S.told site.old) → stands (S.seen site.old) ≡ Ok store.stack
        → IfOk result (λ carried. IfSome carried
        (λ c. stands (S.seen site.new) ≡ Ok c.store.stack)) }
    ensures out_of_memory { IsTrue (S.told site.old) → stands (S.seen site.old) ≡ Ok store.stack
        → IsErrOf result (stops.Halt halts.Memory) → stands (S.seen site.new) ≡ Ok store.stack }
    ensures settled { IsTrue (S.told site.old) → IsErrOf result (stops.Halt halts.Memory)
        → IsSettled S.Site site.new }
    ensures one_more { IfOk result (λ carried. IfSome carried
        (λ c. c.store.commands ≤ store.commands + 1)) }
    ensures fewer { IfOk result (λ carried. IfSome carried
        (λ c. bytes_left lines.new < bytes_left lines.old)) }
    ensures count { lines.new.heard ≤ feed_limit }
    ensures too_much { IsErrOf result Stop.TooMuch → IsTooMuch lines.new }
    ensures hear_fault { IsErrOf result Stop.HearFault → HearFails S.Site site.old site.new }
    ensures disk_fault { IsErrOf result (stops.Halt halts.Disk)
        → DiskFails S.Site site.old site.new }
    ensures no_show_fault { IsErrOf result Stop.ShowFault → ⊥ }
    ensures counted { EndsAtStop result (S.counts site.old) (S.counts site.new) }
    ensures calls { Calls S.Site site.old site.new }
{
    let line = lines.next(site)?;
    carry_out(alloc, store, line, site)
}

/// Reads the feed of channel 0 to its end; each line is carried out, and its answer shown.
fn answer_feed<S: Site>(alloc: Global, store: Store, site: &mut S) -> Result<(), Stop>
    requires holds { IsTrue (S.told site.old) → Holds S.Site store.tail site.old }
    requires fresh { store.commands ≡ 0 }
    ensures told { Grows (RunsFeed (replies_on store.stack) (status_of result)) (S.log site.old)
        (S.log site.new) }
    ensures survives { IsTrue (S.told site.old) → stands (S.seen site.old) ≡ Ok store.stack
        → LeavesOnly S.Site site.old site.new (λ r.
        Grows (λ events. Survives (replies_on store.stack) (after_on store.stack) events r.files)
        (S.log site.old) (Some r.log)) }
    ensures out_of_memory { IsTrue (S.told site.old) → stands (S.seen site.old) ≡ Ok store.stack
        → IsErrOf result (stops.Halt halts.Memory)
        → Grows (StopsBefore (replies_on store.stack) (after_on store.stack) (S.seen site.new))
        (S.log site.old) (S.log site.new) }
    ensures hear_fault { IsErrOf result Stop.HearFault → HearFails S.Site site.old site.new }
    ensures show_fault { IsErrOf result Stop.ShowFault → ShowFails S.Site site.old site.new }
    ensures disk_fault { IsErrOf result (stops.Halt halts.Disk)
        → DiskFails S.Site site.old site.new }
    ensures settled { IsTrue (S.told site.old) → IsErrOf result (stops.Halt halts.Memory)
        → IsSettled S.Site site.new }
    ensures counted { EndsAtStop result (S.counts site.old) (S.counts site.new) }
    ensures calls { Calls S.Site site.old site.new }
{
    let mut lines = Lines::new(alloc);
    let mut store = store;
    while let Some(carried) = next_carried(alloc, &mut lines, store, site)? {
        show_all(site, carried.answer.as_slice())?;
        store = carried.store;
    }
    Ok(())
}

/// Opens the store and carries out the commands of channel 0: each line is answered by one, once
/// its record is on the disk.
pub fn apply<S: Site>(alloc: Global, site: &mut S) -> Status
    // On files that stand for a stack.
    ensures feeds { IsTrue (S.told site.old) → (stack : Stack) → stands (S.seen site.old) ≡ Ok stack
        → (result ≢ ends.NotStore)
        × Grows (RunsFeed (replies_on stack) result) (S.log site.old) (S.log site.new) }
    ensures survives { IsTrue (S.told site.old) → (stack : Stack)
        → stands (S.seen site.old) ≡ Ok stack
        → LeavesOnly S.Site site.old site.new (λ r.
        Grows (Leaves S.may_leave site.old (replies_on stack) (after_on stack) r.files)
        (S.log site.old) (Some r.log)) }
    ensures out_of_memory { IsTrue (S.told site.old) → (stack : Stack)
        → stands (S.seen site.old) ≡ Ok stack
        → result ≡ ends.Memory
        → Grows (StopsBefore (replies_on stack) (after_on stack) (S.seen site.new))
        (S.log site.old) (S.log site.new) }

    // Where the log alone is told.
    ensures logged { result ≢ ends.NotStore → FeedsSome S.Site result site.old site.new }

    // On files that stand for none.
    ensures unopened { IsTrue (S.told site.old) → (misfit : Misfit)
        → stands (S.seen site.old) ≡ Err misfit
        → IsUnopened result }
    ensures unsaid { IsTrue (S.told site.old) → (misfit : Misfit)
        → stands (S.seen site.old) ≡ Err misfit
        → result ≢ ends.NotStore → S.log site.new ≡ S.log site.old }
    ensures looks { IsTrue (S.told site.old) → (misfit : Misfit)
        → stands (S.seen site.old) ≡ Err misfit
        → AddsNoImage S.Site site.old site.new }
    ensures no_store { result ≡ ends.NotStore → AddsNoImage S.Site site.old site.new }
    ensures not_store { result ≡ ends.NotStore → SaysNotStore S.Site site.old site.new }

    ensures status { IsApplyStatus result }
    ensures hear_fault { result ≡ ends.HearFault → HearFails S.Site site.old site.new }
    ensures show_fault { result ≡ ends.ShowFault → ShowFails S.Site site.old site.new }
    ensures disk_fault { result ≡ ends.DiskFault → DiskFails S.Site site.old site.new }
    // Where memory ran out, each crash leaves what is read.
    ensures settled { IsTrue (S.told site.old) → result ≡ ends.Memory → IsSettled S.Site site.new }
    ensures stops { EndsAtFault result (S.counts site.old) (S.counts site.new) }
    ensures calls { Calls S.Site site.old site.new }
{
    match Store::open(alloc, site) {
        Ok(store) => status(answer_feed(alloc, store, site)),
        Err(fault) => explain(alloc, fault, site),
    }
}
