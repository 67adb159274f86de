//! One line of a feed, carried out by a store and answered.

ghost use Rattle.std.specs.Prelude.{◌≡◌, ◌⊎◌, ◌+◌, ◌-◌, ◌<◌, ◌≤◌, ◌^◌, [], Ok};
ghost use Rattle.std.specs.Prelude.{IsTrue, IfOk, IfErr, IfSome, IsErrOf};
ghost use Rattle.ox_outside.specs.Crash.{AddsNothing};
ghost use Rattle.ox_outside.specs.Runs.{LeavesOnly};
ghost use Rattle.ox_gated.specs.Tail.{Holds};
ghost use Rattle.ox_gated.specs.Writes.{OnlyWrites};
ghost use Rattle.ox_gated.specs.declared.fault.Halt.TheVariants as halts;
ghost use Rattle.ox_model.specs.Replies.{index_on, reply_by};
ghost use Rattle.ox_model.specs.Stack.{Stack, stack_after};
ghost use Rattle.ox_files.specs.Stands.{stands};
ghost use Rattle.ox_rules.specs.Text.{refusal_line};
ghost use Rattle.ox_store.specs.Ready.{Leads, StandsForEither};
ghost use Rattle.ox_app.specs.Apply.{CarriesOut, after_line};
ghost use Rattle.ox_app.specs.Carry.{TakesTurn};
ghost use Rattle.ox_app.specs.Fold.{turn_by};
ghost use Rattle.ox_app.specs.Show.{DiskFails, EndsAtStop};
ghost use Rattle.ox_app.specs.declared.stop.Stop.TheVariants as stops;

use crate::line::asked_by;
use crate::stop::Stop;
use ox_bytes::{Bytes, Room};
use ox_feed::{Command, Line};
use ox_gated::{DiskFault, Halt};
use ox_model::Refusal;
use ox_outside::Site;
use ox_rules::{LONGEST_OK, ok_line_in};
use ox_store::{Kept, Ready, Store, Why};
use std::alloc::Global;

/// A line that was carried out: the store after it, and its answer.
#[derive(Drop)]
pub struct CarriedLine {
    /// The store as the line leaves it.
    pub store: Store,
    /// The line that answers, with its line feed.
    pub answer: Bytes,
}

/// The store as it is, and the line of a refusal.
fn refuse(alloc: Global, store: Store, refusal: Refusal) -> Result<CarriedLine, Stop>
    ensures store { IfOk result (λ carried. carried.store ≡ store) }
    ensures answer { IfOk result (λ carried. carried.answer ≡ refusal_line refusal) }
    ensures stops { IfErr result (λ stop. stop ≡ stops.Halt halts.Memory) }
{
    let answer = refusal.line(alloc)?;
    Ok(CarriedLine { store, answer })
}

/// Commits a command that is prepared, and answers it in memory that was taken before.
fn commit<S: Site>(ready: Ready, room: Room<u8>, site: &mut S) -> Result<CarriedLine, Stop>
    requires empty { room.filled ≡ [] }
    requires spare { 79 ≤ room.spare }
    requires holds { IsTrue (S.told site.old) → Holds S.Site ready.tail site.old }
    ensures answer { IfOk result (λ carried.
        carried.answer ≡ reply_by index_on (Ok ready.stack)) }
    ensures leads { IfOk result (λ carried. carried.store.stack ≡ ready.stack) }
    ensures one_more { IfOk result (λ carried. carried.store.commands ≤ ready.commands + 1) }
    ensures holds { IsTrue (S.told site.old)
        → IfOk result (λ carried. Holds S.Site carried.store.tail site.new) }
    ensures stands { IsTrue (S.told site.old)
        → (before : Stack) → stands (S.seen site.old) ≡ Ok before → Leads before ready
        → IfOk result (λ carried. stands (S.seen site.new) ≡ Ok carried.store.stack) }
    ensures any_moment { IsTrue (S.told site.old)
        → (before : Stack) → stands (S.seen site.old) ≡ Ok before → Leads before ready
        → LeavesOnly S.Site site.old site.new (λ r. StandsForEither before ready.stack r.files) }
    ensures stops { IfErr result (λ stop. stop ≡ stops.Halt halts.Disk) }
    ensures failed { IsErrOf result (stops.Halt halts.Disk) → DiskFails S.Site site.old site.new }
    ensures counted { EndsAtStop result (S.counts site.old) (S.counts site.new) }
    ensures writes { OnlyWrites S.Site site.old site.new }
{
    let answer = ok_line_in(room, ready.tip());
    match ready.commit(site) {
        Ok(store) => Ok(CarriedLine { store, answer }),
        Err(DiskFault) => Err(Stop::Halt(Halt::Disk)),
    }
}

/// Carries out a command. The memory of its answer is taken first.
fn carry_command<S: Site>(
    alloc: Global,
    store: Store,
    command: &Command,
    site: &mut S,
) -> Result<CarriedLine, Stop>
    requires holds { IsTrue (S.told site.old) → Holds S.Site store.tail site.old }
    requires few { store.commands < 2 ^ 64 - 1 }
    ensures { TakesTurn S.Site store (stack_after store.stack command.now)
        result site.old site.new }
{
    let Ok(room) = Room::new(alloc, LONGEST_OK) else {
        return Err(Stop::Halt(Halt::Memory));
    };
    match store.prepare(command) {
        Ok(ready) => commit(ready, room, site),
        Err(Kept { store, why }) => match why {
            Why::Refused(refusal) => refuse(alloc, store, refusal),
            Why::Memory => Err(Stop::Halt(Halt::Memory)),
        },
    }
}

/// Carries out what a line asks for: a command, or a refusal, which leaves the store as it is.
fn carry_asked<S: Site>(
    alloc: Global,
    store: Store,
    asked: Result<Command, Refusal>,
    site: &mut S,
) -> Result<CarriedLine, Stop>
    requires holds { IsTrue (S.told site.old) → Holds S.Site store.tail site.old }
    requires few { store.commands < 2 ^ 64 - 1 }
    ensures { TakesTurn S.Site store (turn_by store.stack asked) result site.old site.new }
{
    match asked {
        Ok(command) => carry_command(alloc, store, &command, site),
        Err(refusal) => refuse(alloc, store, refusal),
    }
}

/// Carries out a line and answers it; `None` at the end of the feed. The line's own bytes are given
/// back before its command is carried out, and all memory of a command and its answer is taken
/// before its record is written. At any moment of the call a crash leaves files that stand for the
/// stack before the line or for the one after it. `Disk` only where a call on a file failed;
/// `Memory` where there is none, and the line isn't carried out then.
pub fn carry_out<S: Site>(
    alloc: Global,
    store: Store,
    line: Line,
    site: &mut S,
) -> Result<Option<CarriedLine>, Stop>
    requires holds { IsTrue (S.told site.old) → Holds S.Site store.tail site.old }
    requires few { store.commands < 2 ^ 64 - 1 }
    ensures carried { IfOk result (λ carried. CarriesOut line store.stack carried) }
    ensures one_more { IfOk result (λ carried. IfSome carried
        (λ c. c.store.commands ≤ store.commands + 1)) }
    ensures holds { IsTrue (S.told site.old)
        → IfOk result (λ carried. IfSome carried (λ c. Holds S.Site c.store.tail site.new)) }
    ensures stands { IsTrue (S.told site.old) → stands (S.seen site.old) ≡ Ok store.stack
        → IfOk result (λ carried. IfSome carried
        (λ c. stands (S.seen site.new) ≡ Ok c.store.stack)) }
    ensures any_moment { IsTrue (S.told site.old) → stands (S.seen site.old) ≡ Ok store.stack
        → LeavesOnly S.Site site.old site.new (λ r.
        StandsForEither store.stack (after_line store.stack line) r.files) }
    ensures out_of_memory { IsErrOf result (stops.Halt halts.Memory)
        → AddsNothing S.seen S.log S.may_leave site.old site.new }
    ensures stops { IfErr result (λ stop. (stop ≡ stops.Halt halts.Disk)
        ⊎ (stop ≡ stops.Halt halts.Memory)) }
    ensures failed { IsErrOf result (stops.Halt halts.Disk) → DiskFails S.Site site.old site.new }
    ensures counted { EndsAtStop result (S.counts site.old) (S.counts site.new) }
    ensures writes { OnlyWrites S.Site site.old site.new }
{
    match asked_by(alloc, line)? {
        Some(asked) => Ok(Some(carry_asked(alloc, store, asked, site)?)),
        None => Ok(None),
    }
}
