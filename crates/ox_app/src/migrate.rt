//! The migration of a store of version 1.

ghost use Rattle.std.specs.Prelude.{◌≡◌, ◌≢◌, ◌⊎◌, ◌≤◌, ℕ, [], Ok, Err, IsTrue, IfOk};
ghost use Rattle.ox_outside.specs.Counts.{StopsAtFault};
ghost use Rattle.ox_outside.specs.Runs.{Calls, OnlyTalks};
ghost use Rattle.ox_model.specs.Stack.{Stack};
ghost use Rattle.ox_files.specs.OldStands.{OldFault, old_stands};
ghost use Rattle.ox_files.specs.Stands.{Misfit};
ghost use Rattle.ox_app.specs.Fold.{Anything};
ghost use Rattle.ox_app.specs.Headline.{AddsNoImage};
ghost use Rattle.ox_app.specs.Migrate.{AnswersOld, IsMigrated, IsUnmigrated, MigratesFirst};
ghost use Rattle.ox_app.specs.Migrate.{SaysNoOldStore, SaysOldCommand};
ghost use Rattle.ox_app.specs.Migrate.{migrated_line, old_line};
ghost use Rattle.ox_app.specs.Show.{DiskFails, EndsAtFault, ShowFails, ShowsText};
ghost use Rattle.ox_app.specs.Status.{IsMigrateStatus};
ghost use Rattle.ox_app.specs.declared.status.Status.TheVariants as ends;

use crate::show::{say, tell};
use crate::status::Status;
use crate::unopened::explain;
use itoa::Buffer;
use ox_bytes::{Bytes, Memory, Room};
use ox_gated::Halt;
use ox_model::Refusal;
use ox_outside::Site;
use ox_store::{MigrateFault, OpenFault, Store};
use std::alloc::Global;

/// How many bytes the line has at most that tells of a migration: 4 of words, and a number of at
/// most 20 digits.
const LONGEST_MIGRATED: usize = 24;

/// How many bytes stand at most before a refusal's own line: 5 of words, and a number of at most 20
/// digits.
const LONGEST_OLD: usize = 25;

/// The line that tells how many commands were carried out, in memory that was taken before.
#[tactic(auto, unfolding(crate::specs::Migrate::migrated_line))]
fn migrated_line(room: Room<u8>, commands: u64) -> Bytes
    requires empty { room.filled ≡ [] }
    requires spare { 24 ≤ room.spare }
    ensures { result ≡ migrated_line commands }
{
    let mut room = room;
    room.put(b"ok ");
    room.put(Buffer::new().format(commands).as_bytes());
    room.put(b"\n");
    room.into_bytes()
}

/// The line of a command that the present rules refuse.
#[tactic(auto, unfolding(crate::specs::Migrate::old_line))]
fn old_line(alloc: Global, command: u64, refusal: Refusal) -> Result<Bytes, Memory>
    ensures { IfOk result (λ line. line ≡ old_line command refusal) }
{
    let refused = refusal.line(alloc)?;
    let mut room = Room::new(alloc, LONGEST_OLD + refused.as_slice().len())?;
    room.put(b"old ");
    room.put(Buffer::new().format(command).as_bytes());
    room.put(b" ");
    room.put(refused.as_slice());
    Ok(room.into_bytes())
}

/// Shows which command the present rules refuse, and why: `OldCommand` then, and `Memory` where
/// there is none for the line.
fn explain_old<S: Site>(alloc: Global, command: u64, refusal: Refusal, site: &mut S) -> Status
    ensures says { AnswersOld S.Site command refusal result site.old site.new }
    ensures counted { StopsAtFault ⊥ ⊥ (result ≡ ends.OldCommand)
        (S.counts site.old) (S.counts site.new) }
    ensures talks { OnlyTalks S.Site Anything site.old site.new }
{
    match old_line(alloc, command, refusal) {
        Ok(line) => {
            say(site, line.as_slice());
            Status::OldCommand
        }
        Err(Memory) => Status::Memory,
    }
}

/// Makes a store of version 1 one of version 2, and shows how many commands were carried out. All
/// memory is taken before anything is written, that of the line too.
pub fn migrate<S: Site>(alloc: Global, site: &mut S) -> Status
    // On files that stand for a stack at version 1.
    ensures shows { IsTrue (S.told site.old) → (stack : Stack) (commands : ℕ)
        → old_stands (S.seen site.old) ≡ Ok (stack, commands)
        → (result ≢ ends.NotStore) × (result ≢ ends.OldCommand)
        × ShowsText S.Site (migrated_line commands) result site.old site.new }
    ensures migrated { IsTrue (S.told site.old) → (stack : Stack) (commands : ℕ)
        → old_stands (S.seen site.old) ≡ Ok (stack, commands)
        → (result ≡ ends.Done) ⊎ (result ≡ ends.ShowFault) → IsMigrated S.Site stack site.new }
    ensures survives { IsTrue (S.told site.old) → (stack : Stack) (commands : ℕ)
        → old_stands (S.seen site.old) ≡ Ok (stack, commands)
        → MigratesFirst S.Site stack commands site.old site.new }

    // On files that stand for none.
    ensures unmigrated { IsTrue (S.told site.old) → (fault : OldFault Misfit)
        → old_stands (S.seen site.old) ≡ Err fault
        → IsUnmigrated fault result }
    ensures unsaid { IsTrue (S.told site.old) → (fault : OldFault Misfit)
        → old_stands (S.seen site.old) ≡ Err fault
        → result ≢ ends.NotStore → result ≢ ends.OldCommand → S.log site.new ≡ S.log site.old }
    ensures spares { IsTrue (S.told site.old) → (fault : OldFault Misfit)
        → old_stands (S.seen site.old) ≡ Err fault
        → AddsNoImage S.Site site.old site.new }
    ensures not_store { result ≡ ends.NotStore → SaysNoOldStore S.Site site.old site.new }
    ensures old_command { result ≡ ends.OldCommand → SaysOldCommand S.Site site.old site.new }

    ensures looks { (result ≡ ends.NotStore) ⊎ (result ≡ ends.OldCommand) ⊎ (result ≡ ends.Memory)
        → AddsNoImage S.Site site.old site.new }
    ensures status { IsMigrateStatus result }
    ensures show_fault { result ≡ ends.ShowFault → ShowFails S.Site site.old site.new }
    ensures disk_fault { result ≡ ends.DiskFault → DiskFails S.Site site.old site.new }
    ensures stops { EndsAtFault result (S.counts site.old) (S.counts site.new) }
    ensures calls { Calls S.Site site.old site.new }
{
    let Ok(room) = Room::new(alloc, LONGEST_MIGRATED) else {
        return Status::Memory;
    };
    match Store::migrate(alloc, site) {
        Ok((_store, commands)) => tell(site, migrated_line(room, commands).as_slice()),
        Err(MigrateFault::NotStore { file, at }) => {
            explain(alloc, OpenFault::NotStore { file, at }, site)
        }
        Err(MigrateFault::Old { command, refusal }) => explain_old(alloc, command, refusal, site),
        Err(MigrateFault::Halt(Halt::Disk)) => Status::DiskFault,
        Err(MigrateFault::Halt(Halt::Memory)) => Status::Memory,
    }
}
