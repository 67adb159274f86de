//! The migration of a store of version 1.

ghost use Rattle.std.specs.Prelude.{◌≡◌, ◌≢◌, ◌+◌, ◌<◌, ◌⊎◌, [], length, Ok, Err, Result};
ghost use Rattle.std.specs.Prelude.{IsTrue, IfOk, IfErr, IsErrOf, OnOk};
ghost use Rattle.ox_outside.specs.Counts.{Rose, StopsAtFault};
ghost use Rattle.ox_outside.specs.Files.{file_of, other};
ghost use Rattle.ox_outside.specs.Runs.{LeavesOnly, OnlyLooks};
ghost use Rattle.ox_gated.specs.Layout.{is_lawful};
ghost use Rattle.ox_gated.specs.OldReading.{old_reading};
ghost use Rattle.ox_gated.specs.Opened.{IsBehindLawful, IsFault, found_of};
ghost use Rattle.ox_gated.specs.OtherFile.{last_generation};
ghost use Rattle.ox_gated.specs.Reading.{Found, Fault};
ghost use Rattle.ox_gated.specs.Tail.{Holds};
ghost use Rattle.ox_gated.specs.Writes.{OnlyWrites};
ghost use Rattle.ox_gated.specs.declared.fault.Halt.TheVariants as halts;
ghost use Rattle.ox_index.specs.Chain.{stack_in as stack_of_chain};
ghost use Rattle.ox_files.specs.OldStands.{OldFault, old_stack_in, old_stands};
ghost use Rattle.ox_files.specs.Stands.{Misfit, stack_in_file};
ghost use Rattle.ox_store.specs.Heads.{Names};
ghost use Rattle.ox_store.specs.Migrate.{HasMigrated, IsOldFault, IsOldOrMigrated, StaysOld};
ghost use Rattle.ox_store.specs.Migrate.{migrated_head, old_fault_in};
ghost use Rattle.ox_store.specs.declared.fault.MigrateFault.TheVariants as migrates;

use crate::fault::MigrateFault;
use crate::store::Store;
use crate::writing::{VERSION, next_file};
use ox_gated::{Checkpoint, GateFault, Halt, Head, Opened, Tail};
use ox_index::Chain;
use ox_outside::{Site, Which};
use ox_replay::{ReplayFault, earliest, replay};
use std::alloc::Global;

/// A store of version 1, with all the memory of its migration taken: the chain that its commands
/// lead to, its tail, their number, and the file of that chain.
struct OldStore {
    chain: Chain,
    tail: Tail,
    commands: u64,
    file: Checkpoint,
}

impl Store {
    ghost use Rattle.ox_files.specs.Stands.{stands};

    /// Makes a store of version 1 one of version 2, and gives with it the number of commands that
    /// were carried out. They are carried out by the present rules, and all memory is taken; then
    /// the chain and the changes of its kept blocks are written into the other file, of the next
    /// generation, which takes the place of the current one. That stays as it is. At `Ok` it is on
    /// the disk: each crash then leaves files that stand for the stack that the commands lead to.
    ///
    /// It begins with a sync (`fsync`) of both files. At any moment of the call a crash leaves what
    /// it might have left before it; or files that are read as before, with the same commands, or
    /// that stand for that stack at version 2. So after a crash one of the two stores is there,
    /// whole. No event of a channel is logged.
    ///
    /// Where the files stand for no such stack the first test that fails decides: `NotStore`, with
    /// the file and the place of that test, where it is one of their form, or where the generation
    /// is the greatest; `Old`, with the number of the command from 0, where the present rules
    /// refuse it. `Halt` with `Disk` only where a call on a file failed, and with `Memory` where
    /// there is none for the store, and where the body of its file is 2^32 bytes or longer. Nothing
    /// was written unless a call failed on files that stand for a stack.
    pub fn migrate<S: Site>(alloc: Global, site: &mut S) -> Result<(Store, u64), MigrateFault>
        ensures commands { IsTrue (S.told site.old)
            → IfOk result (λ made. old_stands (S.seen site.old) ≡ Ok (made.0.stack, made.1)) }
        ensures stands { IsTrue (S.told site.old)
            → IfOk result (λ made. stands (S.seen site.new) ≡ Ok made.0.stack) }
        // The other file is current, of version 2 and the next generation.
        ensures turned { IsTrue (S.told site.old)
            → (found : Found) → old_reading (S.seen site.old) ≡ Ok found
            → IfOk result (λ made. HasMigrated found made.0.tail) }
        // The file that was current stays as it is.
        ensures spared { IsTrue (S.told site.old)
            → IfOk result (λ made. let left = other made.0.tail.file in
            file_of (S.seen site.new) left ≡ file_of (S.seen site.old) left) }
        ensures fresh { IfOk result (λ made. made.0.commands ≡ 0) }
        ensures holds { IsTrue (S.told site.old)
            → IfOk result (λ made. Holds S.Site made.0.tail site.new) }
        ensures fault { IsTrue (S.told site.old)
            → IfErr result (IsOldFault (old_stands (S.seen site.old))) }
        ensures wrote_nothing { IfErr result (λ fault.
            fault ≢ migrates.Halt halts.Disk → OnlyLooks S.Site site.old site.new) }
        // Files that stand for no stack of version 1 are spared, whatever the fault is.
        ensures untouched { IsTrue (S.told site.old) → (fault : OldFault Misfit)
            → old_stands (S.seen site.old) ≡ Err fault → OnlyLooks S.Site site.old site.new }
        ensures any_moment { IsTrue (S.told site.old)
            → LeavesOnly S.Site site.old site.new
            (λ r. S.may_leave site.old r ⊎ IsOldOrMigrated (S.seen site.old) r.files) }
        ensures failed { IsErrOf result (migrates.Halt halts.Disk)
            → Rose (S.counts site.old).disk (S.counts site.new).disk }
        ensures counted { StopsAtFault (IsErrOf result (migrates.Halt halts.Disk)) ⊥ ⊥
            (S.counts site.old) (S.counts site.new) }
        ensures writes { OnlyWrites S.Site site.old site.new }
    {
        let OldStore {
            chain,
            tail,
            commands,
            file,
        } = open_old(alloc, site)?;
        let Ok(tail) = tail.turn_to(site, &file) else {
            return Err(MigrateFault::Halt(Halt::Disk));
        };
        let store = Store {
            alloc,
            chain,
            tail,
            commands: 0,
        };
        Ok((store, commands))
    }
}

/// Opens two files of version 1, carries out their commands, and takes the memory of the file that
/// is to follow.
fn open_old<S: Site>(alloc: Global, site: &mut S) -> Result<OldStore, MigrateFault>
    ensures commands { IsTrue (S.told site.old)
        → IfOk result (λ old.
        old_stands (S.seen site.old) ≡ Ok (stack_of_chain old.chain, old.commands)) }
    ensures stays { IsTrue (S.told site.old) → OnOk result (StaysOld (S.seen site.old)) }
    ensures tail { IsTrue (S.told site.old)
        → (found : Found) → old_reading (S.seen site.old) ≡ Ok found
        → IfOk result (λ old.
        (old.tail.file ≡ found.file) × (old.tail.head ≡ found.head)) }
    ensures file { IfOk result (λ old.
        stack_in_file old.file.head old.file.body [] ≡ Ok (stack_of_chain old.chain)) }
    ensures head { IfOk result (λ old. old.file.head ≡ migrated_head old.tail.head) }
    ensures names { IfOk result (λ old. Names old.file.head (stack_of_chain old.chain)) }
    ensures holds { IsTrue (S.told site.old) → IfOk result (λ old. Holds S.Site old.tail site.new) }
    ensures fault { IsTrue (S.told site.old)
        → IfErr result (IsOldFault (old_stands (S.seen site.old))) }
    ensures failed { IsErrOf result (migrates.Halt halts.Disk)
        → Rose (S.counts site.old).disk (S.counts site.new).disk }
    ensures counted { StopsAtFault (IsErrOf result (migrates.Halt halts.Disk)) ⊥ ⊥
        (S.counts site.old) (S.counts site.new) }
    ensures looks { OnlyLooks S.Site site.old site.new }
{
    match Tail::open_old(alloc, site) {
        Ok(opened) => old_store_of(alloc, opened),
        Err(fault) => Err(fault_of(alloc, fault)),
    }
}

/// The store of files of version 1 that were read, with the memory of its migration.
fn old_store_of(alloc: Global, opened: Opened) -> Result<OldStore, MigrateFault>
    requires head { opened.tail.head ≡ opened.head }
    requires generation { opened.head.generation ≢ last_generation }
    requires lawful { IsTrue (is_lawful opened.head) }
    ensures commands { IfOk result (λ old.
        old_stack_in (Ok (found_of opened)) ≡ Ok (stack_of_chain old.chain, old.commands)) }
    ensures tail { IfOk result (λ old. old.tail ≡ opened.tail) }
    ensures file { IfOk result (λ old.
        stack_in_file old.file.head old.file.body [] ≡ Ok (stack_of_chain old.chain)) }
    ensures head { IfOk result (λ old. old.file.head ≡ migrated_head old.tail.head) }
    ensures names { IfOk result (λ old. Names old.file.head (stack_of_chain old.chain)) }
    ensures fault { IfErr result (IsOldFault (old_stack_in (Ok (found_of opened)))) }
    ensures not_disk { IsErrOf result (migrates.Halt halts.Disk) → ⊥ }
{
    let commands = opened.records.len() as u64;
    let chain = match replay(alloc, &opened.head, &opened.body, &opened.records) {
        Ok(chain) => chain,
        Err(fault) => return Err(in_file(opened.file, fault)),
    };
    let head = Head {
        version: VERSION,
        ..opened.head
    };
    let Ok(file) = next_file(alloc, &chain, &head) else {
        return Err(MigrateFault::Halt(Halt::Memory));
    };
    Ok(OldStore {
        chain,
        tail: opened.tail,
        commands,
        file,
    })
}

/// What is wrong with files of version 1 that weren't read.
fn fault_of(alloc: Global, fault: GateFault) -> MigrateFault
    requires { IsBehindLawful fault }
    ensures fault { (reading : Result Found Fault) → IsFault reading fault
        → IsOldFault (old_stack_in reading) result }
    ensures disk { result ≡ migrates.Halt halts.Disk → fault ≡ GateFault.Halt halts.Disk }
    ensures disk_alone { fault ≡ GateFault.Halt halts.Disk → result ≡ migrates.Halt halts.Disk }
{
    match fault {
        GateFault::NotStore { file, at, before } => in_file(file, earliest(alloc, before, at)),
        GateFault::Halt(halt) => MigrateFault::Halt(halt),
    }
}

/// What it says of a file that a part of it gives no chain.
fn in_file(file: Which, fault: ReplayFault) -> MigrateFault
    ensures { result ≡ old_fault_in file fault }
{
    match fault {
        ReplayFault::At(at) => MigrateFault::NotStore { file, at },
        ReplayFault::Old { command, refusal } => MigrateFault::Old { command, refusal },
        ReplayFault::Memory => MigrateFault::Halt(Halt::Memory),
    }
}
