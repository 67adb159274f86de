//! The growth of a store of version 2 into one of version 3.

ghost use Rattle.std.specs.Prelude.{◌≡◌, ◌≢◌, ◌⊎◌, ℕ, Ok, Err};
ghost use Rattle.std.specs.Prelude.{IsTrue, IfOk, IfErr, IsErrOf, OnOk};
ghost use Rattle.ox_outside.specs.Counts.{Rose, StopsAtFault};
ghost use Rattle.ox_outside.specs.Files.{file_of, other};
ghost use Rattle.ox_outside.specs.Runs.{LeavesOnly, OnlyLooks};
ghost use Rattle.ox_outside.specs.declared.site.Which.{Which};
ghost use Rattle.ox_gated.specs.OldReading.{growing_reading};
ghost use Rattle.ox_gated.specs.OtherFile.{BeginsShut, last_generation};
ghost use Rattle.ox_gated.specs.Reading.{Found};
ghost use Rattle.ox_gated.specs.Tail.{Holds};
ghost use Rattle.ox_gated.specs.Writes.{OnlyWrites};
ghost use Rattle.ox_gated.specs.declared.fault.Halt.TheVariants as halts;
ghost use Rattle.ox_index.specs.Chain.{stack_in};
ghost use Rattle.ox_files.specs.Stands.{Misfit};
ghost use Rattle.ox_model.specs.Stack.{Stack};
ghost use Rattle.ox_store.specs.Fault.{IsMisfit};
ghost use Rattle.ox_store.specs.Grow.{HasGrown, IsHalt, IsShutBehind};
ghost use Rattle.ox_store.specs.Grow.{StandsAsGrown, grown_head, growing};
ghost use Rattle.ox_store.specs.Heads.{Names};
ghost use Rattle.ox_store.specs.Turning.{Goes, IsOtherFile, StandsAsBefore, tail_in};
ghost use Rattle.ox_store.specs.declared.fault.OpenFault.TheVariants as opens;

use crate::fault::OpenFault;
use crate::open::store_of;
use crate::store::Store;
use crate::turning::{Turned, turn};
use ox_gated::{Halt, Head, Tail};
use ox_index::Chain;
use ox_outside::Site;
use std::alloc::Global;

/// The version of a store that has grown.
const GROWN: u8 = 3;

impl Store {
    ghost use Rattle.ox_files.specs.Stands.{stands};

    /// Makes a store of version 2 one of version 3: its stack goes into the other file, of the
    /// next generation, in pieces; that takes the current one's place, and the gate of that one
    /// is closed. At `Ok` it is on the disk: each crash then leaves files of version 3 that stand
    /// for the stack. Nothing leads back.
    ///
    /// It begins with a sync (`fsync`) of both files. At any moment of the call a crash leaves what
    /// it might have left before, or files that stand for the stack that they stood for. No event
    /// of a channel is logged.
    ///
    /// Where the files are no store of version 2 which another file can follow the first test that
    /// fails decides: `NotStore`, with the file and the place of that test. These are the tests of
    /// `open`, with one more between that of the version, at 6, and that of the body: at 10 the
    /// generation may not be the greatest. Nothing is written then. `Halt` with `Disk` only where a
    /// call on a file failed, and with `Memory` where there is none for the store.
    pub fn grow<S: Site>(alloc: Global, site: &mut S) -> Result<Store, OpenFault>
        ensures grown { IsTrue (S.told site.old)
            → IfOk result (λ store. growing (S.seen site.old) ≡ Ok store.stack) }
        ensures stands { IsTrue (S.told site.old)
            → IfOk result (λ store. stands (S.seen site.new) ≡ Ok store.stack) }
        // The other file is current, of version 3 and the next generation.
        ensures turned { IsTrue (S.told site.old)
            → (found : Found) → growing_reading (S.seen site.old) ≡ Ok found
            → IfOk result (λ store. HasGrown found store.tail) }
        // The file that was current is closed.
        ensures shut { IsTrue (S.told site.old)
            → IfOk result (λ store.
            BeginsShut (file_of (S.seen site.new) (other store.tail.file))) }
        ensures fresh { IfOk result (λ store. store.commands ≡ 0) }
        ensures holds { IsTrue (S.told site.old)
            → IfOk result (λ store. Holds S.Site store.tail site.new) }
        ensures fault { IsTrue (S.told site.old)
            → IfErr result (IsMisfit (growing (S.seen site.old))) }
        ensures wrote_nothing { (file : Which) (at : ℕ) → IsErrOf result (opens.NotStore file at)
            → OnlyLooks S.Site site.old site.new }
        // Files that no store of version 3 can follow are spared, whatever the fault is.
        ensures untouched { IsTrue (S.told site.old) → (misfit : Misfit)
            → growing (S.seen site.old) ≡ Err misfit → OnlyLooks S.Site site.old site.new }
        ensures any_moment { IsTrue (S.told site.old)
            → LeavesOnly S.Site site.old site.new
            (λ r. S.may_leave site.old r ⊎ StandsAsGrown (S.seen site.old) r.files) }
        ensures failed { IsErrOf result (opens.Halt halts.Disk)
            → Rose (S.counts site.old).disk (S.counts site.new).disk }
        ensures counted { StopsAtFault (IsErrOf result (opens.Halt halts.Disk)) ⊥ ⊥
            (S.counts site.old) (S.counts site.new) }
        ensures writes { OnlyWrites S.Site site.old site.new }
    {
        let store = open_growing(alloc, site)?;
        let (chain, tail) = store.into_parts();
        turn_grown(alloc, chain, tail, site)
    }
}

/// Opens two files of version 2 that another one is to follow.
fn open_growing<S: Site>(alloc: Global, site: &mut S) -> Result<Store, OpenFault>
    ensures grown { IsTrue (S.told site.old)
        → IfOk result (λ store. growing (S.seen site.old) ≡ Ok store.stack) }
    ensures tail { IsTrue (S.told site.old)
        → (found : Found) → growing_reading (S.seen site.old) ≡ Ok found
        → IfOk result (λ store.
        (store.tail.file ≡ found.file) × (store.tail.head ≡ found.head)) }
    ensures generation { IfOk result (λ store. store.tail.head.generation ≢ last_generation) }
    ensures fresh { IfOk result (λ store. store.commands ≡ 0) }
    ensures holds { IsTrue (S.told site.old)
        → IfOk result (λ store. Holds S.Site store.tail site.new) }
    ensures not_store { IsTrue (S.told site.old)
        → IfErr result (IsMisfit (growing (S.seen site.old))) }
    ensures failed { IsErrOf result (opens.Halt halts.Disk)
        → Rose (S.counts site.old).disk (S.counts site.new).disk }
    ensures counted { StopsAtFault (IsErrOf result (opens.Halt halts.Disk)) ⊥ ⊥
        (S.counts site.old) (S.counts site.new) }
    ensures looks { OnlyLooks S.Site site.old site.new }
{
    match Tail::open_growing(alloc, site) {
        Ok(opened) => store_of(alloc, opened),
        Err(fault) => Err(OpenFault::of(alloc, fault)),
    }
}

/// Turns a chain and its tail, whose generation another can follow, to version 3, and closes the
/// file that was current. At any moment of the call a crash leaves files that stand for the chain.
fn turn_grown<S: Site>(
    alloc: Global,
    chain: Chain,
    tail: Tail,
    site: &mut S,
) -> Result<Store, OpenFault>
    requires names { Names tail.head (stack_in chain) }
    requires generation { tail.head.generation ≢ last_generation }
    requires holds { IsTrue (S.told site.old) → Holds S.Site tail site.old }
    ensures stack { IfOk result (λ store. store.stack ≡ stack_in chain) }
    ensures fresh { IfOk result (λ store. store.commands ≡ 0) }
    ensures turned { IfOk result (λ store. IsOtherFile tail (grown_head tail.head) store.tail) }
    ensures shut { IsTrue (S.told site.old)
        → IfOk result (λ store. BeginsShut (file_of (S.seen site.new) (other store.tail.file))) }
    ensures holds { IsTrue (S.told site.old)
        → IfOk result (λ store. Holds S.Site store.tail site.new) }
    ensures stands { OnOk result (StandsAsBefore S.Site (stack_in chain) site.old site.new) }
    ensures halts { IfErr result IsHalt }
    ensures goes { Goes S.Site (stack_in chain) (IsErrOf result (opens.Halt halts.Disk))
        site.old site.new }
{
    let head = grown(&tail.head());
    let turned = turn(alloc, &chain, tail, &head, site)?;
    let tail = shut_old(turned, site)?;
    Ok(Store {
        alloc,
        chain,
        tail,
        commands: 0,
    })
}

/// The head of the file of version 3 that takes the place of one with this head.
fn grown(head: &Head) -> Head
    requires { head.now.generation ≢ last_generation }
    ensures { result ≡ grown_head head.now }
{
    Head {
        version: GROWN,
        generation: head.generation + 1,
        ..*head
    }
}

/// Closes the file that was current before a turn. `Halt` with `Memory` where there is none for the
/// turn.
fn shut_old<S: Site>(turned: Turned, site: &mut S) -> Result<Tail, OpenFault>
    requires { IsTrue (S.told site.old) → Holds S.Site (tail_in turned) site.old }
    ensures kept { IfOk result (IsShutBehind turned) }
    ensures shut { IsTrue (S.told site.old)
        → IfOk result (λ tail. BeginsShut (file_of (S.seen site.new) (other tail.file))) }
    ensures holds { IsTrue (S.told site.old) → IfOk result (λ tail. Holds S.Site tail site.new) }
    ensures stands { (stack : Stack) → OnOk result (StandsAsBefore S.Site stack site.old site.new) }
    ensures halts { IfErr result IsHalt }
    ensures goes { (stack : Stack) → Goes S.Site stack (IsErrOf result (opens.Halt halts.Disk))
        site.old site.new }
{
    match turned {
        Turned::To(tail) => {
            let closed = tail.close_other(site)?;
            Ok(closed.into_tail())
        }
        Turned::GivenUp(_tail) => Err(OpenFault::Halt(Halt::Memory)),
    }
}
