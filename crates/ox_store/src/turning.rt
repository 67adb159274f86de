//! A turn at version 3: the stack that the files stand for is written into the other file, in
//! pieces, which then takes the current one's place.

ghost use Rattle.std.specs.Prelude.{◌≡◌, ◌<◌, ℕ, List, [], true, Ok, Some};
ghost use Rattle.std.specs.Prelude.{IsTrue, IfOk, OnOk, IsErrOf};
ghost use Rattle.ox_outside.specs.Counts.{IsFailure};
ghost use Rattle.ox_gated.specs.Filling.{HasTaken, StaysShut};
ghost use Rattle.ox_gated.specs.Layout.{is_lawful};
ghost use Rattle.ox_gated.specs.Tail.{Holds};
ghost use Rattle.ox_index.specs.Chain.{stack_in};
ghost use Rattle.ox_files.specs.Body.{stack_in_body};
ghost use Rattle.ox_files.specs.Stands.{stack_in_file};
ghost use Rattle.ox_model.specs.Stack.{Stack};
ghost use Rattle.ox_store.specs.Heads.{Names};
ghost use Rattle.ox_store.specs.Turning.{Goes, IsOtherFile, IsTurned, MayHaveTurned};
ghost use Rattle.ox_store.specs.Turning.{StandsAsBefore, halt_in, tail_in};

use crate::writing::following;
use ox_checkpoint::{PutFault, put_body};
use ox_gated::{DiskFault, Filling, Halt, Head, Tail};
use ox_index::Chain;
use ox_outside::Site;
use std::alloc::Global;

/// What came of a turn.
#[derive(Drop)]
pub(crate) enum Turned {
    /// The other file took the current one's place.
    To(Tail),
    /// There was no memory for it. The other file is closed.
    GivenUp(Tail),
}

/// Writes the stack of this chain, which the files stand for, into the other file where that pays.
/// At any moment of the call a crash leaves files that stand for it. Where there is no memory for
/// it the current file stays. `DiskFault` only where a call on a file failed; the tail is gone.
pub(crate) fn turn_where_due<S: Site>(
    alloc: Global,
    chain: &Chain,
    tail: Tail,
    site: &mut S,
) -> Result<Tail, DiskFault>
    requires names { Names tail.head (stack_in chain.now) }
    requires holds { IsTrue (S.told site.old) → Holds S.Site tail site.old }
    ensures kept { IfOk result (MayHaveTurned tail) }
    ensures holds { IsTrue (S.told site.old)
        → IfOk result (λ new. Holds S.Site new site.new) }
    ensures stands { OnOk result (StandsAsBefore S.Site (stack_in chain.now) site.old site.new) }
    ensures goes { Goes S.Site (stack_in chain.now) (IsFailure result) site.old site.new }
{
    if !tail.is_turn_due() {
        return Ok(tail);
    }
    let head = following(&tail.head());
    let turned = turn(alloc, chain, tail, &head, site)?;
    Ok(tail_of(turned))
}

/// The tail that a turn leaves.
fn tail_of(turned: Turned) -> Tail
    ensures { result ≡ tail_in turned }
{
    match turned {
        Turned::To(tail) => tail,
        Turned::GivenUp(tail) => tail,
    }
}

/// Writes a file of this head and of the chain's stack, which the files stand for, into the other
/// file, in pieces, and opens that one. At any moment of the call a crash leaves files that stand
/// for this stack. Where there is no memory for it the other file stays closed. `DiskFault` only
/// where a call on a file failed; the tail is gone then.
pub(crate) fn turn<S: Site>(
    alloc: Global,
    chain: &Chain,
    tail: Tail,
    head: &Head,
    site: &mut S,
) -> Result<Turned, DiskFault>
    requires names { Names head.now (stack_in chain.now) }
    requires version { head.now.version ≡ 3 }
    requires generation { tail.head.generation < head.now.generation }
    requires holds { IsTrue (S.told site.old) → Holds S.Site tail site.old }
    ensures kept { IfOk result (IsTurned tail head.now) }
    ensures holds { IsTrue (S.told site.old)
        → IfOk result (λ turned. Holds S.Site (tail_in turned) site.new) }
    ensures stands { OnOk result (StandsAsBefore S.Site (stack_in chain.now) site.old site.new) }
    ensures goes { Goes S.Site (stack_in chain.now) (IsFailure result) site.old site.new }
{
    let mut filling = begin(tail, site)?;
    match put_stack(alloc, chain, &mut filling, site) {
        Ok(()) => {
            let tail = open_filled(filling, head, site)?;
            Ok(Turned::To(tail))
        }
        Err(Halt::Memory) => {
            let tail = filling.give_up(site)?;
            Ok(Turned::GivenUp(tail))
        }
        Err(Halt::Disk) => Err(DiskFault),
    }
}

/// Closes the other file and begins to fill it.
fn begin<S: Site>(tail: Tail, site: &mut S) -> Result<Filling, DiskFault>
    requires { IsTrue (S.told site.old) → Holds S.Site tail site.old }
    ensures begun { IfOk result (λ filling. HasTaken S.Site filling site.new []) }
    ensures kept { IfOk result (λ filling. filling.tail ≡ record tail { other_closed = true }) }
    ensures stands { (stack : Stack) → OnOk result (StandsAsBefore S.Site stack site.old site.new) }
    ensures goes { (stack : Stack) → Goes S.Site stack (IsFailure result) site.old site.new }
{
    let closed = tail.close_other(site)?;
    closed.begin(site)
}

/// Puts the body that stands for a chain behind the other file's closed gate, in pieces.
fn put_stack<S: Site>(
    alloc: Global,
    chain: &Chain,
    filling: &mut Filling,
    site: &mut S,
) -> Result<(), Halt>
    requires { HasTaken S.Site filling.old site.old [] }
    ensures taken { let stack = stack_in chain.now in OnOk result
        ((body : List ℕ) × HasTaken S.Site filling.new site.new body
        × (stack_in_body stack.profile stack.depth body ≡ Some stack)) }
    ensures kept { filling.new.tail ≡ filling.old.tail }
    ensures shut { IsTrue (S.told site.old) → StaysShut S.Site filling.new.tail site.new }
    ensures stands { (stack : Stack) → StandsAsBefore S.Site stack site.old site.new }
    ensures goes { (stack : Stack) → Goes S.Site stack (IsErrOf result Halt.Disk)
        site.old site.new }
{
    match put_body(alloc, filling, site, chain.live(), chain.changes()) {
        Ok(()) => Ok(()),
        Err(fault) => Err(halt_of(fault)),
    }
}

/// Why a body wasn't put.
fn halt_of(fault: PutFault<Halt>) -> Halt
    ensures { result ≡ halt_in fault }
{
    match fault {
        PutFault::Memory => Halt::Memory,
        PutFault::Sink(halt) => halt,
    }
}

/// Ends the file that was filled with this head, and opens it.
fn open_filled<S: Site>(filling: Filling, head: &Head, site: &mut S) -> Result<Tail, DiskFault>
    requires taken { (body : List ℕ) × HasTaken S.Site filling site.old body }
    requires lawful { IsTrue (is_lawful head.now) }
    requires version { head.now.version ≡ 3 }
    requires generation { filling.tail.head.generation < head.now.generation }
    ensures kept { IfOk result (IsOtherFile filling.tail head.now) }
    ensures holds { IsTrue (S.told site.old) → IfOk result (λ tail. Holds S.Site tail site.new) }
    ensures stands { (body : List ℕ) → HasTaken S.Site filling site.old body
        → (stack : Stack) → stack_in_file head.now body [] ≡ Ok stack
        → OnOk result (StandsAsBefore S.Site stack site.old site.new) }
    ensures goes { (body : List ℕ) → HasTaken S.Site filling site.old body
        → (stack : Stack) → stack_in_file head.now body [] ≡ Ok stack
        → Goes S.Site stack (IsFailure result) site.old site.new }
{
    let filled = filling.end(site, head)?;
    filled.open_other(site)
}
