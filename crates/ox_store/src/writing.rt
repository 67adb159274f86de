//! What is written of a command that was carried out in memory.

ghost use Rattle.std.specs.Prelude.{◌≡◌, ◌≢◌, ◌↔◌, ◌≤◌, ℕ, List, [], ◌∷◌, length, Ok, Some};
ghost use Rattle.std.specs.Prelude.{IsTrue, IfOk, OnOk, OnErr};
ghost use Rattle.ox_outside.specs.Counts.{IsFailure, Rose, StopsAtFault};
ghost use Rattle.ox_outside.specs.Runs.{LeavesOnly};
ghost use Rattle.ox_gated.specs.OtherFile.{last_generation};
ghost use Rattle.ox_gated.specs.Tail.{Fits, Holds, IsFramedBehind};
ghost use Rattle.ox_gated.specs.Writes.{OnlyWrites};
ghost use Rattle.ox_index.specs.Chain.{stack_in};
ghost use Rattle.ox_feed.specs.declared.command.Command.TheVariants.{Connect};
ghost use Rattle.ox_model.specs.Stack.{Stack, stack_after};
ghost use Rattle.ox_files.specs.Body.{stack_in_body};
ghost use Rattle.ox_files.specs.Payload.{payload_step};
ghost use Rattle.ox_files.specs.Stands.{stack_in_file, stands};
ghost use Rattle.ox_store.specs.Heads.{Names, next_head};
ghost use Rattle.ox_store.specs.Ready.{StandsForEither};
ghost use Rattle.ox_store.specs.Writing.{HasOneMore, HasTurned, IsDue, IsFileDue, LeadsTo};

use ox_bytes::{Bytes, Memory};
use ox_checkpoint::{PutFault, put_body};
use ox_feed::Command;
use ox_files::{CONNECT, DISCONNECT};
use ox_gated::{Checkpoint, DiskFault, Framed, Head, Tail, checkpoint_of};
use ox_index::Chain;
use ox_outside::Site;
use ox_rows::write_change;
use std::alloc::Global;

/// The version of each whole file that is made, or that takes another one's place.
pub(crate) const VERSION: u8 = 2;

/// The greatest length of its body.
const LONGEST: usize = 0xffff_ffff;

/// What is written of a command. Contracts see the payload of the record and its bytes, or the head
/// and the body of the file.
#[derive(Drop)]
pub(crate) enum Writing {
    /// A record behind those of the current file.
    Append(Framed),
    /// A whole file, without records, that takes the current one's place.
    Turn(Checkpoint),
}

impl Writing {
    /// Writes it. At `Ok` it is on the disk. At any moment of the call a crash leaves files that
    /// stand for the stack before the command or for the one after it. No event of a channel is
    /// logged. `DiskFault` only where a call on a file failed; the tail is gone then.
    pub(crate) fn write<S: Site>(&self, tail: Tail, site: &mut S) -> Result<Tail, DiskFault>
        requires due { IsDue tail self.now }
        requires holds { IsTrue (S.told site.old) → Holds S.Site tail site.old }
        ensures appended { ¬ IsFileDue tail → IfOk result (HasOneMore tail) }
        ensures turned { IsFileDue tail → IfOk result (HasTurned tail) }
        ensures names { (stack : Stack) → Names tail.head stack
            → IfOk result (λ new. Names new.head stack) }
        ensures holds { IsTrue (S.told site.old)
            → IfOk result (λ new. Holds S.Site new site.new) }
        ensures stands { IsTrue (S.told site.old)
            → (before after : Stack) → stands (S.seen site.old) ≡ Ok before
            → LeadsTo before after self.now → OnOk result (stands (S.seen site.new) ≡ Ok after) }
        ensures any_moment { IsTrue (S.told site.old)
            → (before after : Stack) → stands (S.seen site.old) ≡ Ok before
            → LeadsTo before after self.now
            → LeavesOnly S.Site site.old site.new (λ r. StandsForEither before after r.files) }
        ensures failed { OnErr result (Rose (S.counts site.old).disk (S.counts site.new).disk) }
        ensures counted { StopsAtFault (IsFailure result) ⊥ ⊥
            (S.counts site.old) (S.counts site.new) }
        ensures writes { OnlyWrites S.Site site.old site.new }
    {
        match self {
            Writing::Append(framed) => tail.append(site, framed),
            Writing::Turn(checkpoint) => tail.turn_to(site, checkpoint),
        }
    }
}

/// What is to be written of the command that has led to this chain: where a file is due, that of
/// the chain with the next generation, and else the record of the command. `Memory` where there is
/// none for it, where at version 2 its body or payload is 2^32 bytes or longer, and where the file
/// has no room for the record.
pub(crate) fn writing_of(
    alloc: Global,
    chain: &Chain,
    tail: &Tail,
    command: &Command,
) -> Result<Writing, Memory>
    requires led { (before : Stack) × (stack_after before command.now ≡ Ok (stack_in chain.now)) }
    requires names { Names tail.now.head (stack_in chain.now) }
    ensures due { IfOk result (IsDue tail.now) }
    ensures leads { let after = stack_in chain.now in
        (before : Stack) → stack_after before command.now ≡ Ok after
        → IfOk result (LeadsTo before after) }
{
    if is_file_due(tail) {
        Ok(Writing::Turn(next_file(alloc, chain, &tail.head())?))
    } else {
        Ok(Writing::Append(record_of(alloc, chain, tail, command)?))
    }
}

/// Whether a whole file is due in place of a record: the current one has version 2 and must turn.
fn is_file_due(tail: &Tail) -> bool
    ensures { IsTrue result ↔ IsFileDue tail.now }
{
    tail.head().version == VERSION && tail.must_turn()
}

/// The file of a chain that takes the place of one with this head.
pub(crate) fn next_file(alloc: Global, chain: &Chain, head: &Head) -> Result<Checkpoint, Memory>
    requires names { Names head.now (stack_in chain.now) }
    requires not_last { head.now.generation ≢ last_generation }
    ensures head { IfOk result (λ whole. whole.head ≡ next_head head.now) }
    ensures stack { IfOk result (λ whole.
        stack_in_file whole.head whole.body [] ≡ Ok (stack_in chain.now)) }
{
    file_of(alloc, chain, &following(head))
}

/// The head of the file that takes the place of one with this head.
pub(crate) fn following(head: &Head) -> Head
    requires { head.now.generation ≢ last_generation }
    ensures { result ≡ next_head head.now }
{
    Head {
        generation: head.generation + 1,
        ..*head
    }
}

/// The file of a chain, without records, under this head. `Memory` where there is none for it, and
/// where its body is 2^32 bytes or longer.
pub(crate) fn file_of(alloc: Global, chain: &Chain, head: &Head) -> Result<Checkpoint, Memory>
    requires { Names head.now (stack_in chain.now) }
    ensures head { IfOk result (λ whole. whole.head ≡ head.now) }
    ensures stack { IfOk result (λ whole.
        stack_in_file whole.head whole.body [] ≡ Ok (stack_in chain.now)) }
{
    let body = body_of(alloc, chain)?;
    if body.len() > LONGEST {
        return Err(Memory);
    }
    checkpoint_of(alloc, head, body)
}

/// The body that stands for a chain: its index, and the changes of its kept blocks.
fn body_of(alloc: Global, chain: &Chain) -> Result<Bytes, Memory>
    ensures { let stack = stack_in chain.now in
        IfOk result (λ body. stack_in_body stack.profile stack.depth body ≡ Some stack) }
{
    let mut body = Bytes::empty(alloc);
    match put_body(alloc, &mut body, &mut (), chain.live(), chain.changes()) {
        Ok(()) => Ok(body),
        Err(PutFault::Memory | PutFault::Sink(Memory)) => Err(Memory),
    }
}

/// The record of the command that has led to this chain: 01 and the rows of the newest block's
/// change, or 00.
fn record_of(alloc: Global, chain: &Chain, tail: &Tail, command: &Command) -> Result<Framed, Memory>
    requires { (before : Stack) × (stack_after before command.now ≡ Ok (stack_in chain.now)) }
    ensures framed { IfOk result (IsFramedBehind tail.now) }
    ensures fits { IfOk result (λ framed. Fits tail.now (length framed.payload)) }
    ensures leads { let after = stack_in chain.now in
        (before : Stack) → stack_after before command.now ≡ Ok after
        → IfOk result (λ framed. payload_step before framed.payload ≡ Some after) }
{
    match command {
        Command::Connect(_) => {
            let rows = newest_rows(alloc, chain)?;
            frame_of(alloc, tail, CONNECT, rows.as_slice())
        }
        Command::Disconnect => frame_of(alloc, tail, DISCONNECT, &[]),
    }
}

/// The rows of the newest block's change.
fn newest_rows(alloc: Global, chain: &Chain) -> Result<Bytes, Memory>
    requires { 1 ≤ length (stack_in chain.now).older }
    ensures { let after = stack_in chain.now in
        (before : Stack) (block : List ℕ) → stack_after before (Connect block) ≡ Ok after
        → IfOk result (λ rows. payload_step before (1 ∷ rows) ≡ Some after) }
{
    match chain.changes().get(0) {
        Some(change) => write_change(alloc, change),
        None => unreachable!(),
    }
}

/// The record of this kind with these rows behind it, as the tail's file has it. `Memory` where
/// they are too long for one, where the file has no room for it, and where there is none.
fn frame_of(alloc: Global, tail: &Tail, kind: u8, rows: &[u8]) -> Result<Framed, Memory>
    ensures payload { IfOk result (λ framed. framed.payload ≡ kind ∷ rows.now) }
    ensures framed { IfOk result (IsFramedBehind tail.now) }
    ensures fits { IfOk result (λ framed. Fits tail.now (length framed.payload)) }
{
    if !tail.fits(rows.len() as u64 + 1) {
        return Err(Memory);
    }
    tail.frame(alloc, &[kind], rows)
}
