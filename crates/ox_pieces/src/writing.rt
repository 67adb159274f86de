//! What is written of a piece.

ghost use Rattle.std.specs.Prelude.{◌≡◌, Some, IsTrue, IfOk, OnOk, OnErr, length};
ghost use Rattle.ox_outside.specs.Counts.{IsFailure, Rose, StopsAtFault};
ghost use Rattle.ox_outside.specs.Runs.{LeavesOnly};
ghost use Rattle.ox_gated.specs.Layout.{is_lawful};
ghost use Rattle.ox_gated.specs.Tail.{Fits, Holds, IsFramedBehind};
ghost use Rattle.ox_gated.specs.Writes.{OnlyWrites};
ghost use Rattle.ox_model.specs.Stack.{Stack};
ghost use Rattle.ox_follow.specs.World.{Stood};
ghost use Rattle.ox_pieces.specs.Follower.{NamesLed, position_of};
ghost use Rattle.ox_pieces.specs.Stood.{stood_in};
ghost use Rattle.ox_pieces.specs.Writing.{CanFollow, IsFileOf, LeadsTo, StandsEither};
ghost use Rattle.ox_pieces.specs.Writing.{position_behind, stood_behind};

use ox_bytes::{Bytes, Memory};
use ox_checkpoint::Standing;
use ox_files::profile_of_head;
use ox_gated::{Checkpoint, DiskFault, Framed, Head, Tail, checkpoint_of};
use ox_outside::Site;
use std::alloc::Global;

/// The greatest length of a body and of a payload.
pub(crate) const LONGEST: usize = 0xffff_ffff;

/// What is written of a piece. Contracts see the payload of the record and its bytes, or the head
/// and the body of the file.
#[derive(Drop)]
pub(crate) enum Writing {
    /// A record behind those of the current file, however many they are.
    Append(Framed),
    /// A whole file, without records, that takes the current one's place.
    Turn(Checkpoint),
}

impl Writing {
    /// Writes it. At `Ok` it is on the disk. At any moment of the call a crash leaves files that
    /// stand where they stood, or where it leads. No event of a channel is logged. `DiskFault` only
    /// where a call on a file failed; the tail is gone then.
    pub(crate) fn write<S: Site>(&self, tail: Tail, site: &mut S) -> Result<Tail, DiskFault>
        requires can { CanFollow tail self.now }
        requires version { tail.head.version ≡ 2 }
        requires holds { IsTrue (S.told site.old) → Holds S.Site tail site.old }
        ensures position { IfOk result (λ new. position_of new ≡ position_behind tail self.now) }
        ensures names { (stack : Stack) → NamesLed tail.head stack
            → IfOk result (λ new. NamesLed new.head stack) }
        ensures holds { IsTrue (S.told site.old)
            → IfOk result (λ new. Holds S.Site new site.new) }
        ensures stood { IsTrue (S.told site.old)
            → (before : Stood Stack) (after : Stack) → stood_in (S.seen site.old) ≡ Some before
            → LeadsTo before.state after self.now
            → OnOk result (stood_in (S.seen site.new) ≡ Some (stood_behind tail after self.now)) }
        ensures any_moment { IsTrue (S.told site.old)
            → (before : Stood Stack) (after : Stack) → stood_in (S.seen site.old) ≡ Some before
            → LeadsTo before.state after self.now
            → LeavesOnly S.Site site.old site.new
            (λ r. StandsEither before (stood_behind tail after self.now) r.files) }
        ensures failed { OnErr result (Rose (S.counts site.old).disk (S.counts site.new).disk) }
        ensures counted { StopsAtFault (IsFailure result) ⊥ ⊥
            (S.counts site.old) (S.counts site.new) }
        ensures writes { OnlyWrites S.Site site.old site.new }
    {
        match self {
            Writing::Append(framed) => tail.append(site, framed),
            Writing::Turn(checkpoint) => tail.turn_to(site, checkpoint),
        }
    }
}

/// The record of a payload, as the tail's file has it. `Memory` where it is too long for one, where
/// the file has no room for it, and where there is none.
pub(crate) fn record_of(alloc: Global, tail: &Tail, payload: &[u8]) -> Result<Framed, Memory>
    ensures payload { IfOk result (λ framed. framed.payload ≡ payload.now) }
    ensures framed { IfOk result (IsFramedBehind tail.now) }
    ensures fits { IfOk result (λ framed. Fits tail.now (length framed.payload)) }
{
    if !tail.fits(payload.len() as u64) {
        return Err(Memory);
    }
    tail.frame(alloc, &[], payload)
}

/// What a body stands for under this head, and the file of the two, without records; `None` exactly
/// where it stands for nothing. `Memory` where it is too long for one, and where there is none.
pub(crate) fn file_of(
    alloc: Global,
    head: &Head,
    body: &[u8],
) -> Result<Option<(Standing, Checkpoint)>, Memory>
    requires { IsTrue (is_lawful head.now) }
    ensures { IfOk result (IsFileOf head.now body.now) }
{
    let Some(standing) = Standing::of(alloc, profile_of_head(head), head.depth, body)? else {
        return Ok(None);
    };
    if body.len() > LONGEST {
        return Err(Memory);
    }
    let checkpoint = checkpoint_of(alloc, head, Bytes::copy(alloc, body)?)?;
    Ok(Some((standing, checkpoint)))
}
