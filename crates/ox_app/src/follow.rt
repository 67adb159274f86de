//! A store that takes the pieces of another one.

ghost use Rattle.std.specs.Prelude.{◌≡◌, ◌≢◌, ◌<◌, ◌≤◌, IsTrue, Some, Err, IfOk, IfErr, OnOk};
ghost use Rattle.std.specs.Prelude.{OnErr};
ghost use Rattle.ox_outside.specs.Counts.{IsFailure, StopsAtFault};
ghost use Rattle.ox_outside.specs.Log.{Grows};
ghost use Rattle.ox_outside.specs.Runs.{Calls, LeavesOnly, OnlyTalks};
ghost use Rattle.ox_feed.specs.Feed.{bytes_left, feed_limit};
ghost use Rattle.ox_follow.specs.Frame.{Have, plain, spelled};
ghost use Rattle.ox_follow.specs.World.{Stood};
ghost use Rattle.ox_gated.specs.Tail.{Holds};
ghost use Rattle.ox_gated.specs.Writes.{OnlyWrites};
ghost use Rattle.ox_model.specs.Stack.{Stack};
ghost use Rattle.ox_files.specs.Stands.{Misfit};
ghost use Rattle.ox_pieces.specs.Stood.{led_stands, stood_in};
ghost use Rattle.ox_app.specs.Follow.{LeavesFollowing, SurvivesFrames};
ghost use Rattle.ox_app.specs.Headline.{AddsNoImage};
ghost use Rattle.ox_app.specs.OneFrame.{DuringFrame, EndsBy, Faults, FollowsOn, LeavesAt};
ghost use Rattle.ox_app.specs.OneFrame.{RunFaults, StandAtEither, judged_by};
ghost use Rattle.ox_app.specs.Show.{ShowFails, Shows, ShowsFront};
ghost use Rattle.ox_app.specs.Status.{IsFollowStatus, IsFollowTalk, IsUnopened};
ghost use Rattle.ox_app.specs.Talks.{Talks, follower_party};
ghost use Rattle.ox_app.specs.declared.status.Status.TheVariants as ends;

use crate::show::show_all;
use crate::status::Status;
use crate::talk::frame_in_front;
use crate::unopened::unopened;
use ox_follow::{Frame, Position, have_front};
use ox_gated::Halt;
use ox_outside::{Failed, Site};
use ox_pieces::{Follower, Frames, NotTaken};
use std::alloc::Global;

/// Takes what a frame brings, and commits it; by a frame that isn't next the follower stays as it
/// is. Where the run ends, the error says how: `Done` at a Level of the follower's own position,
/// `BadFrame` where the frame is a Have or doesn't fit.
fn take<S: Site>(follower: Follower, frame: &Frame, site: &mut S) -> Result<Follower, Status>
    requires holds { IsTrue (S.told site.old) → Holds S.Site follower.tail site.old }
    ensures leaves { IfOk result (λ next.
        LeavesAt follower.mine (judged_by follower.mine (plain frame.now)) next.mine) }
    ensures ended { IfErr result (EndsBy (judged_by follower.mine (plain frame.now))) }
    ensures holds { IsTrue (S.told site.old)
        → IfOk result (λ next. Holds S.Site next.tail site.new) }
    ensures stands { IsTrue (S.told site.old) → stood_in (S.seen site.old) ≡ Some follower.mine
        → IfOk result (λ next. stood_in (S.seen site.new) ≡ Some next.mine) }
    // A crash at any moment of the call leaves files that stand where they did, or where the frame
    // leads.
    ensures any_moment { IsTrue (S.told site.old)
        → stood_in (S.seen site.old) ≡ Some follower.mine
        → LeavesOnly S.Site site.old site.new
        (λ r. StandAtEither follower.mine (plain frame.now) r.files) }
    ensures status { IfErr result IsFollowTalk }
    ensures faults { Faults S.Site result site.old site.new }
    ensures writes { OnlyWrites S.Site site.old site.new }
{
    match follower.take(frame) {
        Ok(taken) => match taken.commit(site) {
            Ok(next) => Ok(next),
            Err(fault) => Err(Status::halted(Halt::from(fault))),
        },
        Err(NotTaken::NotNext(follower)) => Ok(follower),
        Err(NotTaken::NotFit(_)) => Err(Status::BadFrame),
        Err(NotTaken::IsLevel(_)) => Err(Status::Done),
        Err(NotTaken::Memory) => Err(Status::Memory),
    }
}

/// Hears the next frame, takes what it brings, and shows a Have of where the follower then stands.
/// Where the run ends, the error says how.
fn follow_next<S: Site>(
    follower: Follower,
    frames: &mut Frames,
    site: &mut S,
) -> Result<Follower, Status>
    requires holds { IsTrue (S.told site.old) → Holds S.Site follower.tail site.old }
    ensures told { Grows (FollowsOn (λ next. next.mine) follower.mine
        frames.old result frames.new) (S.log site.old) (S.log site.new) }
    ensures during { IsTrue (S.told site.old) → stood_in (S.seen site.old) ≡ Some follower.mine
        → LeavesOnly S.Site site.old site.new (λ r.
        Grows (DuringFrame follower.mine frames.old r.files) (S.log site.old) (Some r.log)) }
    ensures holds { IsTrue (S.told site.old)
        → IfOk result (λ next. Holds S.Site next.tail site.new) }
    ensures stands { IsTrue (S.told site.old) → stood_in (S.seen site.old) ≡ Some follower.mine
        → IfOk result (λ next. stood_in (S.seen site.new) ≡ Some next.mine) }
    ensures fewer { OnOk result (bytes_left frames.new < bytes_left frames.old) }
    ensures count { frames.new.heard ≤ feed_limit }
    ensures status { IfErr result IsFollowTalk }
    ensures faults { Faults S.Site result site.old site.new }
    ensures calls { Calls S.Site site.old site.new }
{
    frames.advance(site)?;
    let frame = frame_in_front(frames, Status::EndedEarly)?;
    let next = take(follower, &frame, site)?;
    frames.pass();
    show_all(site, &have_front(next.position()))?;
    Ok(next)
}

/// Takes the frames of channel 0, until one ends the run or the channel has ended.
fn follow_frames<S: Site>(alloc: Global, follower: Follower, site: &mut S) -> Status
    requires holds { IsTrue (S.told site.old) → Holds S.Site follower.tail site.old }
    ensures told { Talks S.Site (follower_party follower.mine) result site.old site.new }
    ensures survives { IsTrue (S.told site.old) → stood_in (S.seen site.old) ≡ Some follower.mine
        → LeavesOnly S.Site site.old site.new (λ r.
        Grows (λ events. SurvivesFrames follower.mine events r.files)
        (S.log site.old) (Some r.log)) }
    ensures status { IsFollowTalk result }
    ensures faults { RunFaults S.Site result site.old site.new }
    ensures calls { Calls S.Site site.old site.new }
{
    let mut frames = Frames::new(alloc);
    let mut follower = follower;
    if let Err(Failed) = show_all(site, &have_front(follower.position())) {
        return Status::ShowFault;
    }
    loop {
        match follow_next(follower, &mut frames, site) {
            Ok(next) => follower = next,
            Err(status) => return status,
        }
    }
}

/// Opens the store, shows a Have of where it stands, and takes what the frames of channel 0 bring,
/// with a Have behind each, until a Level says that nothing is behind it. Each Have is shown once
/// what it says is on the disk. It shows nothing where the files are no store, or have version 3.
pub fn follow<S: Site>(alloc: Global, site: &mut S) -> Status
    // On files that stand for a stack.
    ensures follows { IsTrue (S.told site.old) → (mine : Stood Stack)
        → stood_in (S.seen site.old) ≡ Some mine
        → (result ≢ ends.NotStore)
        × Talks S.Site (follower_party mine) result site.old site.new }
    ensures survives { IsTrue (S.told site.old) → (mine : Stood Stack)
        → stood_in (S.seen site.old) ≡ Some mine
        → LeavesOnly S.Site site.old site.new (λ r.
        Grows (LeavesFollowing S.may_leave site.old mine r.files)
        (S.log site.old) (Some r.log)) }

    // On files that stand for none, or have version 3.
    ensures unopened { IsTrue (S.told site.old) → (misfit : Misfit)
        → led_stands (S.seen site.old) ≡ Err misfit
        → IsUnopened result × (S.log site.new ≡ S.log site.old) }
    ensures looks { IsTrue (S.told site.old) → (misfit : Misfit)
        → led_stands (S.seen site.old) ≡ Err misfit
        → AddsNoImage S.Site site.old site.new }
    ensures not_store { result ≡ ends.NotStore
        → AddsNoImage S.Site site.old site.new × (S.log site.new ≡ S.log site.old) }

    ensures status { IsFollowStatus result }
    ensures faults { RunFaults S.Site result site.old site.new }
    ensures calls { Calls S.Site site.old site.new }
{
    match Follower::open(alloc, site) {
        Ok(follower) => follow_frames(alloc, follower, site),
        Err(fault) => unopened(fault),
    }
}
