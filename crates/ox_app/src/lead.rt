//! A store that hands out its pieces.

ghost use Rattle.std.specs.Prelude.{◌≡◌, ◌≢◌, ◌<◌, ◌≤◌, IsTrue, Some, Err, OnOk, IfErr};
ghost use Rattle.ox_outside.specs.Log.{Grows};
ghost use Rattle.ox_outside.specs.Runs.{Calls, OnlyTalks};
ghost use Rattle.ox_feed.specs.Feed.{bytes_left, feed_limit};
ghost use Rattle.ox_follow.specs.World.{Leader as LeaderContents};
ghost use Rattle.ox_model.specs.Stack.{Stack};
ghost use Rattle.ox_files.specs.Stands.{Misfit};
ghost use Rattle.ox_pieces.specs.Frames.{is_ready};
ghost use Rattle.ox_pieces.specs.Stood.{leader_in, led_stands};
ghost use Rattle.ox_app.specs.Fold.{Anything};
ghost use Rattle.ox_app.specs.Headline.{AddsNoImage};
ghost use Rattle.ox_app.specs.OneFrame.{AnswersInFront, Faults, RunFaults, TalksOn};
ghost use Rattle.ox_app.specs.Status.{IsLeadStatus, IsLeadTalk, IsUnopened};
ghost use Rattle.ox_app.specs.Talks.{Talks, leader_party};
ghost use Rattle.ox_app.specs.declared.status.Status.TheVariants as ends;

use crate::status::Status;
use crate::talk::{frame_in_front, show_frame};
use crate::unopened::unopened;
use ox_follow::Frame;
use ox_outside::Site;
use ox_pieces::{Frames, Leader};
use std::alloc::Global;

/// The frame that answers the one in front, a Have. Where there is none, the error says how the run
/// ends: `Ahead` where the Have is above the leader's position, `BadFrame` where another frame or a
/// fault stands in front, and `Done` where channel 0 has ended.
fn answer_in_front<'a>(leader: &'a Leader, frames: &Frames) -> Result<Frame<'a>, Status>
    requires { IsTrue (is_ready frames.now) }
    ensures answers { AnswersInFront leader.now frames.now result }
    ensures status { IfErr result IsLeadTalk }
{
    match frame_in_front(frames, Status::Done)? {
        Frame::Have { at } => leader.next(at).ok_or(Status::Ahead),
        _ => Err(Status::BadFrame),
    }
}

/// Hears the next frame and answers it. Where it isn't answered, the error says how the run ends.
fn answer_next<S: Site>(leader: &Leader, frames: &mut Frames, site: &mut S) -> Result<(), Status>
    ensures told { Grows (TalksOn (λ _. leader_party leader.now) (leader_party leader.now)
        frames.old result frames.new) (S.log site.old) (S.log site.new) }
    ensures fewer { OnOk result (bytes_left frames.new < bytes_left frames.old) }
    ensures count { frames.new.heard ≤ feed_limit }
    ensures status { IfErr result IsLeadTalk }
    ensures faults { Faults S.Site result site.old site.new }
    ensures talks { OnlyTalks S.Site Anything site.old site.new }
{
    frames.advance(site)?;
    let answer = answer_in_front(leader, frames)?;
    frames.pass();
    show_frame(site, &answer)?;
    Ok(())
}

/// Answers the frames of channel 0, until one can't be answered or the channel has ended.
fn answer_frames<S: Site>(alloc: Global, leader: &Leader, site: &mut S) -> Status
    ensures told { Talks S.Site (leader_party leader.now) result site.old site.new }
    ensures status { IsLeadTalk result }
    ensures faults { RunFaults S.Site result site.old site.new }
    ensures talks { OnlyTalks S.Site Anything site.old site.new }
{
    let mut frames = Frames::new(alloc);
    loop {
        if let Err(status) = answer_next(leader, &mut frames, site) {
            return status;
        }
    }
}

/// Opens the store, and answers each Have of channel 0 by what stands behind that position: the
/// record there, the whole current file, or a Level where there is nothing. It writes no file, and
/// shows nothing where the files are no store, or have version 3.
pub fn lead<S: Site>(alloc: Global, site: &mut S) -> Status
    // On files that stand for a stack.
    ensures leads { IsTrue (S.told site.old) → (leader : LeaderContents Stack)
        → leader_in (S.seen site.old) ≡ Some leader
        → (result ≢ ends.NotStore)
        × Talks S.Site (leader_party leader) result site.old site.new }

    // On files that stand for none, or have version 3.
    ensures unopened { IsTrue (S.told site.old) → (misfit : Misfit)
        → led_stands (S.seen site.old) ≡ Err misfit
        → IsUnopened result × (S.log site.new ≡ S.log site.old) }
    ensures not_store { result ≡ ends.NotStore → S.log site.new ≡ S.log site.old }

    ensures status { IsLeadStatus result }
    ensures faults { RunFaults S.Site result site.old site.new }
    ensures looks { AddsNoImage S.Site site.old site.new }
    ensures calls { Calls S.Site site.old site.new }
{
    match Leader::open(alloc, site) {
        Ok(leader) => answer_frames(alloc, &leader, site),
        Err(fault) => unopened(fault),
    }
}
