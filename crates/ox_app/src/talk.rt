//! Frames heard and shown on channel 0, for `lead` and `follow`.

ghost use Rattle.std.specs.Prelude.{◌++◌, IsTrue, OnErr};
ghost use Rattle.ox_outside.specs.Counts.{IsFailure, StopsAtFault};
ghost use Rattle.ox_outside.specs.Log.{Grows};
ghost use Rattle.ox_outside.specs.Runs.{OnlyTalks};
ghost use Rattle.ox_follow.specs.Frame.{FitsFrame, plain, spelled};
ghost use Rattle.ox_pieces.specs.Frames.{is_ready};
ghost use Rattle.ox_app.specs.OneFrame.{IsInFront};
ghost use Rattle.ox_app.specs.Show.{ShowFails, Shows, ShowsFront};

use crate::show::show_all;
use crate::status::Status;
use ox_follow::{Frame, base_front, have_front, level_front, step_front};
use ox_outside::{Failed, Site};
use ox_pieces::Frames;

/// The frame in front. Where there is none, the error says how the run ends: `BadFrame` where no
/// frame begins so or channel 0 has ended within one, and else `over`.
pub fn frame_in_front(frames: &Frames, over: Status) -> Result<Frame<'_>, Status>
    requires { IsTrue (is_ready frames.now) }
    ensures { IsInFront over frames.now result }
{
    frames.frame()?.ok_or(over)
}

/// Shows a frame: what stands before its body or its payload, and then that from where it lies.
/// `Failed` only where a showing failed in this call; a front of the frame is shown then, and so it
/// is at each moment of the call.
pub fn show_frame<S: Site>(site: &mut S, frame: &Frame) -> Result<(), Failed>
    requires fits { FitsFrame (plain frame.now) }
    ensures told { Grows (Shows (spelled (plain frame.now)) result)
        (S.log site.old) (S.log site.new) }
    ensures failed { OnErr result (ShowFails S.Site site.old site.new) }
    ensures counted { StopsAtFault ⊥ ⊥ (IsFailure result) (S.counts site.old) (S.counts site.new) }
    ensures talks { OnlyTalks S.Site (ShowsFront (spelled (plain frame.now))) site.old site.new }
{
    match *frame {
        Frame::Base {
            at,
            profile,
            depth,
            body,
        } => show_both(
            site,
            &base_front(at, profile, depth, body.len() as u32),
            body,
        ),
        Frame::Step { at, payload } => {
            show_both(site, &step_front(at, payload.len() as u32), payload)
        }
        Frame::Have { at } => show_all(site, &have_front(at)),
        Frame::Level { at } => show_all(site, &level_front(at)),
    }
}

/// Shows these bytes and then those.
fn show_both<S: Site>(site: &mut S, first: &[u8], behind: &[u8]) -> Result<(), Failed>
    ensures told { Grows (Shows (first.now ++ behind.now) result)
        (S.log site.old) (S.log site.new) }
    ensures failed { OnErr result (ShowFails S.Site site.old site.new) }
    ensures counted { StopsAtFault ⊥ ⊥ (IsFailure result) (S.counts site.old) (S.counts site.new) }
    ensures talks { OnlyTalks S.Site (ShowsFront (first.now ++ behind.now)) site.old site.new }
{
    show_all(site, first)?;
    show_all(site, behind)
}
