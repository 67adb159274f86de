//! A crash at a chosen moment, and what a site has shown.

ghost use Rattle.std.specs.Prelude.{◌≡◌, ◌≤◌, ◌++◌, [], ◌∷◌, MatchOption, IfOk, OnOk};
ghost use Rattle.ox_outside.specs.Disk.{synced_disk, image_with};
ghost use Rattle.ox_outside.specs.Event.{shown_bytes};
ghost use Rattle.ox_memsite.specs.World.{is_same, disk_step, disk_after, event_of, events_of};

use crate::replay::Replay;
use crate::step::Step;
use ox_bytes::{Bytes, Memory};
use ox_outside::Which;
use std::alloc::Global;

/// When a crash comes, and what it leaves: each byte that it may change is `fill`, and each file is
/// cut to `keep` bytes, as far as the disk allows.
#[derive(Clone, Copy, PartialEq, Eq)]
pub struct Choice {
    pub moment: u64,
    pub fill: u8,
    pub keep: u64,
}

/// The bytes of a file that a crash after these steps leaves.
pub fn crashed_bytes(
    alloc: Global,
    first: &[u8],
    steps: &[Step],
    file: Which,
    choice: &Choice,
) -> Result<Vec<u8>, Memory>
    ensures { IfOk result (λ bytes. bytes.items ≡ image_with choice.now.fill choice.now.keep (
        disk_after file (synced_disk first.now) steps.now)) }
{
    let replay = replay_of(alloc, first, steps, file)?;
    Ok(replay.image(choice.fill, choice.keep)?)
}

/// The file after these steps.
fn replay_of(alloc: Global, first: &[u8], steps: &[Step], file: Which) -> Result<Replay, Memory>
    ensures { IfOk result (λ replay. replay ≡ disk_after file (synced_disk first.now) steps.now) }
{
    let mut replay = Replay::new(alloc, first)?;
    for step in steps {
        follow(&mut replay, file, step)?;
    }
    Ok(replay)
}

fn follow(replay: &mut Replay, which: Which, step: &Step) -> Result<(), Memory>
    ensures { OnOk result (replay.new ≡ disk_step which replay.old step.now) }
{
    match step {
        Step::Wrote { file, at, bytes } => {
            if is_same(which, *file) {
                replay.write(*at, bytes.as_slice())?;
            }
        }
        Step::Tore { file, at, length } => {
            if is_same(which, *file) {
                replay.tear(*at, *length);
            }
        }
        Step::Synced { file } => {
            if is_same(which, *file) {
                replay.sync()?;
            }
        }
        Step::Opened { .. }
        | Step::Heard { .. }
        | Step::Ended { .. }
        | Step::Showed { .. }
        | Step::Broke { .. }
        | Step::GaveUp { .. }
        | Step::Shut { .. } => {}
    }
    Ok(())
}

fn is_same(which: Which, file: Which) -> bool
    ensures { result ≡ is_same which file }
{
    match (which, file) {
        (Which::A, Which::A) | (Which::B, Which::B) => true,
        (Which::A, Which::B) | (Which::B, Which::A) => false,
    }
}

/// Appends a copy of each event among the steps.
pub fn append_events(alloc: Global, into: &mut Vec<Step>, steps: &[Step]) -> Result<(), Memory>
    ensures { OnOk result (
        events_of into.new.items ≡ events_of into.old.items ++ events_of steps.now) }
{
    for step in steps {
        append_event(alloc, into, step)?;
    }
    Ok(())
}

fn append_event(alloc: Global, into: &mut Vec<Step>, step: &Step) -> Result<(), Memory>
    ensures { OnOk result (
        events_of into.new.items ≡ events_of into.old.items ++ event_of step.now) }
{
    if let Some(copy) = copy_event(alloc, step)? {
        into.push(copy)?;
    }
    Ok(())
}

fn copy_event(alloc: Global, step: &Step) -> Result<Option<Step>, Memory>
    ensures { IfOk result (λ copy.
        MatchOption copy (event_of step.now ≡ []) (λ c. event_of c ≡ event_of step.now)) }
{
    let copy = match step {
        Step::Heard { channel, bytes } => Step::Heard {
            channel: *channel,
            bytes: Bytes::copy(alloc, bytes.as_slice())?,
        },
        Step::Showed { channel, bytes } => Step::Showed {
            channel: *channel,
            bytes: Bytes::copy(alloc, bytes.as_slice())?,
        },
        Step::Ended { channel } => Step::Ended { channel: *channel },
        Step::Broke { channel } => Step::Broke { channel: *channel },
        Step::Opened { channel, door } => Step::Opened {
            channel: *channel,
            door: *door,
        },
        Step::GaveUp { channel } => Step::GaveUp { channel: *channel },
        Step::Shut { channel } => Step::Shut { channel: *channel },
        Step::Wrote { .. } | Step::Tore { .. } | Step::Synced { .. } => return Ok(None),
    };
    Ok(Some(copy))
}

/// Appends the bytes that these steps have shown on a channel.
pub fn append_shown(into: &mut Bytes, channel: u32, steps: &[Step]) -> Result<(), Memory>
    ensures { OnOk result (into.new ≡ into.old ++ shown_bytes channel (events_of steps.now)) }
{
    for step in steps {
        show_step(into, channel, step)?;
    }
    Ok(())
}

fn show_step(into: &mut Bytes, channel: u32, step: &Step) -> Result<(), Memory>
    ensures { OnOk result (into.new ≡ into.old ++ shown_bytes channel (event_of step.now)) }
{
    if let Step::Showed {
        channel: shown,
        bytes,
    } = step
        && *shown == channel
    {
        into.append(bytes.as_slice())?;
    }
    Ok(())
}
