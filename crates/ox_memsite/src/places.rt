//! The numbers of the channels of a log, and which of them have broken.

ghost use Rattle.std.specs.Prelude.{◌≡◌, ◌≤◌, max, true, false, slice_set, replicate, IfOk};
ghost use Rattle.ox_memsite.specs.Flags.{flags_with, flags_after};
ghost use Rattle.ox_memsite.specs.Room.{channels_in};
ghost use Rattle.ox_memsite.specs.World.{event_of, events_of};

use crate::step::Step;
use ox_bytes::Memory;
use std::alloc::Global;

/// One past the greatest number that an event names among these steps: so many channels there are,
/// 0 being one of them.
pub fn count_channels(steps: &[Step]) -> u64
    ensures is { result ≡ channels_in (events_of steps.now) }
    ensures few { result ≤ 4294967296 }
{
    let mut count = 1;
    for step in steps {
        count = count_with(count, step);
    }
    count
}

fn count_with(count: u64, step: &Step) -> u64
    requires { 1 ≤ count }
    ensures is { result ≡ max count (channels_in (event_of step.now)) }
    ensures few { count ≤ 4294967296 → result ≤ 4294967296 }
{
    match step {
        Step::Opened { channel, .. }
        | Step::Heard { channel, .. }
        | Step::Ended { channel }
        | Step::Showed { channel, .. }
        | Step::Broke { channel }
        | Step::GaveUp { channel }
        | Step::Shut { channel } => count.max(*channel as u64 + 1),
        Step::Wrote { .. } | Step::Tore { .. } | Step::Synced { .. } => count,
    }
}

/// Whether each of so many channels has broken among these steps.
pub fn broken_channels(alloc: Global, count: usize, steps: &[Step]) -> Result<Vec<bool>, Memory>
    ensures { IfOk result (λ broken. broken.items ≡ flags_after steps.now (replicate count false)) }
{
    let mut broken = Vec::from_elem(alloc, false, count)?;
    for step in steps {
        note_break(&mut broken, step);
    }
    Ok(broken)
}

fn note_break(broken: &mut [bool], step: &Step)
    ensures { broken.new ≡ flags_with step.now broken.old }
{
    if let Step::Broke { channel } = step {
        set_flag(broken, *channel);
    }
}

fn set_flag(broken: &mut [bool], channel: u32)
    ensures { broken.new ≡ slice_set broken.old channel true }
{
    if (channel as usize) < broken.len() {
        broken[channel as usize] = true;
    }
}
