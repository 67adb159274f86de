//! What each channel will still give, and what is counted of it.

ghost use Rattle.std.specs.Prelude.{◌≡◌, ◌+◌, ◌<◌, ◌≤◌, length, replicate, IfOk, OnOk, OnErr};
ghost use Rattle.ox_memsite.specs.Channels.{at_channel, silent_channel, script_of, next_script};
ghost use Rattle.ox_memsite.specs.Channels.{hear_fault, show_fault, nothing_yet};
ghost use Rattle.ox_memsite.specs.Script.{said_next};

use crate::said::{Said, Script};
use ox_bytes::Memory;
use std::alloc::Global;

/// A channel: what it will still say, how often hearing and showing failed, and how often it had
/// nothing to give. What channel 0 says is the site's input instead.
#[derive(Drop)]
pub struct Channel {
    pub script: Script,
    pub hear_faults: u64,
    pub show_faults: u64,
    pub not_yets: u64,
}

/// A channel of which nothing is counted yet.
pub fn new_channel(script: Script) -> Channel
    ensures { result ≡ record { script = script; hear_faults = 0; show_faults = 0; not_yets = 0 } }
{
    Channel {
        script,
        hear_faults: 0,
        show_faults: 0,
        not_yets: 0,
    }
}

/// So many channels that have nothing to say.
pub fn silent_channels(alloc: Global, count: usize) -> Result<Vec<Channel>, Memory>
    ensures { IfOk result (λ channels. channels.items ≡ replicate count silent_channel) }
{
    let mut channels = Vec::new(alloc);
    for _ in 0..count {
        channels.push(new_channel(Script::empty(alloc)))?;
    }
    Ok(channels)
}

/// Counts a hearing that failed.
pub fn count_hear_fault(channels: &mut [Channel], channel: u32)
    requires { channel < length channels.old }
    ensures { channels.new ≡ at_channel channel hear_fault channels.old }
{
    let one = &mut channels[channel as usize];
    one.hear_faults = one.hear_faults.saturating_add(1);
}

/// Counts a showing that failed.
pub fn count_show_fault(channels: &mut [Channel], channel: u32)
    requires { channel < length channels.old }
    ensures { channels.new ≡ at_channel channel show_fault channels.old }
{
    let one = &mut channels[channel as usize];
    one.show_faults = one.show_faults.saturating_add(1);
}

/// Counts that the channel had nothing to give.
pub fn count_not_yet(channels: &mut [Channel], channel: u32)
    requires { channel < length channels.old }
    ensures { channels.new ≡ at_channel channel nothing_yet channels.old }
{
    let one = &mut channels[channel as usize];
    one.not_yets = one.not_yets.saturating_add(1);
}

/// What the channel's script says next. `Memory` where there is none for the bytes: all is as
/// before then.
pub fn say(
    alloc: Global,
    channels: &mut [Channel],
    channel: u32,
    room: usize,
) -> Result<Said, Memory>
    requires { channel < length channels.old }
    ensures ok { IfOk result (λ said. said ≡ said_next room (script_of channels.old channel)) }
    ensures left { OnOk result (
        channels.new ≡ at_channel channel (next_script room) channels.old) }
    ensures err { OnErr result (channels.new ≡ channels.old) }
{
    channels[channel as usize].script.say(alloc, room)
}
