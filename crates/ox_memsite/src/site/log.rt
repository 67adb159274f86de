//! The log of a site in memory, and room in its record of steps.

ghost use Rattle.std.specs.Prelude.{◌≡◌, ◌+◌, ◌*◌, ◌≤◌, length, IfOk, OnOk, OnErr};
ghost use Rattle.ox_outside.specs.Event.{shown_bytes};
ghost use Rattle.ox_memsite.specs.World.{after_step, log_of};
ghost use Rattle.ox_memsite.specs.Plain.{IsPlain};

use super::MemSite;
use crate::crash::append_shown;
use crate::step::Step;
use ox_bytes::{Bytes, Memory, Room};

impl MemSite {
    /// The moment: how much has happened.
    pub fn now(&self) -> u64
        ensures { result ≡ length self.now.steps }
    {
        self.steps.as_slice().len() as u64
    }

    /// The bytes that were shown on a channel, joined. `Memory` where there is none for them.
    pub fn shown(&self, channel: u32) -> Result<Bytes, Memory>
        ensures { IfOk result (λ bytes. bytes ≡ shown_bytes channel (log_of self.now)) }
    {
        let mut bytes = Bytes::empty(self.alloc);
        append_shown(&mut bytes, channel, &self.past)?;
        append_shown(&mut bytes, channel, self.steps.as_slice())?;
        Ok(bytes)
    }

    /// Notes a step that leaves what is read as it is, breaks no channel, and names none that isn't
    /// there.
    pub(super) fn note(&mut self, step: Step) -> Result<(), Memory>
        requires { IsPlain (length self.old.channels) step }
        ensures ok { OnOk result (self.new ≡ after_step step self.old) }
        ensures err { OnErr result (self.new ≡ self.old) }
    {
        make_room(&mut self.steps, self.channels.len())?;
        self.steps.push(step);
        Ok(())
    }
}

/// Makes room for a step, and for those that may come of so many channels and can't be refused.
/// `Memory` where there is none: nothing has changed then.
pub(super) fn make_room(steps: &mut Room<Step>, count: usize) -> Result<(), Memory>
    requires { count ≤ 4294967297 }
    ensures steps { steps.new.filled ≡ steps.old.filled }
    ensures ok { OnOk result (steps.new.spare ≡ 3 * count + 1) }
    ensures err { OnErr result (steps.new.spare ≡ steps.old.spare) }
{
    steps.make_room(most_owed(count) + 1)
}

/// So much room the channels below this number need at most.
pub(super) fn most_owed(count: usize) -> usize
    requires { count ≤ 4294967297 }
    ensures { result ≡ 3 * count }
{
    3 * count
}
