//! The channels of a site in memory: what they say and are shown, links that wait at doors, and
//! what is noted of them.

ghost use Rattle.std.specs.Prelude.{◌≡◌, ◌+◌, ◌*◌, ◌<◌, ◌≤◌, [], ◌∷◌, ◌++◌, length, drop, vec_len};
ghost use Rattle.std.specs.Prelude.{vec_capacity, false, nat_lt, slice_index_or, IsTrue};
ghost use Rattle.std.specs.Prelude.{MatchOption, IfSome, IfOk, OnOk, OnErr};
ghost use Rattle.ox_outside.specs.Event.{is_there, was_opened, is_open, has_given_up, has_broken};
ghost use Rattle.ox_memsite.specs.Channels.{new_channel};
ghost use Rattle.ox_memsite.specs.Heard.{said_by, said_input, input_after, channels_after};
ghost use Rattle.ox_memsite.specs.Heard.{bytes_of, answer_of, steps_with, channels_with, Hears};
ghost use Rattle.ox_memsite.specs.Heard.{Shows};
ghost use Rattle.ox_memsite.specs.World.{waiting_of, public_after, operator_after, after_step};
ghost use Rattle.ox_memsite.specs.World.{after_hear_fault, after_show_fault, after_door_fault};
ghost use Rattle.ox_memsite.specs.World.{after_link, after_idle, waiting_at, log_of, Ends};
ghost use Rattle.ox_memsite.specs.World.{after_opening, after_break};
ghost use Rattle.ox_outside.specs.Answers.{IsLinkNumber, NeverOpened};
ghost use Rattle.ox_memsite.specs.Opened.{DoorEnds, IsPast, last_number};
ghost use Rattle.ox_memsite.specs.Room.{channels_in};
ghost use Rattle.ox_memsite.specs.Script.{without_empty};
ghost use Rattle.ox_memsite.specs.declared.step.Step.TheVariants.{GaveUp, Shut, Showed, Broke};

use super::MemSite;
use super::log::make_room;
use crate::channel::{
    Channel, count_hear_fault, count_not_yet, count_show_fault, new_channel, say,
};
use crate::edits::put_at;
use crate::said::{Said, Script};
use crate::step::Step;
use ox_bytes::{Bytes, Memory, Room};
use ox_outside::{Doorway, Failed, Heard, Shown};
use std::alloc::Global;
use std::collections::VecDeque;

impl MemSite {
    /// Takes what the channel says next into the front of the room, of bytes as many as fit:
    /// channel 0 says its input and then its end, a link the entries of its script and then nothing
    /// yet. It fails where the call's number is listed, and where there is no memory for the log:
    /// the channel will say the same then, and the room is as before.
    pub fn hear(&mut self, channel: u32, into: &mut [u8]) -> Result<Heard, Failed>
        requires room { 1 ≤ length into.old }
        requires channel { IsTrue (is_there channel (log_of self.old)) }
        ensures known { channel < length self.old.channels }
        ensures outcome { Ends (Hears channel into.old into.new)
            (after_hear_fault channel) (after_hear_fault channel) result self.old self.new }
        ensures kept { OnErr result (into.new ≡ into.old) }
    {
        self.channel_is_kept(channel);
        if self.next_call() {
            self.fail_hear(channel);
            return Err(Failed);
        }
        match self.hear_into(channel, into) {
            Ok(heard) => Ok(heard),
            Err(_) => {
                self.starve();
                self.fail_hear(channel);
                Err(Failed)
            }
        }
    }

    /// Takes the whole piece. It fails where the call's number is listed, and where there is no
    /// memory for the log.
    pub fn show(&mut self, channel: u32, bytes: &[u8]) -> Result<Shown, Failed>
        requires piece { 1 ≤ length bytes.now }
        requires channel { IsTrue (is_there channel (log_of self.old)) }
        ensures known { channel < length self.old.channels }
        ensures outcome { Ends (Shows channel bytes.now)
            (after_show_fault channel) (after_show_fault channel) result self.old self.new }
    {
        self.channel_is_kept(channel);
        if self.next_call() {
            self.fail_show(channel);
            return Err(Failed);
        }
        if self.note_show(channel, bytes).is_err() {
            self.starve();
            self.fail_show(channel);
            return Err(Failed);
        }
        Ok(Shown::Took(bytes.len()))
    }

    /// Lets a link wait at a door, behind those that wait there. Of its script, entries of no bytes
    /// are passed over. `Memory` where there is none for it: nothing has changed then.
    pub fn link(&mut self, door: Doorway, script: &[Said]) -> Result<(), Memory>
        ensures ok { OnOk result (self.new ≡ after_link door (without_empty script.now) self.old) }
        ensures err { OnErr result (self.new ≡ self.old) }
    {
        let script = Script::copy(self.alloc, script)?;
        match door {
            Doorway::Public => self.at_public.push_back(script)?,
            Doorway::Operator => self.at_operator.push_back(script)?,
        }
        Ok(())
    }

    /// Takes the first link that waits at the door. Its number is one past every number of the log.
    /// It fails where the call's number is listed, where no number is left for a link that waits,
    /// and where there is no memory for the link or the log: the link waits on then.
    pub fn door(&mut self, door: Doorway) -> Result<Option<u32>, Failed>
        ensures number { IsLinkNumber result }
        ensures new { NeverOpened result (log_of self.old) }
        ensures past { IsPast result (log_of self.old) }
        ensures outcome { DoorEnds door result self.old self.new }
    {
        if self.next_call() {
            self.fail_door();
            return Err(Failed);
        }
        if !self.has_waiting(door) {
            self.count_idle(door);
            return Ok(None);
        }
        let Some(number) = self.next_number() else {
            self.fail_door();
            return Err(Failed);
        };
        if self.open_link(door, number).is_err() {
            self.starve();
            self.fail_door();
            return Err(Failed);
        }
        Ok(Some(number))
    }

    /// Logs that a link ran out of memory.
    pub fn give_up(&mut self, channel: u32)
        requires channel { IsTrue (is_open channel (log_of self.old)) }
        requires once { has_given_up channel (log_of self.old) ≡ false }
        ensures { self.new ≡ after_step (GaveUp channel) self.old }
    {
        self.steps.push(Step::GaveUp { channel });
    }

    /// Logs that a link was shut.
    pub fn shut(&mut self, channel: u32)
        requires { IsTrue (is_open channel (log_of self.old)) }
        ensures { self.new ≡ after_step (Shut channel) self.old }
    {
        self.steps.push(Step::Shut { channel });
    }

    /// A channel that is there has its place among the channels.
    fn channel_is_kept(&self, channel: u32)
        requires { IsTrue (is_there channel (log_of self.now)) }
        ensures { channel < length self.now.channels }
    {
        let _past = &self.past;
    }

    fn has_waiting(&self, door: Doorway) -> bool
        ensures { result ≡ nat_lt 0 (length (waiting_at self.now door)) }
    {
        match door {
            Doorway::Public => !self.at_public.is_empty(),
            Doorway::Operator => !self.at_operator.is_empty(),
        }
    }

    /// The least number that no channel had, where there is one.
    fn next_number(&self) -> Option<u32>
        ensures is { MatchOption result
            (last_number < length self.now.channels) (λ n. n ≡ length self.now.channels) }
        ensures number { IfSome result (λ n. 1 ≤ n) }
        ensures past { IfSome result (λ n. channels_in (log_of self.now) ≤ n) }
        ensures new { IfSome result (λ n. was_opened n (log_of self.now) ≡ false) }
    {
        let Ok(number) = u32::try_from(self.channels.len()) else {
            return None;
        };
        Some(number)
    }

    fn open_link(&mut self, door: Doorway, number: u32) -> Result<(), Memory>
        requires waits { 1 ≤ length (waiting_at self.old door) }
        requires number { number ≡ length self.old.channels }
        ensures ok { OnOk result (self.new ≡ after_opening door self.old) }
        ensures err { OnErr result (self.new ≡ self.old) }
    {
        make_place(&mut self.channels, &mut self.broken, &mut self.steps)?;
        let script = take_first(&mut self.at_public, &mut self.at_operator, door);
        put_channel(&mut self.channels, &mut self.broken, script);
        self.steps.push(Step::Opened {
            channel: number,
            door,
        });
        Ok(())
    }

    /// What the channel says next, into the front of the room: its bytes, or nothing yet, or its
    /// end.
    fn hear_into(&mut self, channel: u32, into: &mut [u8]) -> Result<Heard, Memory>
        requires { channel < length self.old.channels }
        ensures ok { IfOk result (λ heard.
            Hears channel into.old into.new heard self.old self.new) }
        ensures err { OnErr result ((self.new ≡ self.old) × (into.new ≡ into.old)) }
    {
        make_room(&mut self.steps, self.channels.len())?;
        let said = say_next(
            self.alloc,
            &self.input,
            &mut self.heard,
            &mut self.channels,
            channel,
            into.len(),
        )?;
        Ok(note_said(&mut self.steps, &mut self.channels, channel, said, into))
    }

    fn note_show(&mut self, channel: u32, bytes: &[u8]) -> Result<(), Memory>
        requires { channel < length self.old.channels }
        ensures ok { OnOk result (self.new ≡ after_step (Showed channel bytes.now) self.old) }
        ensures err { OnErr result (self.new ≡ self.old) }
    {
        let bytes = Bytes::copy(self.alloc, bytes)?;
        self.note(Step::Showed { channel, bytes })
    }

    /// The first failure of the channel is logged.
    fn break_channel(&mut self, channel: u32)
        requires { channel < length self.old.channels }
        ensures { self.new ≡ after_break channel self.old }
    {
        if !self.has_broken(channel) {
            self.note_break(channel);
        }
    }

    fn has_broken(&self, channel: u32) -> bool
        requires { channel < length self.now.channels }
        ensures { result ≡ has_broken channel (log_of self.now) }
    {
        self.broken[channel as usize]
    }

    fn note_break(&mut self, channel: u32)
        requires known { channel < length self.old.channels }
        requires whole { has_broken channel (log_of self.old) ≡ false }
        ensures { self.new ≡ after_step (Broke channel) self.old }
    {
        self.steps.push(Step::Broke { channel });
        self.broken[channel as usize] = true;
    }

    fn count_idle(&mut self, door: Doorway)
        ensures { self.new ≡ after_idle door self.old }
    {
        match door {
            Doorway::Public => self.public_idles = self.public_idles.saturating_add(1),
            Doorway::Operator => self.operator_idles = self.operator_idles.saturating_add(1),
        }
    }

    fn fail_hear(&mut self, channel: u32)
        requires { channel < length self.old.channels }
        ensures { self.new ≡ after_hear_fault channel self.old }
    {
        count_hear_fault(&mut self.channels, channel);
        self.break_channel(channel);
    }

    fn fail_show(&mut self, channel: u32)
        requires { channel < length self.old.channels }
        ensures { self.new ≡ after_show_fault channel self.old }
    {
        count_show_fault(&mut self.channels, channel);
        self.break_channel(channel);
    }

    fn fail_door(&mut self)
        ensures { self.new ≡ after_door_fault self.old }
    {
        self.door_faults = self.door_faults.saturating_add(1);
    }
}

/// What a channel says next: channel 0 of the input, of which so much was heard, a link of its
/// script. `Memory` where there is none for the bytes: all is as before then.
fn say_next(
    alloc: Global,
    input: &[u8],
    heard: &mut usize,
    channels: &mut [Channel],
    channel: u32,
    room: usize,
) -> Result<Said, Memory>
    requires known { channel < length channels.old }
    requires within { heard.old ≤ length input.now }
    ensures ok { IfOk result (λ said.
        said ≡ said_by channel room (drop heard.old input.now) channels.old) }
    ensures input { OnOk result (
        drop heard.new input.now ≡ input_after channel room (drop heard.old input.now)) }
    ensures channels { OnOk result (channels.new ≡ channels_after channel room channels.old) }
    ensures within { heard.new ≤ length input.now }
    ensures err { OnErr result ((heard.new ≡ heard.old) × (channels.new ≡ channels.old)) }
{
    if channel == 0 {
        say_input(alloc, input, heard, room)
    } else {
        say(alloc, channels, channel, room)
    }
}

fn say_input(alloc: Global, input: &[u8], heard: &mut usize, room: usize) -> Result<Said, Memory>
    requires { heard.old ≤ length input.now }
    ensures ok { IfOk result (λ said. said ≡ said_input room (drop heard.old input.now)) }
    ensures input { OnOk result (drop heard.new input.now ≡ drop room (drop heard.old input.now)) }
    ensures within { heard.new ≤ length input.now }
    ensures err { OnErr result (heard.new ≡ heard.old) }
{
    let (_, rest) = input.split_at(*heard);
    if rest.is_empty() {
        return Ok(Said::End);
    }
    let count = room.min(rest.len());
    let (front, _) = rest.split_at(count);
    let bytes = Bytes::copy(alloc, front)?;
    *heard += count;
    Ok(Said::Bytes(bytes))
}

/// Notes what a channel said, and puts its bytes into the front of the room.
fn note_said(
    steps: &mut Room<Step>,
    channels: &mut [Channel],
    channel: u32,
    said: Said,
    into: &mut [u8],
) -> Heard
    requires spare { 1 ≤ steps.old.spare }
    requires known { channel < length channels.old }
    requires fits { length (bytes_of said) ≤ length into.old }
    ensures answer { result ≡ answer_of said }
    ensures front { into.new ≡ bytes_of said ++ drop (length (bytes_of said)) into.old }
    ensures steps { steps.new.filled ≡ steps_with channel said steps.old.filled }
    ensures spare { steps.old.spare ≤ steps.new.spare + 1 }
    ensures channels { channels.new ≡ channels_with channel said channels.old }
{
    match said {
        Said::Bytes(bytes) => {
            put_at(into, 0, bytes.as_slice());
            let count = bytes.len();
            steps.push(Step::Heard { channel, bytes });
            Heard::Bytes(count)
        }
        Said::NotYet => {
            count_not_yet(channels, channel);
            Heard::NotYet
        }
        Said::End => {
            steps.push(Step::Ended { channel });
            Heard::End
        }
    }
}

/// Takes the first of the scripts that wait at a door.
fn take_first(
    at_public: &mut VecDeque<Script>,
    at_operator: &mut VecDeque<Script>,
    door: Doorway,
) -> Script
    requires { 1 ≤ length (waiting_of door at_public.old.items at_operator.old.items) }
    ensures first { result
        ≡ slice_index_or (waiting_of door at_public.old.items at_operator.old.items) 0 [] }
    ensures public { at_public.new.items ≡ public_after door at_public.old.items }
    ensures operator { at_operator.new.items ≡ operator_after door at_operator.old.items }
{
    match door {
        Doorway::Public => at_public.pop_front().unwrap(),
        Doorway::Operator => at_operator.pop_front().unwrap(),
    }
}

/// Makes room for one more channel and its flag, and for the steps that may come of all of them.
/// `Memory` where there is none: nothing has changed then.
fn make_place(
    channels: &mut Vec<Channel>,
    broken: &mut Vec<bool>,
    steps: &mut Room<Step>,
) -> Result<(), Memory>
    requires { length channels.old.items ≤ 4294967296 }
    ensures channels { channels.new.items ≡ channels.old.items }
    ensures broken { broken.new.items ≡ broken.old.items }
    ensures steps { steps.new.filled ≡ steps.old.filled }
    ensures room { OnOk result (vec_len channels.new < vec_capacity channels.new) }
    ensures room_flag { OnOk result (vec_len broken.new < vec_capacity broken.new) }
    ensures ok { OnOk result (steps.new.spare ≡ 3 * (length channels.old.items + 1) + 1) }
    ensures err { OnErr result (steps.new.spare ≡ steps.old.spare) }
{
    channels.reserve(1)?;
    broken.reserve(1)?;
    make_room(steps, channels.len() + 1)
}

/// Puts a channel with this script and its flag behind the others, where there is room for both.
fn put_channel(channels: &mut Vec<Channel>, broken: &mut Vec<bool>, script: Script)
    requires room { vec_len channels.old < vec_capacity channels.old }
    requires room_flag { vec_len broken.old < vec_capacity broken.old }
    ensures channels { channels.new.items ≡ channels.old.items ++ new_channel script ∷ [] }
    ensures broken { broken.new.items ≡ broken.old.items ++ false ∷ [] }
{
    channels.push_reserved(new_channel(script));
    broken.push_reserved(false);
}
