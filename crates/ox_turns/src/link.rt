//! The turn of a link: one call on its channel, and what its session asks then.

ghost use Rattle.std.specs.Prelude.{◌≡◌, ◌++◌, ◌<◌, ◌≤◌, List, [], length, true, false};
ghost use Rattle.std.specs.Prelude.{Some, None, IsTrue, IfOk, OnErr};
ghost use Rattle.std.specs.Option.{ForSome};
ghost use Rattle.ox_outside.specs.Counts.{NoFault, greatest};
ghost use Rattle.ox_outside.specs.Crash.{LeavesFiles, OneCall};
ghost use Rattle.ox_outside.specs.Event.{Event, give_up_events, has_broken};
ghost use Rattle.ox_outside.specs.Event.{has_given_up, is_open};
ghost use Rattle.ox_outside.specs.Event.{is_there};
ghost use Rattle.ox_outside.specs.Log.{Adds, Grows};
ghost use Rattle.ox_outside.specs.Runs.{LeavesOnly};
ghost use Rattle.ox_http.specs.First.{first_of, whole};
ghost use Rattle.ox_http.specs.Written.{unavailable};
ghost use Rattle.ox_links.specs.Link.{is_operator};
ghost use Rattle.ox_turns.specs.Desk.{StandsForEither, state_behind};
ghost use Rattle.ox_links.specs.Serving.{Serving, served_by};
ghost use Rattle.ox_links.specs.Survives.{Survives};
ghost use Rattle.ox_turns.specs.Follows.{LinkFollows};
ghost use Rattle.ox_turns.specs.Turn.{Asks, ComesTo, DeskGoes, Goes, IsGoing, IsReady, LinkCut};
ghost use Rattle.ox_turns.specs.Turn.{LinkTurns, ShowsFronts, SlotAnswers, SlotComes};
ghost use Rattle.ox_turns.specs.Turn.{StandsForNext};

use crate::slot::Slot;
use crate::{Desk, DeskFault};
use ox_http::Request;
use ox_outside::{Failed, Heard, Shown, Site};
use ox_session::Poll;

/// What the call of a link's turn came to.
#[derive(Clone, Copy)]
pub(crate) enum Came {
    /// The channel had nothing to give, or took nothing.
    Nothing,
    /// It took some of what is due.
    Part,
    /// Something was heard, or all that was due was taken: the session may ask.
    More,
    /// Something was heard, and there is no memory for it.
    NoMemory,
    /// The link ended or broke.
    Over,
}

/// What a session came to that may ask.
#[derive(Clone, Copy)]
pub(crate) enum Next {
    /// It waits, or an answer is due.
    Rests,
    /// There is no memory for what it asks, or for the answer.
    NoMemory,
    /// The link is over.
    Over,
}

/// Hears a link of which nothing is due.
fn hear<S: Site>(slot: &mut Slot, room: &mut [u8], site: &mut S) -> Came
    requires none { slot.old.session.due ≡ [] }
    requires room { 1 ≤ length room.old }
    requires there { ForSome (S.log site.old) (λ log. IsTrue (is_there slot.old.channel log)) }
    requires whole { ForSome (S.log site.old) (λ log. has_broken slot.old.channel log ≡ false) }
    ensures comes { ComesTo S.Site result slot.old.channel slot.old.session slot.new.session
        site.old site.new }
    ensures keeps { SlotComes S.Site result slot.old slot.new site.old site.new }
{
    match site.hear(slot.channel, room) {
        Ok(Heard::Bytes(n)) => match slot.session.heard(room.split_at(n).0) {
            Ok(()) => Came::More,
            Err(_) => Came::NoMemory,
        },
        Ok(Heard::NotYet) => Came::Nothing,
        Ok(Heard::End) => Came::Over,
        Err(_) => Came::Over,
    }
}

/// Shows what is due.
fn show<S: Site>(slot: &mut Slot, site: &mut S) -> Came
    requires some { 1 ≤ length slot.old.session.due }
    requires there { ForSome (S.log site.old) (λ log. IsTrue (is_there slot.old.channel log)) }
    requires whole { ForSome (S.log site.old) (λ log. has_broken slot.old.channel log ≡ false) }
    ensures comes { ComesTo S.Site result slot.old.channel slot.old.session slot.new.session
        site.old site.new }
    ensures keeps { SlotComes S.Site result slot.old slot.new site.old site.new }
{
    match site.show(slot.channel, slot.session.due()) {
        Ok(Shown::Took(n)) => {
            slot.session.took(n);
            if slot.session.due().is_empty() {
                Came::More
            } else {
                Came::Part
            }
        }
        Ok(Shown::NotYet) => Came::Nothing,
        Err(_) => Came::Over,
    }
}

/// The one call on the channel: what is due is shown, and before it is wholly taken nothing is
/// heard.
fn call<S: Site>(slot: &mut Slot, room: &mut [u8], site: &mut S) -> Came
    requires room { 1 ≤ length room.old }
    requires there { ForSome (S.log site.old) (λ log. IsTrue (is_there slot.old.channel log)) }
    requires whole { ForSome (S.log site.old) (λ log. has_broken slot.old.channel log ≡ false) }
    ensures comes { ComesTo S.Site result slot.old.channel slot.old.session slot.new.session
        site.old site.new }
    ensures keeps { SlotComes S.Site result slot.old slot.new site.old site.new }
{
    if slot.session.due().is_empty() {
        hear(slot, room, site)
    } else {
        show(slot, site)
    }
}

/// Asks the desk what the session asks.
fn ask<S: Site, D: Desk<S>>(
    slot: &mut Slot,
    request: &Request,
    site: &mut S,
    desk: &mut D,
) -> Result<Next, Failed>
    requires rests { D.rests desk.old site.old }
    requires room { D.asked desk.old < greatest }
    requires asks { slot.old.session.asked ≡ true }
    ensures asks { IfOk result (λ next. Asks D.server (is_operator slot.old.door) request.now next
        slot.old.session slot.new.session (D.state desk.old) (D.state desk.new)) }
    ensures desk { IfOk result (λ next. DeskGoes D.moved D.same (is_operator slot.old.door) next
        (whole request.now 0) desk.old desk.new) }
    ensures keeps { SlotAnswers S.Site D.Desk result slot.old slot.new site.old site.new
        desk.old desk.new }
    ensures any_moment { IsTrue (S.told site.old) → LeavesOnly S.Site site.old site.new (λ r.
        StandsForEither D.stands (D.state desk.old)
        (state_behind D.server (D.state desk.old) (is_operator slot.old.door) request.now)
        r.files) }
    ensures log_stays { LeavesOnly S.Site site.old site.new (λ r. S.log site.old ≡ Some r.log) }
    ensures logged { S.log site.new ≡ S.log site.old }
{
    match desk.ask(site, request, slot.is_operators()) {
        Ok(made) => {
            slot.session.reply(made.bytes, made.close);
            Ok(Next::Rests)
        }
        Err(DeskFault::Memory) => Ok(Next::NoMemory),
        Err(DeskFault::DiskFault) => Err(Failed),
    }
}

/// Asks the session, and the desk what it asks. Once is enough: then the session waits, is over or
/// has an answer due.
fn answer<S: Site, D: Desk<S>>(slot: &mut Slot, site: &mut S, desk: &mut D) -> Result<Next, Failed>
    requires rests { D.rests desk.old site.old }
    requires room { D.asked desk.old < greatest }
    requires taken { slot.old.session.due ≡ [] }
    requires answered { slot.old.session.asked ≡ false }
    requires listens { slot.old.session.ended ≡ false }
    ensures goes { IfOk result (λ next. Goes D.server (is_operator slot.old.door) next
        slot.old.session slot.new.session (D.state desk.old) (D.state desk.new)) }
    ensures desk { IfOk result (λ next. DeskGoes D.moved D.same (is_operator slot.old.door) next
        (first_of slot.old.session.heard) desk.old desk.new) }
    ensures keeps { SlotAnswers S.Site D.Desk result slot.old slot.new site.old site.new
        desk.old desk.new }
    ensures any_moment { IsTrue (S.told site.old) → LeavesOnly S.Site site.old site.new (λ r.
        StandsForNext D.server D.stands (is_operator slot.old.door) slot.old.session
        (D.state desk.old) r.files) }
    ensures log_stays { LeavesOnly S.Site site.old site.new (λ r. S.log site.old ≡ Some r.log) }
    ensures logged { S.log site.new ≡ S.log site.old }
{
    match slot.session.poll() {
        Ok(Poll::Asked(request)) => ask(slot, &request, site, desk),
        Ok(Poll::Waiting) => Ok(Next::Rests),
        Ok(Poll::Answered) => Ok(Next::Rests),
        Ok(Poll::Over) => Ok(Next::Over),
        Err(_) => Ok(Next::NoMemory),
    }
}

/// Says that the link ran out of memory; the reply to that is due, and the link ends with it.
fn give_up<S: Site>(slot: &mut Slot, site: &mut S)
    requires taken { slot.old.session.due ≡ [] }
    requires open { ForSome (S.log site.old) (λ log. IsTrue (is_open slot.old.channel log)) }
    requires once { ForSome (S.log site.old) (λ log. has_given_up slot.old.channel log ≡ false) }
    ensures due { slot.new.session ≡ record slot.old.session {
      due = unavailable;
      asked = false;
      closing = true;
    } }
    ensures channel { slot.new.channel ≡ slot.old.channel }
    ensures door { slot.new.door ≡ slot.old.door }
    ensures logged { Adds (give_up_events slot.old.channel) (S.log site.old) (S.log site.new) }
    ensures files { LeavesFiles S.seen S.may_leave site.old site.new }
    ensures counted { NoFault (S.counts site.old) (S.counts site.new) }
    ensures call { OneCall S.told S.counts S.clock S.may_leave S.left_since site.old site.new }
{
    site.give_up(slot.channel);
    slot.session.unavailable();
}

/// A link's turn. Whether the link is over, and was shut. `Failed` where a call on a file failed.
pub(crate) fn step_link<S: Site, D: Desk<S>>(
    slot: &mut Slot,
    room: &mut [u8],
    site: &mut S,
    desk: &mut D,
) -> Result<bool, Failed>
    requires room { 1 ≤ length room.old }
    requires rests { D.rests desk.old site.old }
    requires asked { D.asked desk.old < greatest }
    requires ready { IsReady slot.old.session }
    requires goes_on { ForSome (S.log site.old) (IsGoing slot.old.channel slot.old.session) }
    ensures turn { (log : List Event) (run : Serving D.State D.Command)
        → S.log site.old ≡ Some log
        → LinkFollows run slot.old.channel slot.old.door slot.old.session
        → ShowsFronts run → D.state desk.old ≡ run.state → IfOk result (λ over.
        LinkTurns S.Site D.server D.moved D.same run log slot.old.channel slot.old.door over
        site.old site.new slot.new.session (D.state desk.new) desk.old desk.new) }
    ensures cut { (log : List Event) (run : Serving D.State D.Command)
        → S.log site.old ≡ Some log
        → LinkFollows run slot.old.channel slot.old.door slot.old.session
        → ShowsFronts run → OnErr result (LinkCut D.server run log slot.old.channel
        (S.log site.new)) }
    ensures survives { (past since : List Event) (first : D.State)
        → S.log site.old ≡ Some (past ++ since)
        → LinkFollows (served_by D.server first since) slot.old.channel slot.old.door
        slot.old.session → ShowsFronts (served_by D.server first since)
        → D.state desk.old ≡ (served_by D.server first since).state → IsTrue (S.told site.old)
        → LeavesOnly S.Site site.old site.new (λ r. Grows (λ events.
        Survives D.server first D.stands (since ++ events) r.files) (S.log site.old)
        (Some r.log)) }
    ensures untold { S.log site.old ≡ None → S.log site.new ≡ None }
    ensures ready { IfOk result (λ over. over ≡ false → IsReady slot.new.session) }
    ensures keeps { SlotAnswers S.Site D.Desk result slot.old slot.new site.old site.new
        desk.old desk.new }
{
    match call(slot, room, site) {
        Came::Nothing => Ok(false),
        Came::Part => Ok(false),
        Came::More => match answer(slot, site, desk) {
            Ok(Next::Rests) => Ok(false),
            Ok(Next::NoMemory) => {
                give_up(slot, site);
                Ok(false)
            }
            Ok(Next::Over) => {
                site.shut(slot.channel);
                Ok(true)
            }
            Err(failed) => Err(failed),
        },
        Came::NoMemory => {
            give_up(slot, site);
            Ok(false)
        }
        Came::Over => {
            site.shut(slot.channel);
            Ok(true)
        }
    }
}
