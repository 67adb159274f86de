//! A part of the work of links, done often, to be timed (bench/streams.py).

ghost use Rattle.std.specs.Prelude.{◌≡◌, [], false};

use crate::links::{Manner, answer};
use crate::print::{NO_ROW, Page};
use crate::streams::{length_in_front, stream_of};
use ox_session::{Poll, Session};
use std::alloc::Global;

/// Reads what a stream begins with so often, and prints how many bytes whole requests had in all.
pub fn read_often(page: &mut Page, alloc: Global, stream: &[u8], times: usize) {
    let mut read: u64 = 0;
    for _ in 0..times {
        read = read.saturating_add(length_in_front(alloc, stream).unwrap_or(0) as u64);
    }
    page.count("", read as u128);
    page.say(" bytes")
}

/// Polls a session once, answers it and takes what is due. Answers how many bytes that were, or
/// nothing where the session waits or is over, or there is no memory for it.
fn turn(alloc: Global, session: &mut Session) -> Option<usize>
    requires taken { session.old.due ≡ [] }
    requires answered { session.old.asked ≡ false }
    ensures taken { session.new.due ≡ [] }
    ensures answered { session.new.asked ≡ false }
{
    match session.poll() {
        Ok(Poll::Asked(request)) => answer(alloc, session, &request, Manner::Open),
        Ok(Poll::Answered) => {}
        _ => return None,
    }
    let due = session.due().len();
    session.took(due);
    Some(due)
}

/// Polls a session until it waits or is over. Answers how many bytes were due.
fn turns(alloc: Global, session: &mut Session) -> u64
    requires taken { session.old.due ≡ [] }
    requires answered { session.old.asked ≡ false }
    ensures taken { session.new.due ≡ [] }
    ensures answered { session.new.asked ≡ false }
{
    let mut shown: u64 = 0;
    for _ in 0..u32::MAX {
        match turn(alloc, session) {
            Some(due) => shown = shown.saturating_add(due as u64),
            None => break,
        }
    }
    shown
}

/// A session that hears a stream, so many bytes at a time, and is answered; how many bytes were
/// due. `None` where there is no memory for what is heard.
fn served(alloc: Global, stream: &[u8], each: usize) -> Option<(Session, u64)> {
    let mut session = Session::new(alloc);
    let mut shown: u64 = 0;
    for piece in stream.chunks(each.max(1)) {
        session.heard(piece).ok()?;
        shown = shown.saturating_add(turns(alloc, &mut session));
    }
    Some((session, shown))
}

/// Keeps so many sessions, each of which hears a stream, so many bytes at a time. Answers how many
/// bytes were due in all. `None` where there is no memory for it.
fn hold(alloc: Global, links: u32, each: usize, stream: &[u8]) -> Option<u64> {
    let mut sessions = Vec::new(alloc);
    let mut all: u64 = 0;
    for _ in 0..links {
        let (session, shown) = served(alloc, stream, each)?;
        sessions.push(session).ok()?;
        all = all.saturating_add(shown);
    }
    Some(all)
}

/// The same of a row: how many sessions, how many bytes at a time, and the parts of the stream.
fn held(alloc: Global, text: &str) -> Option<u64> {
    let (links, rest) = text.split_once(' ')?;
    let (each, parts) = rest.split_once(' ')?;
    let stream = stream_of(alloc, parts, ' ')?;
    hold(
        alloc,
        links.parse().unwrap_or(0),
        each.parse().unwrap_or(1),
        &stream,
    )
}

/// Prints how many bytes were due.
fn print_due(page: &mut Page, shown: u64) {
    page.count("", shown as u128);
    page.say(" bytes due")
}

/// Prints how many bytes were due in all of the sessions that are kept.
pub fn print_held(page: &mut Page, alloc: Global, text: &str) {
    match held(alloc, text) {
        Some(shown) => print_due(page, shown),
        None => page.say(NO_ROW),
    }
}
