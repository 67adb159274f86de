//! A session of one link, driven step by step.

ghost use Rattle.std.specs.Prelude.{◌≡◌, [], false, true};

use crate::print::{NO_ROW, Page};
use crate::streams::{print_request, print_some, stream_of};
use ox_bytes::{Bytes, Memory};
use ox_http::{Reply, Request, write_reply};
use ox_session::{Poll, Session};
use std::alloc::Global;

/// How requests are answered.
#[derive(Clone, Copy, PartialEq, Eq)]
pub enum Manner {
    /// By a reply that says close where the request does.
    Open,
    /// By a reply that says close.
    Close,
    /// By 503.
    Busy,
}

/// What is to be done behind an answer of the session.
#[derive(Clone, Copy)]
enum Then {
    Poll,
    Wait,
    End,
}

/// The reply to a request: its path is the body. `Memory` where there is none for it.
fn reply_to(alloc: Global, request: &Request, close: bool) -> Result<Bytes, Memory> {
    let kind = Bytes::copy(alloc, b"a/b")?;
    let body = Bytes::copy(alloc, request.path.as_slice())?;
    let reply = Reply {
        status: 200,
        kind,
        encoding: None,
        body,
        close,
    };
    write_reply(alloc, &reply)
}

/// Answers the request that is asked, by 503 also where there is no memory for the reply.
pub fn answer(alloc: Global, session: &mut Session, request: &Request, manner: Manner)
    requires asked { session.old.asked ≡ true }
    requires taken { session.old.due ≡ [] }
    ensures { session.new.asked ≡ false }
{
    if manner == Manner::Busy {
        return session.unavailable();
    }
    let close = request.close || manner == Manner::Close;
    match reply_to(alloc, request, close) {
        Ok(bytes) if !bytes.as_slice().is_empty() => session.reply(bytes, close),
        _ => session.unavailable(),
    }
}

/// Prints what is due, and takes it in two halves.
fn take_due(page: &mut Page, session: &mut Session)
    ensures taken { session.new.due ≡ [] }
    ensures asked { session.new.asked ≡ session.old.asked }
{
    page.put("due ");
    print_some(page, session.due());
    let half = session.due().len() / 2;
    session.took(half);
    let left = session.due().len();
    session.took(left);
    page.count_line(" and ", left as u128)
}

/// Polls the session once, and answers it.
fn turn(page: &mut Page, alloc: Global, session: &mut Session, manner: Manner) -> Then
    requires taken { session.old.due ≡ [] }
    requires answered { session.old.asked ≡ false }
    ensures taken { session.new.due ≡ [] }
    ensures answered { session.new.asked ≡ false }
{
    match session.poll() {
        Ok(Poll::Asked(request)) => {
            print_request(page, &request);
            answer(alloc, session, &request, manner);
        }
        Ok(Poll::Answered) => page.say("fault"),
        Ok(Poll::Waiting) => return Then::Wait,
        Ok(Poll::Over) => return Then::End,
        Err(Memory) => {
            page.say(NO_ROW);
            return Then::End;
        }
    }
    take_due(page, session);
    Then::Poll
}

/// Polls the session until it waits or is over. Answers whether it is over.
fn turns(page: &mut Page, alloc: Global, session: &mut Session, manner: Manner) -> bool
    requires taken { session.old.due ≡ [] }
    requires answered { session.old.asked ≡ false }
    ensures taken { session.new.due ≡ [] }
    ensures answered { session.new.asked ≡ false }
{
    for _ in 0..u32::MAX {
        match turn(page, alloc, session, manner) {
            Then::Poll => {}
            Then::Wait => return false,
            Then::End => return true,
        }
    }
    true
}

/// The link says bytes, so many at a time. Answers whether it is over.
fn say(
    page: &mut Page,
    alloc: Global,
    session: &mut Session,
    manner: Manner,
    pieces: &[u8],
    each: usize,
) -> bool
    requires taken { session.old.due ≡ [] }
    requires answered { session.old.asked ≡ false }
    ensures taken { session.new.due ≡ [] }
    ensures answered { session.new.asked ≡ false }
{
    let mut is_over = false;
    for piece in pieces.chunks(each.max(1)) {
        match session.heard(piece) {
            Ok(()) => is_over = turns(page, alloc, session, manner),
            Err(Memory) => page.say(NO_ROW),
        }
    }
    is_over
}

/// The bytes of a step `say:N:PARTS`, and how many of them are said at a time.
fn said(alloc: Global, word: &str) -> Option<(Vec<u8>, usize)> {
    let rest = word.strip_prefix("say:")?;
    let (number, parts) = rest.split_once(':')?;
    let each = match number.parse::<usize>().unwrap_or(0) {
        0 => usize::MAX,
        each => each,
    };
    Some((stream_of(alloc, parts, ',')?, each))
}

/// Says the bytes of a step. Answers whether the link is over.
fn say_step(
    page: &mut Page,
    alloc: Global,
    session: &mut Session,
    manner: Manner,
    word: &str,
) -> bool
    requires taken { session.old.due ≡ [] }
    requires answered { session.old.asked ≡ false }
    ensures taken { session.new.due ≡ [] }
    ensures answered { session.new.asked ≡ false }
{
    match said(alloc, word) {
        Some((bytes, each)) => say(page, alloc, session, manner, &bytes, each),
        None => {
            page.say(NO_ROW);
            true
        }
    }
}

/// Takes a step that isn't about how requests are answered, and prints whether the link waits or is
/// over.
fn take_step(page: &mut Page, alloc: Global, session: &mut Session, manner: Manner, word: &str)
    requires taken { session.old.due ≡ [] }
    requires answered { session.old.asked ≡ false }
    ensures taken { session.new.due ≡ [] }
    ensures answered { session.new.asked ≡ false }
{
    let is_over = match word {
        "end" => {
            session.ended();
            turns(page, alloc, session, manner)
        }
        "none" => {
            session.unavailable();
            take_due(page, session);
            turns(page, alloc, session, manner)
        }
        _ => say_step(page, alloc, session, manner, word),
    };
    page.say(if is_over { "over" } else { "waits" })
}

/// Takes the steps of a row, with a session of its own.
pub fn drive(page: &mut Page, alloc: Global, steps: &str) {
    let mut session = Session::new(alloc);
    let mut manner = Manner::Open;
    for word in steps.split(' ') {
        match word {
            "close" => manner = Manner::Close,
            "busy" => manner = Manner::Busy,
            _ => take_step(page, alloc, &mut session, manner, word),
        }
    }
}
