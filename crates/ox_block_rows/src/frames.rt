//! The frames that stand in some bytes.

use crate::fields::short;
use crate::print::Page;
use crate::streams::{print_some, print_some_line};
use ox_follow::{Frame, Position, base_front, have_front, level_front, read_frame, step_front};

/// What stands at the front of some bytes: nothing yet, no frame (0), or one of so many bytes.
fn length_at_front(bytes: &[u8]) -> Option<usize> {
    match read_frame(bytes) {
        Ok(None) => None,
        Ok(Some((_, used))) => Some(used),
        Err(_) => Some(0),
    }
}

/// What a frame begins with, behind its word, and borrows.
fn print_parts(page: &mut Page, word: &str, at: Position, rest: &[u8]) {
    page.count(word, at.generation as u128);
    page.count(" ", at.place as u128);
    page.put(" ");
    print_some(page, rest)
}

/// How many bytes a frame takes, and its front written anew.
fn print_front(page: &mut Page, used: usize, front: &[u8]) {
    page.count(" takes ", used as u128);
    page.put(" front ");
    print_some_line(page, front)
}

/// A frame with a whole current file.
fn print_base(page: &mut Page, at: Position, numbers: (u8, u16), body: &[u8], used: usize) {
    let (profile, depth) = numbers;
    let size = short(body.len() as u128);
    page.count("profile ", profile as u128);
    page.count(" depth ", depth as u128);
    page.put(" ");
    print_parts(page, "base ", at, body);
    print_front(page, used, &base_front(at, profile, depth, size))
}

/// A frame with a record.
fn print_step(page: &mut Page, at: Position, payload: &[u8], used: usize) {
    print_parts(page, "step ", at, payload);
    print_front(page, used, &step_front(at, short(payload.len() as u128)))
}

/// A frame with a position alone.
fn print_at(page: &mut Page, word: &str, at: Position, used: usize, front: &[u8]) {
    print_parts(page, word, at, &[]);
    print_front(page, used, front)
}

/// A frame that takes so many bytes.
fn print_frame(page: &mut Page, frame: Frame<'_>, used: usize) {
    match frame {
        Frame::Base {
            at,
            profile,
            depth,
            body,
        } => print_base(page, at, (profile, depth), body, used),
        Frame::Step { at, payload } => print_step(page, at, payload, used),
        Frame::Have { at } => print_at(page, "have ", at, used, &have_front(at)),
        Frame::Level { at } => print_at(page, "level ", at, used, &level_front(at)),
    }
}

/// What stands at the front of some bytes. Answers how many bytes a frame there takes.
fn print_next(page: &mut Page, bytes: &[u8]) -> Option<usize> {
    match read_frame(bytes) {
        Ok(None) => page.count_line("left ", bytes.len() as u128),
        Err(_) => page.say("bad"),
        Ok(Some((frame, used))) => {
            print_frame(page, frame, used);
            return Some(used);
        }
    }
    None
}

/// The frames that stand one after another, and what stands behind them.
pub fn print_frames(page: &mut Page, bytes: &[u8]) {
    let mut at: usize = 0;
    for _ in 0..=bytes.len() {
        match print_next(page, bytes.get(at..).unwrap_or_default()) {
            Some(used) => at = at.saturating_add(used),
            None => break,
        }
    }
}

/// What stands in front, where it does for the first time, and whether it stays so behind what was
/// found. Answers what is found then.
fn print_front_of(
    page: &mut Page,
    front: &[u8],
    found: Option<usize>,
    whole: Option<usize>,
) -> Option<usize> {
    let now = length_at_front(front);
    if found.is_none() && now.is_some() {
        page.count("", front.len() as u128);
        page.put(": ");
        print_next(page, front);
    }
    let found = found.or(now);
    if now != found || (found.is_some() && now != whole) {
        page.say("what stood there is gone");
    }
    found
}

/// At which length something stands at the front for the first time, where `each` more bytes come
/// at a time, and what; whether it stays so.
pub fn print_pieces(page: &mut Page, bytes: &[u8], each: usize) {
    let whole = length_at_front(bytes);
    let mut heard: usize = 0;
    let mut found = None;
    for piece in bytes.chunks(each.max(1)) {
        heard = heard.saturating_add(piece.len());
        let front = bytes.get(..heard).unwrap_or_default();
        found = print_front_of(page, front, found, whole);
    }
    if found.is_none() {
        page.say("more");
    }
}
