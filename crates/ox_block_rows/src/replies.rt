//! Written replies.

use crate::print::{NO_ROW, Page};
use crate::spell::{bytes_of, four_of};
use crate::streams::print_some_line;
use ox_bytes::{Bytes, Memory, Room};
use ox_http::{HEAD_ROOM, Reply, UNAVAILABLE, fault_reply, put_reply, write_parts, write_reply};
use std::alloc::Global;

/// The bytes that hex digits spell.
fn kept(alloc: Global, word: &str) -> Option<Bytes> {
    Some(Bytes::from_vec(bytes_of(alloc, word)?))
}

/// The encoding that a word spells, `none` for none.
fn encoding_of(alloc: Global, word: &str) -> Option<Option<Bytes>> {
    if word == "none" {
        return Some(None);
    }
    Some(Some(kept(alloc, word)?))
}

/// The reply of a row: its status, kind, encoding, whether it says close, and its body.
fn reply_of(alloc: Global, text: &str) -> Option<Reply> {
    let (status, kind, encoding, rest) = four_of(text)?;
    let (close, body) = rest.split_once(' ')?;
    Some(Reply {
        status: status.parse().unwrap_or(0),
        kind: kept(alloc, kind)?,
        encoding: encoding_of(alloc, encoding)?,
        body: kept(alloc, body)?,
        close: close == "close",
    })
}

/// A reply written into room that is there. `Memory` where there is none for it.
fn put_into_room(alloc: Global, reply: &Reply) -> Result<Bytes, Memory> {
    let parts = reply.parts();
    let encoding = parts.encoding.map_or(0, |encoding| encoding.len());
    let most = HEAD_ROOM
        .saturating_add(parts.kind.len())
        .saturating_add(encoding)
        .saturating_add(parts.body.len());
    let mut room = Room::new(alloc, most)?;
    put_reply(&mut room, parts, reply.close);
    Ok(room.into_bytes())
}

/// Whether each of the other writers writes the same. `Memory` where there is none for it.
fn is_by_all(alloc: Global, reply: &Reply, written: &Bytes) -> Result<bool, Memory> {
    let by_parts = write_parts(alloc, reply.parts(), reply.close)?;
    Ok(by_parts == *written && put_into_room(alloc, reply)? == *written)
}

/// A written reply, which has to be the same by each writer.
fn print_written(page: &mut Page, alloc: Global, reply: &Reply, written: &Bytes) {
    match is_by_all(alloc, reply, written) {
        Ok(true) => print_some_line(page, written.as_slice()),
        Ok(false) => page.say("another writer writes something else"),
        Err(Memory) => page.say(NO_ROW),
    }
}

/// The same of a reply.
fn print_reply(page: &mut Page, alloc: Global, reply: &Reply) {
    match write_reply(alloc, reply) {
        Ok(written) => print_written(page, alloc, reply, &written),
        Err(Memory) => page.say(NO_ROW),
    }
}

/// The written reply of a row.
pub fn print_row(page: &mut Page, alloc: Global, text: &str) {
    match reply_of(alloc, text) {
        Some(reply) => print_reply(page, alloc, &reply),
        None => page.say(NO_ROW),
    }
}

/// The written reply to a fault.
pub fn print_fault(page: &mut Page, alloc: Global, status: &str) {
    match fault_reply(alloc, status.parse().unwrap_or(0)) {
        Ok(reply) => print_reply(page, alloc, &reply),
        Err(Memory) => page.say(NO_ROW),
    }
}

/// The reply 503.
pub fn print_unavailable(page: &mut Page) {
    print_some_line(page, UNAVAILABLE)
}
