//! Requests of a chain, as rows say them, and their replies.

use crate::print::say;
use crate::replies::print_reply;
use crate::words::NO_ROW;
use ox_bytes::Bytes;
use ox_http::{Method, Reply, Request};
use ox_index::Chain;
use ox_query::{answer, answer_by};
use ox_routes::Routes;
use std::alloc::Global;
use std::io;

/// The method that a word names.
fn method_of(word: &str) -> Option<Method> {
    match word {
        "GET" => Some(Method::Get),
        "POST" => Some(Method::Post),
        "PUT" => Some(Method::Other),
        _ => None,
    }
}

/// The request of a method's word and a path.
fn request_of(alloc: Global, word: &str, path: Vec<u8>, close: bool) -> Option<Request> {
    let method = method_of(word)?;
    Some(Request {
        method,
        path: Bytes::from_vec(path),
        body: Bytes::empty(alloc),
        close,
    })
}

/// The request of a method and a path as it stands.
fn written_in(alloc: Global, text: &str, close: bool) -> Option<Request> {
    let (word, path) = text.split_once(' ')?;
    let path = Vec::from_slice(alloc, path.as_bytes()).ok()?;
    request_of(alloc, word, path, close)
}

/// The request of a method and a path in hex digits.
fn spelled_in(alloc: Global, text: &str) -> Option<Request> {
    let (word, digits) = text.split_once(' ')?;
    let path = hex::decode(alloc, digits).ok()?;
    request_of(alloc, word, path, false)
}

/// The request of a row. `None` also where there is no memory for it.
fn request_in(alloc: Global, row: &str) -> Option<Request> {
    let (word, rest) = row.split_once(' ')?;
    match word {
        "close" => written_in(alloc, rest, true),
        "hex" => spelled_in(alloc, rest),
        _ => written_in(alloc, row, false),
    }
}

/// The reply to a request by routes that are lent. `None` where there is no memory for it.
fn reply_by(alloc: Global, routes: &Routes, chain: &Chain, request: &Request) -> Option<Reply> {
    answer_by(alloc, routes, chain.live(), &chain.about(), request).ok()
}

/// Whether the reply to a request is this one by routes that are lent.
fn is_reply_by(
    alloc: Global,
    routes: &Routes,
    chain: &Chain,
    request: &Request,
    reply: &Reply,
) -> bool {
    match reply_by(alloc, routes, chain, request) {
        Some(lent) => lent == *reply,
        None => false,
    }
}

/// The reply to a request, which is the same by routes that are lent.
fn reply_to(alloc: Global, routes: &Routes, chain: &Chain, request: &Request) -> Option<Reply> {
    let reply = answer(alloc, chain.live(), &chain.about(), request).ok()?;
    if is_reply_by(alloc, routes, chain, request, &reply) {
        return Some(reply);
    }
    None
}

/// Prints the reply to a row's request.
pub fn print_answer(
    rt: &impl Print,
    alloc: Global,
    routes: &Routes,
    chain: &Chain,
    row: &str,
) -> io::Result<()> {
    let Some(request) = request_in(alloc, row) else {
        return say(rt, NO_ROW);
    };
    match reply_to(alloc, routes, chain, &request) {
        Some(reply) => print_reply(rt, &reply),
        None => say(rt, "another reply by routes that are lent, or no memory"),
    }
}

/// How many replies there were, and how many bytes their bodies had.
#[derive(Clone, Copy)]
pub struct Tally {
    pub replies: u64,
    pub bytes: u64,
}

impl Tally {
    /// Counts one more reply.
    fn count(&mut self, reply: &Reply) {
        self.replies = self.replies.wrapping_add(1);
        self.bytes = self.bytes.wrapping_add(reply.body.len() as u64);
    }
}

/// Replies to each of some rows' requests.
fn reply_once(
    alloc: Global,
    routes: &Routes,
    chain: &Chain,
    rows: &[&str],
    tally: &mut Tally,
) -> Option<()> {
    for row in rows {
        let request = request_in(alloc, *row)?;
        tally.count(&reply_by(alloc, routes, chain, &request)?);
    }
    Some(())
}

/// The rows of a text that are GETs.
fn gets_in(alloc: Global, text: &str) -> Option<Vec<&str>> {
    let mut gets = Vec::new(alloc);
    for row in text.split('\n') {
        if row.starts_with("GET ") {
            gets.push(row).ok()?;
        }
    }
    Some(gets)
}

/// Replies to each GET among the rows, so many times, by the chain as it stands. `None` where
/// there is no memory.
pub fn reply_often(
    alloc: Global,
    routes: &Routes,
    chain: &Chain,
    text: &str,
    times: u32,
) -> Option<Tally> {
    let rows = gets_in(alloc, text)?;
    let mut tally = Tally {
        replies: 0,
        bytes: 0,
    };
    for _ in 0..times {
        reply_once(alloc, routes, chain, &rows, &mut tally)?;
    }
    Some(tally)
}
