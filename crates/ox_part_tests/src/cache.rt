//! What a cache answers. The bodies that are made differ at each asking, so that the one that is
//! shown tells whether it was kept.

use ox_bytes::{Bytes, Memory};
use ox_cache::Cache;
use ox_http::Reply;
use std::alloc::Global;
use std::num::NonZeroUsize;
use std::process::Abort;

/// A cache and what its replies are made with.
#[derive(Drop)]
struct Asked {
    cache: Cache,
    alloc: Global,
}

/// A cache with room for so many replies.
fn with_room(rt: &impl Abort, alloc: Global, room: usize) -> Asked {
    let room = NonZeroUsize::new(room).unwrap_or(NonZeroUsize::MIN);
    Asked {
        cache: Cache::new(alloc, room).expect(rt, "memory"),
        alloc,
    }
}

/// A reply that says close, which no answer goes by.
fn reply(alloc: Global, body: &[u8]) -> Result<Reply, Memory> {
    Ok(Reply {
        status: 200,
        kind: Bytes::copy(alloc, b"a/b")?,
        encoding: None,
        body: Bytes::copy(alloc, body)?,
        close: true,
    })
}

/// The answer to a path after so many commands, where the body given is made.
fn answer(
    rt: &impl Abort,
    asked: &mut Asked,
    commands: u64,
    path: &[u8],
    close: bool,
    made: &[u8],
) -> Bytes {
    let alloc = asked.alloc;
    asked
        .cache
        .answer(commands, path, close, || reply(alloc, made))
        .expect(rt, "memory")
}

/// Whether the body that is made for a path is the answer's, and not one that is kept.
fn makes(rt: &impl Abort, asked: &mut Asked, path: &[u8], made: &[u8]) -> bool {
    answer(rt, asked, 0, path, false, made)
        .as_slice()
        .ends_with(made)
}

/// Whether the answer to `/status` after so many commands ends with a body, where another is made.
fn gives(rt: &impl Abort, asked: &mut Asked, commands: u64, made: &[u8], body: &[u8]) -> bool {
    answer(rt, asked, commands, b"/status", false, made)
        .as_slice()
        .ends_with(body)
}

#[test]
fn a_reply_is_kept_for_its_number_and_path(rt: HostRuntime) {
    let mut asked = with_room(&rt, rt.alloc(), 64);
    assert!(rt; makes(&rt, &mut asked, b"/status", b"first"));
    assert!(rt; !makes(&rt, &mut asked, b"/status", b"second"));
    assert!(rt; makes(&rt, &mut asked, b"/audit", b"third"));
    assert!(rt; gives(&rt, &mut asked, 1, b"fourth", b"fourth"));
    assert!(rt; gives(&rt, &mut asked, 0, b"fifth", b"first"));
    assert!(rt; asked.cache.hits() == 2);
}

/// A reply to `/` whose link stays open.
const OPEN: &[u8] = b"HTTP/1.1 200 OK\r\nContent-Type: a/b\r\nContent-Length: 2\r\n\r\nab";

/// The same of one whose link is closed behind it.
const CLOSING: &[u8] =
    b"HTTP/1.1 200 OK\r\nContent-Type: a/b\r\nContent-Length: 2\r\nConnection: close\r\n\r\nab";

/// Whether the answer to `/` after so many commands closes its link exactly where that was asked,
/// and has the body `ab`, where another is made.
fn closes(rt: &impl Abort, asked: &mut Asked, commands: u64, close: bool, made: &[u8]) -> bool {
    let reply = answer(rt, asked, commands, b"/", close, made);
    reply.as_slice() == if close { CLOSING } else { OPEN }
}

#[test]
fn close_is_as_it_was_asked(rt: HostRuntime) {
    let mut asked = with_room(&rt, rt.alloc(), 1);
    assert!(rt; closes(&rt, &mut asked, 0, false, b"ab"));
    assert!(rt; closes(&rt, &mut asked, 0, true, b"cd"));
    assert!(rt; closes(&rt, &mut asked, 0, false, b"ef"));
    assert!(rt; closes(&rt, &mut asked, 1, true, b"ab"));
    assert!(rt; asked.cache.hits() == 2);
}

#[test]
fn past_the_room_the_last_reply_falls_off(rt: HostRuntime) {
    let mut asked = with_room(&rt, rt.alloc(), 64);
    for n in 0..65u8 {
        assert!(rt; makes(&rt, &mut asked, &[b'/', n], b"first"));
    }
    assert!(rt; !makes(&rt, &mut asked, &[b'/', 1], b"second"));
    assert!(rt; !makes(&rt, &mut asked, &[b'/', 64], b"second"));
    assert!(rt; makes(&rt, &mut asked, &[b'/', 0], b"second"));
    assert!(rt; makes(&rt, &mut asked, &[b'/', 2], b"second"));
    assert!(rt; asked.cache.hits() == 2);
}

#[test]
fn a_hit_comes_to_the_front(rt: HostRuntime) {
    let mut asked = with_room(&rt, rt.alloc(), 2);
    assert!(rt; makes(&rt, &mut asked, b"/a", b"first"));
    assert!(rt; makes(&rt, &mut asked, b"/b", b"first"));
    assert!(rt; !makes(&rt, &mut asked, b"/a", b"second"));
    assert!(rt; makes(&rt, &mut asked, b"/c", b"first"));
    assert!(rt; !makes(&rt, &mut asked, b"/a", b"second"));
    assert!(rt; makes(&rt, &mut asked, b"/b", b"second"));
}

/// Whether the reply with a body of so many bytes is kept.
fn keeps_body(rt: &impl Abort, asked: &mut Asked, len: usize) -> bool {
    let body = vec![in asked.alloc; b'x'; len].expect(rt, "memory");
    let made = answer(rt, asked, 0, b"/", false, body.as_slice());
    made.as_slice().ends_with(body.as_slice()) && !makes(rt, asked, b"/", b"another")
}

#[test]
fn a_long_body_is_not_kept(rt: HostRuntime) {
    let mut asked = with_room(&rt, rt.alloc(), 64);
    assert!(rt; !keeps_body(&rt, &mut asked, 65_537));
    let mut asked = with_room(&rt, rt.alloc(), 64);
    assert!(rt; keeps_body(&rt, &mut asked, 65_536));
}

#[test]
fn where_nothing_is_made_nothing_changes(rt: HostRuntime) {
    let mut asked = with_room(&rt, rt.alloc(), 1);
    assert!(rt; makes(&rt, &mut asked, b"/a", b"first"));
    let none = asked.cache.answer(0, b"/b", false, || Err(Memory));
    assert!(rt; none == Err(Memory));
    assert!(rt; asked.cache.hits() == 0);
    assert!(rt; !makes(&rt, &mut asked, b"/a", b"second"));
    assert!(rt; makes(&rt, &mut asked, b"/b", b"first"));
}
