//! Replies written as bytes (RFC 9112, section 4).

ghost use Rattle.std.specs.Prelude.{◌≡◌, ◌+◌, ◌≤◌, ◌++◌, [], length, false, IfOk};
ghost use Rattle.std.specs.Option.{option_copied};
ghost use Rattle.ox_http.specs.Written.{close_line, encoding_length, encoding_line};
ghost use Rattle.ox_http.specs.Written.{fault_reply as fault};
ghost use Rattle.ox_http.specs.Written.{kind_line, length_line, most_written, phrase_of, reply_of};
ghost use Rattle.ox_http.specs.Written.{status_line, unavailable, written, written_head, Puts};

use crate::Reply;
use itoa::Buffer;
use ox_bytes::{Bytes, Memory, Room};
use std::alloc::Global;

/// How many bytes a reply has at most beside its kind, its encoding and its body.
pub const HEAD_ROOM: usize = 143;

/// The whole reply to a request that there is no memory for: 503 (RFC 9110, section 15.6.4), with
/// which the link ends.
pub const UNAVAILABLE: &[u8] =
    b"HTTP/1.1 503 Service Unavailable\r\nContent-Length: 0\r\nConnection: close\r\n\r\n";

/// A reply's parts, borrowed: all but whether the link ends with it.
#[derive(Clone, Copy)]
pub struct ReplyParts<'r> {
    /// The status code.
    pub status: u16,
    /// The body's kind.
    pub kind: &'r [u8],
    /// The body's encoding, if there is one.
    pub encoding: Option<&'r [u8]>,
    pub body: &'r [u8],
}

impl Reply {
    /// The parts of the reply, borrowed.
    pub fn parts(&self) -> ReplyParts<'_>
        ensures status { result.status ≡ self.now.status }
        ensures kind { result.kind.now ≡ self.now.kind }
        ensures encoding { option_copied result.encoding ≡ self.now.encoding }
        ensures body { result.body.now ≡ self.now.body }
    {
        ReplyParts {
            status: self.status,
            kind: self.kind.as_slice(),
            encoding: self.encoding.as_ref().map(|encoding| encoding.as_slice()),
            body: self.body.as_slice(),
        }
    }
}

/// The phrase of a status (RFC 9110, section 15).
fn phrase(status: u16) -> &'static [u8]
    ensures phrase { result.now ≡ phrase_of status }
    ensures short { length result.now ≤ 31 }
{
    match status {
        200 => b"OK",
        400 => b"Bad Request",
        403 => b"Forbidden",
        404 => b"Not Found",
        405 => b"Method Not Allowed",
        409 => b"Conflict",
        411 => b"Length Required",
        413 => b"Content Too Large",
        431 => b"Request Header Fields Too Large",
        _ => b"",
    }
}

/// Puts bytes.
fn put(room: &mut Room<u8>, bytes: &[u8])
    requires { length bytes.now ≤ room.old.spare }
    ensures { Puts bytes.now (length bytes.now) room.old room.new }
{
    room.put(bytes);
}

fn put_status(room: &mut Room<u8>, status: u16)
    requires { 48 ≤ room.old.spare }
    ensures { Puts (status_line status) 48 room.old room.new }
{
    room.put(b"HTTP/1.1 ");
    room.put(Buffer::new().format(status).as_bytes());
    room.put(b" ");
    room.put(phrase(status));
    room.put(b"\r\n");
}

fn put_kind(room: &mut Room<u8>, kind: &[u8])
    requires { length kind.now + 16 ≤ room.old.spare }
    ensures { Puts (kind_line kind.now) (length kind.now + 16) room.old room.new }
{
    put(room, b"Content-Type: ");
    put(room, kind);
    put(room, b"\r\n");
}

fn put_some_encoding(room: &mut Room<u8>, encoding: &[u8])
    requires { length encoding.now + 20 ≤ room.old.spare }
    ensures { Puts (encoding_line (Some encoding.now)) (length encoding.now + 20)
        room.old room.new }
{
    put(room, b"Content-Encoding: ");
    put(room, encoding);
    put(room, b"\r\n");
}

fn put_encoding(room: &mut Room<u8>, encoding: Option<&[u8]>)
    requires { encoding_length (option_copied encoding) + 20 ≤ room.old.spare }
    ensures { Puts (encoding_line (option_copied encoding.entry))
        (encoding_length (option_copied encoding.entry) + 20) room.old room.new }
{
    match encoding {
        Some(encoding) => put_some_encoding(room, encoding),
        None => {}
    }
}

fn put_close(room: &mut Room<u8>, close: bool)
    requires { 19 ≤ room.old.spare }
    ensures { Puts (close_line close) 19 room.old room.new }
{
    if close {
        put(room, b"Connection: close\r\n");
    }
}

fn put_length(room: &mut Room<u8>, len: usize)
    requires { 38 ≤ room.old.spare }
    ensures { Puts (length_line len) 38 room.old room.new }
{
    room.put(b"Content-Length: ");
    room.put(Buffer::new().format(len).as_bytes());
    room.put(b"\r\n");
}

fn put_head(room: &mut Room<u8>, parts: ReplyParts, close: bool)
    requires { most_written (reply_of parts close) ≤ room.old.spare + length parts.body.now }
    ensures { Puts
        (written_head parts.entry.status parts.entry.kind.now (option_copied parts.entry.encoding)
        (length parts.entry.body.now) close)
        (143 + length parts.entry.kind.now + encoding_length (option_copied parts.entry.encoding))
        room.old room.new }
{
    put_status(room, parts.status);
    put_kind(room, parts.kind);
    put_encoding(room, parts.encoding);
    put_length(room, parts.body.len());
    put_close(room, close);
    put(room, b"\r\n");
}

/// Puts a reply of borrowed parts, with which the link ends where `close` is so, behind what is in
/// the room. It takes no memory: room for 143 bytes beside the kind, the encoding and the body is
/// enough.
pub fn put_reply(room: &mut Room<u8>, parts: ReplyParts, close: bool)
    requires { most_written (reply_of parts close) ≤ room.old.spare }
    ensures { Puts (written (reply_of parts.entry close))
        (most_written (reply_of parts.entry close)) room.old room.new }
{
    put_head(room, parts, close);
    put(room, parts.body);
}

/// Room that is enough for a reply.
fn room_for(alloc: Global, parts: ReplyParts) -> Result<Room<u8>, Memory>
    ensures empty { IfOk result (λ room. room.filled ≡ []) }
    ensures enough { IfOk result (λ room.
        most_written (reply_of parts.entry false) ≤ room.spare) }
{
    let encoding = parts.encoding.map_or(0, |encoding| encoding.len());
    let beside = HEAD_ROOM.checked_add(parts.kind.len()).ok_or(Memory)?;
    let beside = beside.checked_add(encoding).ok_or(Memory)?;
    Room::new(alloc, beside.checked_add(parts.body.len()).ok_or(Memory)?)
}

/// The bytes of a reply of borrowed parts, with which the link ends where `close` is so. `Memory`
/// where there is none for them, which is taken at once.
pub fn write_parts(alloc: Global, parts: ReplyParts, close: bool) -> Result<Bytes, Memory>
    ensures { IfOk result (λ bytes. bytes ≡ written (reply_of parts.entry close)) }
{
    let mut room = room_for(alloc, parts)?;
    put_reply(&mut room, parts, close);
    Ok(room.into_bytes())
}

/// The bytes of a reply: its status line, its fields, an empty line and its body. `Memory` where
/// there is none for them, which is taken at once.
pub fn write_reply(alloc: Global, reply: &Reply) -> Result<Bytes, Memory>
    ensures { IfOk result (λ bytes. bytes ≡ written reply.now) }
{
    write_parts(alloc, reply.parts(), reply.close)
}

/// The reply to a fault of a stream, by its status, with which the link ends: a JSON object that
/// has the status. `Memory` where there is none for it.
pub fn fault_reply(alloc: Global, status: u16) -> Result<Reply, Memory>
    ensures { IfOk result (λ reply. reply ≡ fault status) }
{
    let mut body = Bytes::copy(alloc, b"{\"error\":")?;
    body.append(Buffer::new().format(status).as_bytes())?;
    body.append(b"}")?;
    Ok(Reply {
        status,
        kind: Bytes::copy(alloc, b"application/json")?,
        encoding: None,
        body,
        close: true,
    })
}

/// `UNAVAILABLE` has the bytes of the reply 503.
pub fn unavailable_is_503()
    ensures { UNAVAILABLE.now ≡ unavailable }
{}
