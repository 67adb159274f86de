//! The reply to an accepted command, in memory that is taken before.

ghost use Rattle.std.specs.Prelude.{◌≡◌, ◌+◌, ◌≤◌, ◌++◌, [], length, Some};
ghost use Rattle.serde_json.specs.Written.{compact_text};
ghost use Rattle.ox_http.specs.Written.{written};
ghost use Rattle.ox_desk.specs.Replies.{accepted_reply, newest_tree};

use crate::plain::hash_is_plain;
use itoa::Buffer;
use ox_bytes::{Bytes, Memory, Room};
use ox_http::{ReplyParts, put_reply};
use std::alloc::Global;

/// How many bytes the body of the reply has at most: 21 around its values, 64 digits of a hash, and
/// a height of at most ten digits.
const LONGEST_BODY: usize = 95;

/// How many the whole reply has at most: the body, the 16 of its kind, and 143 beside them.
const LONGEST_REPLY: usize = 254;

/// Memory for the reply to a command that is accepted.
#[derive(Drop)]
pub struct Rooms {
    body: Room<u8>,
    reply: Room<u8>,
    ghost empty: { (body.filled ≡ []) × (reply.filled ≡ []) },
    ghost enough: { (95 ≤ body.spare) × (254 ≤ reply.spare) },
}

impl Rooms {
    /// Takes it. `Memory` where there is none.
    pub fn new(alloc: Global) -> Result<Rooms, Memory> {
        let body = Room::new(alloc, LONGEST_BODY)?;
        let reply = Room::new(alloc, LONGEST_REPLY)?;
        Ok(Rooms { body, reply })
    }
}

/// Puts the body that tells a block. A hash is printed in reversed order.
#[tactic(auto, unfolding(ox_rules::specs::Text::hash_text))]
fn put_block(room: &mut Room<u8>, height: u32, hash: [u8; 32])
    requires { 95 ≤ room.old.spare }
    ensures filled { room.new.filled
        ≡ room.old.filled ++ compact_text (newest_tree (Some (height, hash))) }
    ensures short { length room.new.filled ≤ length room.old.filled + 95 }
{
    hash_is_plain(&hash);
    let mut reversed = hash;
    reversed.reverse();
    let mut digits = [0; 64];
    let _ = hex::encode_to_slice(&reversed[..], &mut digits);
    room.put(b"{\"hash\":\"");
    room.put(&digits);
    room.put(b"\",\"height\":");
    room.put(Buffer::new().format(height).as_bytes());
    room.put(b"}");
}

/// Puts the body that tells the newest block, or that there is none.
fn put_newest(room: &mut Room<u8>, tip: Option<(u32, [u8; 32])>)
    requires { 95 ≤ room.old.spare }
    ensures filled { room.new.filled ≡ room.old.filled ++ compact_text (newest_tree tip) }
    ensures short { length room.new.filled ≤ length room.old.filled + 95 }
{
    match tip {
        Some(newest) => put_block(room, newest.0, newest.1),
        None => room.put(b"{\"hash\":null,\"height\":null}"),
    }
}

/// The bytes of the reply to an accepted command, by the newest block after it. It takes no memory.
pub fn accepted_reply(rooms: Rooms, tip: Option<(u32, [u8; 32])>, close: bool) -> Bytes
    ensures { result ≡ written (accepted_reply tip close) }
{
    let Rooms {
        mut body,
        mut reply,
    } = rooms;
    put_newest(&mut body, tip);
    let parts = ReplyParts {
        status: 200,
        kind: b"application/json",
        encoding: None,
        body: body.as_slice(),
    };
    put_reply(&mut reply, parts, close);
    reply.into_bytes()
}
