//! The line that answers an accepted command. A refusal writes its own.

ghost use Rattle.std.specs.Prelude.{◌≡◌, ◌≤◌, [], ◌++◌, length};
ghost use Rattle.ox_rules.specs.Text.{block_line, ok_text, tip_line};

use crate::refusal::hash_digits;
use itoa::Buffer;
use ox_bytes::{Bytes, Room};

/// How many bytes the line of an accepted command has at most: `ok`, a height of at most ten
/// digits, 64 digits of a hash, two spaces and a line feed.
pub const LONGEST_OK: usize = 79;

/// The line of an accepted command that leaves no block: `ok empty` and a line feed.
#[tactic(auto, unfolding(crate::specs::Text::ok_text))]
pub fn empty_line() -> &'static [u8]
    ensures text { result.now ≡ ok_text [] }
    ensures short { length result.now ≤ 79 }
{
    b"ok empty\n"
}

/// Puts the line of a newest block.
#[tactic(auto, unfolding(crate::specs::Text::block_line))]
fn put_block_line(room: &mut Room<u8>, height: u32, hash: &[u8; 32])
    requires { 79 ≤ room.old.spare }
    ensures { room.new.filled ≡ room.old.filled ++ block_line height hash.now }
{
    room.put(b"ok ");
    room.put(Buffer::new().format(height).as_bytes());
    room.put(b" ");
    room.put(&hash_digits(hash));
    room.put(b"\n");
}

/// The line of an accepted command, in memory that was taken before: `ok`, the height and the hash
/// of the newest block, or `ok empty`, and a line feed. The hash is printed in reversed order. The
/// room is empty and has `LONGEST_OK` bytes to spare, so nothing can fail.
pub fn ok_line_in(room: Room<u8>, tip: Option<(u32, [u8; 32])>) -> Bytes
    requires empty { room.filled ≡ [] }
    requires spare { 79 ≤ room.spare }
    ensures { result ≡ tip_line tip }
{
    let mut room = room;
    match tip {
        Some(newest) => put_block_line(&mut room, newest.0, &newest.1),
        None => room.put(empty_line()),
    }
    room.into_bytes()
}
