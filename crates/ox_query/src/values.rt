//! Small values of replies.

ghost use Rattle.std.specs.Prelude.{◌≡◌, option_copied};
ghost use Rattle.std.specs.Str.{IsUtf8};
ghost use Rattle.serde_json.specs.Data.{string};
ghost use Rattle.ox_replies.specs.Values.{count, hash_or_null, hex, or_null};
ghost use Rattle.ox_query.specs.Written.{Adds, tokens_of};
ghost use Rattle.ox_rules.specs.Text.{hash_text};

use crate::bodies::Body;
use ox_rules::hash_digits;
use std::alloc::Global;

/// Bytes of at most so many are spelled on the stack.
const SHORT: usize = 36;

/// The text that some bytes are.
pub(crate) fn text_of(bytes: &[u8]) -> &str
    requires { IsUtf8 bytes.now }
    ensures { result.now ≡ bytes.now }
{
    match str::from_utf8(bytes) {
        Ok(text) => text,
        Err(_) => unreachable!(),
    }
}

/// Writes a hash as it is printed.
pub(crate) fn write_hash(out: &mut Body, hash: &[u8; 32])
    ensures { Adds out.old out.new (tokens_of (string (hash_text hash.now))) }
{
    out.string(text_of(&hash_digits(hash)));
}

/// Writes a hash as it is printed, or null without one.
pub(crate) fn write_hash_or_null(out: &mut Body, hash: Option<&[u8; 32]>)
    ensures { Adds out.old out.new
        (tokens_of (hash_or_null (option_copied hash.entry))) }
{
    match hash {
        Some(hash) => write_hash(out, hash),
        None => out.null(),
    }
}

/// Writes a number, or null without one.
pub(crate) fn write_count_or_null(out: &mut Body, number: Option<u64>)
    ensures { Adds out.old out.new (tokens_of (or_null count number)) }
{
    match number {
        Some(number) => out.u64(number),
        None => out.null(),
    }
}

/// Writes more bytes in hexadecimal digits than are spelled on the stack.
fn write_long_hex(alloc: Global, out: &mut Body, bytes: &[u8])
    ensures { Adds out.old out.new (tokens_of (hex bytes.now)) }
{
    match hex::encode(alloc, bytes) {
        Ok(digits) => out.string(&digits),
        Err(_) => out.fall_short(),
    }
}

/// Writes bytes in hexadecimal digits.
pub(crate) fn write_hex(alloc: Global, out: &mut Body, bytes: &[u8])
    ensures { Adds out.old out.new (tokens_of (hex bytes.now)) }
{
    if bytes.len() > SHORT {
        return write_long_hex(alloc, out, bytes);
    }
    let mut room = [0; 2 * SHORT];
    let digits = &mut room[..2 * bytes.len()];
    match hex::encode_to_slice(bytes, digits) {
        Ok(()) => out.string(text_of(digits)),
        Err(_) => unreachable!(),
    }
}
