//! Replies, in lines.

use crate::print::{print_hex, say};
use ox_http::Reply;
use std::io;

/// A body of more bytes is shown by its length and a checksum.
const MOST_SHOWN: usize = 20_000;

/// A sum in which each byte's place counts.
fn checksum_of(bytes: &[u8]) -> u64 {
    let mut sum: u64 = 0;
    for byte in bytes {
        sum = sum.wrapping_mul(1_000_003).wrapping_add(*byte as u64);
    }
    sum
}

/// A body as it stands where it is text in one line, else in hex digits, and by its checksum where
/// it is long.
fn print_body(rt: &impl Print, body: &[u8]) -> io::Result<()> {
    if body.len() > MOST_SHOWN {
        return print!(rt; " ({} bytes, checksum {})", body.len(), checksum_of(body));
    }
    match str::from_utf8(body) {
        Ok(text) if !body.contains(&b'\n') => print!(rt; " {text}"),
        _ => print_digits(rt, body),
    }
}

/// A body in hex digits.
fn print_digits(rt: &impl Print, body: &[u8]) -> io::Result<()> {
    print!(rt; " (hex) ")?;
    print_hex(rt, body)
}

/// A part of a reply's head.
fn print_part(rt: &impl Print, bytes: &[u8]) -> io::Result<()> {
    print!(rt; " <{}>", str::from_utf8(bytes).unwrap_or("no text"))
}

/// A reply's head.
fn print_head(rt: &impl Print, reply: &Reply) -> io::Result<()> {
    print!(rt;
        "{}{}",
        reply.status,
        if reply.close { " close" } else { "" }
    )?;
    print_part(rt, reply.kind.as_slice())?;
    match &reply.encoding {
        Some(encoding) => print_part(rt, encoding.as_slice()),
        None => Ok(()),
    }
}

/// A reply in a line.
pub fn print_reply(rt: &impl Print, reply: &Reply) -> io::Result<()> {
    print_head(rt, reply)?;
    print_body(rt, reply.body.as_slice())?;
    say(rt, "")
}
