//! What is printed.

use crate::words::{NO_ROW, file_of, number_of};
use ox_feed::{Command, FeedFault, Line, SyntaxFault, command_of};
use ox_gated::frame;
use ox_memsite::MemSite;
use ox_outside::{Failed, Heard, Shown};
use std::alloc::Global;
use std::io;

/// The most bytes that are printed whole as text.
const WHOLE: usize = 1024;

/// How many are printed of more than these.
const FRONT: usize = 200;

/// A text, in a line.
pub fn say(rt: &impl Print, text: &str) -> io::Result<()> {
    println!(rt; "{text}")
}

/// Bytes in hex digits.
pub fn print_hex(rt: &impl Print, bytes: &[u8]) -> io::Result<()> {
    for byte in bytes {
        print!(rt; "{byte:02x}")?;
    }
    Ok(())
}

/// Bytes in hex digits, in a line.
pub fn print_hex_line(rt: &impl Print, bytes: &[u8]) -> io::Result<()> {
    print_hex(rt, bytes)?;
    say(rt, "")
}

/// Bytes as text.
fn print_text(rt: &impl Print, bytes: &[u8]) -> io::Result<()> {
    for &byte in bytes {
        if (32..127).contains(&byte) && byte != b'\\' {
            print!(rt; "{}", byte as char)?;
        } else {
            print!(rt; "\\{byte:02x}")?;
        }
    }
    Ok(())
}

/// The number that bytes come to.
pub fn sum_of(bytes: &[u8]) -> u64 {
    let mut sum = 0u64;
    for &byte in bytes {
        sum = sum.wrapping_mul(1_000_003).wrapping_add(u64::from(byte));
    }
    sum
}

/// Bytes, or the first of them, how many there are and what all come to.
fn print_bytes(rt: &impl Print, bytes: &[u8]) -> io::Result<()> {
    if bytes.len() <= WHOLE {
        return print_text(rt, bytes);
    }
    let (front, _) = bytes.split_at(FRONT);
    print_text(rt, front)?;
    print!(rt; ".. {} bytes, checksum {}", bytes.len(), sum_of(bytes))
}

/// What was shown on a channel.
pub fn print_shown(rt: &impl Print, site: &MemSite, channel: u32) -> io::Result<()> {
    match site.shown(channel) {
        Ok(shown) => print_bytes(rt, shown.as_slice())?,
        Err(_) => return say(rt, NO_ROW),
    }
    say(rt, "")
}

/// What the links of these numbers were shown.
pub fn print_links(rt: &impl Print, site: &MemSite, links: &[&str]) -> io::Result<()> {
    for link in links {
        let Ok(link) = link.parse() else {
            return say(rt, NO_ROW);
        };
        print_shown(rt, site, link)?;
    }
    Ok(())
}

/// A file's length, and its bytes from a place on.
fn file_from<'a>(site: &'a MemSite, file: &str, from: &str) -> Option<(usize, &'a [u8])> {
    let bytes = site.file(file_of(file)?);
    Some((bytes.len(), bytes.get(number_of(from)? as usize..)?))
}

/// Prints a file's length, and its bytes from a place on.
pub fn print_file(rt: &impl Print, site: &MemSite, file: &str, from: &str) -> io::Result<()> {
    let Some((len, rest)) = file_from(site, file, from) else {
        return say(rt, NO_ROW);
    };
    print!(rt; "{len} bytes: ")?;
    print_hex_line(rt, rest)
}

/// How many bytes were heard, and the room as it is then.
fn print_count(rt: &impl Print, count: usize, room: &[u8]) -> io::Result<()> {
    print!(rt; "{count}: ")?;
    print_hex_line(rt, room)
}

/// The answer of a hearing, and the room as it is then.
pub fn print_heard(rt: &impl Print, heard: Result<Heard, Failed>, room: &[u8]) -> io::Result<()> {
    let told = match heard {
        Ok(Heard::Bytes(count)) => return print_count(rt, count, room),
        Ok(Heard::NotYet) => "nothing yet",
        Ok(Heard::End) => "end",
        Err(Failed) => "failed",
    };
    print!(rt; "{told}: ")?;
    print_hex_line(rt, room)
}

/// The answer of a showing.
pub fn print_took(rt: &impl Print, took: Result<Shown, Failed>) -> io::Result<()> {
    match took {
        Ok(Shown::Took(count)) => println!(rt; "took {count}"),
        Ok(Shown::NotYet) => say(rt, "nothing yet"),
        Err(Failed) => say(rt, "failed"),
    }
}

/// A block that is connected, behind its line.
fn print_connect(rt: &impl Print, block: &[u8]) -> io::Result<()> {
    print!(rt; ": connect ")?;
    print_hex_line(rt, block)
}

/// A line's bytes, and the command that they are.
fn print_command(rt: &impl Print, alloc: Global, text: &[u8]) -> io::Result<()> {
    print_bytes(rt, text)?;
    match command_of(alloc, text) {
        Ok(Command::Connect(block)) => print_connect(rt, block.as_slice()),
        Ok(Command::Disconnect) => say(rt, ": disconnect"),
        Err(SyntaxFault::Syntax) => say(rt, ": no command"),
        Err(SyntaxFault::Memory) => say(rt, ": no memory"),
    }
}

/// A line, and the command that it is.
pub fn print_line(rt: &impl Print, alloc: Global, line: Result<Line, FeedFault>) -> io::Result<()> {
    match line {
        Ok(Line::Text(text)) => print_command(rt, alloc, text.as_slice()),
        Ok(Line::Long) => say(rt, "too long"),
        Ok(Line::End) => say(rt, "end"),
        Err(_) => say(rt, "a fault"),
    }
}

/// The record of a payload, but for its first gate.
pub fn print_frame(rt: &impl Print, alloc: Global, payload: &[u8]) -> io::Result<()> {
    if payload.len() > 0xffff_ffff {
        return say(rt, "too long");
    }
    match frame(alloc, payload) {
        Ok(framed) => print_hex_line(rt, framed.as_slice()),
        Err(_) => say(rt, NO_ROW),
    }
}
