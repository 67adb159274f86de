//! What blocks, scripts, texts, numbers, addresses and streams read as, a row of standard input
//! each.
//!
//! Of blocks:
//!
//! - `block BYTES`: a block's hashes and roots, or the place of the fault;
//! - `committed BYTES`: whether a block commits to its witnesses;
//! - `order HEX HEX`: which of two transactions' ids comes first;
//! - `fronts HEX`: the place of the fault of each front of these bytes, from none of them to all
//!   but one;
//! - `made HEIGHT HEX HEX`: the bytes of the block that is made of this height behind the block of
//!   that hash, whose coinbase has that id.
//!
//! Of scripts:
//!
//! - `script BYTES`: the envelopes of a script, and what each says;
//! - `items BYTES`: how many items a script has; `listing BYTES`: each of them;
//! - `envelopes BYTES`: how many envelopes a script has, and how many of them have a body;
//! - `kinds HEX`: which kinds of output a script is;
//! - `tapscript ITEMS HEX`: where the tapscript of a witness is, by its number of items and the
//!   last of them;
//! - `stone OUTPUTS HEX`: a script's runestone, and how it is written again (src/stones.rt);
//! - `value HEX`: a field's value as an id; `text TEXT`: a text as an id.
//!
//! Of satoshis, of `PROFILE`, which is a profile's word:
//!
//! - `profile PROFILE`: the profile's numbers;
//! - `height PROFILE HEIGHT`: how many satoshis a height mints, and the first of them;
//! - `sat PROFILE TEXT`: the satoshi that a text spells;
//! - `ranges STEP..`: what becomes of a list of satoshis. `FIRST:COUNT` puts numbers behind it,
//!   `cut:PLACE` cuts it and keeps the end beside it, `keep:PLACE` cuts it and drops the end,
//!   `copy` keeps a copy beside it, `join` puts behind it what is beside it, `swap` exchanges the
//!   two, `new` begins anew, and `show`, `at:PLACE` and `of:NUMBER` print the list, the number at a
//!   place and the place of a number.
//!
//! Of names, numbers and bytes, in decimals where they aren't HEX:
//!
//! - `name NUMBER`, `spaced NUMBER SPACERS`, `named HEX`: a rune's name, and what it is read as;
//! - `least START INTERVAL HEIGHT`: the least name; `kept HEIGHT TX`: the name that is kept for a
//!   rune without one;
//! - `amount AMOUNT DECIMALS`: an amount;
//! - `varint NUMBER`, `number HEX`: a number as LEB128, and what it is read as;
//! - `put HEX FOUR EIGHT SIZE`, `fields HEX`: a number of four bytes, one of eight and a compact
//!   size, behind these bytes, and what they are read as;
//! - `room PLACE HEX`: bytes that are put into room by two parts.
//!
//! Of paths `route BYTES`: the route that a path takes.
//!
//! Of addresses, behind a human-readable part:
//!
//! - `write HRP HEX`: the address of a script; `read HRP HEX`: the script of a text;
//! - `changes HRP HEX`: how many texts with one byte changed are no address, and each other one;
//! - `swaps HRP HEX`: the same of two neighbours exchanged;
//! - `repeat WORK HRP HEX TIMES`: a script is written so many times, each time with another last
//!   byte, and where the work is `both` its address is read again: a sum of what came out, to be
//!   timed (bench/address.py).
//!
//! Of links:
//!
//! - `talk PART..`: the messages of a stream, one after another, and how many bytes are left;
//! - `grow PART..`: the same stream, byte by byte more of it: at which length something is said for
//!   the first time, and what; whether this stays so to the stream's end;
//! - `reply STATUS HEX ENCODING CLOSE HEX`: a written reply, its kind and its body; each writer has
//!   to write the same;
//! - `fault STATUS`: the written reply to a fault; `unavailable`: the reply 503;
//! - `link STEP..`: what a session of one link does, step by step. Behind each it is polled until
//!   it waits or is over, each request is replied with its path as the body, and what is due is
//!   printed, and taken in two halves. Steps: `say:N:PART,PART..` (the link says these parts, N
//!   bytes at a time, or all at once for 0), `end` (it says nothing more), `close` (from here on
//!   replies say close), `busy` (requests are answered 503), `none` (503 is due, whatever is
//!   asked);
//! - `frames PART..`: the frames that stand one after another, what each takes, its front written
//!   anew, and what stands behind them; `pieces N PART..`: the same bytes, N more at a time: at
//!   which length something stands at the front for the first time, and what; whether this stays
//!   so;
//! - `often TIMES PART..`: what a stream begins with, read so often; `hold LINKS N PART..`: so many
//!   sessions that hear a stream, N bytes at a time, and are kept (both are timed by
//!   bench/streams.py).
//!
//! BYTES are four words, `N HEAD PART TAIL`: a head, N times a part, and a tail. Bytes are hex
//! digits, or `-` for none. A PART is hex digits, or `N*` and hex digits for so many times the
//! same; `-` is none. What is written into room is printed with whether the bytes behind it stayed.
//! A row that begins with `#` is printed as it stands.
//!
//! The rows and what has to be printed are made by checks/make_rows.py, which goes by the public
//! rules and shares nothing with the libraries.
//!
//! With an argument the work of the rows `block`, `items` and `envelopes` is done so many times
//! before it is printed, to be timed: see bench/read_block.py and bench/find_envelopes.py.
#![tactic(auto)]

mod addresses;
mod blocks;
mod fields;
mod frames;
mod links;
mod made;
mod names;
mod often;
mod print;
mod ranges;
mod replies;
mod routes;
mod sats;
mod scripts;
mod spell;
mod stones;
mod streams;

use crate::addresses::{print_address, print_repeated};
use crate::blocks::{print_committed, print_fronts, print_order, print_read};
use crate::fields::{numbers_of, print_fields, print_number, print_put, print_room, short};
use crate::frames::{print_frames, print_pieces};
use crate::links::drive;
use crate::made::print_made;
use crate::names::{print_named, print_numbers};
use crate::often::{print_held, read_often};
use crate::print::{NO_ROW, Page};
use crate::ranges::print_steps;
use crate::replies::{print_fault, print_row, print_unavailable};
use crate::routes::print_route;
use crate::sats::{print_minted, print_profile};
use crate::scripts::{
    print_id, print_items, print_kinds, print_listing, print_script, print_tally, print_tapscript,
};
use crate::spell::{bytes_from, bytes_of};
use crate::stones::print_stone;
use crate::streams::{print_growth, print_talk, stream_of};
use ox_envelope::{read_id, read_id_text};
use std::alloc::Global;
use std::{env, io};

/// Prints what bytes read as.
fn run_bytes(page: &mut Page, alloc: Global, word: &str, bytes: &[u8]) {
    match word {
        "fronts" => print_fronts(page, alloc, bytes),
        "value" => print_id(page, read_id(bytes)),
        "named" => print_named(page, bytes),
        "number" => print_number(page, bytes),
        "fields" => print_fields(page, bytes),
        _ => print_kinds(page, bytes),
    }
}

/// The same of the bytes that hex digits spell.
fn run_digits(page: &mut Page, alloc: Global, word: &str, digits: &str) {
    match bytes_of(alloc, digits) {
        Some(bytes) => run_bytes(page, alloc, word, &bytes),
        None => page.say(NO_ROW),
    }
}

/// Prints what bytes read as that may be long. What is timed is done so many times.
fn run_long(page: &mut Page, alloc: Global, word: &str, bytes: &[u8], times: u32) {
    match word {
        "block" => print_read(page, alloc, bytes, times),
        "committed" => print_committed(page, alloc, bytes),
        "items" => print_items(page, bytes, times),
        "envelopes" => print_tally(page, alloc, bytes, times),
        "script" => print_script(page, alloc, bytes),
        "route" => print_route(page, alloc, bytes),
        _ => print_listing(page, bytes),
    }
}

/// The same of the bytes that four words spell.
fn run_parts(page: &mut Page, alloc: Global, word: &str, parts: &str, times: u32) {
    match bytes_from(alloc, parts) {
        Some(bytes) => run_long(page, alloc, word, &bytes, times),
        None => page.say(NO_ROW),
    }
}

/// Prints what a number and bytes say: the outputs of a transaction and a script, the items of a
/// witness and the last of them, or a place in bytes that are put into room.
fn run_counted(page: &mut Page, alloc: Global, word: &str, count: usize, bytes: &[u8]) {
    match word {
        "stone" => print_stone(page, alloc, short(count as u128), bytes),
        "tapscript" => print_tapscript(page, count, bytes),
        _ => print_room(page, alloc, bytes, count),
    }
}

/// The same of a number and of the bytes that hex digits spell.
fn run_count(page: &mut Page, alloc: Global, word: &str, rest: &str) {
    let (count, digits) = rest.split_once(' ').unwrap_or((rest, ""));
    match bytes_of(alloc, digits) {
        Some(bytes) => run_counted(page, alloc, word, count.parse().unwrap_or(0), &bytes),
        None => page.say(NO_ROW),
    }
}

/// Prints numbers behind the bytes that hex digits spell.
fn run_put(page: &mut Page, alloc: Global, rest: &str) {
    let (digits, numbers) = rest.split_once(' ').unwrap_or((rest, ""));
    match bytes_of(alloc, digits) {
        Some(front) => print_put(page, alloc, &front, numbers),
        None => page.say(NO_ROW),
    }
}

/// Prints what a stream says. A number says how often it is read, or how much of it comes at a
/// time.
fn run_stream(page: &mut Page, alloc: Global, word: &str, stream: &[u8], count: usize) {
    match word {
        "talk" => print_talk(page, alloc, stream),
        "grow" => print_growth(page, alloc, stream),
        "frames" => print_frames(page, stream),
        "pieces" => print_pieces(page, stream, count),
        _ => read_often(page, alloc, stream, count),
    }
}

/// The same of the stream that parts spell.
fn run_parts_of(page: &mut Page, alloc: Global, word: &str, parts: &str, count: usize) {
    match stream_of(alloc, parts, ' ') {
        Some(stream) => run_stream(page, alloc, word, &stream, count),
        None => page.say(NO_ROW),
    }
}

/// Prints what texts and numbers say.
fn run_text(page: &mut Page, alloc: Global, word: &str, rest: &str) {
    match word {
        "text" => print_id(page, read_id_text(rest.as_bytes())),
        "profile" => print_profile(page, rest),
        "height" | "sat" => print_minted(page, word, rest),
        "ranges" => print_steps(page, alloc, rest),
        "order" => print_order(page, rest),
        "made" => print_made(page, alloc, rest),
        _ => print_numbers(page, word, numbers_of(rest)),
    }
}

/// The same of a stream behind a number.
fn run_counted_parts(page: &mut Page, alloc: Global, word: &str, rest: &str) {
    let (count, parts) = rest.split_once(' ').unwrap_or((rest, "-"));
    run_parts_of(page, alloc, word, parts, count.parse().unwrap_or(0))
}

/// Prints what a link and its streams say, and replies; or what texts and numbers say.
fn run_link(page: &mut Page, alloc: Global, word: &str, rest: &str) {
    match word {
        "talk" | "grow" | "frames" => run_parts_of(page, alloc, word, rest, 0),
        "pieces" | "often" => run_counted_parts(page, alloc, word, rest),
        "link" => drive(page, alloc, rest),
        "hold" => print_held(page, alloc, rest),
        "reply" => print_row(page, alloc, rest),
        "fault" => print_fault(page, alloc, rest),
        "unavailable" => print_unavailable(page),
        _ => run_text(page, alloc, word, rest),
    }
}

/// Prints what addresses say, or what another row does.
fn run_address(page: &mut Page, alloc: Global, word: &str, rest: &str) {
    match word {
        "write" | "read" | "changes" | "swaps" => print_address(page, alloc, word, rest),
        "repeat" => print_repeated(page, alloc, rest),
        _ => run_link(page, alloc, word, rest),
    }
}

/// Prints what the bytes of hex digits say, or what another row does.
fn run_short(page: &mut Page, alloc: Global, word: &str, rest: &str) {
    match word {
        "fronts" | "value" | "named" | "number" | "fields" | "kinds" => {
            run_digits(page, alloc, word, rest)
        }
        "stone" | "tapscript" | "room" => run_count(page, alloc, word, rest),
        "put" => run_put(page, alloc, rest),
        _ => run_address(page, alloc, word, rest),
    }
}

/// Prints what a row says. What is timed is done so many times.
fn run(page: &mut Page, alloc: Global, row: &str, times: u32) {
    let (word, rest) = row.split_once(' ').unwrap_or((row, ""));
    match word {
        "block" | "committed" | "items" | "envelopes" | "script" | "route" | "listing" => {
            run_parts(page, alloc, word, rest, times)
        }
        _ => run_short(page, alloc, word, rest),
    }
}

/// Prints what a row says; one that begins with `#` as it stands, and nothing of an empty one.
fn run_row(page: &mut Page, alloc: Global, row: &str, times: u32) {
    if row.starts_with('#') {
        page.say(row);
    } else if !row.is_empty() {
        run(page, alloc, row, times);
    }
}

/// Prints what each row of a text says. What is timed is done so many times.
fn run_all(rt: &impl Print, alloc: Global, text: &str, times: u32) -> io::Result<()> {
    let mut page = Page::new(alloc);
    for row in text.split('\n') {
        page.clear();
        run_row(&mut page, alloc, row, times);
        print!(rt; "{}", page.as_str())?;
    }
    Ok(())
}

/// How often work is done: as the argument says, or once.
fn times_of(rt: &HostRuntime) -> io::Result<u32> {
    match env::args(rt)?.nth(1) {
        Some(word) => Ok(word.as_str().parse().unwrap_or(1)),
        None => Ok(1),
    }
}

fn main(rt: HostRuntime) -> io::Result<()> {
    let times = times_of(&rt)?;
    let text = io::read_to_string(rt.alloc(), rt.stdin())?;
    run_all(&rt, rt.alloc(), text.as_str(), times)
}
