//! What runs of the program, a store, a desk and single calls do over a site in memory, a row of
//! standard input each:
//!
//! - `fresh`: two empty files, no links, nothing to hear, and no call that is to fail;
//! - `link DOOR SAID..`: a link that waits at a door, `public` or `operator`, and says this: bytes
//!   as parts between `+`, heard at once; `,` and hex digits, bytes of which each is heard alone;
//!   `.`, nothing yet; or `$`, its end;
//! - `feed PART..`: bytes that channel 0 says next;
//! - `fail N`: the call of this number fails, counted from 0 since the files were `fresh`;
//! - `run WORD..`: runs the program; its status, and what was shown on channel 0 since the files
//!   were `fresh`;
//! - `short PORTION N WORD..`: the same over a site that takes one `byte` or `half` of what it may
//!   in a call, and of whose writes the first N are whole; and how many writes were cut short;
//! - `crash MOMENT FILL KEEP RUN..`: runs the program, once for each word, whose own words stand
//!   between commas, over what a crash would leave, where each byte that it may change is `FILL`
//!   and each file is cut to `KEEP` bytes as far as it may be, and channel 0 says the last feed
//!   again; the site itself stays;
//! - `restart MOMENT FILL KEEP`: puts what such a crash leaves in the place of the site;
//! - `shown LINK..`: what the links of these numbers were shown, counted from 1 as they come;
//! - `often N PATH..`: opens the store, and has one desk answer a GET of each path, N times over;
//!   how many requests and hits it counts, and how many bytes the replies have;
//! - `overwrite FILE AT HEX`: writes bytes into a file;
//! - `file FILE FROM`: a file's length, and its bytes from there on;
//! - `lines N`: the next N lines of channel 0, each with the command that it is;
//! - `hear ROOM..`: hears channel 0 with rooms of these sizes: each answer, and the room then;
//! - `visit DOOR ROOM..`: takes the link that waits at a door, hears it with rooms of these sizes,
//!   gives it up and shuts it;
//! - `show PART..`: shows bytes on channel 0; the answer, and what was shown there so far;
//! - `frame PART..`: the record of this payload;
//! - `make ..`, `open ..`, `reopen ..`, `migrate` and `locate ..`: what a store does over the two
//!   files, as stores.rt has it;
//! - `now`: the moment;
//! - `# ..`: a heading, which is printed.
//!
//! A part is hex digits, or `N*` and digits, which stand for N times what they spell. A word of a
//! run may be `=` and hex digits.
//!
//! Of what was shown, and of lines, printable bytes are printed as they are, others and `\` as `\`
//! and two hex digits; of more than 1,024 bytes the first 200, how many there are, and the number
//! that all of them come to.
//!
//! Of a store its counts are printed, the number that the body of a file comes to that has its
//! index and its kept changes, and its newest block.
//!
//! The rows and what has to be printed are made by checks/make_rows.py, which has its own lines,
//! rotation, store and disk, and shares nothing with the library.
#![tactic(auto)]

mod calls;
mod carry;
mod often;
mod runs;
mod say;
mod say_store;
mod stores;
mod words;

use crate::calls::{hear, overwrite, read_lines, show, visit};
use crate::often::often;
use crate::runs::{crash, run_aloud, run_short, site_after_crash};
use crate::say::{print_file, print_frame, print_links, say};
use crate::stores::tell_store;
use crate::words::{NO_ROW, door_of, number_of, parts_of, script_of};
use ox_memsite::MemSite;
use ox_outside::Site;
use std::alloc::Global;
use std::io;

/// A site, and what channel 0 said last.
#[derive(Drop)]
struct Desktop {
    site: MemSite,
    feed: Vec<u8>,
}

/// With this site, and nothing that was said.
fn desktop_of(alloc: Global, site: MemSite) -> Desktop {
    Desktop {
        site,
        feed: Vec::new(alloc),
    }
}

/// Two empty files, no links, and nothing to hear.
fn fresh(alloc: Global) -> Option<Desktop> {
    Some(desktop_of(alloc, MemSite::new(alloc).ok()?))
}

/// Lets links wait at a door.
fn link(alloc: Global, site: &mut MemSite, door: &str, said: &[&str]) -> Option<()> {
    let door = door_of(door)?;
    site.link(door, &script_of(alloc, said)?).ok()
}

/// Lets channel 0 say bytes.
fn feed(alloc: Global, on: &mut Desktop, words: &[&str]) -> Option<()> {
    on.feed = parts_of(alloc, words)?;
    on.site.input(&on.feed).ok()
}

/// Begins with two empty files.
fn begin(alloc: Global, on: &mut Desktop) -> Option<()> {
    *on = fresh(alloc)?;
    Some(())
}

/// Goes on with what a crash leaves.
fn restart(alloc: Global, on: &mut Desktop, choice: [&str; 3]) -> Option<()> {
    *on = desktop_of(alloc, site_after_crash(&on.site, choice)?);
    Some(())
}

/// Lets a call fail.
fn fail(site: &mut MemSite, call: &str) -> Option<()> {
    site.fail(number_of(call)?).ok()
}

/// Says if a row wasn't carried out.
fn carried(rt: &impl Print, done: Option<()>) -> io::Result<()> {
    match done {
        Some(()) => Ok(()),
        None => say(rt, NO_ROW),
    }
}

/// Carries out a row that changes the site alone, or another one.
fn set(rt: &impl Print, alloc: Global, on: &mut Desktop, row: &[&str]) -> io::Result<()> {
    match row {
        ["fresh"] => carried(rt, begin(alloc, on)),
        ["link", door, said @ ..] => carried(rt, link(alloc, &mut on.site, door, said)),
        ["feed", words @ ..] => carried(rt, feed(alloc, on, words)),
        ["fail", call] => carried(rt, fail(&mut on.site, call)),
        ["restart", moment, fill, keep] => carried(rt, restart(alloc, on, [moment, fill, keep])),
        ["overwrite", file, at, hex] => {
            carried(rt, overwrite(alloc, &mut on.site, file, at, hex))
        }
        _ => run_by(rt, alloc, on, row),
    }
}

/// Carries out a row that runs the program or a desk or prints what links were shown, or another
/// one.
fn run_by(rt: &impl Print, alloc: Global, on: &mut Desktop, row: &[&str]) -> io::Result<()> {
    match row {
        ["run", words @ ..] => run_aloud(rt, alloc, &mut on.site, words),
        ["short", portion, writes, words @ ..] => {
            run_short(rt, alloc, &mut on.site, portion, writes, words)
        }
        ["crash", moment, fill, keep, runs @ ..] => {
            crash(rt, alloc, &on.site, &on.feed, [moment, fill, keep], runs)
        }
        ["often", times, paths @ ..] => often(rt, alloc, &mut on.site, times, paths),
        ["shown", links @ ..] => print_links(rt, &on.site, links),
        _ => tell(rt, alloc, &mut on.site, row),
    }
}

/// Takes the link that waits at the door that a word names.
fn visit_by(
    rt: &impl Print,
    alloc: Global,
    site: &mut MemSite,
    door: &str,
    rooms: &[&str],
) -> io::Result<()> {
    match door_of(door) {
        Some(door) => visit(rt, alloc, site, door, rooms),
        None => say(rt, NO_ROW),
    }
}

/// Shows the bytes of parts on channel 0, or prints the record of this payload.
fn tell_parts(
    rt: &impl Print,
    alloc: Global,
    site: &mut MemSite,
    shows: bool,
    words: &[&str],
) -> io::Result<()> {
    match parts_of(alloc, words) {
        Some(bytes) if shows => show(rt, site, &bytes),
        Some(bytes) => print_frame(rt, alloc, &bytes),
        None => say(rt, NO_ROW),
    }
}

/// Carries out a row that prints what calls on a site answer, or another one.
fn tell(rt: &impl Print, alloc: Global, site: &mut MemSite, row: &[&str]) -> io::Result<()> {
    match row {
        ["lines", count] => read_lines(rt, alloc, site, count),
        ["hear", rooms @ ..] => hear(rt, alloc, site, rooms),
        ["visit", door, rooms @ ..] => visit_by(rt, alloc, site, door, rooms),
        ["show", words @ ..] => tell_parts(rt, alloc, site, true, words),
        ["frame", words @ ..] => tell_parts(rt, alloc, site, false, words),
        ["file", file, from] => print_file(rt, site, file, from),
        ["now"] => println!(rt; "moment {}", site.now()),
        _ => tell_store(rt, alloc, site, row),
    }
}

/// The words of a row.
fn words_in(alloc: Global, row: &str) -> Option<Vec<&str>> {
    row.split(' ').collect(alloc).ok()
}

/// Carries out a row.
fn carry_out(rt: &impl Print, alloc: Global, on: &mut Desktop, row: &str) -> io::Result<()> {
    if row.starts_with('#') {
        return say(rt, row);
    }
    match words_in(alloc, row) {
        Some(words) => set(rt, alloc, on, words.as_slice()),
        None => say(rt, NO_ROW),
    }
}

/// Carries the rows of a text out, from two empty files on.
fn carry_out_all(rt: &impl Print, alloc: Global, text: &str) -> io::Result<()> {
    let Some(mut on) = fresh(alloc) else {
        return say(rt, NO_ROW);
    };
    for row in text.split('\n') {
        if !row.is_empty() {
            carry_out(rt, alloc, &mut on, row)?;
        }
    }
    Ok(())
}

fn main(rt: HostRuntime) -> io::Result<()> {
    let text = io::read_to_string(rt.alloc(), rt.stdin())?;
    carry_out_all(&rt, rt.alloc(), text.as_str())
}
