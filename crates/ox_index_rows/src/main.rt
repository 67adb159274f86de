//! What indexes of chains hold, what requests they are asked get, and what the rows of an index and
//! of a change read as, a row of standard input each.
//!
//! Of a chain:
//!
//! - `live NAME`: from here on an index of no block of this profile;
//! - `chain NAME DEPTH`: from here on a chain of no block, of whose blocks at most so many are
//!   kept;
//! - `block WORD..`: connects the block that has these bytes, one word's behind the other's, and
//!   says how that ended;
//! - `disconnect`: takes a chain's newest block back, and says how that ended;
//! - `cancel block WORD..`, `cancel disconnect`: does the same in a chain and cancels it, and says
//!   how each ended;
//! - `both HEX WORD..`: connects a block to a live index, goes back by its change and on again, and
//!   cancels that. It dumps the index after each step;
//! - `dump WORD..`: prints the whole index, and looks each word up;
//! - `plain WORD..`: takes the index as plain data, writes its rows, reads them, makes an index in
//!   memory from what was read, and dumps that one;
//! - `look WORD..`: looks each word up (src/look.rt);
//! - `GET PATH`, `POST PATH`, `PUT PATH`: prints a chain's reply to this request. With `close` and
//!   a space in front the link ends with it, with `hex` the path is written in hex digits;
//! - a row that begins with `#` is printed as it stands.
//!
//! The reply of `answer` is printed, that of `answer_by` has to be the same: its status, `close`
//! where the link ends, its kind, its encoding if there is one, and its body. A body that isn't
//! text in one line is shown in hex digits, and a long one by its length and a checksum.
//!
//! Of rows, whatever the chain:
//!
//! - `index HEX`: how many of these bytes the rows of an index take that they begin with, and the
//!   rows of the index that was read; or the place of the first field that doesn't fit. More than a
//!   million bytes are told by their number alone, and by whether they are those that were read;
//! - `spell HEX`: the same, where spelling is timed and not reading;
//! - `change HEX`: the same of a change;
//! - `fronts index HEX`, `fronts change HEX`: the place of that field in each front of these bytes,
//!   from none of them to all but one;
//! - `sound NAME HEX`: whether the index that these bytes spell is sound by this profile;
//! - `load NAME HEX`: how much the index in memory has that is made from the index that these bytes
//!   spell; or that it isn't sound;
//! - `keeps NAME HEX HEX`: whether a change keeps the rules that leave a sound index, and whether
//!   the index after it is sound; or `no end` where the change begins in no sound index here. The
//!   index is spelled first, and then the change;
//! - `on HEX HEX`, `back HEX HEX`: the rows of the index to which a change leads from this one, or
//!   from which it led to it; or `no end` where it has none here. These are spelled in the same
//!   order.
//!
//! Bytes are hex digits, or how often they stand, a `*` and hex digits, or `-` for none. Want of
//! memory is said, and the next row is done: `no memory`, and the index is as before.
//!
//! The rows and what has to be printed are made by checks/make_rows.py, which makes blocks and
//! spells rows by the public formats and shares nothing with the libraries.
//!
//! An argument says how often work is done, to be timed: `index` reads so many times, `spell`
//! spells, `sound` tests and `load` reads, tests and makes (see bench/rows.py). Each GET is replied
//! once as its row comes, and the other times behind the last row, without being printed; then it
//! is told how many replies these were, and how many bytes their bodies had (see bench/query.py).
#![tactic(auto)]

mod again;
mod both;
mod cancel;
mod end;
mod lead;
mod load;
mod look;
mod plain;
mod print;
mod read;
mod replies;
mod requests;
mod show;
mod sound;
mod whole;
mod words;

use crate::again::Times;
use crate::both::lead_both_ways;
use crate::cancel::carry_out_and_cancel;
use crate::end::print_end;
use crate::lead::print_lead;
use crate::load::print_load;
use crate::look::{dump, print_looks};
use crate::plain::dump_plain;
use crate::print::say;
use crate::read::{print_change_again, print_fronts, print_index_again};
use crate::requests::{print_answer, reply_often};
use crate::sound::{print_keeps, print_sound};
use crate::words::{bytes_of, profile_in};
use ox_index::{Chain, Live, Why};
use ox_routes::Routes;
use std::alloc::Global;
use std::io::ErrorKind;
use std::{env, io};

/// An index by itself, or one whose newest blocks can be taken back.
#[derive(Drop)]
enum Index {
    Live(Live),
    Chain(Chain),
}

/// The index in memory.
fn live_in(index: &Index) -> &Live {
    match index {
        Index::Live(live) => live,
        Index::Chain(chain) => chain.live(),
    }
}

/// An index of no block.
fn new_live(alloc: Global, name: &str) -> Option<Index> {
    let p = profile_in(name)?;
    Some(Index::Live(Live::new(alloc, &p).ok()?))
}

/// A chain of no block: a profile's word, and how many blocks are kept.
fn new_chain(alloc: Global, words: &str) -> Option<Index> {
    let (name, depth) = words.split_once(' ')?;
    let p = profile_in(name)?;
    let depth: u16 = depth.parse().ok()?;
    if depth == 0 || depth > 1000 {
        return None;
    }
    Some(Index::Chain(Chain::new(alloc, &p, depth).ok()?))
}

/// Begins anew with an index of no block.
fn begin(rt: &impl Print, index: &mut Index, new: Option<Index>) -> io::Result<()> {
    match new {
        Some(new) => {
            *index = new;
            Ok(())
        }
        None => say(rt, "no memory"),
    }
}

/// Connects a block.
fn connect(index: &mut Index, block: &[u8]) -> Option<Why> {
    match index {
        Index::Live(live) => live.connect(block).err(),
        Index::Chain(chain) => chain.connect(block).err(),
    }
}

/// Connects the block that is spelled so, and says how that ended.
fn connect_row(rt: &impl Print, alloc: Global, index: &mut Index, words: &str) -> io::Result<()> {
    let Some(block) = bytes_of(alloc, words) else {
        return say(rt, "no memory");
    };
    let fault = connect(index, &block);
    print_end(rt, alloc, live_in(index), fault)
}

/// Takes a chain's newest block back, and says how that ended.
fn disconnect_row(rt: &impl Print, alloc: Global, index: &mut Index) -> io::Result<()> {
    let Index::Chain(chain) = index else {
        return say(rt, "no chain");
    };
    let fault = chain.disconnect().err();
    print_end(rt, alloc, chain.live(), fault)
}

/// Carries out a chain's command that is spelled so, and cancels it.
fn cancel_row(rt: &impl Print, alloc: Global, index: &mut Index, words: &str) -> io::Result<()> {
    match index {
        Index::Chain(chain) => carry_out_and_cancel(rt, alloc, chain, words),
        Index::Live(_) => say(rt, "no chain"),
    }
}

/// Leads a live index both ways by the block that is spelled first.
fn both_row(rt: &impl Print, alloc: Global, index: &mut Index, rest: &str) -> io::Result<()> {
    let Index::Live(live) = index else {
        return say(rt, "no live index");
    };
    let (digits, words) = rest.split_once(' ').unwrap_or((rest, ""));
    let Some(block) = bytes_of(alloc, digits) else {
        return say(rt, "no memory");
    };
    lead_both_ways(rt, alloc, live, &block, words)
}

/// How many blocks a chain keeps.
fn print_kept(rt: &impl Print, index: &Index) -> io::Result<()> {
    let Index::Chain(chain) = index else {
        return Ok(());
    };
    let about = chain.about();
    println!(rt;
        "kept {} of {}, {} changes",
        about.kept,
        about.depth,
        chain.changes().len()
    )
}

/// Dumps an index.
fn dump_row(rt: &impl Print, index: &Index, words: &str) -> io::Result<()> {
    print_kept(rt, index)?;
    dump(rt, live_in(index), words)
}

/// Prints a chain's reply to a request.
fn request_row(
    rt: &impl Print,
    alloc: Global,
    routes: &Routes,
    index: &Index,
    row: &str,
) -> io::Result<()> {
    match index {
        Index::Chain(chain) => print_answer(rt, alloc, routes, chain, row),
        Index::Live(_) => say(rt, "no row, or no chain"),
    }
}

/// Prints what the bytes of a row read as, or a chain's reply. What is timed is done so many times.
fn read_or_reply(
    rt: &impl Print,
    alloc: Global,
    routes: &Routes,
    index: &Index,
    row: &str,
    times: u32,
) -> io::Result<()> {
    let (word, rest) = row.split_once(' ').unwrap_or((row, ""));
    match word {
        "index" => print_index_again(rt, alloc, rest, Times::of_reads(times)),
        "spell" => print_index_again(rt, alloc, rest, Times::of_writes(times)),
        "change" => print_change_again(rt, alloc, rest),
        "fronts" => print_fronts(rt, alloc, rest),
        "sound" => print_sound(rt, alloc, rest, times),
        "load" => print_load(rt, alloc, rest, times),
        "keeps" => print_keeps(rt, alloc, rest),
        "on" => print_lead(rt, alloc, rest, false),
        "back" => print_lead(rt, alloc, rest, true),
        _ => request_row(rt, alloc, routes, index, row),
    }
}

/// Does what a row says.
fn run(
    rt: &impl Print,
    alloc: Global,
    routes: &Routes,
    index: &mut Index,
    row: &str,
    times: u32,
) -> io::Result<()> {
    let (word, rest) = row.split_once(' ').unwrap_or((row, ""));
    match word {
        "#" => say(rt, row),
        "live" => begin(rt, index, new_live(alloc, rest)),
        "chain" => begin(rt, index, new_chain(alloc, rest)),
        "block" => connect_row(rt, alloc, index, rest),
        "both" => both_row(rt, alloc, index, rest),
        "disconnect" => disconnect_row(rt, alloc, index),
        "cancel" => cancel_row(rt, alloc, index, rest),
        "dump" => dump_row(rt, index, rest),
        "plain" => dump_plain(rt, alloc, live_in(index), rest),
        "look" => print_looks(rt, live_in(index), rest),
        _ => read_or_reply(rt, alloc, routes, index, row, times),
    }
}

/// Does what each row says.
fn run_all(
    rt: &impl Print,
    alloc: Global,
    routes: &Routes,
    index: &mut Index,
    text: &str,
    times: u32,
) -> io::Result<()> {
    for row in text.split('\n') {
        if !row.is_empty() {
            run(rt, alloc, routes, index, row, times)?;
        }
    }
    Ok(())
}

/// Replies to each GET among a chain's rows, so many times more, and tells how much that was.
fn repeat(
    rt: &impl Print,
    alloc: Global,
    routes: &Routes,
    index: &Index,
    text: &str,
    times: u32,
) -> io::Result<()> {
    let Index::Chain(chain) = index else {
        return Ok(());
    };
    if times == 0 {
        return Ok(());
    }
    match reply_often(alloc, routes, chain, text, times) {
        Some(tally) => println!(rt; "{} replies of {} bytes", tally.replies, tally.bytes),
        None => say(rt, "no memory"),
    }
}

/// How often work is done: as the argument says, or once.
fn times_of(rt: &HostRuntime) -> io::Result<u32> {
    match env::args(rt)?.nth(1) {
        Some(word) => Ok(word.as_str().parse().unwrap_or(1)),
        None => Ok(1),
    }
}

/// Does what each row of a text says, from an index of no block on. What is timed is done so many
/// times.
fn run_by(
    rt: &impl Print,
    alloc: Global,
    routes: &Routes,
    text: &str,
    times: u32,
) -> io::Result<()> {
    let Some(mut index) = new_live(alloc, "lab") else {
        return Err(ErrorKind::OutOfMemory.into());
    };
    run_all(rt, alloc, routes, &mut index, text, times)?;
    repeat(rt, alloc, routes, &index, text, times.saturating_sub(1))
}

/// The same with the routes of all requests.
fn run_times(rt: &impl Print, alloc: Global, text: &str, times: u32) -> io::Result<()> {
    match Routes::new(alloc) {
        Ok(routes) => run_by(rt, alloc, &routes, text, times),
        Err(_) => Err(ErrorKind::OutOfMemory.into()),
    }
}

fn main(rt: HostRuntime) -> io::Result<()> {
    let times = times_of(&rt)?;
    let text = io::read_to_string(rt.alloc(), rt.stdin())?;
    run_times(&rt, rt.alloc(), text.as_str(), times)
}
