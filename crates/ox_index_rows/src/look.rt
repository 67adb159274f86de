//! Words that look up a part of an index, and what each gives:
//!
//! - `at=TXID:INDEX`: the output at an outpoint, and its runes;
//! - `sat=N`: where a satoshi is, which inscriptions it bears, and the next one up that bears some;
//! - `id=TXIDiN`: the number of the first inscription with an id;
//! - `name=N` and `rune=BLOCK:TX`: the number of the rune with a name or an id;
//! - `height=N`: the hash of the block at a height.

use crate::print::say;
use crate::show::{
    print_audit, print_balance, print_block, print_found, print_index, print_numbers,
    print_outpoint, print_output,
};
use ox_block::{OutPoint, Txid};
use ox_envelope::read_id_text;
use ox_index::Live;
use ox_model::{Place, RuneId, View};
use std::io;

/// The whole index, and what each word looks up.
pub fn dump(rt: &impl Print, live: &Live, words: &str) -> io::Result<()> {
    print_index(rt, live)?;
    print_audit(rt, live)?;
    print_looks(rt, live, words)
}

/// What each word looks up.
pub fn print_looks(rt: &impl Print, live: &Live, words: &str) -> io::Result<()> {
    for word in words.split(' ') {
        if !word.is_empty() {
            print_look(rt, live, word)?;
        }
    }
    Ok(())
}

/// What a word looks up.
fn print_look(rt: &impl Print, live: &Live, word: &str) -> io::Result<()> {
    let (name, value) = word.split_once('=').unwrap_or((word, ""));
    match name {
        "at" => look_at(rt, live, outpoint_of(value)),
        "sat" => look_for(rt, live, value.parse().ok()),
        "height" => print_block(rt, live, value.parse().unwrap_or(u32::MAX)),
        _ => print_number_of(rt, word, number_of(live, name, value)),
    }
}

/// The outpoint that a text spells.
fn outpoint_of(text: &str) -> Option<OutPoint> {
    let (digits, index) = text.split_once(':')?;
    let mut txid = [0; 32];
    hex::decode_to_slice(digits, &mut txid).ok()?;
    txid.reverse();
    Some(OutPoint {
        txid: Txid(txid),
        index: index.parse().ok()?,
    })
}

/// The rune's id that a text spells.
fn rune_of(text: &str) -> Option<RuneId> {
    let (block, tx) = text.split_once(':')?;
    Some(RuneId {
        block: block.parse().ok()?,
        tx: tx.parse().ok()?,
    })
}

/// The number that a value leads to.
fn number_of(live: &Live, name: &str, value: &str) -> Option<u32> {
    match name {
        "id" => live.find(&read_id_text(value.as_bytes())?),
        "name" => live.by_name(value.parse().ok()?),
        "rune" => live.by_id(rune_of(value)?),
        _ => None,
    }
}

/// A word, and the number that it leads to.
fn print_number_of(rt: &impl Print, word: &str, number: Option<u32>) -> io::Result<()> {
    print!(rt; "{word}")?;
    print_found(rt, number)?;
    say(rt, "")
}

/// The output at an outpoint, and its runes.
fn look_at(rt: &impl Print, live: &Live, at: Option<OutPoint>) -> io::Result<()> {
    let Some(at) = at else {
        return say(rt, "no outpoint");
    };
    print!(rt; "at ")?;
    print_outpoint(rt, &at)?;
    match live.output(&at) {
        Some(row) => print_output(rt, row)?,
        None => print!(rt; " none")?,
    }
    print_balance(rt, live.balance(&at))?;
    say(rt, "")
}

/// Where a satoshi is, and which inscriptions it and the next one up bear.
fn look_for(rt: &impl Print, live: &Live, sat: Option<u64>) -> io::Result<()> {
    let Some(sat) = sat else {
        return say(rt, "no satoshi");
    };
    print!(rt; "satoshi {sat} ")?;
    print_place(rt, live.locate(sat))?;
    print_numbers(rt, ":", live.on(sat))?;
    print_next(rt, live, sat)
}

/// A place.
fn print_place(rt: &impl Print, place: Option<Place>) -> io::Result<()> {
    match place {
        Some(Place::Out { outpoint, offset }) => {
            print!(rt; "at {offset} of ")?;
            print_outpoint(rt, &outpoint)
        }
        Some(Place::Lost { offset }) => print!(rt; "at {offset} of the lost ones"),
        None => print!(rt; "nowhere"),
    }
}

/// The least satoshi from a number up that bears an inscription, and those on it.
fn print_next(rt: &impl Print, live: &Live, sat: u64) -> io::Result<()> {
    let Some((next, numbers)) = live.next_on(sat) else {
        return say(rt, ", next none");
    };
    print!(rt; ", next {next}")?;
    print_numbers(rt, ":", numbers)?;
    say(rt, "")
}
