//! An index in memory, made from rows.

ghost use Rattle.ox_sat.specs.Profiles.{IsProfile};

use crate::print::say;
use crate::words::{NO_ROW, bytes_of, profile_in};
use ox_index::Live;
use ox_model::View;
use ox_rows::read_index;
use ox_sat::Profile;
use ox_sound::is_sound;
use std::alloc::Global;
use std::io;

/// The index in memory that is made from these rows, if they are those of a sound index; or why
/// there is none.
fn live_of(alloc: Global, p: &Profile, bytes: &[u8]) -> Result<Live, &'static str>
    requires { IsProfile p.now }
{
    let (index, _) = read_index(alloc, bytes).ok().ok_or(NO_ROW)?;
    if !is_sound(alloc, p, &index).ok().ok_or("no memory")? {
        return Err("not sound");
    }
    Live::of(alloc, p, index).ok().ok_or("no memory")
}

/// The same, made so many times; a profile's word and the rows of the index are spelled.
fn live_often(alloc: Global, words: &str, times: u32) -> Result<Live, &'static str> {
    let (profile, digits) = words.split_once(' ').ok_or(NO_ROW)?;
    let p = profile_in(profile).ok_or(NO_ROW)?;
    let bytes = bytes_of(alloc, digits).ok_or(NO_ROW)?;
    for _ in 1..times {
        live_of(alloc, &p, &bytes)?;
    }
    live_of(alloc, &p, &bytes)
}

/// Prints how much an index in memory has that is made so many times; a profile's word and the rows
/// of the index are spelled.
pub fn print_load(rt: &impl Print, alloc: Global, words: &str, times: u32) -> io::Result<()> {
    match live_often(alloc, words, times) {
        Ok(live) => print_size(rt, &live),
        Err(why) => say(rt, why),
    }
}

/// Prints how much an index in memory has.
fn print_size(rt: &impl Print, live: &Live) -> io::Result<()> {
    println!(rt;
        "{} blocks, {} inscriptions, {} runes",
        live.blocks(),
        live.inscriptions(),
        live.runes()
    )
}
