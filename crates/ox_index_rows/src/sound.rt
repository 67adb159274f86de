//! Whether an index is sound, and whether a change keeps it so.

ghost use Rattle.ox_sat.specs.Profiles.{IsProfile};

use crate::print::say;
use crate::words::{NO_ROW, index_and_change_of, index_of, profile_in};
use ox_bytes::Memory;
use ox_model::Change;
use ox_plain::{Index, other_end};
use ox_sat::Profile;
use ox_sound::{is_sound, keeps_sound};
use std::alloc::Global;
use std::io;

/// What is said of an index.
fn word_of(sound: bool) -> &'static str {
    if sound { "sound" } else { "not sound" }
}

/// Whether an index is sound, tested so many times. `Memory` where there is none for the answers.
fn test_often(alloc: Global, p: &Profile, index: &Index, times: u32) -> Result<bool, Memory>
    requires { IsProfile p.now }
{
    for _ in 1..times {
        is_sound(alloc, p, index)?;
    }
    is_sound(alloc, p, index)
}

/// The same of an index that is spelled behind a profile's word.
fn test_spelled(alloc: Global, words: &str, times: u32) -> Option<bool> {
    let (profile, index) = words.split_once(' ')?;
    let p = profile_in(profile)?;
    test_often(alloc, &p, &index_of(alloc, index)?, times).ok()
}

/// Prints whether an index is sound, which is tested so many times; a profile's word and the index
/// are spelled.
pub fn print_sound(rt: &impl Print, alloc: Global, words: &str, times: u32) -> io::Result<()> {
    match test_spelled(alloc, words, times) {
        Some(sound) => say(rt, word_of(sound)),
        None => say(rt, NO_ROW),
    }
}

/// What is said of a change of an index.
#[derive(Clone, Copy)]
struct Said {
    /// Whether the change keeps the rules.
    kept: bool,
    /// Whether the index after it is sound.
    sound: bool,
}

/// What is said of a change that begins in a sound index. `Memory` where there is none for the
/// index after it, or for the answers.
fn judge(
    alloc: Global,
    p: &Profile,
    before: &Index,
    change: &Change,
) -> Result<Option<Said>, Memory>
    requires { IsProfile p.now }
{
    if !is_sound(alloc, p, before)? {
        return Ok(None);
    }
    let Some(after) = other_end(alloc, before, change, false)? else {
        return Ok(None);
    };
    let kept = keeps_sound(alloc, p, before, change)?;
    let sound = is_sound(alloc, p, &after)?;
    Ok(Some(Said { kept, sound }))
}

/// The same of an index and a change that are spelled behind a profile's word, or why nothing is
/// said of them.
fn judge_spelled(alloc: Global, words: &str) -> Result<Said, &'static str> {
    let (profile, rest) = words.split_once(' ').ok_or(NO_ROW)?;
    let p = profile_in(profile).ok_or(NO_ROW)?;
    let (index, change) = index_and_change_of(alloc, rest).ok_or(NO_ROW)?;
    match judge(alloc, &p, &index, &change) {
        Ok(Some(said)) => Ok(said),
        Ok(None) => Err("no end"),
        Err(_) => Err("no memory"),
    }
}

/// Prints what is said of a change; a profile's word, the index before it and the change are
/// spelled.
pub fn print_keeps(rt: &impl Print, alloc: Global, words: &str) -> io::Result<()> {
    match judge_spelled(alloc, words) {
        Ok(said) => print_said(rt, said),
        Err(why) => say(rt, why),
    }
}

/// Prints what is said of a change.
fn print_said(rt: &impl Print, said: Said) -> io::Result<()> {
    let kept = if said.kept { "kept" } else { "not kept" };
    println!(rt; "{kept}, {}", word_of(said.sound))
}
