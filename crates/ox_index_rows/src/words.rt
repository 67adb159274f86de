//! Bytes, profiles, indexes and changes, as words of a row spell them.

ghost use Rattle.ox_sat.specs.Profiles.{IsProfile};
ghost use Rattle.std.specs.Prelude.{IfSome};

use ox_model::Change;
use ox_plain::Index;
use ox_rows::{read_change, read_index};
use ox_sat::{Profile, ProfileName, profile_of};
use std::alloc::Global;

/// What is said of a row that can't be read, or for which there is no memory.
pub const NO_ROW: &str = "no row, or no memory";

/// Appends what a word spells: `-` for none, hex digits, or how often they stand, a `*` and hex
/// digits.
fn append(alloc: Global, bytes: &mut Vec<u8>, word: &str) -> Option<()> {
    if word == "-" {
        return Some(());
    }
    let (times, digits) = word.split_once('*').unwrap_or(("1", word));
    let part = hex::decode(alloc, digits).ok()?;
    let times: u32 = times.parse().ok()?;
    for _ in 0..times {
        bytes.extend_from_slice(&part).ok()?;
    }
    Some(())
}

/// The bytes that words spell, one behind the other. `None` also where there is no memory for them.
pub fn bytes_of(alloc: Global, words: &str) -> Option<Vec<u8>> {
    let mut bytes = Vec::new(alloc);
    for word in words.split(' ') {
        append(alloc, &mut bytes, word)?;
    }
    Some(bytes)
}

/// The profile that a word names.
pub fn profile_in(word: &str) -> Option<Profile>
    ensures { IfSome result IsProfile }
{
    let name = ProfileName::of_word(word.as_bytes())?;
    Some(profile_of(name))
}

/// The index that a word spells. `None` also where there is no memory for it.
pub fn index_of(alloc: Global, word: &str) -> Option<Index> {
    let (index, _) = read_index(alloc, &bytes_of(alloc, word)?).ok()?;
    Some(index)
}

/// The change that a word spells. `None` also where there is no memory for it.
fn change_of(alloc: Global, word: &str) -> Option<Change> {
    let (change, _) = read_change(alloc, &bytes_of(alloc, word)?).ok()?;
    Some(change)
}

/// An index and a change, a word each. `None` also where there is no memory for them.
pub fn index_and_change_of(alloc: Global, words: &str) -> Option<(Index, Change)> {
    let (index, change) = words.split_once(' ')?;
    let index = index_of(alloc, index)?;
    Some((index, change_of(alloc, change)?))
}
