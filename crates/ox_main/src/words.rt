//! The words of the command line.

use ox_bytes::{Bytes, Memory};
use std::alloc::Global;
use std::env::{Env, FillError};

/// Whether there is a word of this place.
fn has_word(env: &impl Env, place: usize) -> bool {
    let mut room = [0u8; 0];
    match env.arg(place, &mut room[..]) {
        Ok(_) => true,
        Err(FillError::TooLong) => true,
        Err(FillError::NotPresent) => false,
    }
}

/// Whether the word behind the folder is `serve`.
fn serves(env: &impl Env) -> bool {
    let mut room = [0u8; 5];
    match env.arg(2, &mut room[..]) {
        Ok(5) => room == *b"serve",
        _ => false,
    }
}

/// Whether the program's own words are missing: the folder, or, where `serve` stands behind it, the
/// two addresses behind the turns. It takes no memory.
pub fn lacks_words(env: &impl Env) -> bool {
    !has_word(env, 1) || serves(env) && !has_word(env, 5)
}

/// The words behind the program's name, copied byte for byte: they need not be text. `Memory` where
/// there is none for the copies.
pub fn words_of(env: &impl Env, alloc: Global) -> Result<Vec<Bytes>, Memory> {
    let mut words = Vec::new(alloc);
    for place in 1..usize::MAX {
        match word_at(env, alloc, place)? {
            Some(word) => words.push(word)?,
            None => break,
        }
    }
    Ok(words)
}

/// One word, read into room that doubles until the word fits.
fn word_at(env: &impl Env, alloc: Global, place: usize) -> Result<Option<Bytes>, Memory> {
    let mut size = 256usize;
    for _ in 0..usize::BITS {
        let mut room = vec![in alloc; 0u8; size]?;
        match env.arg(place, room.as_mut_slice()) {
            Ok(n) => {
                room.truncate(n);
                return Ok(Some(Bytes::from_vec(room)));
            }
            Err(FillError::NotPresent) => return Ok(None),
            Err(FillError::TooLong) => size = size.saturating_mul(2),
        }
    }
    Err(Memory)
}
