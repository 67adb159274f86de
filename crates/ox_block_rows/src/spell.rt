//! Bytes, as the words of a row spell them.

use std::alloc::Global;

/// Appends, so many times, the bytes that a word's hex digits spell; `-` spells none.
pub fn append(alloc: Global, bytes: &mut Vec<u8>, times: u32, word: &str) -> Option<()> {
    if word == "-" {
        return Some(());
    }
    let part = hex::decode(alloc, word).ok()?;
    for _ in 0..times {
        bytes.extend_from_slice(&part).ok()?;
    }
    Some(())
}

/// The first three words of a text, and what stands behind them.
pub fn four_of(text: &str) -> Option<(&str, &str, &str, &str)> {
    let (first, rest) = text.split_once(' ')?;
    let (second, rest) = rest.split_once(' ')?;
    let (third, fourth) = rest.split_once(' ')?;
    Some((first, second, third, fourth))
}

/// Appends what a text spells: how often a part stands, a head, the part and a tail.
fn append_parts(alloc: Global, bytes: &mut Vec<u8>, text: &str) -> Option<()> {
    let (times, head, part, tail) = four_of(text)?;
    append(alloc, bytes, 1, head)?;
    append(alloc, bytes, times.parse().unwrap_or(0), part)?;
    append(alloc, bytes, 1, tail)
}

/// The bytes that a word's hex digits spell; `-` spells none. `None` also where there is no memory
/// for them.
pub fn bytes_of(alloc: Global, word: &str) -> Option<Vec<u8>> {
    let mut bytes = Vec::new(alloc);
    append(alloc, &mut bytes, 1, word)?;
    Some(bytes)
}

/// How often a part stands, a head, the part and a tail: the head, so many times the part, and the
/// tail. `None` also where there is no memory for them.
pub fn bytes_from(alloc: Global, text: &str) -> Option<Vec<u8>> {
    let mut bytes = Vec::new(alloc);
    append_parts(alloc, &mut bytes, text)?;
    Some(bytes)
}
