//! Numbers as bytes, alone and one behind the other, and bytes in room.

use crate::print::{FILLED, NO_ROW, Page, print_bytes_in, print_line, put_line};
use ox_bytes::{Bytes, Cursor, Memory, Room, put_compact, put_u32le, put_u64le};
use ox_varint::{read, write};
use std::alloc::Global;

/// The number that a word is, 0 where it isn't read.
fn number_of(word: &str) -> u128 {
    word.parse().unwrap_or(0)
}

/// The numbers of a text, 0 where there are fewer than three or one isn't read.
pub fn numbers_of(text: &str) -> [u128; 3] {
    let (first, rest) = text.split_once(' ').unwrap_or((text, ""));
    let (second, rest) = rest.split_once(' ').unwrap_or((rest, ""));
    let (third, _) = rest.split_once(' ').unwrap_or((rest, ""));
    [number_of(first), number_of(second), number_of(third)]
}

/// A number of 64 bits, the greatest for a greater one.
pub fn long(number: u128) -> u64 {
    number.min(u64::MAX as u128) as u64
}

/// A number of 32 bits, the greatest for a greater one.
pub fn short(number: u128) -> u32 {
    number.min(u32::MAX as u128) as u32
}

/// A number as LEB128.
pub fn print_varint(page: &mut Page, number: u128) {
    let mut room = [FILLED; 19];
    let len = write(number, &mut room);
    print_bytes_in(page, &room, len)
}

/// What bytes read as a number in LEB128.
pub fn print_number(page: &mut Page, bytes: &[u8]) {
    put_line!(page; "{:?}", read(bytes))
}

/// A number of 4 bytes, one of 8 and a compact size, as they stand one behind the other, what
/// follows them, and where that begins.
pub fn print_fields(page: &mut Page, bytes: &[u8]) {
    let mut cursor = Cursor::new(bytes);
    let four = cursor.u32le();
    let eight = cursor.u64le();
    let size = cursor.compact();
    let place = cursor.place();
    let behind = cursor.take(1);
    put_line!(page; "{four:?} {eight:?} {size:?} {behind:?} at {place}")
}

/// These bytes, and behind them a number of 4 bytes, one of 8 and a compact size. `Memory` where
/// there is none for them.
fn written(alloc: Global, front: &[u8], numbers: [u128; 3]) -> Result<Vec<u8>, Memory> {
    let [four, eight, size] = numbers;
    let mut bytes = Bytes::copy(alloc, front)?;
    put_u32le(&mut bytes, short(four))?;
    put_u64le(&mut bytes, long(eight))?;
    put_compact(&mut bytes, long(size))?;
    Ok(bytes.into_vec())
}

/// These bytes, and behind them the numbers of a text.
pub fn print_put(page: &mut Page, alloc: Global, front: &[u8], text: &str) {
    match written(alloc, front, numbers_of(text)) {
        Ok(bytes) => print_line(page, &bytes),
        Err(Memory) => page.say(NO_ROW),
    }
}

/// Bytes that were put into room for them by two parts.
#[derive(Drop)]
struct Filled {
    bytes: Bytes,
    /// How much was spare before the first part, between the two, and behind both.
    before: usize,
    between: usize,
    behind: usize,
}

/// Puts bytes into room for them, those up to a place and the others. `Memory` where there is none.
fn fill_room(alloc: Global, bytes: &[u8], place: usize) -> Result<Filled, Memory> {
    let mut room = Room::new(alloc, bytes.len())?;
    let (first, second) = bytes.split_at(place.min(bytes.len()));
    let before = room.spare();
    room.put(first);
    let between = room.spare();
    room.put(second);
    let behind = room.spare();
    Ok(Filled {
        bytes: room.into_bytes(),
        before,
        between,
        behind,
    })
}

/// How much was spare of room, and its bytes.
fn print_filled(page: &mut Page, filled: &Filled) {
    page.count("", filled.before as u128);
    page.count(" ", filled.between as u128);
    page.count(" ", filled.behind as u128);
    page.put(" ");
    print_line(page, filled.bytes.as_slice())
}

/// Bytes that are put into room for them by two parts, and how much was spare.
pub fn print_room(page: &mut Page, alloc: Global, bytes: &[u8], place: usize) {
    match fill_room(alloc, bytes, place) {
        Ok(filled) => print_filled(page, &filled),
        Err(Memory) => page.say(NO_ROW),
    }
}
