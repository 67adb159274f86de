//! The blocks that are made.

use crate::print::{NO_ROW, Page, print_line};
use crate::spell::bytes_of;
use ox_block::{Block, Txid, write_block};
use ox_bytes::Bytes;
use ox_gen::block;
use std::alloc::Global;

/// The hash that a word's hex digits spell, in serialized order.
fn hash_of(alloc: Global, word: &str) -> Option<[u8; 32]> {
    <[u8; 32]>::try_from(bytes_of(alloc, word)?.as_slice()).ok()
}

/// The block of this height behind the block of that hash, whose coinbase has that id.
fn block_of(alloc: Global, height: &str, tip: &str, paid: &str) -> Option<Block> {
    let tip = hash_of(alloc, tip)?;
    let paid = Txid(hash_of(alloc, paid)?);
    block(alloc, height.parse().ok()?, &tip, &paid).ok()
}

/// Its bytes, where a text has the three.
fn bytes_made(alloc: Global, text: &str) -> Option<Bytes> {
    let (height, ids) = text.split_once(' ')?;
    let (tip, paid) = ids.split_once(' ')?;
    write_block(alloc, &block_of(alloc, height, tip, paid)?).ok()
}

/// Prints the bytes of the block that is made by a text.
pub fn print_made(page: &mut Page, alloc: Global, text: &str) {
    match bytes_made(alloc, text) {
        Some(bytes) => print_line(page, bytes.as_slice()),
        None => page.say(NO_ROW),
    }
}
