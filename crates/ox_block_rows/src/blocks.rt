//! What blocks read as.

use crate::print::{NO_ROW, Page, print_line};
use ox_block::{
    Block, BlockFault, Header, Txid, committed, hash, read_block, root, txid_of, witness_root,
    write_block, wtxid_of,
};
use std::alloc::Global;
use std::cmp::Ordering;

/// The roots of a block's ids in both ways.
#[derive(Clone, Copy)]
struct Roots {
    over_ids: [u8; 32],
    over_wtxids: [u8; 32],
}

/// A block, and the roots of its ids.
#[derive(Drop)]
struct Read {
    block: Block,
    roots: Roots,
}

/// The roots of the ids of a block, which has a transaction. `None` where there is no memory for
/// the ids.
fn roots_of(alloc: Global, block: &Block) -> Option<Roots> {
    if block.txs.is_empty() {
        return None;
    }
    Some(Roots {
        over_ids: root(alloc, block).ok()?,
        over_wtxids: witness_root(alloc, block).ok()?,
    })
}

/// What the bytes read as, or the fault.
fn read_once(alloc: Global, bytes: &[u8]) -> Result<Read, BlockFault> {
    let block = read_block(alloc, bytes)?;
    match roots_of(alloc, &block) {
        Some(roots) => Ok(Read { block, roots }),
        None => Err(BlockFault::Memory),
    }
}

/// The same, read so many times.
fn read_often(alloc: Global, bytes: &[u8], times: u32) -> Result<Read, BlockFault> {
    for _ in 1..times {
        read_once(alloc, bytes)?;
    }
    read_once(alloc, bytes)
}

/// A name as it stands, and bytes in hex digits.
fn print_named(page: &mut Page, name: &str, bytes: &[u8]) {
    page.put(name);
    print_line(page, bytes)
}

/// The ids of the block's transactions, where there are few.
fn print_ids(page: &mut Page, block: &Block) {
    if block.txs.len() > 5 {
        return;
    }
    for tx in block.txs.as_slice() {
        print_named(page, "  txid ", &txid_of(tx).0);
        print_named(page, "  wtxid ", &wtxid_of(tx).0);
    }
}

/// Whether the block is written as these bytes.
fn is_written_so(alloc: Global, block: &Block, bytes: &[u8]) -> bool {
    match write_block(alloc, block) {
        Ok(written) => written.as_slice() == bytes,
        Err(_) => false,
    }
}

/// The numbers of a header, and how many transactions the block has.
fn print_header(page: &mut Page, header: &Header, txs: usize) {
    page.count("version ", header.version as u128);
    page.count(", time ", header.time as u128);
    page.count(", bits ", header.bits as u128);
    page.count(", nonce ", header.nonce as u128);
    page.count(", ", txs as u128);
    page.say(" transactions")
}

/// The roots of a block's ids.
fn print_roots(page: &mut Page, header: &Header, roots: &Roots) {
    print_named(page, "  root ", &roots.over_ids);
    page.flag_line("  root is the header's: ", roots.over_ids == header.root);
    print_named(page, "  witness root ", &roots.over_wtxids)
}

/// The hash of a block, its ids and its roots.
fn print_block(page: &mut Page, alloc: Global, read: &Read, bytes: &[u8]) {
    let block = &read.block;
    print_header(page, &block.header, block.txs.len());
    print_named(page, "  hash ", &hash(&block.header));
    print_ids(page, block);
    print_roots(page, &block.header, &read.roots);
    page.flag_line("  written so: ", is_written_so(alloc, block, bytes))
}

/// What the bytes read as, which are read so many times.
pub fn print_read(page: &mut Page, alloc: Global, bytes: &[u8], times: u32) {
    match read_often(alloc, bytes, times) {
        Ok(read) => print_block(page, alloc, &read, bytes),
        Err(BlockFault::Malformed { at }) => page.count_line("fault at ", at as u128),
        Err(BlockFault::Memory) => page.say(NO_ROW),
    }
}

/// Whether the block that bytes spell commits to its witnesses. `None` where they spell none, and
/// where there is no memory for it.
fn commits(alloc: Global, bytes: &[u8]) -> Option<bool> {
    let block = read_block(alloc, bytes).ok()?;
    if block.txs.is_empty() {
        return None;
    }
    committed(alloc, &block).ok()
}

/// Whether a block commits to its witnesses.
pub fn print_committed(page: &mut Page, alloc: Global, bytes: &[u8]) {
    page.say(match commits(alloc, bytes) {
        Some(true) => "committed",
        Some(false) => "not committed",
        None => NO_ROW,
    })
}

/// The place of the fault of bytes, if they have one.
fn fault_in(alloc: Global, bytes: &[u8]) -> Option<usize> {
    match read_block(alloc, bytes) {
        Err(BlockFault::Malformed { at }) => Some(at),
        _ => None,
    }
}

/// The place of the fault of each front of the bytes, shorter than they are.
pub fn print_fronts(page: &mut Page, alloc: Global, bytes: &[u8]) {
    for len in 0..bytes.len() {
        let (front, _) = bytes.split_at(len);
        match fault_in(alloc, front) {
            Some(at) => page.count(" ", at as u128),
            None => page.put(" none"),
        }
    }
    page.say("")
}

/// The id that a word's hex digits spell.
fn id_of(word: &str) -> Option<Txid> {
    let mut id = [0; 32];
    hex::decode_to_slice(word, &mut id).ok()?;
    Some(Txid(id))
}

/// How two ids are ordered that two words spell.
fn order_of(words: &str) -> Option<&'static str> {
    let (first, second) = words.split_once(' ')?;
    match id_of(first)?.cmp(&id_of(second)?) {
        Ordering::Less => Some("less"),
        Ordering::Equal => Some("equal"),
        Ordering::Greater => Some("greater"),
    }
}

/// How the ids that two words spell are ordered.
pub fn print_order(page: &mut Page, words: &str) {
    page.say(order_of(words).unwrap_or(NO_ROW))
}
