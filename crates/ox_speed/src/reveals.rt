//! What a block reveals, again and again.

ghost use Rattle.std.specs.Prelude.{◌≡◌};
ghost use Rattle.ox_inscribe.specs.Moves.{AreMovesOf};

use crate::blocks::{Done, loaded};
use crate::rows::{Order, id_of};
use anyhow::bail;
use ox_envelope::Ids;
use ox_inscribe::{InsRow, Memory, SharedRow, Shelf};
use std::alloc::Global;

/// So many satoshis come with a block.
const SUBSIDY: u64 = 5_000_000_000;

/// A number below an end in a scattered order.
fn scattered(number: u64, end: u64) -> u64 {
    number
        .wrapping_mul(0x9e37_79b9_7f4a_7c15)
        .checked_rem(end)
        .unwrap_or(0)
}

/// The row of a parent with a number. Every other one is on a satoshi of the transaction's inputs.
fn parent_of(alloc: Global, number: u32) -> InsRow {
    InsRow {
        id: id_of(Order::Scattered, number),
        height: 0,
        content_type: None,
        body: None,
        metadata: None,
        metaprotocol: None,
        encoding: None,
        pointer: None,
        delegate: None,
        parents: Ids::new(alloc),
        marks: 0,
        sat: Some(scattered(u64::from(number), 2 * SUBSIDY)),
    }
}

/// A shelf of so many parents.
fn shelf_of_parents(alloc: Global, count: u32) -> Result<Shelf, Memory> {
    let mut rows = Vec::new(alloc);
    for number in 0..count {
        rows.push(SharedRow::new(alloc, parent_of(alloc, number))?)?;
    }
    let mut shelf = Shelf::new(alloc, 0);
    if rows.len() < u32::MAX as usize {
        shelf.append(&rows)?;
    }
    Ok(shelf)
}

/// What a row says, in one number.
fn weight(row: &InsRow) -> u64 {
    u64::from(row.marks)
        .wrapping_add(row.sat.unwrap_or(0))
        .wrapping_add(row.parents.len() as u64)
}

/// What the rows from a number on say.
fn weight_from(shelf: &Shelf, first: u32) -> u64 {
    let mut sum: u64 = 0;
    for number in first..shelf.len() {
        sum = sum.wrapping_mul(3).wrapping_add(weight(shelf.row(number)));
    }
    sum
}

/// What a row says, and what it is found by.
fn found(shelf: &Shelf, row: &InsRow) -> u64 {
    weight(row)
        .wrapping_add(u64::from(shelf.find(&row.id).unwrap_or(0)))
        .wrapping_add(shelf.on(row.sat.unwrap_or(0)).len() as u64)
}

/// What all rows say, and what they are found by.
fn all_found(shelf: &Shelf) -> u64 {
    let mut sum: u64 = 0;
    for number in 0..shelf.len() {
        sum = sum
            .wrapping_mul(3)
            .wrapping_add(found(shelf, shelf.row(number)))
            .wrapping_add(shelf.children(number).len() as u64);
    }
    sum
}

/// Reveals the block. Where there is no memory at first, and the rows are as before, it does so
/// once more.
fn reveal(shelf: &mut Shelf, done: &Done, before: u64) -> Result<u32, Memory>
    requires { AreMovesOf done.now.block.txs done.now.moved.txs }
    ensures { shelf.new.mark ≡ shelf.old.mark }
{
    match shelf.reveal(&done.moved, &done.block, 1) {
        Ok(count) => Ok(count),
        Err(e) => {
            if all_found(shelf) != before {
                return Err(e);
            }
            shelf.reveal(&done.moved, &done.block, 1)
        }
    }
}

/// Reveals the block so often, and takes its rows away each time but the last. What the last ones
/// say.
fn reveal_often(shelf: &mut Shelf, done: &Done, times: u32) -> Result<u64, Memory>
    requires { AreMovesOf done.now.block.txs done.now.moved.txs }
{
    let before = all_found(shelf);
    let mut sum = 0;
    for _ in 0..times {
        let first = shelf.len();
        let count = reveal(shelf, done, before)?;
        sum = weight_from(shelf, first);
        shelf.drop_last(count.min(shelf.len()));
    }
    Ok(sum)
}

/// How many rows there are in the end, and what the last ones that were revealed say.
fn work(alloc: Global, feed: &[u8], parents: u32, times: u32) -> Result<(u32, u64), Memory> {
    let done = loaded(alloc, feed)?;
    let mut shelf = shelf_of_parents(alloc, parents)?;
    let sum = reveal_often(&mut shelf, &done, times)?;
    Ok((shelf.len(), sum))
}

/// Reveals what the second of two blocks has, so often, over so many earlier inscriptions, and
/// tells what the last rows say.
pub(crate) fn run(
    rt: &impl Print,
    alloc: Global,
    feed: &[u8],
    parents: u32,
    times: u32,
) -> anyhow::Result<()> {
    match work(alloc, feed, parents, times) {
        Ok((rows, answer)) => Ok(println!(rt; "{rows} rows, {answer}")?),
        Err(_) => bail!("no two blocks, or no memory"),
    }
}
