//! Outputs by their scripts, to be put, stepped and looked up.

use anyhow::bail;
use ox_block::{OutPoint, Script, Txid};
use ox_bytes::Memory;
use ox_holders::Holders;
use ox_range::Ranges;
use ox_rules::OutRow;
use std::alloc::Global;

/// So many outputs are spent by a step, and as many come.
const SPENDS: u32 = 500;

/// What is done.
#[derive(Clone, Copy, PartialEq, Eq)]
pub(crate) enum Load {
    /// Spends outputs of so many scripts, and pays others to these.
    Spend,
    /// Looks up what outputs each script has.
    Ask,
}

/// The outputs that are spent next: those of so many scripts from the one with this number on.
#[derive(Clone, Copy)]
struct Next {
    first: u32,
    /// The index of their outpoints.
    index: u32,
}

/// What is spent after these, of so many scripts.
fn next_behind(next: Next, count: u32) -> Next {
    let first = next.first.wrapping_add(SPENDS);
    if first < count {
        Next {
            first,
            index: next.index,
        }
    } else {
        Next {
            first: 0,
            index: next.index.wrapping_add(1),
        }
    }
}

/// The script with a number, of version 0 and a program of 20 bytes. They are spread over all such
/// scripts.
fn script_of(number: u32) -> [u8; 22] {
    let [a, b, c, d] = number.wrapping_mul(0x9e37_79b1).to_be_bytes();
    let mut script = [0; 22];
    script[1] = 20;
    script[2] = a;
    script[3] = b;
    script[4] = c;
    script[5] = d;
    script
}

/// An output of the script with a number, whose outpoint has that in front and this index.
fn row_of(alloc: Global, number: u32, index: u32) -> Result<(OutPoint, OutRow), Memory> {
    let [a, b, c, d] = number.to_be_bytes();
    let mut id = [0; 32];
    id[0] = a;
    id[1] = b;
    id[2] = c;
    id[3] = d;
    let at = OutPoint {
        txid: Txid(id),
        index,
    };
    let row = OutRow {
        script: Script::copy(alloc, &script_of(number))?,
        height: 0,
        sats: Ranges::empty(alloc),
    };
    Ok((at, row))
}

/// Outputs of this index, of the scripts from this number on.
fn rows_from(alloc: Global, first: u32, index: u32) -> Result<Vec<(OutPoint, OutRow)>, Memory> {
    let mut rows = Vec::new(alloc);
    for place in 0..SPENDS {
        rows.push(row_of(alloc, first.wrapping_add(place), index)?)?;
    }
    Ok(rows)
}

/// With the outputs of the scripts from this number on.
fn join(alloc: Global, holders: Holders, first: u32) -> Result<Holders, Memory> {
    let came = rows_from(alloc, first, 0)?;
    holders.step(&[], &came)
}

/// Those of so many scripts, an output each.
fn holders_of(alloc: Global, count: u32) -> Result<Holders, Memory> {
    let mut holders = Holders::new(alloc);
    for batch in 0..count / SPENDS {
        holders = join(alloc, holders, batch.wrapping_mul(SPENDS))?;
    }
    Ok(holders)
}

/// With outputs spent, and as many paid to the same scripts.
fn step(alloc: Global, holders: Holders, next: Next) -> Result<Holders, Memory> {
    let gone = rows_from(alloc, next.first, next.index)?;
    let came = rows_from(alloc, next.first, next.index.wrapping_add(1))?;
    holders.step(&gone, &came)
}

/// After so many steps.
fn spend(alloc: Global, holders: Holders, count: u32, times: u32) -> Result<Holders, Memory> {
    let mut holders = holders;
    let mut next = Next { first: 0, index: 0 };
    for _ in 0..times {
        holders = step(alloc, holders, next)?;
        next = next_behind(next, count);
    }
    Ok(holders)
}

/// How many outputs so many scripts have.
fn ask(holders: &Holders, count: u32) -> Result<u64, Memory> {
    let mut sum: u64 = 0;
    for number in 0..count {
        let found = holders.outputs(&script_of(number))?;
        sum = sum.wrapping_add(found.len() as u64);
    }
    Ok(sum)
}

/// The same so often: what was answered last.
fn ask_often(holders: &Holders, count: u32, times: u32) -> Result<u64, Memory> {
    let mut sum = 0;
    for _ in 0..times {
        sum = ask(holders, count)?;
    }
    Ok(sum)
}

/// What was answered last.
fn work(alloc: Global, load: Load, count: u32, times: u32) -> Result<u64, Memory> {
    let holders = holders_of(alloc, count)?;
    match load {
        Load::Spend => ask(&spend(alloc, holders, count, times)?, SPENDS),
        Load::Ask => ask_often(&holders, count, times),
    }
}

/// Keeps an output of each of so many scripts, does this so often, and tells what was answered
/// last.
pub(crate) fn run(
    rt: &impl Print,
    alloc: Global,
    load: Load,
    count: u32,
    times: u32,
) -> anyhow::Result<()> {
    match work(alloc, load, count, times) {
        Ok(answer) => Ok(println!(rt; "{count} scripts, {answer}")?),
        Err(_) => bail!("no memory"),
    }
}
