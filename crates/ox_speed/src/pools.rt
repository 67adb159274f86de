//! Pools of runes, dealt by edicts.

use anyhow::Context;
use ox_allocation::{Pool, allocate};
use ox_block::{Script, TxOut};
use ox_runestone::{Edict, RuneId};
use std::alloc::Global;

/// What is done.
#[derive(Clone, Copy, PartialEq, Eq)]
pub(crate) enum Load {
    /// Edicts for one output each.
    One,
    /// Edicts for all outputs.
    All,
    /// Edicts of one rune for all of many outputs.
    Each,
    /// Many edicts of one rune for all outputs.
    Outputs,
    /// No edicts: a pool is gathered.
    Gather,
}

/// As many edicts or outputs as a block of 320 KB has.
const MANY: u32 = 20_000;

/// How much there is to be dealt.
#[derive(Clone, Copy)]
struct Size {
    runes: u32,
    edicts: u32,
    outputs: u32,
}

/// What a load of so much deals.
fn size_of(load: Load, count: u32) -> Size {
    let (runes, edicts, outputs) = match load {
        Load::One | Load::All => (1_000, count, 10),
        Load::Each => (1, count, MANY),
        Load::Outputs => (1, MANY, count),
        Load::Gather => (count, 0, 10),
    };
    Size {
        runes,
        edicts,
        outputs,
    }
}

/// So many outputs that can hold runes.
fn outputs_of(alloc: Global, count: u32) -> anyhow::Result<Vec<TxOut>> {
    let mut outputs = Vec::new(alloc);
    for _ in 0..count {
        outputs.push(TxOut {
            value: 546,
            script: Script::copy(alloc, &[]).ok().context("no memory")?,
        })?;
    }
    Ok(outputs)
}

/// The id of a rune, of which ids come in a scattered order.
fn rune_id(number: u32) -> RuneId {
    RuneId {
        block: 840_000,
        tx: number.wrapping_mul(0x9e37_79b1),
    }
}

/// So many runes in a scattered order, of each enough for all edicts.
fn pool_of(alloc: Global, runes: u32) -> Option<Pool> {
    let mut pool = Pool::new(alloc);
    for number in 0..runes {
        let id = rune_id(number);
        if pool.amount(id) == 0 {
            pool.add(id, 10_000_000_000).ok()?;
        }
    }
    Some(pool)
}

/// The edict of this number: over one rune or the runes of a pool of a thousand, and for all
/// outputs or for one of ten.
fn edict_of(load: Load, size: Size, number: u32) -> Edict {
    Edict {
        id: rune_id(if size.runes == 1 { 0 } else { number % 1_000 }),
        amount: 3,
        output: if load == Load::One {
            number % 10
        } else {
            size.outputs
        },
    }
}

/// The edicts of a load.
fn edicts_of(alloc: Global, load: Load, size: Size) -> anyhow::Result<Vec<Edict>> {
    let mut edicts = Vec::new(alloc);
    for number in 0..size.edicts {
        edicts.push(edict_of(load, size, number))?;
    }
    Ok(edicts)
}

/// How many balances the first output has after a pool was dealt.
fn dealt(alloc: Global, runes: u32, edicts: &[Edict], outputs: &[TxOut]) -> Option<usize> {
    let pool = pool_of(alloc, runes)?;
    let allocated = allocate(alloc, pool, edicts, None, None, outputs).ok()?;
    match allocated.given.as_slice() {
        [first, ..] => Some(first.len()),
        [] => None,
    }
}

/// Deals a pool so often, by so many edicts, or of so many runes, and tells how many the first
/// output has.
pub(crate) fn run(
    rt: &impl Print,
    alloc: Global,
    load: Load,
    count: u32,
    times: u32,
) -> anyhow::Result<()> {
    let size = size_of(load, count);
    let outputs = outputs_of(alloc, size.outputs)?;
    let edicts = edicts_of(alloc, load, size)?;
    let mut last = None;
    for _ in 0..times {
        last = dealt(alloc, size.runes, &edicts, &outputs);
    }
    match last {
        Some(first) => println!(rt; "{first} runes at the first output")?,
        None => println!(rt; "no memory")?,
    }
    Ok(())
}
