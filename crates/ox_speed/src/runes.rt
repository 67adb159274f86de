//! What blocks do to the ledger of runes. All but the last are done once; the last is done and
//! taken back again and again. Then the balances of all outputs of the other blocks are looked up.

ghost use Rattle.std.specs.Prelude.{◌≡◌, IsSome, OnOk};
ghost use Rattle.ox_ledger.specs.Ledger.{mark_in};

use crate::feed::next_block;
use ox_block::{Block, OutPoint, Tx, Txid, Txids, read_block, txids_of};
use ox_bytes::Memory;
use ox_ledger::Ledger;
use ox_range::Ranges;
use ox_rules::{OutRow, Script, SpentRows};
use ox_runestone::RuneId;
use ox_sat::{ProfileName, profile_of};
use std::alloc::Global;

/// A pay-to-taproot script.
const TAPROOT: [u8; 34] = [
    0x51, 0x20, 2, 2, 2, 2, 2, 2, 2, 2, 2, 2, 2, 2, 2, 2, 2, 2, 2, 2, 2, 2, 2, 2, 2, 2, 2, 2, 2, 2,
    2, 2, 2, 2,
];

/// A block, the ids of its transactions, and the rows that each of these spends: each
/// pay-to-taproot and made at height 0.
#[derive(Drop)]
struct Given {
    block: Block,
    ids: Txids,
    spent: Vec<SpentRows>,
}

/// How many outputs were found to hold runes, and the sum of the amounts.
#[derive(Clone, Copy)]
struct Found {
    outputs: u64,
    amount: u128,
}

/// The rows that a transaction spends: none for a null input.
fn spent_by(alloc: Global, tx: &Tx) -> Result<SpentRows, Memory> {
    let mut rows = SpentRows::new(alloc);
    for input in tx.inputs.as_slice() {
        if input.from.index < u32::MAX {
            rows.push(OutRow {
                script: Script::copy(alloc, &TAPROOT)?,
                height: 0,
                sats: Ranges::empty(alloc),
            })?;
        }
    }
    Ok(rows)
}

/// What a block's bytes give. `None` where they are no block, or there is no memory.
fn given_of(alloc: Global, bytes: &[u8]) -> Option<Given> {
    let block = read_block(alloc, bytes).ok()?;
    let ids = txids_of(alloc, &block).ok()?;
    let mut spent = Vec::new(alloc);
    for tx in block.txs.as_slice() {
        spent.push(spent_by(alloc, tx).ok()?).ok()?;
    }
    Some(Given { block, ids, spent })
}

/// Does a transaction at this height and place.
fn turn(
    ledger: &mut Ledger,
    height: u32,
    place: u32,
    id: Txid,
    tx: &Tx,
    spent: &SpentRows,
) -> Result<(), Memory>
    ensures { mark_in ledger.new ≡ mark_in ledger.old }
{
    let own = RuneId {
        block: u64::from(height),
        tx: place,
    };
    match ledger.by_id(own) {
        Some(_) => Err(Memory),
        None => ledger.turn(height, place, id, tx, spent),
    }
}

/// Does the transactions of a block.
fn turn_all(ledger: &mut Ledger, height: u32, given: &Given) -> Result<(), Memory>
    ensures { mark_in ledger.new ≡ mark_in ledger.old }
{
    let txs = given.block.txs.as_slice().iter().zip(&given.spent);
    let mut place: u32 = 0;
    for ((tx, spent), id) in txs.zip(given.ids.as_slice()) {
        turn(ledger, height, place, Txid(*id), tx, spent)?;
        place = place.saturating_add(1);
    }
    Ok(())
}

/// Sets the mark and does a block.
fn connect(ledger: &mut Ledger, height: u32, given: &Given) -> Result<(), Memory>
    ensures { OnOk result (IsSome (mark_in ledger.new)) }
{
    ledger.begin();
    turn_all(ledger, height, given)?;
    ledger.end()
}

/// Does a block and takes it back, so often, and then does it.
fn repeat(ledger: &mut Ledger, height: u32, given: &Given, times: u32) -> Result<(), Memory> {
    for _ in 0..times {
        connect(ledger, height, given)?;
        ledger.cancel();
    }
    connect(ledger, height, given)
}

/// A transaction's id, and how many outputs it has.
type Outputs = ([u8; 32], u32);

/// The transactions of a block behind those of others.
fn note(made: &mut Vec<Outputs>, given: &Given) -> Option<()> {
    for (tx, id) in given.block.txs.as_slice().iter().zip(given.ids.as_slice()) {
        let outputs = u32::try_from(tx.outputs.len()).ok()?;
        made.push((*id, outputs)).ok()?;
    }
    Some(())
}

/// Does a block that others follow, and puts its transactions behind those of others. `None` where
/// it is none, or there is no memory.
fn fill(
    alloc: Global,
    ledger: &mut Ledger,
    height: u32,
    bytes: &[u8],
    made: &mut Vec<Outputs>,
) -> Option<()> {
    let given = given_of(alloc, bytes)?;
    match connect(ledger, height, &given) {
        Ok(()) => note(made, &given),
        Err(_) => None,
    }
}

/// Does the last block so often and once more. `None` where it is none, or there is no memory.
fn finish(alloc: Global, ledger: &mut Ledger, height: u32, bytes: &[u8], times: u32) -> Option<()> {
    let given = given_of(alloc, bytes)?;
    repeat(ledger, height, &given, times).ok()
}

/// Does all blocks, the last so often and once more, and notes the transactions of the others.
/// `None` where one is none, or there is no memory.
fn work(
    alloc: Global,
    ledger: &mut Ledger,
    feed: &[u8],
    times: u32,
    made: &mut Vec<Outputs>,
) -> Option<()> {
    let mut rest = feed;
    for height in 0..u32::MAX {
        let (block, behind) = next_block(rest)?;
        if behind.is_empty() {
            return finish(alloc, ledger, height, block, times);
        }
        fill(alloc, ledger, height, block, made)?;
        rest = behind;
    }
    None
}

/// What these outputs hold.
fn look(ledger: &Ledger, made: &[Outputs]) -> Found {
    let mut found = Found {
        outputs: 0,
        amount: 0,
    };
    for (id, outputs) in made {
        for index in 0..*outputs {
            let at = OutPoint {
                txid: Txid(*id),
                index,
            };
            for (_, amount) in ledger.balance(&at) {
                found.outputs = found.outputs.saturating_add(1);
                found.amount = found.amount.wrapping_add(*amount);
            }
        }
    }
    found
}

/// How much of all runes is burned.
fn burned(ledger: &Ledger) -> u128 {
    let mut sum: u128 = 0;
    for number in 0..ledger.len() {
        sum = sum.wrapping_add(ledger.rune(number).burned);
    }
    sum
}

/// What stands in the ledger at the end.
#[derive(Clone, Copy)]
struct Totals {
    runes: u32,
    burned: u128,
    found: Found,
}

/// Does all blocks, and looks up the balances so often. `None` where there is no block, or no
/// memory.
fn measure(alloc: Global, feed: &[u8], times: u32, looks: u32) -> Option<Totals> {
    let mut ledger = Ledger::new(alloc, &profile_of(ProfileName::Regtest)).ok()?;
    let mut made = Vec::new(alloc);
    work(alloc, &mut ledger, feed, times, &mut made)?;
    let mut found = Found {
        outputs: 0,
        amount: 0,
    };
    for _ in 0..looks {
        found = look(&ledger, &made);
    }
    Some(Totals {
        runes: ledger.len(),
        burned: burned(&ledger),
        found,
    })
}

/// Does all blocks, the last of them so often and once more, looks up the balances so often, and
/// tells what stands in the ledger.
pub(crate) fn run(
    rt: &impl Print,
    alloc: Global,
    feed: &[u8],
    times: u32,
    looks: u32,
) -> anyhow::Result<()> {
    let Some(totals) = measure(alloc, feed, times, looks) else {
        return Ok(println!(rt; "no block, or no memory")?);
    };
    let Totals {
        runes,
        burned,
        found: Found { outputs, amount },
    } = totals;
    Ok(println!(rt; "{runes} runes, {burned} burned, {outputs} outputs hold {amount}")?)
}
