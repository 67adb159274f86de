//! The outputs of long scripts, and of one script that has many.

use ox_block::{OutPoint, Script, Txid};
use ox_holders::Holders;
use ox_range::Ranges;
use ox_rules::OutRow;
use std::alloc::Global;
use std::process::Abort;

/// How many outputs one script has.
const COUNT: u32 = 200_000;

/// The outpoint of a number. Numbers that rise don't have outpoints that rise, and two outpoints
/// hardly ever begin alike, so that a program that isn't optimised compares them quickly too.
fn outpoint(number: u32) -> OutPoint {
    let mut id = [0; 32];
    id[0] = (number % 256) as u8;
    id[1] = (number / 256 % 256) as u8;
    OutPoint {
        txid: Txid(id),
        index: number,
    }
}

/// A row without satoshis at the outpoint of a number.
fn row_at(rt: &impl Abort, alloc: Global, number: u32, script: &[u8]) -> (OutPoint, OutRow) {
    let row = OutRow {
        script: Script::copy(alloc, script).expect(rt, "memory"),
        height: 0,
        sats: Ranges::empty(alloc),
    };
    (outpoint(number), row)
}

/// Whether a script has the output at the outpoint of a number, and no other.
fn has_one(rt: &impl Abort, holders: &Holders, script: &[u8], number: u32) -> bool {
    let found = holders.outputs(script).expect(rt, "memory");
    found.as_slice().len() == 1 && found.as_slice()[0] == outpoint(number)
}

/// Whether a script has no output.
fn has_none(rt: &impl Abort, holders: &Holders, script: &[u8]) -> bool {
    holders.outputs(script).expect(rt, "memory").len() == 0
}

/// Of scripts whose first bytes are the same, the longest that an address has, two that are one
/// byte longer, and one that is longer still.
fn long_scripts() -> ([u8; 42], [u8; 43], [u8; 43], [u8; 44]) {
    let mut other = [7; 43];
    other[42] = 8;
    ([7; 42], [7; 43], other, [7; 44])
}

#[test]
fn scripts_of_43_bytes_are_told_apart(rt: HostRuntime) {
    let (short, long, other, longer) = long_scripts();
    let gone = [row_at(&rt, rt.alloc(), 2, &long)];
    let holders = Holders::new(rt.alloc())
        .step(&[], &[row_at(&rt, rt.alloc(), 1, &short)])
        .expect(&rt, "memory")
        .step(&[], &gone)
        .expect(&rt, "memory")
        .step(&[], &[row_at(&rt, rt.alloc(), 3, &other)])
        .expect(&rt, "memory");
    assert!(rt; has_one(&rt, &holders, &short, 1));
    assert!(rt; has_one(&rt, &holders, &long, 2));
    assert!(rt; has_one(&rt, &holders, &other, 3));
    assert!(rt; has_none(&rt, &holders, &longer));
    let holders = holders.step(&gone, &[]).expect(&rt, "memory");
    assert!(rt; has_one(&rt, &holders, &short, 1));
    assert!(rt; has_none(&rt, &holders, &long));
    assert!(rt; has_one(&rt, &holders, &other, 3));
}

/// So many rows of one script.
fn many_rows(rt: &impl Abort, alloc: Global, script: &[u8]) -> Vec<(OutPoint, OutRow)> {
    let mut rows = Vec::new(alloc);
    for number in 0..COUNT {
        rows.push(row_at(rt, alloc, number, script))
            .expect(rt, "memory");
    }
    rows
}

/// Whether a script has so many outputs, which rise.
fn has_many(rt: &impl Abort, holders: &Holders, script: &[u8]) -> bool {
    let found = holders.outputs(script).expect(rt, "memory");
    let mut before = outpoint(0);
    for (place, at) in found.as_slice().iter().enumerate() {
        if place > 0 && *at <= before {
            return false;
        }
        before = *at;
    }
    found.len() == COUNT as usize
}

#[test]
fn many_outputs_of_one_script_come_and_go(rt: HostRuntime) {
    let rows = many_rows(&rt, rt.alloc(), &[7]);
    let holders = Holders::new(rt.alloc())
        .step(&[], rows.as_slice())
        .expect(&rt, "memory");
    assert!(rt; has_many(&rt, &holders, &[7]));
    assert!(rt; has_none(&rt, &holders, &[]));
    let holders = holders.step(rows.as_slice(), &[]).expect(&rt, "memory");
    assert!(rt; has_none(&rt, &holders, &[7]));
}
