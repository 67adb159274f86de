//! A table over a thousand changes, and back.

ghost use Rattle.std.specs.Prelude.{◌≡◌, [], IsSome};
ghost use Rattle.ox_outputs.specs.Table.{rows_in};
ghost use Rattle.ox_part_tests.specs.Empty.{HoldNothing};

mod crowd;
mod locating;
mod ordered;

use ox_block::{OutPoint, Txid};
use ox_outputs::Outputs;
use ox_range::Ranges;
use ox_rules::{OutRow, OutTable, Script};
use std::alloc::Global;
use std::process::Abort;

/// The outpoints of the tests, in an order that isn't the table's.
fn outpoint(number: u32) -> OutPoint {
    let mut id = [0; 32];
    id[0] = (number % 7) as u8;
    OutPoint {
        txid: Txid(id),
        index: number,
    }
}

/// How long the script at this outpoint is: some stand in their row, and some don't.
fn length_at(number: u32) -> usize {
    match number % 4 {
        0 => 0,
        1 => 36,
        2 => 37,
        _ => 10_000,
    }
}

/// A row without satoshis, whose script has so many bytes.
fn row_of(rt: &impl Abort, alloc: Global, length: usize, height: u32) -> OutRow
    ensures { result.sats ≡ [] }
{
    let bytes = Vec::from_elem(alloc, 7, length).expect(rt, "memory");
    OutRow {
        script: Script::copy(alloc, bytes.as_slice()).expect(rt, "memory"),
        height,
        sats: Ranges::empty(alloc),
    }
}

/// Places a row at this outpoint, whose script has so many bytes.
#[tactic(auto, using(crate::proofs::Nothing::insert_holds, crate::proofs::Nothing::may_stand))]
pub(crate) fn put_at<O: OutTable>(
    rt: &impl Abort,
    alloc: Global,
    table: &mut O,
    at: &OutPoint,
    length: usize,
    height: u32,
)
    requires { HoldNothing (O.contents table.old) }
    ensures rows { HoldNothing (O.contents table.new) }
    ensures mark { O.marked table.new ≡ O.marked table.old }
{
    let row = row_of(rt, alloc, length, height);
    table.place(at, row).expect(rt, "memory");
}

/// Takes the row at this outpoint, if there is one.
#[tactic(auto, using(crate::proofs::Nothing::remove_holds))]
pub(crate) fn take_at<O: OutTable>(rt: &impl Abort, table: &mut O, at: &OutPoint)
    requires { HoldNothing (O.contents table.old) }
    ensures rows { HoldNothing (O.contents table.new) }
    ensures mark { O.marked table.new ≡ O.marked table.old }
{
    table.take(at).expect(rt, "memory");
}

/// Places a row at the outpoint of this number.
fn put<O: OutTable>(rt: &impl Abort, alloc: Global, table: &mut O, number: u32, height: u32)
    requires { HoldNothing (O.contents table.old) }
    ensures rows { HoldNothing (O.contents table.new) }
    ensures mark { O.marked table.new ≡ O.marked table.old }
{
    put_at(
        rt,
        alloc,
        table,
        &outpoint(number),
        length_at(number),
        height,
    );
}

/// Takes the row at the outpoint of this number, if there is one.
fn take<O: OutTable>(rt: &impl Abort, table: &mut O, number: u32)
    requires { HoldNothing (O.contents table.old) }
    ensures rows { HoldNothing (O.contents table.new) }
    ensures mark { O.marked table.new ≡ O.marked table.old }
{
    take_at(rt, table, &outpoint(number));
}

/// Rows at two of three outpoints of 300.
fn fill<O: OutTable>(rt: &impl Abort, alloc: Global, table: &mut O)
    requires { HoldNothing (O.contents table.old) }
    ensures { HoldNothing (O.contents table.new) }
{
    for number in 0..300u32 {
        if number % 3 != 0 {
            put(rt, alloc, table, number, number);
        }
    }
}

/// A thousand changes of 300 outpoints: rows that go, that come, and that take another's place.
fn change<O: OutTable>(rt: &impl Abort, alloc: Global, table: &mut O)
    requires { HoldNothing (O.contents table.old) }
    ensures { O.marked table.new ≡ O.marked table.old }
{
    for step in 0..1000u32 {
        let number = step * 7919 % 300;
        if step % 5 < 2 {
            take(rt, table, number);
        } else {
            put(rt, alloc, table, number, 1000 + step);
        }
    }
}

/// Whether all bytes are 7.
fn are_sevens(bytes: &[u8]) -> bool {
    for byte in bytes {
        if *byte != 7 {
            return false;
        }
    }
    true
}

/// Whether the row at this outpoint is the one that `fill` places there.
fn is_filled(table: &Outputs, number: u32) -> bool {
    match table.get(&outpoint(number)) {
        Some(row) => {
            number % 3 != 0
                && row.height == number
                && row.script.as_slice().len() == length_at(number)
                && are_sevens(row.script.as_slice())
        }
        None => number % 3 == 0,
    }
}

/// Whether the rows are those that `fill` places.
fn are_filled(table: &Outputs) -> bool {
    for number in 0..300u32 {
        if !is_filled(table, number) {
            return false;
        }
    }
    true
}

/// No outputs.
#[tactic(auto, using(crate::proofs::Nothing::none_hold))]
pub(crate) fn fresh(alloc: Global) -> Outputs
    ensures { HoldNothing (rows_in result) }
{
    Outputs::new(alloc)
}

#[test]
fn a_table_goes_back_over_a_thousand_changes(rt: HostRuntime) {
    let mut table = fresh(rt.alloc());
    fill(&rt, rt.alloc(), &mut table);
    table.begin().expect(&rt, "memory");
    change(&rt, rt.alloc(), &mut table);
    assert!(rt; !are_filled(&table));
    table.cancel();
    assert!(rt; are_filled(&table));
}
