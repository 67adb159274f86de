//! Many outpoints: some that a table looks for in one place, and as many that its lists are split.

ghost use Rattle.std.specs.Prelude.{◌≡◌};
ghost use Rattle.ox_part_tests.specs.Empty.{HoldNothing};

use crate::outputs::{fresh, put_at, take_at};
use Crowd::{Alike, Spread};
use ox_block::{OutPoint, Txid};
use ox_outputs::Outputs;
use ox_rules::OutTable;
use std::alloc::Global;
use std::process::Abort;

/// Which outpoints.
#[derive(Clone, Copy)]
enum Crowd {
    /// More than one list of places takes, of ids that begin with the same 14 bytes. Every two of
    /// them are alike but for the last byte.
    Alike,
    /// So many that lists are split in eleven rounds.
    Spread,
}

/// How many outpoints there are.
fn count(crowd: Crowd) -> u32 {
    match crowd {
        Alike => 500,
        Spread => 100_000,
    }
}

/// The outpoint of a number.
fn outpoint(crowd: Crowd, number: u32) -> OutPoint {
    let mut id = [0; 32];
    match crowd {
        Alike => {
            let [low, high, _, _] = (number / 2).to_le_bytes();
            id[14] = low;
            id[15] = high;
            id[31] = (number % 2) as u8;
        }
        Spread => {
            let [a, b, c, d] = number.wrapping_mul(2_654_435_769).to_le_bytes();
            id[2] = a;
            id[3] = b;
            id[4] = c;
            id[5] = d;
        }
    }
    OutPoint {
        txid: Txid(id),
        index: 0,
    }
}

/// A row at each outpoint, of the height of its number.
fn fill<O: OutTable>(rt: &impl Abort, alloc: Global, table: &mut O, crowd: Crowd)
    requires { HoldNothing (O.contents table.old) }
    ensures { HoldNothing (O.contents table.new) }
{
    for number in 0..count(crowd) {
        put_at(rt, alloc, table, &outpoint(crowd, number), 1, number);
    }
}

/// Every third row goes, and others give way to rows of height 5,000.
fn thin<O: OutTable>(rt: &impl Abort, alloc: Global, table: &mut O, crowd: Crowd)
    requires { HoldNothing (O.contents table.old) }
    ensures rows { HoldNothing (O.contents table.new) }
    ensures mark { O.marked table.new ≡ O.marked table.old }
{
    for number in 0..count(crowd) {
        match number % 6 {
            0 | 3 => take_at(rt, table, &outpoint(crowd, number)),
            1 => put_at(rt, alloc, table, &outpoint(crowd, number), 1, 5_000),
            _ => (),
        }
    }
}

/// The height of the row at each outpoint after `thin`, where there is one.
fn height_then(number: u32) -> Option<u32> {
    match number % 6 {
        0 | 3 => None,
        1 => Some(5_000),
        _ => Some(number),
    }
}

/// The height of the row at the outpoint of a number, where there is one.
fn height_at(table: &Outputs, crowd: Crowd, number: u32) -> Option<u32> {
    Some(table.get(&outpoint(crowd, number))?.height)
}

/// Whether the rows are those that `fill` places, or `thin` behind it.
fn stand(table: &Outputs, crowd: Crowd, thinned: bool) -> bool {
    for number in 0..count(crowd) {
        let then = if thinned {
            height_then(number)
        } else {
            Some(number)
        };
        if height_at(table, crowd, number) != then {
            return false;
        }
    }
    true
}

/// Whether rows that are taken and placed over a mark are back when the table goes back.
fn go_back(rt: &impl Abort, alloc: Global, crowd: Crowd) -> bool {
    let mut table = fresh(alloc);
    fill(rt, alloc, &mut table, crowd);
    table.begin().expect(rt, "memory");
    thin(rt, alloc, &mut table, crowd);
    let thinned = stand(&table, crowd, true);
    table.cancel();
    thinned && stand(&table, crowd, false)
}

#[test]
fn outpoints_of_one_list_go_back(rt: HostRuntime) {
    assert!(rt; go_back(&rt, rt.alloc(), Alike));
}

#[test]
fn outpoints_of_many_lists_go_back(rt: HostRuntime) {
    assert!(rt; go_back(&rt, rt.alloc(), Spread));
}

#[test]
fn outpoints_of_one_list_come_again(rt: HostRuntime) {
    let mut table = fresh(rt.alloc());
    fill(&rt, rt.alloc(), &mut table, Alike);
    table.begin().expect(&rt, "memory");
    thin(&rt, rt.alloc(), &mut table, Alike);
    table.begin().expect(&rt, "memory");
    assert!(rt; stand(&table, Alike, true));
    fill(&rt, rt.alloc(), &mut table, Alike);
    assert!(rt; stand(&table, Alike, false));
    assert!(rt; height_at(&table, Alike, 500) == None);
}
