//! The order of rows: all at once, and one by one.

ghost use Rattle.std.specs.Prelude.{◌≡◌};
ghost use Rattle.ox_part_tests.specs.Empty.{HoldNothing};

use crate::outputs::{fresh, put_at, take_at};
use ox_block::{OutPoint, Txid};
use ox_outputs::Outputs;
use ox_rules::{OutRow, OutTable};
use std::alloc::Global;
use std::process::Abort;

/// So many outpoints, of so many groups of four.
const COUNT: u32 = 1_200;

/// The outpoint of a number. Of the four in a group two are of one id, and the two ids are alike
/// but for the last byte.
fn outpoint(number: u32) -> OutPoint {
    let mut id = [0; 32];
    let [low, high, _, _] = (number / 4).to_le_bytes();
    id[2] = low;
    id[3] = high;
    id[31] = (number / 2 % 2) as u8;
    OutPoint {
        txid: Txid(id),
        index: number % 2 * 300,
    }
}

/// The number whose outpoint has so many before it. Of 300 groups those from 256 on stand behind
/// the one that has the same low byte.
fn nth(place: u32) -> u32 {
    let group = place / 4;
    if group < 88 {
        4 * (group / 2 + group % 2 * 256) + place % 4
    } else {
        4 * (group - 44) + place % 4
    }
}

/// A row at each outpoint, of the height of its number. They come in another order.
fn fill<O: OutTable>(rt: &impl Abort, alloc: Global, table: &mut O)
    requires { HoldNothing (O.contents table.old) }
    ensures { HoldNothing (O.contents table.new) }
{
    for step in 0..COUNT {
        let number = step * 7 % COUNT;
        put_at(rt, alloc, table, &outpoint(number), 1, number);
    }
}

/// Every third row goes, and others give way to rows of height 5,000.
fn thin<O: OutTable>(rt: &impl Abort, alloc: Global, table: &mut O)
    requires { HoldNothing (O.contents table.old) }
    ensures rows { HoldNothing (O.contents table.new) }
    ensures mark { O.marked table.new ≡ O.marked table.old }
{
    for number in 0..COUNT {
        match number % 6 {
            0 | 3 => take_at(rt, table, &outpoint(number)),
            1 => put_at(rt, alloc, table, &outpoint(number), 1, 5_000),
            _ => (),
        }
    }
}

/// The height of the row at the outpoint of a number, where there is one.
fn height_of(number: u32, thinned: bool) -> Option<u32> {
    match number % 6 {
        0 | 3 if thinned => None,
        1 if thinned => Some(5_000),
        _ => Some(number),
    }
}

/// The numbers of the outpoints that have rows, in their order.
fn wanted(rt: &impl Abort, alloc: Global, thinned: bool) -> Vec<u32> {
    let mut numbers = Vec::new(alloc);
    for place in 0..COUNT {
        let number = nth(place);
        if height_of(number, thinned).is_some() {
            numbers.push(number).expect(rt, "memory");
        }
    }
    numbers
}

/// Whether this is the row at the outpoint of a number.
fn is_row(entry: Option<(&OutPoint, &OutRow)>, number: u32, thinned: bool) -> bool {
    match entry {
        Some((at, row)) => {
            *at == outpoint(number) && Some(row.height) == height_of(number, thinned)
        }
        None => false,
    }
}

/// Whether the rows in order are those of `fill`, or of `thin` behind it.
fn come_in_order(rt: &impl Abort, alloc: Global, table: &Outputs, thinned: bool) -> bool {
    let numbers = wanted(rt, alloc, thinned);
    let order = table.in_order().expect(rt, "memory");
    for (place, number) in numbers.iter().enumerate() {
        if !is_row(order.get(place), *number, thinned) {
            return false;
        }
    }
    order.len() == numbers.len()
}

/// And whether the row past each fifth outpoint, with or without a row there, is the next one: each
/// look goes through all rows.
fn come_one_by_one(table: &Outputs, thinned: bool) -> bool {
    let mut past = None;
    for place in 0..COUNT {
        let number = nth(place);
        if place % 5 == 0
            && height_of(number, thinned).is_some()
            && !is_row(table.next_row(past.as_ref()), number, thinned)
        {
            return false;
        }
        past = Some(outpoint(number));
    }
    table.next_row(past.as_ref()).is_none()
}

/// Both.
fn stand_in_order(rt: &impl Abort, alloc: Global, table: &Outputs, thinned: bool) -> bool {
    come_in_order(rt, alloc, table, thinned) && come_one_by_one(table, thinned)
}

#[test]
fn nothing_comes_first(rt: HostRuntime) {
    let table = fresh(rt.alloc());
    assert!(rt; table.next_row(None).is_none());
    assert!(rt; table.next_row(Some(&outpoint(5))).is_none());
    assert!(rt; table.in_order().expect(&rt, "memory").is_empty());
}

#[test]
fn rows_stand_in_order_until_the_mark_and_back(rt: HostRuntime) {
    let mut table = fresh(rt.alloc());
    fill(&rt, rt.alloc(), &mut table);
    assert!(rt; stand_in_order(&rt, rt.alloc(), &table, false));
    table.begin().expect(&rt, "memory");
    thin(&rt, rt.alloc(), &mut table);
    assert!(rt; stand_in_order(&rt, rt.alloc(), &table, true));
    table.cancel();
    assert!(rt; stand_in_order(&rt, rt.alloc(), &table, false));
}

#[test]
fn slots_that_are_filled_again_stand_in_order(rt: HostRuntime) {
    let mut table = fresh(rt.alloc());
    fill(&rt, rt.alloc(), &mut table);
    thin(&rt, rt.alloc(), &mut table);
    assert!(rt; stand_in_order(&rt, rt.alloc(), &table, true));
    table.begin().expect(&rt, "memory");
    fill(&rt, rt.alloc(), &mut table);
    assert!(rt; stand_in_order(&rt, rt.alloc(), &table, false));
}
