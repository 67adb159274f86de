//! What of rows only a mark shows that is set by hand: none comes while some are hidden, and some
//! come and go under one mark.

ghost use Rattle.std.specs.Prelude.{◌≡◌};
ghost use Rattle.ox_block.specs.Spelling.{Lawful};
ghost use Rattle.ox_sat.specs.Heights.{first_at};
ghost use Rattle.ox_sat.specs.Profiles.{profile_named};
ghost use Rattle.ox_sat.specs.declared.profiles.ProfileName.TheVariants.{Regtest};
ghost use Rattle.ox_outputs.specs.Table.{rows_in};
ghost use Rattle.ox_transfer.specs.Apart.{HoldsOnce};

use ox_block::{Block, read_block, txids_of};
use ox_bytes::{Bytes, List};
use ox_envelope::{InsId, mark};
use ox_inscribe::{InsRow, SharedRow, Shelf, transfers_tell_of_transactions};
use ox_outputs::Outputs;
use ox_sat::{ProfileName, profile_of};
use ox_transfer::transfer;
use std::alloc::Global;
use std::process::Abort;

/// Marked rows below this height are cursed.
const JUBILEE: u64 = 10;

/// How many transactions a block has, and its coinbase, which claims the subsidy.
const TXS: &[u8; 62] = b"\x01\x01\0\0\0\x01\0\0\0\0\0\0\0\0\0\0\0\0\0\0\0\0\
    \0\0\0\0\0\0\0\0\0\0\0\0\0\0\0\0\xff\xff\xff\xff\0\xff\xff\xff\xff\
    \x01\0\xf2\x05\x2a\x01\0\0\0\x01\x51\0\0\0\0";

/// An id that begins with this byte.
fn id(name: u8) -> InsId {
    InsId {
        txid: [name; 32],
        index: 0,
    }
}

/// A row with this name below the jubilee, with these marks, on a satoshi or on none, whose parents
/// have these names.
fn row(
    rt: &impl Abort,
    alloc: Global,
    name: u8,
    marks: u16,
    sat: Option<u64>,
    parents: &[u8],
) -> SharedRow {
    let mut ids = List::new(alloc);
    for parent in parents {
        ids.push(id(*parent)).expect(rt, "memory");
    }
    let row = InsRow {
        id: id(name),
        height: 9,
        content_type: None,
        body: None,
        metadata: None,
        metaprotocol: None,
        encoding: None,
        pointer: None,
        delegate: None,
        parents: ids,
        marks,
        sat,
    };
    SharedRow::new(alloc, row).expect(rt, "memory")
}

/// Appends a row.
fn put(rt: &impl Abort, shelf: &mut Shelf, row: SharedRow)
    ensures { shelf.new.mark ≡ shelf.old.mark }
{
    assert!(rt; shelf.len() < 1_000_000);
    shelf.append(&[row]).expect(rt, "memory");
}

/// Four rows: 1 on 5; 2 on none, cursed, a child of 1; 3 on 3; and 4 on 5, cursed.
fn four_rows(rt: &impl Abort, alloc: Global) -> Shelf {
    let mut shelf = Shelf::new(alloc, JUBILEE);
    put(rt, &mut shelf, row(rt, alloc, 1, 0, Some(5), &[]));
    put(rt, &mut shelf, row(rt, alloc, 2, mark::EVEN, None, &[1]));
    put(rt, &mut shelf, row(rt, alloc, 3, 0, Some(3), &[]));
    put(rt, &mut shelf, row(rt, alloc, 4, mark::EVEN, Some(5), &[]));
    shelf
}

/// Drops rows that are there.
fn shorten(rt: &impl Abort, shelf: &mut Shelf, n: u32)
    ensures { shelf.new.mark ≡ shelf.old.mark }
{
    assert!(rt; n <= shelf.len());
    shelf.drop_last(n)
}

/// How many rows are shared from a number on, which is that of a row or the next.
fn shared_from(rt: &impl Abort, shelf: &Shelf, n: u32) -> usize {
    assert!(rt; n <= shelf.len());
    shelf.rows_from(n).expect(rt, "memory").len()
}

/// Whether the row at a place is there and has this number.
fn is_numbered(shelf: &Shelf, n: u32, number: i64) -> bool {
    n < shelf.len() && shelf.number(n) == number
}

/// Whether these are the numbers of all rows.
fn are_numbered(shelf: &Shelf, numbers: &[i64]) -> bool {
    for (n, number) in (0..shelf.len()).zip(numbers.iter()) {
        if !is_numbered(shelf, n, *number) {
            return false;
        }
    }
    shelf.len() as usize == numbers.len()
}

/// Whether the rows on 5 have these sequences, and so do the children of the first row.
fn shows(rt: &impl Abort, shelf: &Shelf, on: &[u32], children: &[u32]) -> bool {
    assert!(rt; shelf.len() > 0);
    shelf.on(5) == on && shelf.children(0) == children
}

/// Whether these rows can be appended, of which there are few.
fn appends(rt: &impl Abort, shelf: &mut Shelf, rows: &[SharedRow]) -> bool
    ensures { shelf.new.mark ≡ shelf.old.mark }
{
    assert!(rt; shelf.len() < 1_000_000 && rows.len() < 1_000_000);
    shelf.append(rows).is_ok()
}

/// The block of a coinbase alone.
fn block_of(rt: &impl Abort, alloc: Global) -> Block
    ensures { Lawful result }
{
    let mut bytes = Bytes::copy(alloc, &[0; 80]).expect(rt, "memory");
    bytes.append(TXS).expect(rt, "memory");
    read_block(alloc, bytes.as_slice()).expect(rt, "a block")
}

/// No outputs.
fn fresh(alloc: Global) -> Outputs
    ensures { HoldsOnce (first_at (profile_named Regtest) 0) (rows_in result) }
{
    Outputs::new(alloc)
}

/// Whether a block of a coinbase alone can be revealed.
fn reveals(
    rt: &impl Abort,
    alloc: Global,
    table: &mut Outputs,
    shelf: &mut Shelf,
    height: u32,
) -> bool
    requires { HoldsOnce (first_at (profile_named Regtest) height) (rows_in table.old) }
    ensures { shelf.new.mark ≡ shelf.old.mark }
{
    let p = profile_of(ProfileName::Regtest);
    let block = block_of(rt, alloc);
    let ids = txids_of(alloc, &block).expect(rt, "memory");
    let moved = transfer(alloc, table, &p, &block, &ids, height).expect(rt, "an accepted block");
    transfers_tell_of_transactions();
    shelf.reveal(&moved, &block, height).is_ok()
}

#[test]
fn nothing_comes_while_rows_are_hidden(rt: HostRuntime) {
    let alloc = rt.alloc();
    let mut table = fresh(alloc);
    let mut shelf = four_rows(&rt, alloc);
    shelf.begin();
    shorten(&rt, &mut shelf, 2);
    assert!(rt; shared_from(&rt, &shelf, 1) == 1 && shared_from(&rt, &shelf, 2) == 0);
    assert!(rt; !appends(&rt, &mut shelf, &[]));
    let more = row(&rt, alloc, 6, mark::EVEN, None, &[]);
    assert!(rt; !appends(&rt, &mut shelf, &[more]));
    assert!(rt; !reveals(&rt, alloc, &mut table, &mut shelf, 0));
    assert!(rt; are_numbered(&shelf, &[0, -1]) && shows(&rt, &shelf, &[0], &[1]));
    shelf.cancel();
    assert!(rt; are_numbered(&shelf, &[0, -1, 1, -2]) && shows(&rt, &shelf, &[0, 3], &[1]));
}

#[test]
fn rows_come_and_go_under_one_mark(rt: HostRuntime) {
    let alloc = rt.alloc();
    let mut shelf = four_rows(&rt, alloc);
    shelf.begin();
    // a parent that is named twice has its child once
    put(&rt, &mut shelf, row(&rt, alloc, 6, 0, Some(5), &[1, 1]));
    put(&rt, &mut shelf, row(&rt, alloc, 1, 0, Some(5), &[1]));
    assert!(rt; shows(&rt, &shelf, &[0, 3, 4, 5], &[1, 4, 5]));
    shorten(&rt, &mut shelf, 1);
    assert!(rt; shows(&rt, &shelf, &[0, 3, 4], &[1, 4]));
    shelf.cancel();
    assert!(rt; are_numbered(&shelf, &[0, -1, 1, -2]) && shows(&rt, &shelf, &[0, 3], &[1]));
}
