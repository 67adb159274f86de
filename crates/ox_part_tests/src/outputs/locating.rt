//! Where satoshis are.

ghost use Rattle.std.specs.Prelude.{◌≡◌, ◌+◌, ◌*◌, ◌<◌, ◌≤◌, ◌^◌, length};
ghost use Rattle.ox_outputs.specs.Table.{rows_in};
ghost use Rattle.ox_part_tests.specs.Rising.{AreWithin, HoldBelow};

use ox_block::{OutPoint, Txid};
use ox_outputs::Outputs;
use ox_range::Ranges;
use ox_rules::{OutRow, OutTable, Place, Script};
use std::alloc::Global;
use std::process::Abort;

/// So many outputs of one satoshi each.
const COUNT: u32 = 500_000;

/// So many runs of one output.
const RUNS: u32 = 300;

/// So many satoshis of one run: the reward of a block of the first years.
const LONG: u64 = 5_000_000_000;

/// So far apart begin runs that fall, more than 2^32.
const FAR: u64 = 3 << 32;

/// The outpoint of a number: a txid that begins with it in four bytes, and index 0.
fn outpoint(number: u32) -> OutPoint {
    let mut id = [0; 32];
    let [a, b, c, d] = number.to_be_bytes();
    id[0] = a;
    id[1] = b;
    id[2] = c;
    id[3] = d;
    OutPoint {
        txid: Txid(id),
        index: 0,
    }
}

/// So many satoshis from the first on.
#[tactic(auto, using(crate::proofs::Rising::numbers_within, crate::proofs::Rising::numbers_count))]
fn run(rt: &impl Abort, alloc: Global, first: u64, count: u64) -> Ranges
    requires { first + count < 2 ^ 40 }
    ensures within { AreWithin first (first + count) result }
    ensures len { length result ≡ count }
{
    Ranges::one(alloc, first, count).expect(rt, "memory")
}

/// No outputs.
fn fresh(alloc: Global) -> Outputs
    ensures { HoldBelow 0 (rows_in result) }
{
    Outputs::new(alloc)
}

/// A row that holds these satoshis.
fn row_of(rt: &impl Abort, alloc: Global, sats: Ranges) -> OutRow
    ensures { result.sats ≡ sats }
{
    OutRow {
        script: Script::copy(alloc, &[0x51]).expect(rt, "memory"),
        height: 0,
        sats,
    }
}

/// Places an output of so many satoshis at the outpoint of a number.
#[tactic(auto, using(crate::proofs::Rising::placed_below))]
fn put<O: OutTable>(
    rt: &impl Abort,
    alloc: Global,
    table: &mut O,
    number: u32,
    first: u64,
    count: u64,
)
    requires below { HoldBelow first (O.contents table.old) }
    requires fits { first + count < 2 ^ 40 }
    ensures below { HoldBelow (first + count) (O.contents table.new) }
    ensures mark { O.marked table.new ≡ O.marked table.old }
{
    let sats = run(rt, alloc, first, count);
    let row = row_of(rt, alloc, sats);
    table.place(&outpoint(number), row).expect(rt, "memory");
}

/// The outputs of all numbers below one, that of each with the satoshi of twice the number and no
/// other.
fn filled(rt: &impl Abort, alloc: Global, count: u32) -> Outputs {
    let mut table = fresh(alloc);
    for number in 0..count {
        put(rt, alloc, &mut table, number, 2 * u64::from(number), 1);
    }
    table
}

/// Whether a satoshi is found at this place of the output of a number.
fn is_at(table: &Outputs, sat: u64, number: u32, offset: u64) -> bool {
    table.locate(sat)
        == Some(Place::Out {
            outpoint: outpoint(number),
            offset,
        })
}

/// Whether the satoshi of twice a number is found in the output of the number, and the next one in
/// none.
fn is_located(table: &Outputs, number: u32) -> bool {
    let sat = 2 * u64::from(number);
    is_at(table, sat, number, 0) && table.locate(sat + 1).is_none()
}

/// Whether each satoshi of a table that is filled so far is found, and none between.
fn are_located(table: &Outputs, count: u32) -> bool {
    for number in 0..count {
        if !is_located(table, number) {
            return false;
        }
    }
    true
}

#[test]
fn each_of_many_satoshis_is_found(rt: HostRuntime) {
    let table = filled(&rt, rt.alloc(), COUNT);
    assert!(rt; are_located(&table, COUNT));
}

/// Two outputs: that of 1 holds the satoshis from 0 to 9, that of 2 those from 10 to 14.
fn two_runs(rt: &impl Abort, alloc: Global) -> Outputs
    ensures { HoldBelow 15 (rows_in result) }
{
    let mut table = fresh(alloc);
    put(rt, alloc, &mut table, 1, 0, 10);
    put(rt, alloc, &mut table, 2, 10, 5);
    table
}

#[test]
fn a_satoshi_is_found_at_both_ends_of_a_run(rt: HostRuntime) {
    let table = two_runs(&rt, rt.alloc());
    assert!(rt; is_at(&table, 0, 1, 0) && is_at(&table, 9, 1, 9));
    assert!(rt; is_at(&table, 10, 2, 0) && is_at(&table, 14, 2, 4));
    assert!(rt; table.locate(15).is_none());
}

/// Whether no output holds the first and the last satoshi of a run.
fn is_lost(table: &Outputs, first: u64, last: u64) -> bool {
    table.locate(first).is_none() && table.locate(last).is_none()
}

#[test]
fn a_displaced_satoshi_is_lost(rt: HostRuntime) {
    let mut table = two_runs(&rt, rt.alloc());
    put(&rt, rt.alloc(), &mut table, 1, 15, 3);
    assert!(rt; is_lost(&table, 0, 9) && is_at(&table, 10, 2, 0));
    assert!(rt; is_at(&table, 15, 1, 0) && is_at(&table, 17, 1, 2));
}

#[test]
fn a_displaced_satoshi_is_found_again_after_going_back(rt: HostRuntime) {
    let mut table = two_runs(&rt, rt.alloc());
    table.begin().expect(&rt, "memory");
    put(&rt, rt.alloc(), &mut table, 1, 15, 3);
    assert!(rt; is_lost(&table, 0, 9) && is_at(&table, 17, 1, 2));
    table.cancel();
    assert!(rt; is_at(&table, 0, 1, 0) && is_at(&table, 9, 1, 9) && is_lost(&table, 15, 17));
}

#[test]
fn a_taken_satoshi_is_found_again_after_going_back(rt: HostRuntime) {
    let mut table = two_runs(&rt, rt.alloc());
    table.begin().expect(&rt, "memory");
    table.take(&outpoint(2)).expect(&rt, "memory");
    assert!(rt; is_lost(&table, 10, 14) && is_at(&table, 9, 1, 9));
    table.cancel();
    assert!(rt; is_at(&table, 10, 2, 0) && is_at(&table, 14, 2, 4));
    table.take(&outpoint(1)).expect(&rt, "memory");
    assert!(rt; is_at(&table, 12, 2, 2) && is_lost(&table, 0, 9));
}

#[test]
fn a_taken_satoshi_stays_lost(rt: HostRuntime) {
    let mut table = two_runs(&rt, rt.alloc());
    table.begin().expect(&rt, "memory");
    table.take(&outpoint(2)).expect(&rt, "memory");
    table.begin().expect(&rt, "memory");
    assert!(rt; is_lost(&table, 10, 14) && is_at(&table, 9, 1, 9));
    table.take(&outpoint(1)).expect(&rt, "memory");
    assert!(rt; is_lost(&table, 0, 9));
    table.cancel();
    assert!(rt; is_lost(&table, 10, 14) && is_at(&table, 0, 1, 0));
}

/// Puts the run of a number behind, two satoshis: the third is in none.
#[tactic(auto, using(crate::proofs::Rising::joined_count))]
fn join_two(rt: &impl Abort, alloc: Global, sats: &mut Ranges, number: u32)
    requires within { AreWithin 0 (3 * number) sats.old }
    requires len { length sats.old ≡ 2 * number }
    ensures within { AreWithin 0 (3 * (number + 1)) sats.new }
    ensures len { length sats.new ≡ 2 * (number + 1) }
{
    let two = run(rt, alloc, 3 * u64::from(number), 2);
    sats.join(&two).expect(rt, "memory");
}

/// The runs of all numbers below one.
#[tactic(auto, using(crate::proofs::Rising::none_within))]
fn runs_below(rt: &impl Abort, alloc: Global, count: u32) -> Ranges
    ensures { AreWithin 0 (3 * count) result }
{
    let mut sats = Ranges::empty(alloc);
    for number in 0..count {
        join_two(rt, alloc, &mut sats, number);
    }
    sats
}

/// Places an output of many runs at the outpoint of 3.
#[tactic(auto, using(crate::proofs::Rising::placed_below))]
fn put_many(rt: &impl Abort, alloc: Global, table: &mut Outputs)
    requires { HoldBelow 0 (rows_in table.old) }
    ensures { HoldBelow (3 * 300) (rows_in table.new) }
{
    let sats = runs_below(rt, alloc, RUNS);
    let row = row_of(rt, alloc, sats);
    table.place(&outpoint(3), row).expect(rt, "memory");
}

/// Whether both satoshis of a number's run are found, and the third in no output.
fn is_run_located(table: &Outputs, number: u32) -> bool {
    let sat = 3 * u64::from(number);
    let offset = 2 * u64::from(number);
    is_at(table, sat, 3, offset)
        && is_at(table, sat + 1, 3, offset + 1)
        && table.locate(sat + 2).is_none()
}

/// Whether the runs of all numbers below one are found.
fn are_runs_located(table: &Outputs, count: u32) -> bool {
    for number in 0..count {
        if !is_run_located(table, number) {
            return false;
        }
    }
    true
}

#[test]
fn a_satoshi_is_found_in_a_row_of_many_runs(rt: HostRuntime) {
    let mut table = fresh(rt.alloc());
    put_many(&rt, rt.alloc(), &mut table);
    assert!(rt; are_runs_located(&table, RUNS));
    assert!(rt; table.locate(3 * u64::from(RUNS)).is_none());
}

#[test]
fn a_satoshi_is_found_in_a_long_run_behind_many(rt: HostRuntime) {
    let mut table = fresh(rt.alloc());
    put_many(&rt, rt.alloc(), &mut table);
    put(&rt, rt.alloc(), &mut table, 4, 900, LONG);
    put(&rt, rt.alloc(), &mut table, 5, 900 + LONG, 2);
    assert!(rt; is_at(&table, 900, 4, 0) && is_at(&table, 899 + LONG, 4, LONG - 1));
    assert!(rt; is_at(&table, 900 + LONG, 5, 0) && is_at(&table, 897, 3, 598));
    assert!(rt; is_lost(&table, 899, 902 + LONG));
}

/// Puts two satoshis behind others that are all much higher.
#[tactic(auto, using(crate::proofs::Rising::joined_count))]
fn join_lower(rt: &impl Abort, alloc: Global, sats: &mut Ranges, first: u64)
    requires within { AreWithin (first + 2) (2 ^ 36) sats.old }
    requires len { length sats.old ≤ 4 }
    requires low { first + 2 ≤ 2 ^ 36 }
    ensures within { AreWithin first (2 ^ 36) sats.new }
    ensures len { length sats.new ≡ length sats.old + 2 }
{
    let two = run(rt, alloc, first, 2);
    sats.join(&two).expect(rt, "memory");
}

/// Three runs of two satoshis each, which fall.
fn falling(rt: &impl Abort, alloc: Global) -> Ranges
    ensures { AreWithin 0 (2 ^ 36) result }
{
    let mut sats = run(rt, alloc, 2 * FAR, 2);
    join_lower(rt, alloc, &mut sats, FAR);
    join_lower(rt, alloc, &mut sats, 0);
    sats
}

/// Places an output of runs that fall at the outpoint of 6.
fn put_falling(rt: &impl Abort, alloc: Global, table: &mut Outputs)
    requires { HoldBelow 0 (rows_in table.old) }
{
    let sats = falling(rt, alloc);
    let row = row_of(rt, alloc, sats);
    table.place(&outpoint(6), row).expect(rt, "memory");
}

/// Whether both satoshis of a run are found at a place of that output, and the one behind in none.
fn is_falling_located(table: &Outputs, first: u64, offset: u64) -> bool
    requires sats { first < 2 ^ 36 }
    requires offsets { offset ≤ 4 }
{
    is_at(table, first, 6, offset)
        && is_at(table, first + 1, 6, offset + 1)
        && table.locate(first + 2).is_none()
}

#[test]
fn satoshis_of_runs_that_fall_far_are_found(rt: HostRuntime) {
    let mut table = fresh(rt.alloc());
    put_falling(&rt, rt.alloc(), &mut table);
    assert!(rt; is_falling_located(&table, 2 * FAR, 0));
    assert!(rt; is_falling_located(&table, FAR, 2));
    assert!(rt; is_falling_located(&table, 0, 4));
}
