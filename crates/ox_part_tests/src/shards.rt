//! A map over many short lines, with keys of one line and of one tag, and with as many that lines
//! are split.

use Step::{Get, Put, Take};
use ox_block::{OutPoint, Txid};
use ox_envelope::InsId;
use ox_shards::{Sharded, Shards};
use std::alloc::Global;
use std::process::Abort;

/// An outpoint whose transaction's id begins with these three bytes.
fn outpoint(first: u8, second: u8, third: u8, index: u32) -> OutPoint {
    let mut id = [0; 32];
    id[0] = first;
    id[1] = second;
    id[2] = third;
    OutPoint {
        txid: Txid(id),
        index,
    }
}

/// Four outpoints: two that are spread alike, one at each end of all ids.
fn four_outpoints() -> [OutPoint; 4] {
    [
        outpoint(7, 9, 1, 0),
        outpoint(7, 9, 2, 0),
        outpoint(0, 0, 0, 0),
        outpoint(255, 255, 255, u32::MAX),
    ]
}

/// What is done at a key.
#[derive(Clone, Copy)]
enum Step {
    Put(u64),
    Take,
    Get,
}

/// The value that stands at a key, or stood there before the step.
fn answer(
    rt: &impl Abort,
    map: &mut Shards<OutPoint, u64>,
    step: Step,
    key: OutPoint,
) -> Option<u64> {
    match step {
        Put(value) => map.insert(key, value).expect(rt, "memory"),
        Take => map.remove(&key),
        Get => map.get(&key).copied(),
    }
}

/// Whether each step answers the value beside it, or none.
fn follows(
    rt: &impl Abort,
    map: &mut Shards<OutPoint, u64>,
    steps: &[(Step, OutPoint, Option<u64>)],
) -> bool {
    for (step, key, value) in steps {
        if answer(rt, map, *step, *key) != *value {
            return false;
        }
    }
    true
}

#[test]
fn values_are_put_looked_up_displaced_and_taken_out(rt: HostRuntime) {
    let mut map = Shards::new(rt.alloc());
    let [a, b, low, high] = four_outpoints();
    assert!(rt;
        follows(
            &rt,
            &mut map,
            &[
                (Get, a, None),
                (Take, a, None),
                (Put(10), a, None),
                (Put(11), b, None),
                (Put(12), low, None),
                (Put(13), high, None),
                (Get, a, Some(10)),
                (Get, b, Some(11)),
                (Get, low, Some(12)),
                (Get, high, Some(13)),
                (Get, outpoint(9, 7, 1, 0), None),
                (Get, outpoint(7, 10, 1, 0), None),
                (Put(20), a, Some(10)),
                (Take, high, Some(13)),
                (Take, high, None),
                (Get, a, Some(20)),
                (Get, b, Some(11)),
                (Get, low, Some(12)),
                (Get, high, None)
            ]
        )
    );
}

#[test]
fn outputs_of_a_transaction_and_keys_of_one_tag_are_told_apart(rt: HostRuntime) {
    let mut map = Shards::new(rt.alloc());
    let (one, other) = (outpoint(7, 9, 2, 0), outpoint(7, 8, 2, 0));
    assert!(rt; one.spread() == other.spread() && one.tag() == other.tag());
    assert!(rt;
        follows(
            &rt,
            &mut map,
            &[
                (Put(1), outpoint(7, 9, 1, 0), None),
                (Get, outpoint(7, 9, 1, 1), None),
                (Put(2), outpoint(7, 9, 1, 1), None),
                (Put(3), outpoint(7, 9, 1, 65_536), None),
                (Put(4), outpoint(7, 9, 1, 65_537), None),
                (Put(5), outpoint(7, 9, 1, u32::MAX), None),
                (Get, outpoint(7, 9, 1, 0), Some(1)),
                (Get, outpoint(7, 9, 1, 1), Some(2)),
                (Get, outpoint(7, 9, 1, 65_536), Some(3)),
                (Get, outpoint(7, 9, 1, u32::MAX), Some(5)),
                (Get, outpoint(7, 9, 1, 2), None),
                (Put(10), one, None),
                (Get, one, Some(10)),
                (Get, other, None),
                (Put(11), other, None),
                (Get, one, Some(10)),
                (Take, other, Some(11)),
                (Get, one, Some(10)),
                (Get, other, None)
            ]
        )
    );
}

/// Whether the map has this value at a key, or none.
fn has<K: Sharded>(map: &Shards<K, u64>, key: K, value: Option<u64>) -> bool {
    map.get(&key).copied() == value
}

#[test]
fn other_keys_are_told_apart(rt: HostRuntime) {
    let (mut ids, mut names) = (Shards::new(rt.alloc()), Shards::new(rt.alloc()));
    let txid = [7; 32];
    for index in 0..100u32 {
        ids.insert(InsId { txid, index }, u64::from(index))
            .expect(&rt, "memory");
    }
    for name in 0..1_000u32 {
        names
            .insert(u128::from(name), u64::from(name))
            .expect(&rt, "memory");
    }
    assert!(rt; has(&ids, InsId { txid, index: 0 }, Some(0)));
    assert!(rt; has(&ids, InsId { txid, index: 99 }, Some(99)));
    assert!(rt; has(&ids, InsId { txid, index: 100 }, None));
    assert!(rt; has(&names, 0, Some(0)) && has(&names, 999, Some(999)) && has(&names, 1_000, None));
}

#[test]
fn what_is_there_is_read_ahead(rt: HostRuntime) {
    let [a, b, _, _] = four_outpoints();
    let mut map: Shards<OutPoint, u64> = Shards::new(rt.alloc());
    map.glance(&a);
    assert!(rt; map.glance_entry(&b) == 0 && map.candidate(&a).is_none());
    map.insert(a, 10).expect(&rt, "memory");
    map.insert(b, 11).expect(&rt, "memory");
    map.glance(&a);
    map.glance(&outpoint(7, 10, 1, 0));
    assert!(rt; map.glance_entry(&a) == a.tag() && map.glance_entry(&b) == b.tag());
    assert!(rt; map.glance_entry(&outpoint(7, 9, 3, 0)) == 0);
    assert!(rt; has(&map, a, Some(10)) && map.candidate(&b).copied() == Some((b, 11)));
}

/// One of the outpoints that are spread alike, whose line has room for 64.
fn of_one_line(third: u8) -> OutPoint {
    outpoint(7, 9, third, 0)
}

/// Whether a map has those of nine outpoints of one line that are named, and no other of them.
fn has_just(map: &Shards<OutPoint, u64>, thirds: &[u8]) -> bool {
    for third in 0..9u8 {
        let value = if thirds.contains(&third) {
            Some(u64::from(third))
        } else {
            None
        };
        if !has(map, of_one_line(third), value) {
            return false;
        }
    }
    true
}

/// Whether a new map has just the outpoints that it should at each step: these are put in, and
/// taken out in another order.
fn come_and_go(rt: &impl Abort, alloc: Global, coming: &[u8], going: &[u8]) -> bool {
    let mut map = Shards::new(alloc);
    for (count, third) in coming.iter().enumerate() {
        if !has_just(&map, &coming[..count]) {
            return false;
        }
        map.insert(of_one_line(*third), u64::from(*third))
            .expect(rt, "memory");
    }
    for (count, third) in going.iter().enumerate() {
        let taken = map.remove(&of_one_line(*third));
        if taken != Some(u64::from(*third)) || !has_just(&map, &going[count + 1..]) {
            return false;
        }
    }
    has_just(&map, &[])
}

#[test]
fn a_few_keys_of_one_line_come_and_go(rt: HostRuntime) {
    assert!(rt; come_and_go(&rt, rt.alloc(), &[3], &[3]));
    assert!(rt; come_and_go(&rt, rt.alloc(), &[3, 0], &[3, 0]));
    assert!(rt; come_and_go(&rt, rt.alloc(), &[0, 1, 2, 3, 4, 5], &[2, 4, 0, 5, 1, 3]));
    assert!(rt;
        come_and_go(
            &rt,
            rt.alloc(),
            &[0, 1, 2, 3, 4, 5, 6, 7],
            &[4, 0, 7, 5, 3, 1, 6, 2]
        )
    );
}

#[test]
fn a_key_behind_a_full_line_stands_once(rt: HostRuntime) {
    let mut map = Shards::new(rt.alloc());
    for third in 0..70u8 {
        map.insert(of_one_line(third), u64::from(third))
            .expect(&rt, "memory");
    }
    let [first, last, new] = [of_one_line(3), of_one_line(69), of_one_line(70)];
    assert!(rt;
        follows(
            &rt,
            &mut map,
            &[
                (Take, first, Some(3)),
                (Get, first, None),
                (Put(190), last, Some(69)),
                (Take, last, Some(190)),
                (Get, last, None),
                (Put(200), new, None),
                (Get, new, Some(200)),
                (Get, of_one_line(0), Some(0)),
                (Get, of_one_line(68), Some(68))
            ]
        )
    );
}

#[test]
fn a_thousand_outpoints_are_taken_out(rt: HostRuntime) {
    let mut map = Shards::new(rt.alloc());
    for key in 0..1_000u32 {
        let at = outpoint((key / 256) as u8, (key % 256) as u8, 0, key);
        map.insert(at, u64::from(key)).expect(&rt, "memory");
    }
    for key in 0..1_000u32 {
        let at = outpoint((key / 256) as u8, (key % 256) as u8, 0, key);
        assert!(rt; map.remove(&at) == Some(u64::from(key)) && map.get(&at).is_none());
    }
}

/// An outpoint that is spread by a number, made of another one so that near numbers come apart.
fn spread_by(number: u32) -> OutPoint {
    let mut id = [0; 32];
    let spread = u64::from(number).wrapping_mul(0x9e37_79b9_7f4a_7c15) >> 32;
    let [first, second, third, fourth, _, _, _, _] = spread.to_le_bytes();
    id[6] = first;
    id[7] = second;
    id[8] = third;
    id[9] = fourth;
    id[0] = (number % 256) as u8;
    OutPoint {
        txid: Txid(id),
        index: 0,
    }
}

/// Whether the map has each of these outpoints whose number leaves this by 3, with its number, and
/// none of the others.
fn has_those_that_leave(map: &Shards<OutPoint, u64>, count: u32, left: u32) -> bool {
    for number in 0..count {
        let value = if number % 3 == left {
            Some(u64::from(number))
        } else {
            None
        };
        if !has(map, spread_by(number), value) {
            return false;
        }
    }
    true
}

#[test]
fn forty_thousand_keys_stand_where_they_are_looked_for(rt: HostRuntime) {
    let mut map = Shards::new(rt.alloc());
    for number in 0..40_000u32 {
        map.insert(spread_by(number), u64::from(number))
            .expect(&rt, "memory");
        assert!(rt; has(&map, spread_by(number / 2), Some(u64::from(number / 2))));
    }
    for number in 0..40_000u32 {
        assert!(rt; has(&map, spread_by(number), Some(u64::from(number))));
    }
    assert!(rt; has(&map, spread_by(40_000), None));
    for number in 0..40_000u32 {
        if number % 3 != 1 {
            assert!(rt; map.remove(&spread_by(number)) == Some(u64::from(number)));
        }
    }
    assert!(rt; has_those_that_leave(&map, 40_000, 1));
}

/// One of the outpoints whose ids agree in all bytes by which they are spread, and in their tags.
fn alike(number: u16) -> OutPoint {
    let [low, high] = number.to_le_bytes();
    outpoint(low, high, 0, 0)
}

#[test]
fn two_thousand_keys_that_are_spread_alike_are_told_apart(rt: HostRuntime) {
    let mut map = Shards::new(rt.alloc());
    for number in 0..2_000u16 {
        map.insert(alike(number), u64::from(number))
            .expect(&rt, "memory");
    }
    for number in 0..2_000u16 {
        assert!(rt; has(&map, alike(number), Some(u64::from(number))));
    }
    assert!(rt; has(&map, alike(2_000), None));
    for number in 0..2_000u16 {
        assert!(rt; map.remove(&alike(number)) == Some(u64::from(number)));
    }
    assert!(rt; has(&map, alike(0), None) && has(&map, alike(1_999), None));
}
