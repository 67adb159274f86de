//! A map that goes back to its mark.

ghost use Rattle.std.specs.Prelude.{◌≡◌, IsSome};
ghost use Rattle.std.specs.Ordering.{nat_cmp};
ghost use Rattle.ox_marked.specs.Marked.{mark_in};

use ox_marked::Marked;
use std::alloc::Global;
use std::process::Abort;

type Amounts = Marked<u128, u64>;

/// A map with 10 at 1 and 20 at 2, marked there.
fn two(rt: &impl Abort, alloc: Global) -> Amounts
    ensures { IsSome (mark_in nat_cmp result) }
{
    let mut map = Marked::new(alloc);
    map.put(1, Some(10)).expect(rt, "memory");
    map.put(2, Some(20)).expect(rt, "memory");
    map.begin();
    map
}

/// A map with ten times the key at each key below a thousand.
fn thousand(rt: &impl Abort, alloc: Global) -> Amounts {
    let mut map = Marked::new(alloc);
    for key in 0..1_000u32 {
        map.put(u128::from(key), Some(u64::from(key) * 10))
            .expect(rt, "memory");
    }
    map
}

/// Takes the value out at each even key below a thousand.
fn take_even(rt: &impl Abort, map: &mut Amounts)
    ensures { mark_in nat_cmp map.new ≡ mark_in nat_cmp map.old }
{
    for half in 0..500u32 {
        map.put(u128::from(half * 2), None).expect(rt, "memory");
    }
}

/// A key, and the value that is put there, or none where it is taken out; or what is there.
type Entry = (u128, Option<u64>);

/// Puts values at keys, one after the other.
fn put_all(rt: &impl Abort, map: &mut Amounts, entries: &[Entry])
    ensures { mark_in nat_cmp map.new ≡ mark_in nat_cmp map.old }
{
    for (key, value) in entries {
        map.put(*key, *value).expect(rt, "memory");
    }
}

/// Whether the map has this value at a key, or none.
fn has(map: &Amounts, key: u128, value: Option<u64>) -> bool {
    map.get(&key).copied() == value
}

/// Whether the map has these.
fn has_all(map: &Amounts, entries: &[Entry]) -> bool {
    for (key, value) in entries {
        if !has(map, *key, *value) {
            return false;
        }
    }
    true
}

/// Whether these are the keys that were put since the mark, with the values that there were then.
fn has_changed(rt: &impl Abort, map: &Amounts, changes: &[(u128, Option<&u64>)]) -> bool {
    map.changed().expect(rt, "memory").as_slice() == changes
}

/// Whether the map of two has these after puts, tells these changes then, and goes back.
fn goes_back(
    rt: &impl Abort,
    alloc: Global,
    puts: &[Entry],
    then: &[Entry],
    changes: &[(u128, Option<&u64>)],
) -> bool {
    let mut map = two(rt, alloc);
    put_all(rt, &mut map, puts);
    let is_so = has_all(&map, then) && has_changed(rt, &map, changes);
    map.cancel();
    is_so && has_all(&map, &[(1, Some(10)), (2, Some(20)), (3, None)]) && has_changed(rt, &map, &[])
}

#[test]
fn a_few_keys_go_back(rt: HostRuntime) {
    let alloc = rt.alloc();
    let puts = [(1, Some(11)), (1, Some(12))];
    assert!(rt; goes_back(&rt, alloc, &puts, &[(1, Some(12))], &[(1, Some(&10))]));
    assert!(rt; goes_back(&rt, alloc, &[(2, None)], &[(2, None)], &[(2, Some(&20))]));
    let puts = [(2, None), (3, Some(30)), (2, Some(21))];
    let changes = [(2, Some(&20)), (3, None)];
    assert!(rt; goes_back(&rt, alloc, &puts, &[(2, Some(21))], &changes));
    let puts = [(3, Some(30)), (1, None), (3, None), (1, Some(11))];
    let changes = [(1, Some(&10)), (3, None)];
    assert!(rt; goes_back(&rt, alloc, &puts, &[(1, Some(11)), (3, None)], &changes));
    assert!(rt; goes_back(&rt, alloc, &[(3, None)], &[(3, None)], &[(3, None)]));
}

/// Whether the map of two goes back to a new mark, behind puts, at which it has these. An earlier
/// change was taken back. A key whose tag no other has is read ahead in vain.
fn goes_to_new_mark(
    rt: &impl Abort,
    alloc: Global,
    before: &[Entry],
    marked: &[Entry],
    puts: &[Entry],
) -> bool {
    let mut map = two(rt, alloc);
    put_all(rt, &mut map, &[(1, None)]);
    map.cancel();
    put_all(rt, &mut map, before);
    map.begin();
    let is_so = has_all(&map, marked) && has_changed(rt, &map, &[]);
    put_all(rt, &mut map, puts);
    let is_put = has_all(&map, puts) && !map.glance_value(&65_536);
    map.cancel();
    is_so && is_put && has_all(&map, marked)
}

#[test]
fn a_new_mark_stands_where_changes_led(rt: HostRuntime) {
    let alloc = rt.alloc();
    let before = [(2, None), (3, Some(30))];
    let marked = [(1, Some(10)), (2, None), (3, Some(30))];
    assert!(rt; goes_to_new_mark(&rt, alloc, &before, &marked, &[(3, None)]));
    let marked = [(3, None), (2, Some(20))];
    assert!(rt; goes_to_new_mark(&rt, alloc, &[(3, None)], &marked, &[(3, Some(30))]));
}

/// How many keys have changed since the mark.
fn changes_of(rt: &impl Abort, map: &Amounts) -> usize {
    map.changed().expect(rt, "memory").len()
}

#[test]
fn a_thousand_keys_go_back(rt: HostRuntime) {
    let mut map = thousand(&rt, rt.alloc());
    map.begin();
    take_even(&rt, &mut map);
    assert!(rt; changes_of(&rt, &map) == 500);
    assert!(rt; has(&map, 998, None) && has(&map, 999, Some(9_990)));
    map.restore();
    assert!(rt; has(&map, 998, Some(9_980)) && has_changed(&rt, &map, &[]));
    take_even(&rt, &mut map);
    map.cancel();
    assert!(rt; has(&map, 998, Some(9_980)) && has(&map, 999, Some(9_990)));
    // what was lost before a mark stays lost
    take_even(&rt, &mut map);
    map.begin();
    assert!(rt; has(&map, 998, None) && has_changed(&rt, &map, &[]));
    map.put(999, None).expect(&rt, "memory");
    assert!(rt; has(&map, 999, None));
    map.cancel();
    assert!(rt; has(&map, 998, None) && has(&map, 999, Some(9_990)));
}
