//! A list that goes back to its mark.

ghost use Rattle.std.specs.Prelude.{◌≡◌, IsSome};

use ox_ledger::MarkedList;
use std::alloc::Global;
use std::process::Abort;

type Amounts = MarkedList<u64>;

/// A list with ten times the place at each place below a thousand, marked there.
fn thousand(rt: &impl Abort, alloc: Global) -> Amounts
    ensures { IsSome result.mark }
{
    let mut list = MarkedList::new(alloc);
    push_all(rt, &mut list, 1_000);
    list.begin();
    list
}

/// Appends values, each ten times the next place, until there are so many.
fn push_all(rt: &impl Abort, list: &mut Amounts, len: u32)
    ensures { list.new.mark ≡ list.old.mark }
{
    for place in list.len()..len {
        list.push(u64::from(place) * 10).expect(rt, "memory");
    }
}

/// Puts a value at a place, if there is one.
fn set(rt: &impl Abort, list: &mut Amounts, place: u32, value: u64)
    ensures { list.new.mark ≡ list.old.mark }
{
    if place < list.len() {
        list.set(place, value).expect(rt, "memory");
    }
}

/// Puts 1 at each even place below a thousand.
fn set_even(rt: &impl Abort, list: &mut Amounts)
    ensures { list.new.mark ≡ list.old.mark }
{
    for half in 0..500u32 {
        set(rt, list, half * 2, 1);
    }
}

/// Drops the values behind the first so many, if there are as many.
fn cut(list: &mut Amounts, len: u32)
    ensures { list.new.mark ≡ list.old.mark }
{
    if len <= list.len() {
        list.cut(len);
    }
}

/// Whether the list has this value at a place, or none.
fn has(list: &Amounts, place: u32, value: Option<u64>) -> bool {
    let there = if place < list.len() {
        Some(*list.get(place))
    } else {
        None
    };
    there == value
}

/// Whether so many places are told, and with each that there was ten times the place.
fn tells(rt: &impl Abort, list: &Amounts, count: usize) -> bool
    requires { IsSome list.now.mark }
{
    let changes = list.changed().expect(rt, "memory");
    for (place, then) in &changes {
        if then.copied() != Some(u64::from(*place) * 10) {
            return false;
        }
    }
    changes.len() == count
}

#[test]
fn a_thousand_values_go_back(rt: HostRuntime) {
    let mut list = thousand(&rt, rt.alloc());
    set_even(&rt, &mut list);
    push_all(&rt, &mut list, 1_010);
    assert!(rt; has(&list, 998, Some(1)) && has(&list, 1_009, Some(10_090)));
    assert!(rt; tells(&rt, &list, 500));
    list.restore();
    assert!(rt; has(&list, 998, Some(9_980)) && has(&list, 1_000, None));
    assert!(rt; tells(&rt, &list, 0));
    // cut below the mark
    set_even(&rt, &mut list);
    cut(&mut list, 600);
    assert!(rt; has(&list, 599, Some(5_990)) && has(&list, 600, None));
    push_all(&rt, &mut list, 1_300);
    set(&rt, &mut list, 601, 2);
    assert!(rt; has(&list, 601, Some(2)) && has(&list, 998, Some(9_980)));
    assert!(rt; tells(&rt, &list, 700));
    list.cancel();
    assert!(rt; has(&list, 0, Some(0)) && has(&list, 601, Some(6_010)));
    assert!(rt; has(&list, 999, Some(9_990)) && has(&list, 1_000, None));
}

#[test]
fn a_list_goes_back_to_its_last_mark(rt: HostRuntime) {
    let mut list = thousand(&rt, rt.alloc());
    cut(&mut list, 0);
    list.restore();
    set(&rt, &mut list, 3, 1);
    cut(&mut list, 600);
    list.begin();
    assert!(rt; tells(&rt, &list, 0));
    push_all(&rt, &mut list, 700);
    cut(&mut list, 2);
    list.cancel();
    assert!(rt; has(&list, 3, Some(1)) && has(&list, 599, Some(5_990)) && has(&list, 600, None));
}
