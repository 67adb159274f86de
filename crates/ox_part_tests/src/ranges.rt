//! Lists of satoshis that share their runs.

use ox_range::{Growing, Ranges, Run};
use std::alloc::Global;
use std::process::Abort;

/// So many runs of a long list.
const RUNS: u32 = 1000;

/// A run of so many numbers from the first on.
fn run(first: u64, count: u64) -> Run {
    Run { first, count }
}

/// Whether a list has these runs.
fn has(list: &Ranges, runs: &[Run]) -> bool {
    list.runs() == runs
}

/// Puts a list behind another.
fn join(rt: &impl Abort, list: &mut Ranges, tail: &Ranges) {
    assert!(rt; tail.len() <= u64::MAX - list.len());
    list.join(tail).expect(rt, "memory");
}

/// Puts ten numbers behind a list, from the first on.
fn put_ten(rt: &impl Abort, alloc: Global, list: &mut Ranges, first: u32) {
    let ten = Ranges::one(alloc, u64::from(first), 10).expect(rt, "memory");
    join(rt, list, &ten);
}

/// Ten numbers each from 0, 100 and 200 on.
fn three(rt: &impl Abort, alloc: Global) -> Ranges {
    let mut list = Ranges::empty(alloc);
    put_ten(rt, alloc, &mut list, 0);
    put_ten(rt, alloc, &mut list, 100);
    put_ten(rt, alloc, &mut list, 200);
    list
}

/// Whether a list is that of `three`.
fn is_three(list: &Ranges) -> bool {
    has(list, &[run(0, 10), run(100, 10), run(200, 10)])
}

/// The same list, shared.
fn copy(rt: &impl Abort, alloc: Global, list: &Ranges) -> Ranges {
    list.copy(alloc).expect(rt, "memory")
}

/// Cuts a list at a place, and gives what stood from there on.
fn cut(rt: &impl Abort, list: &mut Ranges, place: u64) -> Ranges {
    assert!(rt; place <= list.len());
    list.split_off(place).expect(rt, "memory")
}

#[test]
fn a_shared_list_is_cut_for_one(rt: HostRuntime) {
    let mut list = three(&rt, rt.alloc());
    let mut twin = copy(&rt, rt.alloc(), &list);
    let rest = cut(&rt, &mut twin, 15);
    assert!(rt; is_three(&list));
    assert!(rt; has(&twin, &[run(0, 10), run(100, 5)]));
    assert!(rt; has(&rest, &[run(105, 5), run(200, 10)]));
    let rest = cut(&rt, &mut list, 5);
    assert!(rt; has(&list, &[run(0, 5)]) && twin.len() == 15);
    assert!(rt; has(&rest, &[run(5, 5), run(100, 10), run(200, 10)]));
}

#[test]
fn a_shared_list_is_cut_between_runs_for_one(rt: HostRuntime) {
    let list = three(&rt, rt.alloc());
    let mut twin = copy(&rt, rt.alloc(), &list);
    let rest = cut(&rt, &mut twin, 10);
    assert!(rt; is_three(&list));
    assert!(rt; has(&twin, &[run(0, 10)]));
    assert!(rt; has(&rest, &[run(100, 10), run(200, 10)]));
}

#[test]
fn a_shared_list_is_cut_at_its_ends(rt: HostRuntime) {
    let list = three(&rt, rt.alloc());
    let mut twin = copy(&rt, rt.alloc(), &list);
    assert!(rt; cut(&rt, &mut twin, 30).is_empty() && is_three(&twin));
    let all = cut(&rt, &mut twin, 0);
    assert!(rt; is_three(&all) && is_three(&list));
    assert!(rt; twin.is_empty() && has(&twin, &[]));
}

#[test]
fn a_shared_list_grows_for_one(rt: HostRuntime) {
    let mut list = three(&rt, rt.alloc());
    let mut twin = copy(&rt, rt.alloc(), &list);
    put_ten(&rt, rt.alloc(), &mut twin, 210);
    assert!(rt; is_three(&list));
    assert!(rt; has(&twin, &[run(0, 10), run(100, 10), run(200, 20)]));
    put_ten(&rt, rt.alloc(), &mut list, 300);
    assert!(rt; list.len() == 40 && list.at(30) == 300);
    assert!(rt; has(&twin, &[run(0, 10), run(100, 10), run(200, 20)]));
}

#[test]
fn a_list_behind_none_is_shared(rt: HostRuntime) {
    let tail = three(&rt, rt.alloc());
    let mut list = Ranges::empty(rt.alloc());
    join(&rt, &mut list, &tail);
    assert!(rt; is_three(&list));
    let rest = cut(&rt, &mut list, 25);
    assert!(rt; is_three(&tail) && has(&rest, &[run(205, 5)]));
    assert!(rt; has(&list, &[run(0, 10), run(100, 10), run(200, 5)]));
}

#[test]
fn a_list_is_put_behind_itself(rt: HostRuntime) {
    let mut list = three(&rt, rt.alloc());
    let twin = copy(&rt, rt.alloc(), &list);
    join(&rt, &mut list, &twin);
    assert!(rt; is_three(&twin) && list.len() == 60);
    assert!(rt; list.runs().len() == 6 && list.at(30) == 0 && list.at(59) == 209);
}

/// Ten numbers from each hundred on, so many times.
fn long(rt: &impl Abort, alloc: Global, count: u32) -> Ranges {
    let mut list = Ranges::empty(alloc);
    for number in 0..count {
        put_ten(rt, alloc, &mut list, number.wrapping_mul(100));
    }
    list
}

#[test]
fn a_long_list_is_shared_and_cut(rt: HostRuntime) {
    let list = long(&rt, rt.alloc(), RUNS);
    let mut twin = copy(&rt, rt.alloc(), &list);
    let rest = cut(&rt, &mut twin, 5005);
    assert!(rt; list.len() == 10_000 && list.runs().len() == 1000);
    assert!(rt; twin.len() == 5005 && twin.runs().len() == 501 && twin.at(5004) == 50_004);
    assert!(rt; rest.len() == 4995 && rest.runs().len() == 500 && rest.at(0) == 50_005);
    join(&rt, &mut twin, &rest);
    assert!(rt; twin.runs() == list.runs());
}

/// A list that grows of this one and, behind it, of ten numbers from 210 on.
fn grown(rt: &impl Abort, alloc: Global, list: &Ranges) -> Growing {
    let mut grown = Growing::of(alloc, list).expect(rt, "memory");
    let ten = Ranges::one(alloc, 210, 10).expect(rt, "memory");
    assert!(rt; ten.len() <= u64::MAX - grown.len());
    grown.join(&ten).expect(rt, "memory");
    grown
}

/// The first numbers of a list that grows, so many.
fn front(rt: &impl Abort, list: &Growing, count: u64) -> Ranges {
    assert!(rt; count <= list.len());
    list.front(count).expect(rt, "memory")
}

/// Cuts a list that grows.
fn shorten(rt: &impl Abort, list: &mut Growing, count: u64) {
    assert!(rt; count <= list.len());
    list.truncate(count);
}

#[test]
fn a_list_grows_and_is_cut(rt: HostRuntime) {
    let list = three(&rt, rt.alloc());
    let mut grown = grown(&rt, rt.alloc(), &list);
    assert!(rt; is_three(&list));
    assert!(rt; grown.runs() == [run(0, 10), run(100, 10), run(200, 20)].as_slice());
    assert!(rt; has(&front(&rt, &grown, 12), &[run(0, 10), run(100, 2)]));
    assert!(rt; front(&rt, &grown, 0).is_empty() && front(&rt, &grown, 40).len() == 40);
    shorten(&rt, &mut grown, 15);
    assert!(rt; grown.runs() == [run(0, 10), run(100, 5)].as_slice() && grown.len() == 15);
    assert!(rt; grown.place_of(104) == Some(14) && grown.place_of(105).is_none());
    shorten(&rt, &mut grown, 0);
    assert!(rt; grown.len() == 0 && grown.runs().is_empty());
}
