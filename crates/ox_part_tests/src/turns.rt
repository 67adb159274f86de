//! What no clause says: that links are served where there is ample memory, in which order, and what
//! one link's faults leave of another's replies.

ghost use Rattle.ox_part_tests.specs.Served.{IsServed};

mod one_reply;
mod served;

use crate::turns::one_reply::OneReply;
use crate::turns::served::Served;
use ox_bytes::Bytes;
use ox_memsite::{MemSite, Said};
use ox_outside::Doorway;
use ox_turns::TurnFault;
use std::alloc::Global;
use std::process::Abort;

/// A request that is whole.
const REQUEST: &[u8] = b"GET / HTTP/1.1\r\nHost: a\r\n\r\n";

/// The reply to a link that is given up.
const BUSY: &[u8] =
    b"HTTP/1.1 503 Service Unavailable\r\nContent-Length: 0\r\nConnection: close\r\n\r\n";

/// The first reply, and then that one.
const OK_AND_BUSY: &[u8] =
    b"okHTTP/1.1 503 Service Unavailable\r\nContent-Length: 0\r\nConnection: close\r\n\r\n";

/// A desk that finds no memory at the calls from this one up to the other.
fn desk(alloc: Global, starved_from: u64, starved_until: u64) -> OneReply {
    OneReply {
        alloc,
        calls: 0,
        starved_from,
        starved_until,
    }
}

/// A server of this site whose desk finds memory always.
fn server_of(rt: &impl Abort, alloc: Global, site: MemSite) -> Served
    ensures { IsServed result.turns result.site }
{
    Served::new(rt, alloc, site, desk(alloc, 0, 0))
}

fn bytes_said(rt: &impl Abort, alloc: Global, bytes: &[u8]) -> Said {
    Said::Bytes(Bytes::copy(alloc, bytes).expect(rt, "memory"))
}

/// Lets a link wait at the public door.
fn add_link(rt: &impl Abort, site: &mut MemSite, script: &[Said]) {
    site.link(Doorway::Public, script).expect(rt, "memory");
}

/// Lets a link wait that says so often nothing yet, and then this.
fn add_slow_link(rt: &impl Abort, alloc: Global, site: &mut MemSite, wait: usize, last: Said) {
    let mut script = Vec::new(alloc);
    for _ in 0..wait {
        script.push(Said::NotYet).expect(rt, "memory");
    }
    script.push(last).expect(rt, "memory");
    add_link(rt, site, script.as_slice());
}

/// So many requests, one behind the other.
fn requests(rt: &impl Abort, alloc: Global, count: usize) -> Said {
    let mut bytes = Bytes::empty(alloc);
    for _ in 0..count {
        bytes.append(REQUEST).expect(rt, "memory");
    }
    Said::Bytes(bytes)
}

/// Lets a link wait that asks in so many pieces, each of so many requests.
fn add_asking_link(
    rt: &impl Abort,
    alloc: Global,
    site: &mut MemSite,
    pieces: usize,
    count: usize,
) {
    let mut script = Vec::new(alloc);
    for _ in 0..pieces {
        script.push(requests(rt, alloc, count)).expect(rt, "memory");
    }
    add_link(rt, site, script.as_slice());
}

/// A site at whose public door two links wait, each of which asks in so many pieces of so many
/// requests.
fn two_asking_links(rt: &impl Abort, alloc: Global, pieces: usize, count: usize) -> MemSite {
    let mut site = MemSite::new(alloc).expect(rt, "memory");
    add_asking_link(rt, alloc, &mut site, pieces, count);
    add_asking_link(rt, alloc, &mut site, pieces, count);
    site
}

/// Whether these bytes were shown to a link, and no more.
fn has_shown(rt: &impl Abort, site: &MemSite, link: u32, bytes: &[u8]) -> bool {
    site.shown(link).expect(rt, "memory").as_slice() == bytes
}

/// How many bytes were shown to a link.
fn shown_count(rt: &impl Abort, site: &MemSite, link: u32) -> usize {
    site.shown(link).expect(rt, "memory").len()
}

/// A site with 33 links at the public door. The fifth ends in its 29th turn, and the last asks.
fn crowded_site(rt: &impl Abort, alloc: Global) -> MemSite {
    let mut site = MemSite::new(alloc).expect(rt, "memory");
    for number in 1..33 {
        if number == 5 {
            add_slow_link(rt, alloc, &mut site, 28, Said::End);
        } else {
            add_link(rt, &mut site, &[]);
        }
    }
    add_asking_link(rt, alloc, &mut site, 1, 1);
    site
}

/// The site's moment after so many more turns.
fn moment_after(rt: &impl Abort, server: &mut Served, turns: usize) -> u64
    requires { IsServed server.old.turns server.old.site }
    ensures { IsServed server.new.turns server.new.site }
{
    server.make_turns(rt, turns);
    server.site.now()
}

/// How often the desk was called after so many more turns.
fn calls_after(rt: &impl Abort, server: &mut Served, turns: usize) -> u64
    requires { IsServed server.old.turns server.old.site }
    ensures { IsServed server.new.turns server.new.site }
{
    server.make_turns(rt, turns);
    server.desk.calls
}

/// Each round before the 32nd has a turn of each door and one of each link; the 32nd has none of
/// the operator's door, since no slot is free. The fifth link came in the fifth round, so it ends
/// in the 33rd, which has no door's turn. The next turn of the public door takes the 33rd link,
/// which then has its turn between the fourth link and the sixth.
#[test]
fn a_link_waits_for_a_slot_and_takes_the_one_that_is_left(rt: HostRuntime) {
    let mut server = server_of(&rt, rt.alloc(), crowded_site(&rt, rt.alloc()));
    assert!(rt; moment_after(&rt, &mut server, 31 * 2 + 31 * 32 / 2 + 33) == 32);
    assert!(rt; moment_after(&rt, &mut server, 4) == 32);
    assert!(rt; moment_after(&rt, &mut server, 1) == 34);
    assert!(rt; moment_after(&rt, &mut server, 27) == 34);
    assert!(rt; moment_after(&rt, &mut server, 1) == 35);
    assert!(rt; calls_after(&rt, &mut server, 4) == 0);
    assert!(rt; calls_after(&rt, &mut server, 1) == 1);
    server.make_turns(&rt, 33);
    assert!(rt; has_shown(&rt, &server.site, 33, b"ok"));
}

/// Whether two links that ask three times each are shown so much, and the desk is called so often,
/// where it finds no memory at the calls from one up to another.
fn serves(
    rt: &impl Abort,
    alloc: Global,
    starved: (u64, u64),
    first: &[u8],
    second: &[u8],
    calls: u64,
) -> bool {
    let site = two_asking_links(rt, alloc, 1, 3);
    let mut server = Served::new(rt, alloc, site, desk(alloc, starved.0, starved.1));
    server.make_turns(rt, 30);
    has_shown(rt, &server.site, 1, first)
        && has_shown(rt, &server.site, 2, second)
        && server.desk.calls == calls
}

/// The second link comes in the second round. Before it is heard there, the first link was shown
/// its first reply and asked its second request, which is the desk's second call.
#[test]
fn a_link_without_memory_is_given_up_beside_another(rt: HostRuntime) {
    let alloc = rt.alloc();
    assert!(rt; serves(&rt, alloc, (0, 0), b"okokok", b"okokok", 6));
    assert!(rt; serves(&rt, alloc, (1, 2), OK_AND_BUSY, b"okokok", 5));
    assert!(rt; serves(&rt, alloc, (0, u64::MAX), BUSY, BUSY, 2));
}

/// It came, was heard, ended and was shut.
#[test]
fn a_link_that_ends_in_a_head_is_shut_without_a_reply(rt: HostRuntime) {
    let alloc = rt.alloc();
    let mut site = MemSite::new(alloc).expect(&rt, "memory");
    add_link(
        &rt,
        &mut site,
        &[bytes_said(&rt, alloc, b"GET / HTTP"), Said::End],
    );
    let mut server = server_of(&rt, alloc, site);
    server.make_turns(&rt, 20);
    assert!(rt; server.site.now() == 4);
    assert!(rt; has_shown(&rt, &server.site, 1, b""));
    assert!(rt; server.desk.calls == 0);
}

/// Each round has a turn of both doors and one of the link. The request is heard in the 51st, and
/// the reply is shown in the next.
#[test]
fn a_link_that_says_nothing_fifty_times_is_waited_for(rt: HostRuntime) {
    let alloc = rt.alloc();
    let mut site = MemSite::new(alloc).expect(&rt, "memory");
    add_slow_link(&rt, alloc, &mut site, 50, bytes_said(&rt, alloc, REQUEST));
    let mut server = server_of(&rt, alloc, site);
    server.make_turns(&rt, 3 * 51 - 1);
    assert!(rt; server.desk.calls == 0);
    server.make_turns(&rt, 3);
    assert!(rt; server.desk.calls == 1);
    server.make_turns(&rt, 1);
    assert!(rt; has_shown(&rt, &server.site, 1, b"ok"));
}

/// The first round has three turns, and each later one four, of which two are a door's. So the
/// first link has 2,500 turns, and the second, which comes in the second round, one less. A hearing
/// brings 100 requests, and so 101 turns: 24 times that, then one more hearing, and 75 replies or
/// 74.
#[test]
fn two_links_are_served_in_turn(rt: HostRuntime) {
    let alloc = rt.alloc();
    let mut server = server_of(&rt, alloc, two_asking_links(&rt, alloc, 25, 100));
    server.make_turns(&rt, 10_000);
    assert!(rt; shown_count(&rt, &server.site, 1) == 2 * 2_475);
    assert!(rt; shown_count(&rt, &server.site, 2) == 2 * 2_474);
    assert!(rt; server.site.starved() == 0);
}

/// A server with two links, of whose calls this one fails. Those of the first round are 0 and 1 at
/// the doors, 2 for the hearing, and 3 for the desk's look at a file; those of the second begin
/// with 4 and 5 at the doors and 6 for the showing.
fn failing_server(rt: &impl Abort, alloc: Global, call: u64) -> Served
    ensures { IsServed result.turns result.site }
{
    let mut site = two_asking_links(rt, alloc, 1, 3);
    site.fail(call).expect(rt, "memory");
    server_of(rt, alloc, site)
}

/// How a turn fails after so many, of which this call fails, and when that is.
fn fault_after(
    rt: &impl Abort,
    alloc: Global,
    call: u64,
    turns: usize,
) -> (Option<TurnFault>, u64) {
    let mut server = failing_server(rt, alloc, call);
    server.make_turns(rt, turns);
    (server.turn(), server.site.now())
}

#[test]
fn a_failing_door_and_a_failing_disk_are_told(rt: HostRuntime) {
    assert!(rt; fault_after(&rt, rt.alloc(), 4, 3) == (Some(TurnFault::DoorFault), 2));
    assert!(rt; fault_after(&rt, rt.alloc(), 3, 2) == (Some(TurnFault::DiskFault), 2));
}

/// Whether the first link alone ends by this failing call, after so many turns and then.
fn ends_first_link(rt: &impl Abort, alloc: Global, call: u64, turns: usize, now: u64) -> bool {
    let mut server = failing_server(rt, alloc, call);
    server.make_turns(rt, turns);
    let then = server.site.now();
    server.make_turns(rt, 30);
    then == now && has_shown(rt, &server.site, 1, b"") && has_shown(rt, &server.site, 2, b"okokok")
}

#[test]
fn a_failing_hearing_or_showing_ends_its_link_alone(rt: HostRuntime) {
    assert!(rt; ends_first_link(&rt, rt.alloc(), 2, 3, 3));
    assert!(rt; ends_first_link(&rt, rt.alloc(), 6, 6, 5));
}
