//! GETs that one desk answers again and again.

ghost use Rattle.std.specs.Prelude.{IfSome};
ghost use Rattle.ox_desk.specs.Desk.{Rests};

use crate::say::say;
use crate::words::{NO_ROW, number_of};
use ox_bytes::Bytes;
use ox_desk::StoreDesk;
use ox_http::{Method, Request};
use ox_outside::Site;
use ox_store::Store;
use ox_turns::Desk;
use std::alloc::Global;
use std::io;

/// A GET of a path, with which the link goes on.
fn get(alloc: Global, path: &str) -> Option<Request> {
    Some(Request {
        method: Method::Get,
        path: Bytes::copy(alloc, path.as_bytes()).ok()?,
        body: Bytes::empty(alloc),
        close: false,
    })
}

/// A GET of each path.
fn gets(alloc: Global, paths: &[&str]) -> Option<Vec<Request>> {
    let mut requests = Vec::new(alloc);
    for path in paths {
        requests.push(get(alloc, path)?).ok()?;
    }
    Some(requests)
}

/// Answers a request. How many bytes the reply has; `None` where there is none.
fn answer<S: Site>(desk: &mut StoreDesk, site: &mut S, request: &Request) -> Option<u64>
    requires { Rests S.Site desk.old site.old }
    ensures { IfSome result (λ _. Rests S.Site desk.new site.new) }
{
    if desk.requests() == u64::MAX {
        return None;
    }
    let made = desk.ask(site, request, false).ok()?;
    Some(made.bytes.len() as u64)
}

/// The same for each of some requests.
fn answer_round<S: Site>(desk: &mut StoreDesk, site: &mut S, requests: &[Request]) -> Option<u64>
    requires { Rests S.Site desk.old site.old }
    ensures { IfSome result (λ _. Rests S.Site desk.new site.new) }
{
    let mut bytes = 0u64;
    for request in requests {
        bytes = bytes.wrapping_add(answer(desk, site, request)?);
    }
    Some(bytes)
}

/// The same so many times.
fn answer_often<S: Site>(
    desk: &mut StoreDesk,
    site: &mut S,
    requests: &[Request],
    times: u64,
) -> Option<u64>
    requires { Rests S.Site desk.old site.old }
{
    let mut bytes = 0u64;
    for _ in 0..times {
        bytes = bytes.wrapping_add(answer_round(desk, site, requests)?);
    }
    Some(bytes)
}

/// Opens the store, and has one desk answer some requests, so many times over. Prints how many
/// requests and hits it counts, and how many bytes the replies have.
fn ask_often<S: Site>(
    rt: &impl Print,
    alloc: Global,
    site: &mut S,
    times: u64,
    requests: &[Request],
) -> io::Result<()> {
    let Ok(store) = Store::open(alloc, site) else {
        return say(rt, "no store");
    };
    let Ok(mut desk) = StoreDesk::new(alloc, store) else {
        return say(rt, "no memory");
    };
    let Some(bytes) = answer_often(&mut desk, site, requests, times) else {
        return say(rt, "no reply");
    };
    let (asked, hits) = (desk.requests(), desk.hits());
    println!(rt; "{asked} requests {hits} hits {bytes} bytes")
}

/// The same with a GET of each path.
pub fn often<S: Site>(
    rt: &impl Print,
    alloc: Global,
    site: &mut S,
    times: &str,
    paths: &[&str],
) -> io::Result<()> {
    let Some(times) = number_of(times) else {
        return say(rt, NO_ROW);
    };
    match gets(alloc, paths) {
        Some(requests) => ask_often(rt, alloc, site, times, requests.as_slice()),
        None => say(rt, NO_ROW),
    }
}
