//! Replies to requests that carry out nothing.

ghost use Rattle.std.specs.Prelude.{◌≡◌, ◌-◌, ◌<◌, ◌^◌, IfOk, OnErr};
ghost use Rattle.ox_http.specs.Written.{written};
ghost use Rattle.ox_http.specs.declared.Method.TheVariants as methods;
ghost use Rattle.ox_asof.specs.Reply.{reply_at};
ghost use Rattle.ox_desk.specs.Asked.{asked_on};
ghost use Rattle.ox_desk.specs.Desk.{KeepsTrue, LooksUp};
ghost use Rattle.ox_desk.specs.Queries.{query_reply};

use crate::addresses::part_named;
use crate::held::HeldStore;
use ox_asof::answer_at;
use ox_bytes::{Bytes, Memory};
use ox_cache::Cache;
use ox_feed::Command;
use ox_http::{Reply, Request, write_reply};
use ox_query::answer_address;
use ox_routes::Routes;
use ox_store::Store;
use std::alloc::Global;

/// What is made of a request without the site.
#[derive(Drop)]
pub(crate) enum Step {
    /// The bytes of the reply.
    Told(Bytes),
    /// The request's command, which isn't carried out yet.
    Carries(Command),
}

/// The reply of a store's stack to a request that is no command: where the path names an address
/// (BIP 173, BIP 350), what that holds; where it names a kept block, as of that block. `Memory`
/// where there is none for it.
#[tactic(auto, unfolding(crate::specs::Queries::query_reply))]
pub fn reply_to(
    alloc: Global,
    routes: &Routes,
    store: &HeldStore,
    request: &Request,
) -> Result<Reply, Memory>
    ensures { IfOk result (λ reply. reply ≡ query_reply (asked_on store.now.stack) request.now) }
{
    let Some(part) = part_named(request.path.as_slice()) else {
        return reply_at(alloc, routes, store.store(), request);
    };
    let held = store.outputs(alloc, request.method, part)?;
    let live = store.store().live();
    answer_address(alloc, live, part, held.as_slice(), request)
}

/// The reply of a store's stack to a request whose path names no address; where it names a kept
/// block, as of that block. `Memory` where there is none for it.
fn reply_at(
    alloc: Global,
    routes: &Routes,
    store: &Store,
    request: &Request,
) -> Result<Reply, Memory>
    ensures { IfOk result (λ reply. reply ≡ reply_at (asked_on store.now.stack) request.now) }
{
    answer_at(
        alloc,
        routes,
        store.live(),
        store.changes(),
        &store.about(),
        request,
    )
}

/// The bytes of a reply that isn't kept. `Memory` where there is none for it.
pub(crate) fn tell(
    alloc: Global,
    routes: &Routes,
    store: &HeldStore,
    request: &Request,
) -> Result<Bytes, Memory>
    ensures { IfOk result (λ bytes.
        bytes ≡ written (query_reply (asked_on store.now.stack) request.now)) }
{
    let reply = reply_to(alloc, routes, store, request)?;
    write_reply(alloc, &reply)
}

/// The bytes of the reply to a GET: of the reply that is kept, and else of one that is made, and
/// then kept. `Memory` where there is none for it: nothing has changed then.
pub(crate) fn look_up(
    alloc: Global,
    routes: &Routes,
    store: &HeldStore,
    cache: &mut Cache,
    request: &Request,
) -> Result<Bytes, Memory>
    requires get { request.now.method ≡ methods.Get }
    requires keeps { KeepsTrue store.now.stack store.now.commands cache.old }
    requires few { cache.old.hits < 2 ^ 64 - 1 }
    ensures ok { IfOk result (λ bytes. LooksUp store.now.stack store.now.commands request.now
        cache.old bytes cache.new) }
    ensures err { OnErr result (cache.new ≡ cache.old) }
{
    cache.answer(
        store.store().commands(),
        request.path.as_slice(),
        request.close,
        || reply_to(alloc, routes, store, request),
    )
}
