//! The reply to each request.

ghost use Rattle.std.specs.Prelude.{◌≡◌, IfOk, Option, option_map, unwrap_or};
ghost use Rattle.serde_json.specs.Data.{Data};
ghost use Rattle.serde_json.specs.Written.{compact_text};
ghost use Rattle.ox_replies.specs.Ask.{error_reply, named_reply, reply_of, route_reply};
ghost use Rattle.ox_replies.specs.Ask.{same_method, tree_at, tree_reply};
ghost use Rattle.ox_replies.specs.Content.{content_at};
ghost use Rattle.ox_replies.specs.Errors.{error_tree};
ghost use Rattle.ox_query.specs.Asked.{asked_of};
ghost use Rattle.ox_query.specs.Written.{Adds, tokens_of};

use crate::audit::audit_body;
use crate::block::block_at;
use crate::bodies::Body;
use crate::content::content_at;
use crate::inscription::inscription_body;
use crate::inscription_page::inscription_page_body;
use crate::output::output_at;
use crate::parts::{number, outpoint, satoshi};
use crate::rune::rune_body;
use crate::rune_page::rune_page_body;
use crate::sat::sat_body;
use crate::status::status_body;
use ox_bytes::{Bytes, Memory};
use ox_http::{Method, Reply, Request};
use ox_model::{About, View};
use ox_routes::{Found, Route, Routes};
use std::alloc::Global;

/// A reply whose body is the compact JSON of a tree.
fn tree_reply(alloc: Global, status: u16, body: Bytes, close: bool) -> Result<Reply, Memory>
    ensures { (tree : Data) → body ≡ compact_text tree
        → IfOk result (λ reply. reply ≡ tree_reply status tree close) }
{
    Ok(Reply {
        status,
        kind: Bytes::copy(alloc, b"application/json")?,
        encoding: None,
        body,
        close,
    })
}

/// Writes what a status that isn't 200 says.
fn write_error(out: &mut Body, status: u16)
    ensures { Adds out.old out.new (tokens_of (error_tree status)) }
{
    out.begin_object();
    out.key("error");
    out.u64(u64::from(status));
    out.end_object();
}

/// What a status that isn't 200 says.
fn error_body(alloc: Global, status: u16) -> Result<Bytes, Memory>
    ensures { IfOk result (λ body. body ≡ compact_text (error_tree status)) }
{
    let mut out = Body::new(alloc);
    write_error(&mut out, status);
    out.into_bytes()
}

/// The reply that says no more than its status, which isn't 200. `Memory` where there is none.
pub fn error_reply(alloc: Global, status: u16, close: bool) -> Result<Reply, Memory>
    ensures { IfOk result (λ reply. reply ≡ error_reply status close) }
{
    let body = error_body(alloc, status)?;
    tree_reply(alloc, status, body, close)
}

/// The reply of 200 with a tree that is found, by its body, or 404 where none is.
pub(crate) fn tree_or_missing(
    alloc: Global,
    body: Option<Bytes>,
    close: bool,
) -> Result<Reply, Memory>
    ensures { (found : Option Data) → body ≡ option_map compact_text found
        → IfOk result (λ reply. reply
        ≡ unwrap_or (option_map (λ tree. tree_reply 200 tree close) found)
        (error_reply 404 close)) }
{
    match body {
        Some(body) => tree_reply(alloc, 200, body, close),
        None => error_reply(alloc, 404, close),
    }
}

/// The body of the tree that a route has for its part, if the part names something. A content and a
/// command have none.
fn body_at<V: View>(
    alloc: Global,
    live: &V,
    about: &About,
    found: &Found,
) -> Result<Option<Bytes>, Memory>
    ensures { IfOk result (λ body. body ≡ option_map compact_text
        (tree_at (asked_of (V.chain live.now) (V.index live.now) about.now)
        found.now.route found.now.part.now)) }
{
    match found.route {
        Route::Status => Ok(Some(status_body(alloc, live, about)?)),
        Route::Audit => Ok(Some(audit_body(alloc, live)?)),
        Route::BlockHash => match number(found.part) {
            Some(height) => block_at(alloc, live, height),
            None => Ok(None),
        },
        Route::Inscription => inscription_body(alloc, live, found.part),
        Route::Inscriptions => inscription_page_body(alloc, live, found.part),
        Route::Output => match outpoint(found.part) {
            Some(at) => output_at(alloc, live, &at),
            None => Ok(None),
        },
        Route::Rune => rune_body(alloc, live, found.part),
        Route::Runes => rune_page_body(alloc, live, found.part),
        Route::Sat => match satoshi(live.profile(), found.part) {
            Some(sat) => Ok(Some(sat_body(alloc, live, sat)?)),
            None => Ok(None),
        },
        Route::Connect | Route::Content | Route::Disconnect => Ok(None),
    }
}

/// The reply of 200 with the tree that a route has for its part, or 404 where it names nothing.
fn found_tree<V: View>(
    alloc: Global,
    live: &V,
    about: &About,
    found: &Found,
    close: bool,
) -> Result<Reply, Memory>
    ensures { IfOk result (λ reply. reply ≡ unwrap_or
        (option_map (λ tree. tree_reply 200 tree close)
        (tree_at (asked_of (V.chain live.now) (V.index live.now) about.now)
        found.now.route found.now.part.now)) (error_reply 404 close)) }
{
    tree_or_missing(alloc, body_at(alloc, live, about, found)?, close)
}

/// The reply of 200 with the content of the inscription that a part names, or 404 where there is
/// none.
fn found_content<V: View>(
    alloc: Global,
    live: &V,
    part: &[u8],
    close: bool,
) -> Result<Reply, Memory>
    ensures { IfOk result (λ reply. reply ≡ unwrap_or
        (content_at (V.index live.now).inscriptions part.now close) (error_reply 404 close)) }
{
    match content_at(alloc, live, part, close)? {
        Some(reply) => Ok(reply),
        None => error_reply(alloc, 404, close),
    }
}

/// The reply of 200 to what a part names, a content as it is and all else as a tree, or 404 where
/// it names nothing.
fn found_reply<V: View>(
    alloc: Global,
    live: &V,
    about: &About,
    found: &Found,
    close: bool,
) -> Result<Reply, Memory>
    ensures { IfOk result (λ reply. reply ≡ unwrap_or
        (named_reply (asked_of (V.chain live.now) (V.index live.now) about.now)
        found.now.route found.now.part.now close) (error_reply 404 close)) }
{
    match found.route {
        Route::Content => found_content(alloc, live, found.part, close),
        Route::Audit
        | Route::BlockHash
        | Route::Connect
        | Route::Disconnect
        | Route::Inscription
        | Route::Inscriptions
        | Route::Output
        | Route::Rune
        | Route::Runes
        | Route::Sat
        | Route::Status => found_tree(alloc, live, about, found, close),
    }
}

/// Whether two methods are the same.
pub(crate) fn same_method(a: Method, b: Method) -> bool
    ensures { result ≡ same_method a b }
{
    a == b
}

/// What a route that the path takes replies.
fn route_reply<V: View>(
    alloc: Global,
    live: &V,
    about: &About,
    request: &Request,
    found: &Found,
) -> Result<Reply, Memory>
    ensures { IfOk result (λ reply. reply
        ≡ route_reply (asked_of (V.chain live.now) (V.index live.now) about.now)
        request.now found.now.route found.now.part.now) }
{
    if !same_method(request.method, found.route.method()) {
        return error_reply(alloc, 405, request.close);
    }
    if same_method(request.method, Method::Post) {
        return error_reply(alloc, 403, request.close);
    }
    found_reply(alloc, live, about, found, request.close)
}

/// The reply to a request of a link that isn't the operator's, by the index as it stands: 404 where
/// the path takes no route, 405 where the method isn't the route's, 403 for a command, 404 where
/// the part of the path names nothing, and else 200. `Memory` where there is none for it, the
/// routes' included. Status codes are those of RFC 9110, bodies but a content JSON (RFC 8259).
pub fn answer<V: View>(
    alloc: Global,
    live: &V,
    about: &About,
    request: &Request,
) -> Result<Reply, Memory>
    ensures { IfOk result (λ reply. reply
        ≡ reply_of (asked_of (V.chain live.now) (V.index live.now) about.now) request.now) }
{
    answer_by(alloc, &Routes::new(alloc)?, live, about, request)
}

/// The same reply by routes that are lent, so that they are made once for many requests. `Memory`
/// where there is none for the reply.
#[tactic(auto, unfolding(ox_replies::specs::Ask::reply_of))]
pub fn answer_by<V: View>(
    alloc: Global,
    routes: &Routes,
    live: &V,
    about: &About,
    request: &Request,
) -> Result<Reply, Memory>
    ensures { IfOk result (λ reply. reply
        ≡ reply_of (asked_of (V.chain live.now) (V.index live.now) about.now) request.now) }
{
    match routes.find(request.path.as_slice()) {
        Some(found) => route_reply(alloc, live, about, request, &found),
        None => error_reply(alloc, 404, request.close),
    }
}
