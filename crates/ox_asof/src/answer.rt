//! The reply to each request, whose path may name a kept block.

ghost use Rattle.std.specs.Prelude.{◌≡◌, IfOk, Some, false, length, true};
ghost use Rattle.std.specs.Option.{IfNone, IfSome};
ghost use Rattle.ox_model.specs.Ends.{AllEnd};
ghost use Rattle.ox_http.specs.declared.Method.TheVariants.{Get};
ghost use Rattle.ox_query.specs.Asked.{asked_of};
ghost use Rattle.ox_routes.specs.Table.{route_and_part};
ghost use Rattle.ox_replies.specs.Ask.{same_method};
ghost use Rattle.ox_asof.specs.AskedKept.{kept_of};
ghost use Rattle.ox_asof.specs.Reply.{get_of, is_query, reply_at};

use crate::back::back_to;
use crate::paths::cut_at;
use crate::told::past_for;
use ox_bytes::{Bytes, Memory};
use ox_http::{Method, Reply, Request};
use ox_index::Changes;
use ox_model::{About, View};
use ox_query::{answer_by, error_reply};
use ox_routes::{Found, Routes};
use std::alloc::Global;

/// A GET of a path, behind which its link closes or doesn't. `Memory` where there is none for it.
pub fn get_of(alloc: Global, path: &[u8], close: bool) -> Result<Request, Memory>
    ensures { IfOk result (λ request. request ≡ get_of path.now close) }
{
    Ok(Request {
        method: Method::Get,
        path: Bytes::copy(alloc, path)?,
        body: Bytes::empty(alloc),
        close,
    })
}

/// Whether a method is GET.
fn is_get(method: Method) -> bool
    ensures { result ≡ same_method method Get }
{
    method == Method::Get
}

/// The route that a path takes, and its part, if that route is no command's.
fn query_of<'p>(routes: &Routes, path: &'p [u8]) -> Option<Found<'p>>
    ensures is { IfSome result (λ _. is_query path.now ≡ true) }
    ensures taken { IfSome result
        (λ found. route_and_part path.now ≡ Some (found.route, found.part.now)) }
    ensures none { IfNone result (is_query path.now ≡ false) }
{
    let found = routes.find(path)?;
    if is_get(found.route.method()) {
        Some(found)
    } else {
        None
    }
}

/// The reply to a request of a link that isn't the operator's. Where its path ends in `?at=` and
/// the hash of a block it is a GET of what stands before, answered by the index of the chain of
/// which that block is the newest: 404 where no kept block has that hash, or where the path before
/// takes no route or that of a command, and 405 for another method. Any other request is answered
/// by the index as it stands. `Memory` where there is none for the reply, or for the runes that
/// were counted otherwise then.
#[tactic(auto, unfolding(crate::specs::Reply::reply_at))]
pub fn answer_at<'a, V: View>(
    alloc: Global,
    routes: &Routes,
    view: &'a V,
    changes: &'a Changes,
    about: &About,
    request: &Request,
) -> Result<Reply, Memory>
    requires end { AllEnd (V.chain view.now) (V.index view.now) changes.now.kept }
    requires kept { about.now.kept ≡ length changes.now.kept }
    ensures { IfOk result (λ reply. reply ≡ reply_at
        (kept_of (asked_of (V.chain view.now) (V.index view.now) about.now) changes.now.kept)
        request.now) }
{
    let Some(cut) = cut_at(request.path.as_slice()) else {
        return answer_by(alloc, routes, view, about, request);
    };
    let path = cut.0;
    let hash = cut.1;
    let Some(found) = query_of(routes, path) else {
        return error_reply(alloc, 404, request.close);
    };
    if !is_get(request.method) {
        return error_reply(alloc, 405, request.close);
    }
    let Some(back) = back_to(view, about.kept, &hash) else {
        return error_reply(alloc, 404, request.close);
    };
    let past = past_for(alloc, view, changes, back, &found)?;
    let earlier = About {
        depth: about.depth,
        kept: about.kept - back as u16,
    };
    let request = get_of(alloc, path, request.close)?;
    answer_by(alloc, routes, &past, &earlier, &request)
}
