//! Which requests are commands.

ghost use Rattle.std.specs.Prelude.{◌≡◌, IfOk};
ghost use Rattle.ox_desk.specs.Commands.{command_at as carried_at, command_of as carried_by};

use ox_bytes::{Bytes, Memory};
use ox_feed::Command;
use ox_http::{Method, Request};
use ox_routes::{Route, Routes};
use std::alloc::Global;

/// The command of a POST to a path: it connects the block that the body has, or takes the newest
/// one off.
fn command_at(
    alloc: Global,
    routes: &Routes,
    path: &[u8],
    body: &Bytes,
) -> Result<Option<Command>, Memory>
    ensures { IfOk result (λ command. command ≡ carried_at path.now body.now) }
{
    let Some(found) = routes.find(path) else {
        return Ok(None);
    };
    match found.route {
        Route::Connect => Ok(Some(Command::Connect(Bytes::copy(alloc, body.as_slice())?))),
        Route::Disconnect => Ok(Some(Command::Disconnect)),
        Route::Audit
        | Route::BlockHash
        | Route::Content
        | Route::Inscription
        | Route::Inscriptions
        | Route::Output
        | Route::Rune
        | Route::Runes
        | Route::Sat
        | Route::Status => Ok(None),
    }
}

/// The command of a request, if it has one; whether its link is the operator's. `Memory` where
/// there is none for its block.
pub fn command_of(
    alloc: Global,
    routes: &Routes,
    request: &Request,
    operator: bool,
) -> Result<Option<Command>, Memory>
    ensures { IfOk result (λ command. command ≡ carried_by operator request.now) }
{
    match request.method {
        Method::Post if operator => {
            command_at(alloc, routes, request.path.as_slice(), &request.body)
        }
        _ => Ok(None),
    }
}
