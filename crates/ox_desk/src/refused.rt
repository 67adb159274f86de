//! The reply to a command that is refused.

ghost use Rattle.std.specs.Prelude.{◌≡◌, IfOk};
ghost use Rattle.serde_json.specs.Written.{compact_text};
ghost use Rattle.ox_http.specs.Written.{written};
ghost use Rattle.ox_desk.specs.Replies.{refused_reply, refused_tree};

use crate::plain::refusal_is_plain;
use ox_bytes::{Bytes, Memory};
use ox_http::{ReplyParts, write_parts};
use ox_model::Refusal;
use std::alloc::Global;

/// The body: a JSON object that has the refusal's number and values, which its line tells between
/// `refused ` and the line feed.
fn refused_body(alloc: Global, refusal: Refusal) -> Result<Bytes, Memory>
    ensures { IfOk result (λ body. body ≡ compact_text (refused_tree refusal)) }
{
    refusal_is_plain(&refusal);
    let line = refusal.line(alloc)?;
    let (_, behind) = line.as_slice().split_at(8);
    let (text, _) = behind.split_at(line.len() - 9);
    let mut body = Bytes::copy(alloc, b"{\"refused\":\"")?;
    body.append(text)?;
    body.append(b"\"}")?;
    Ok(body)
}

/// The bytes of the reply to a command that is refused: 409 (RFC 9110, section 15.5.10). `Memory`
/// where there is none for them.
pub fn refused_reply(alloc: Global, refusal: Refusal, close: bool) -> Result<Bytes, Memory>
    ensures { IfOk result (λ bytes. bytes ≡ written (refused_reply refusal close)) }
{
    let body = refused_body(alloc, refusal)?;
    let parts = ReplyParts {
        status: 409,
        kind: b"application/json",
        encoding: None,
        body: body.as_slice(),
    };
    write_parts(alloc, parts, close)
}
