//! What `/content/{id}` says.

ghost use Rattle.std.specs.Prelude.{◌≡◌, ◌&&◌, IfOk, codes, nat_le, option_copied, slice_get};
ghost use Rattle.std.specs.Prelude.{unwrap_or};
ghost use Rattle.std.specs.List.{list_all};
ghost use Rattle.std.specs.Option.{option_and_then};
ghost use Rattle.ox_replies.specs.Content.{body_reply, content_at, header_text, is_header_text};
ghost use Rattle.ox_replies.specs.Content.{row_with, shown_for};
ghost use Rattle.ox_replies.specs.Named.{inscription_named};

use crate::inscription::number_named;
use ox_bytes::{Bytes, Memory};
use ox_http::Reply;
use ox_model::{InsId, InsRow, View};
use std::alloc::Global;

/// The inscription that a part names, if there is one.
fn row_named<'a, V: View>(live: &'a V, part: &[u8]) -> Option<&'a InsRow>
    ensures { option_copied result ≡ option_and_then (slice_get (V.index live.now).inscriptions)
        (inscription_named (V.index live.now).inscriptions part.now) }
{
    match number_named(live, part) {
        Some(n) => Some(live.inscription(n)),
        None => None,
    }
}

/// The inscription with an id, if it is there.
fn row_with<'a, V: View>(live: &'a V, id: &InsId) -> Option<&'a InsRow>
    ensures { option_copied result ≡ row_with (V.index live.now).inscriptions id.now }
{
    match live.find(id) {
        Some(n) => Some(live.inscription(n)),
        None => None,
    }
}

/// The inscription whose content is shown for this one, if it is there: the one that it delegates
/// to, whatever that delegates to, or itself.
fn shown_for<'a, V: View>(live: &'a V, row: &'a InsRow) -> Option<&'a InsRow>
    ensures { option_copied result ≡ shown_for (V.index live.now).inscriptions row.now }
{
    match &row.delegate {
        Some(id) => row_with(live, id),
        None => Some(row),
    }
}

/// Whether a byte is printable ASCII.
fn is_printable(byte: u8) -> bool
    ensures { result ≡ (nat_le 32 byte && nat_le byte 126) }
{
    32 <= byte && byte <= 126
}

/// Whether all bytes are printable ASCII.
fn are_printable(bytes: &[u8]) -> bool
    ensures { result ≡ list_all (λ b. nat_le 32 b && nat_le b 126) bytes.now }
{
    bytes.iter().all(|byte| is_printable(*byte))
}

/// Whether a header of a reply can carry these bytes: one or more, all of them printable ASCII.
fn is_header_text(bytes: &[u8]) -> bool
    ensures { result ≡ is_header_text bytes.now }
{
    if bytes.is_empty() {
        return false;
    }
    are_printable(bytes)
}

/// The bytes once more, if there are any that a header of a reply can carry.
fn header_text(alloc: Global, bytes: &Option<Bytes>) -> Result<Option<Bytes>, Memory>
    ensures { IfOk result (λ text. text ≡ header_text bytes.now) }
{
    let Some(bytes) = bytes else {
        return Ok(None);
    };
    let text = bytes.as_slice();
    if !is_header_text(text) {
        return Ok(None);
    }
    Ok(Some(Bytes::copy(alloc, text)?))
}

/// The kind of a reply that has this content type.
fn kind_of(alloc: Global, content_type: &Option<Bytes>) -> Result<Bytes, Memory>
    ensures { IfOk result (λ kind. kind
        ≡ unwrap_or (header_text content_type.now) (codes "application/octet-stream")) }
{
    match header_text(alloc, content_type)? {
        Some(kind) => Ok(kind),
        None => Ok(Bytes::copy(alloc, b"application/octet-stream")?),
    }
}

/// A body, with the kind and the encoding that its inscription says.
fn body_reply(alloc: Global, close: bool, row: &InsRow, body: &Bytes) -> Result<Reply, Memory>
    ensures { IfOk result (λ reply. reply ≡ body_reply close row.now body.now) }
{
    Ok(Reply {
        status: 200,
        kind: kind_of(alloc, &row.content_type)?,
        encoding: header_text(alloc, &row.encoding)?,
        body: Bytes::copy(alloc, body.as_slice())?,
        close,
    })
}

/// The content of the inscription that a part names, if it has one: its own, or that of the
/// inscription that it delegates to. `Memory` where there is none for it.
pub(crate) fn content_at<V: View>(
    alloc: Global,
    live: &V,
    part: &[u8],
    close: bool,
) -> Result<Option<Reply>, Memory>
    ensures { IfOk result (λ reply. reply
        ≡ content_at (V.index live.now).inscriptions part.now close) }
{
    let Some(row) = row_named(live, part) else {
        return Ok(None);
    };
    let Some(shown) = shown_for(live, row) else {
        return Ok(None);
    };
    match &shown.body {
        Some(body) => Ok(Some(body_reply(alloc, close, shown, body)?)),
        None => Ok(None),
    }
}
