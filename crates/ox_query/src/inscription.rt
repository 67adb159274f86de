//! What `/inscription/{id}` says.

ghost use Rattle.std.specs.Prelude.{◌≡◌, ◌<◌, IfOk, IfSome, Some, length, map, option_map};
ghost use Rattle.std.specs.Prelude.{slice_get};
ghost use Rattle.std.specs.Option.{option_and_then};
ghost use Rattle.serde_json.specs.Data.{array};
ghost use Rattle.serde_json.specs.View.{items_of};
ghost use Rattle.serde_json.specs.Written.{compact_text};
ghost use Rattle.ox_replies.specs.Ask.{inscription_at};
ghost use Rattle.ox_replies.specs.Inscriptions.{id_tree, inscription_tree};
ghost use Rattle.ox_replies.specs.Named.{inscription_named};
ghost use Rattle.ox_replies.specs.Values.{count, hex, or_null, text_or_null};
ghost use Rattle.ox_model.specs.Where.{where_is};
ghost use Rattle.ox_query.specs.Written.{Adds, tokens_of};

use crate::bodies::Body;
use crate::ids::{write_children, write_id};
use crate::marks::write_marks;
use crate::sat::write_place;
use crate::values::{write_count_or_null, write_hex};
use ox_bytes::{Bytes, Memory};
use ox_envelope::read_id_text;
use ox_model::{InsId, InsRow, Place, View};
use std::alloc::Global;

/// Writes how many bytes there are, or null without any.
fn write_length_or_null(out: &mut Body, bytes: &Option<Bytes>)
    ensures { Adds out.old out.new
        (tokens_of (or_null (λ bytes. count (length bytes)) bytes.now)) }
{
    match bytes {
        Some(bytes) => out.u64(bytes.len() as u64),
        None => out.null(),
    }
}

/// Writes bytes as text, or null where there are none or they aren't UTF-8.
fn write_text_or_null(out: &mut Body, bytes: &Option<Bytes>)
    ensures { Adds out.old out.new (tokens_of (or_null text_or_null bytes.now)) }
{
    let Some(bytes) = bytes else {
        return out.null();
    };
    match str::from_utf8(bytes.as_slice()) {
        Ok(text) => out.string(text),
        Err(_) => out.null(),
    }
}

/// Writes bytes as hexadecimal digits, or null without any.
fn write_hex_or_null(alloc: Global, out: &mut Body, bytes: &Option<Bytes>)
    ensures { Adds out.old out.new (tokens_of (or_null hex bytes.now)) }
{
    match bytes {
        Some(bytes) => write_hex(alloc, out, bytes.as_slice()),
        None => out.null(),
    }
}

/// Writes an id, or null without one.
fn write_id_or_null(out: &mut Body, id: &Option<InsId>)
    ensures { Adds out.old out.new (tokens_of (or_null id_tree id.now)) }
{
    match id {
        Some(id) => write_id(out, id),
        None => out.null(),
    }
}

/// Writes ids, in order.
fn write_id_list(out: &mut Body, ids: &[InsId])
    ensures { Adds out.old out.new
        (tokens_of (array (items_of (map id_tree ids.now)))) }
{
    out.begin_array();
    for id in ids {
        write_id(out, id);
    }
    out.end_array();
}

/// Where an inscription is that is on this satoshi, if it is anywhere.
fn place_on<V: View>(live: &V, sat: Option<u64>) -> Option<Place>
    ensures { result ≡ option_and_then (where_is (V.index live.now)) sat }
{
    live.locate(sat?)
}

/// Writes an inscription with its sequence.
fn write_inscription<V: View>(alloc: Global, out: &mut Body, live: &V, n: u32, row: &InsRow)
    requires { slice_get (V.index live.now).inscriptions n ≡ Some row.now }
    ensures { Adds out.old out.new (tokens_of
        (inscription_tree (V.chain live.now).jubilee (V.index live.now) n row.now)) }
{
    let jubilee = live.profile().jubilee;
    out.begin_object();
    out.key("children");
    write_children(out, live, n);
    out.key("content_length");
    write_length_or_null(out, &row.body);
    out.key("content_type");
    write_text_or_null(out, &row.content_type);
    out.key("cursed");
    out.boolean(row.is_cursed(jubilee));
    out.key("delegate");
    write_id_or_null(out, &row.delegate);
    out.key("encoding");
    write_text_or_null(out, &row.encoding);
    out.key("height");
    out.u64(u64::from(row.height));
    out.key("id");
    write_id(out, &row.id);
    out.key("marks");
    write_marks(out, row.marks);
    out.key("metadata");
    write_hex_or_null(alloc, out, &row.metadata);
    out.key("metaprotocol");
    write_text_or_null(out, &row.metaprotocol);
    out.key("number");
    out.i64(live.number(n));
    out.key("parents");
    write_id_list(out, row.parents.as_slice());
    out.key("place");
    write_place(out, place_on(live, row.sat));
    out.key("sat");
    write_count_or_null(out, row.sat);
    out.key("sequence");
    out.u64(u64::from(n));
    out.key("vindicated");
    out.boolean(row.is_vindicated(jubilee));
    out.end_object();
}

/// The sequence of the inscription that a part names, if there is one.
pub(crate) fn number_named<V: View>(live: &V, part: &[u8]) -> Option<u32>
    ensures named { result ≡ inscription_named (V.index live.now).inscriptions part.now }
    ensures there { IfSome result (λ n. n < length (V.index live.now).inscriptions) }
{
    match read_id_text(part) {
        Some(id) => live.find(&id),
        None => None,
    }
}

/// The body of an inscription with its sequence.
fn row_body<V: View>(alloc: Global, live: &V, n: u32, row: &InsRow) -> Result<Bytes, Memory>
    requires { slice_get (V.index live.now).inscriptions n ≡ Some row.now }
    ensures { IfOk result (λ body. body ≡ compact_text
        (inscription_tree (V.chain live.now).jubilee (V.index live.now) n row.now)) }
{
    let mut out = Body::new(alloc);
    write_inscription(alloc, &mut out, live, n, row);
    out.into_bytes()
}

/// The inscription that a part names, if there is one. `Memory` where there is none for it.
pub(crate) fn inscription_body<V: View>(
    alloc: Global,
    live: &V,
    part: &[u8],
) -> Result<Option<Bytes>, Memory>
    ensures { IfOk result (λ body. body ≡ option_map compact_text
        (option_and_then (inscription_at (V.chain live.now).jubilee (V.index live.now))
        (inscription_named (V.index live.now).inscriptions part.now))) }
{
    match number_named(live, part) {
        Some(n) => Ok(Some(row_body(alloc, live, n, live.inscription(n))?)),
        None => Ok(None),
    }
}
