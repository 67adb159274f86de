//! The fields and the body among the pushes of an envelope.

ghost use Rattle.std.specs.Prelude.{◌≡◌, ◌∷◌, ℕ, List, [], ◌||◌, not, bytes_eq, option_map};
ghost use Rattle.std.specs.Prelude.{map, IfOk, OnOk};
ghost use Rattle.std.specs.List.{concat, filter_map, list_any};
ghost use Rattle.ox_envelope.specs.Id.{id_of_value};
ghost use Rattle.ox_envelope.specs.Payload.{first_id, first_of, has_repeat};
ghost use Rattle.ox_envelope.specs.Payload.{has_unknown_even, is_incomplete, is_single};
ghost use Rattle.ox_envelope.specs.Payload.{is_unknown_even, joined_of, marks_of, single_tags};
ghost use Rattle.ox_envelope.specs.Walk.{body_in, fields_in, is_among, seen_fields, texts};
ghost use Rattle.ox_envelope.specs.Walk.{values_at};

use crate::id::{InsId, read_id};
use crate::inscribed::Ids;
use crate::mark::{self, bit};
use crate::tag;
use ox_bytes::{Bytes, Memory};
use smallvec::SmallVec;
use std::alloc::Global;
use std::collections::BTreeSet;

/// A tag and its value.
#[derive(Clone, Copy, Default)]
pub(crate) struct Field<'a> {
    pub(crate) tag: &'a [u8],
    pub(crate) value: &'a [u8],
}

/// The pushes of an envelope, told apart. Most have a content type and hardly another field, and
/// two fields take no memory of their own.
#[derive(Drop)]
pub(crate) struct Payload<'p, 'a> {
    pub(crate) fields: SmallVec<Field<'a>, 2>,
    /// The pushes after an empty one in a tag's place.
    pub(crate) body: Option<&'p [&'a [u8]]>,
    /// A last tag has no value.
    pub(crate) incomplete: bool,
}

/// Tells the pushes apart: tags and values take turns up to an empty push in a tag's place, which
/// the body follows.
pub(crate) fn split_payload<'p, 'a>(
    alloc: Global,
    pushes: &'p [&'a [u8]],
) -> Result<Payload<'p, 'a>, Memory>
    ensures fields { IfOk result (λ r. seen_fields r.fields.items ≡ fields_in pushes.now) }
    ensures body { IfOk result (λ r.
        option_map (λ body. texts body.now) r.body ≡ body_in pushes.now) }
    ensures incomplete { IfOk result (λ r. r.incomplete ≡ is_incomplete (texts pushes.now)) }
{
    let mut fields = SmallVec::new(alloc);
    let mut tag = None;
    for (at, push) in pushes.iter().enumerate() {
        match tag {
            Some(name) => {
                fields.push(Field {
                    tag: name,
                    value: *push,
                })?;
                tag = None;
            }
            None if push.is_empty() => {
                let (_, body) = pushes.split_at(at + 1);
                return Ok(Payload {
                    fields,
                    body: Some(body),
                    incomplete: false,
                });
            }
            None => tag = Some(*push),
        }
    }
    Ok(Payload {
        fields,
        body: None,
        incomplete: tag.is_some(),
    })
}

/// The first value of a tag.
pub(crate) fn first_value<'a>(fields: &[Field<'a>], tag: u8) -> Option<&'a [u8]>
    ensures { option_map (λ v. v.now) result ≡ first_of (values_at tag fields.now) }
{
    for field in fields {
        if field.tag == [tag].as_slice() {
            return Some(field.value);
        }
    }
    None
}

/// The values of a tag, in order.
pub(crate) fn values<'a>(
    alloc: Global,
    fields: &[Field<'a>],
    tag: u8,
) -> Result<Vec<&'a [u8]>, Memory>
    ensures { IfOk result (λ v. texts v.items ≡ values_at tag fields.now) }
{
    let mut found = Vec::new(alloc);
    for field in fields {
        if field.tag == [tag].as_slice() {
            found.push(field.value)?;
        }
    }
    Ok(found)
}

/// How many bytes the parts have together, as far as a number of this size can tell.
fn size_of_all(parts: &[&[u8]]) -> usize {
    let mut size: usize = 0;
    for part in parts {
        size = size.saturating_add(part.len());
    }
    size
}

/// The parts joined, in memory of just their size.
pub(crate) fn join(alloc: Global, parts: &[&[u8]]) -> Result<Bytes, Memory>
    ensures { IfOk result (λ b. b ≡ concat (texts parts.now)) }
{
    let mut joined = Vec::with_capacity(alloc, size_of_all(parts))?;
    for part in parts {
        joined.extend_from_slice(part)?;
    }
    Ok(Bytes::from_vec(joined))
}

/// The values that are ids, in order.
pub(crate) fn ids(alloc: Global, values: &[&[u8]]) -> Result<Ids, Memory>
    ensures { IfOk result (λ v. v ≡ filter_map id_of_value (texts values.now)) }
{
    let mut found = Ids::new(alloc);
    for value in values {
        if let Some(id) = read_id(value) {
            found.push(id)?;
        }
    }
    Ok(found)
}

/// Whether the tag isn't known, and its first byte is even.
fn is_unknown_even(name: &[u8]) -> bool
    ensures { result ≡ is_unknown_even name.now }
{
    match name {
        [
            tag::CONTENT_TYPE
            | tag::POINTER
            | tag::PARENT
            | tag::METADATA
            | tag::METAPROTOCOL
            | tag::CONTENT_ENCODING
            | tag::DELEGATE,
        ] => false,
        [first, ..] => *first % 2 == 0,
        [] => false,
    }
}

/// Whether some tag isn't known, and its first byte is even.
pub(crate) fn any_unknown_even(fields: &[Field<'_>]) -> bool
    ensures { result ≡ list_any (λ field. is_unknown_even field.tag) (seen_fields fields.now) }
{
    for field in fields {
        if is_unknown_even(field.tag) {
            return true;
        }
    }
    false
}

/// Whether a second value of the tag is marked: parents and metadata may have several.
fn is_single(name: &[u8]) -> bool
    ensures { result ≡ is_single name.now }
{
    !matches!(name, [tag::PARENT] | [tag::METADATA])
}

/// Adds a tag to those that are known, and says whether it is new.
fn add_tag<'a>(known: &mut BTreeSet<&'a [u8]>, tag: &'a [u8]) -> Result<bool, Memory>
    ensures added { IfOk result (λ added. added ≡ not (is_among known.old.keys tag.now)) }
    ensures known { OnOk result ((q : List ℕ)
        → is_among known.new.keys q ≡ (bytes_eq tag.now q || is_among known.old.keys q)) }
{
    Ok(known.insert(tag)?)
}

/// Whether one of the tags other than 3 and 5 has two values. Most envelopes have one field, which
/// costs nothing.
pub(crate) fn has_repeat(alloc: Global, fields: &[Field<'_>]) -> Result<bool, Memory>
    ensures { IfOk result (λ repeats. repeats ≡ has_repeat (single_tags (seen_fields fields.now))) }
{
    match fields {
        [] | [_] => Ok(false),
        _ => repeats_among(alloc, fields),
    }
}

/// The same of any fields.
fn repeats_among(alloc: Global, fields: &[Field<'_>]) -> Result<bool, Memory>
    ensures { IfOk result (λ repeats. repeats ≡ has_repeat (single_tags (seen_fields fields.now))) }
{
    let mut known = BTreeSet::new(alloc);
    for field in fields {
        if is_single(field.tag) && !add_tag(&mut known, field.tag)? {
            return Ok(true);
        }
    }
    Ok(false)
}

/// The first value of a tag, copied.
pub(crate) fn copy_first(
    alloc: Global,
    fields: &[Field<'_>],
    tag: u8,
) -> Result<Option<Bytes>, Memory>
    ensures { IfOk result (λ value. value ≡ first_of (values_at tag fields.now)) }
{
    match first_value(fields, tag) {
        Some(value) => Ok(Some(Bytes::copy(alloc, value)?)),
        None => Ok(None),
    }
}

/// The values of a tag, joined.
pub(crate) fn join_values(
    alloc: Global,
    fields: &[Field<'_>],
    tag: u8,
) -> Result<Option<Bytes>, Memory>
    ensures { IfOk result (λ value. value ≡ joined_of (values_at tag fields.now)) }
{
    let values = values(alloc, fields, tag)?;
    if values.is_empty() {
        return Ok(None);
    }
    Ok(Some(join(alloc, values.as_slice())?))
}

/// The values of a tag that are ids, in order.
pub(crate) fn all_ids(alloc: Global, fields: &[Field<'_>], tag: u8) -> Result<Ids, Memory>
    ensures { IfOk result (λ ids. ids ≡ filter_map id_of_value (values_at tag fields.now)) }
{
    let values = values(alloc, fields, tag)?;
    ids(alloc, values.as_slice())
}

/// The first value of a tag, if it is an id.
pub(crate) fn first_id(fields: &[Field<'_>], tag: u8) -> Option<InsId>
    ensures { result ≡ first_id (values_at tag fields.now) }
{
    read_id(first_value(fields, tag)?)
}

/// The body, joined.
pub(crate) fn join_body(alloc: Global, body: Option<&[&[u8]]>) -> Result<Option<Bytes>, Memory>
    ensures { IfOk result (λ value.
        value ≡ option_map (λ pushes. concat (texts pushes.now)) body.entry) }
{
    match body {
        Some(pushes) => Ok(Some(join(alloc, pushes)?)),
        None => Ok(None),
    }
}

/// The marks, by the fields, and by whether the last tag has no value and whether a push is by
/// OP_1NEGATE or OP_1 to OP_16.
pub(crate) fn marks_of(
    alloc: Global,
    fields: &[Field<'_>],
    incomplete: bool,
    number: bool,
) -> Result<u16, Memory>
    ensures { IfOk result (λ marks. marks ≡ marks_of (seen_fields fields.now) incomplete number) }
{
    let pointers = values(alloc, fields, tag::POINTER)?;
    let unknown_even = any_unknown_even(fields) || pointers.len() > 1;
    let repeat = has_repeat(alloc, fields)?;
    Ok(
        bit(unknown_even, mark::EVEN)
            + bit(repeat, mark::REPEATED)
            + bit(incomplete, mark::INCOMPLETE)
            + bit(first_value(fields, tag::POINTER).is_some(), mark::POINTER)
            + bit(number, mark::PUSHNUM),
    )
}
