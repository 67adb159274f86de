//! What an envelope says.

ghost use Rattle.std.specs.Prelude.{◌≡◌, IfOk};
ghost use Rattle.ox_envelope.specs.Payload.{inscribed_of};

use crate::envelope::Envelope;
use crate::id::InsId;
use crate::payload::{
    all_ids, copy_first, first_id, join_body, join_values, marks_of, split_payload,
};
use crate::tag;
use ox_bytes::{Bytes, List, Memory};
use std::alloc::Global;

/// Ids in an order.
pub type Ids = List<InsId>;

/// What an envelope says: its fields by their tags, and its body.
#[derive(Drop)]
pub struct Inscribed {
    /// Tag 1, the first value.
    pub content_type: Option<Bytes>,
    /// Tag 2, the first value, as its bytes.
    pub pointer: Option<Bytes>,
    /// Tag 5, all values joined.
    pub metadata: Option<Bytes>,
    /// Tag 7, the first value.
    pub metaprotocol: Option<Bytes>,
    /// Tag 9, the first value.
    pub encoding: Option<Bytes>,
    /// All pushes after an empty push in a tag's place, joined.
    pub body: Option<Bytes>,
    /// Tag 3, each value that is an id, as they come.
    pub parents: Ids,
    /// Tag 11, the first value, if it is an id.
    pub delegate: Option<InsId>,
    /// The sum of those of the marks that a script alone tells: `EVEN`, `REPEATED`, `INCOMPLETE`,
    /// `POINTER` and `PUSHNUM`.
    pub marks: u16,
}

/// What an envelope says. Its pushes are tags and values in turns, up to an empty push in a tag's
/// place: all pushes after that are the body, joined, and without it there is none. A last tag
/// without a value counts for nothing but its mark. Of a field's several values, the first is
/// taken; those of metadata are joined, and each parent is kept. A tag of another length than one
/// byte is unknown, and a parent or a delegate that is no id is left out. `Memory` where there is
/// none for what is kept (Ordinal Theory Handbook, "Inscriptions", "Fields").
pub fn parse(alloc: Global, envelope: &Envelope<'_>) -> Result<Inscribed, Memory>
    ensures { IfOk result (λ inscribed. inscribed ≡ inscribed_of envelope.now) }
{
    let payload = split_payload(alloc, envelope.pushes())?;
    let fields = payload.fields.as_slice();
    Ok(Inscribed {
        content_type: copy_first(alloc, fields, tag::CONTENT_TYPE)?,
        pointer: copy_first(alloc, fields, tag::POINTER)?,
        metadata: join_values(alloc, fields, tag::METADATA)?,
        metaprotocol: copy_first(alloc, fields, tag::METAPROTOCOL)?,
        encoding: copy_first(alloc, fields, tag::CONTENT_ENCODING)?,
        body: join_body(alloc, payload.body)?,
        parents: all_ids(alloc, fields, tag::PARENT)?,
        delegate: first_id(fields, tag::DELEGATE),
        marks: marks_of(alloc, fields, payload.incomplete, envelope.has_number())?,
    })
}
