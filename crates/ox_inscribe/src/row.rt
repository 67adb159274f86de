//! What is kept of an inscription.

ghost use Rattle.std.specs.Prelude.{◌≡◌};
ghost use Rattle.ox_inscribe.specs.Signed.{is_cursed, is_vindicated};

use ox_bytes::Bytes;
use ox_envelope::{Ids, InsId};

/// An inscription: what its envelope says, and where it was made. Its sequence is its place among
/// all rows, from 0.
pub struct InsRow {
    /// The transaction that revealed it, and how many of that transaction's envelopes come before.
    pub id: InsId,
    /// The height of the block that revealed it.
    pub height: u32,
    /// The content type, as its bytes.
    pub content_type: Option<Bytes>,
    /// The content.
    pub body: Option<Bytes>,
    /// The metadata, which is kept unread.
    pub metadata: Option<Bytes>,
    /// The metaprotocol, which is kept unread.
    pub metaprotocol: Option<Bytes>,
    /// The content encoding, as its bytes.
    pub encoding: Option<Bytes>,
    /// The pointer, as its bytes, whether it was followed or not.
    pub pointer: Option<Bytes>,
    /// The inscription whose content stands for this one's.
    pub delegate: Option<InsId>,
    /// Its parents, each once, in the order in which they were named.
    pub parents: Ids,
    /// The sum of its marks, of the eight that `ox_envelope::mark` names.
    pub marks: u16,
    /// The satoshi that it is on. An unbound inscription is on none.
    pub sat: Option<u64>,
}

/// By hand, so that whoever drops a row makes one call, and proves nothing of its fields.
impl Drop for InsRow {
    fn drop(self) {
        let InsRow {
            id: _id,
            height: _height,
            content_type: _content_type,
            body: _body,
            metadata: _metadata,
            metaprotocol: _metaprotocol,
            encoding: _encoding,
            pointer: _pointer,
            delegate: _delegate,
            parents: _parents,
            marks: _marks,
            sat: _sat,
        } = self;
    }
}

impl InsRow {
    /// Whether it is cursed: revealed below this jubilee, and marked.
    pub fn is_cursed(&self, jubilee: u64) -> bool
        ensures { result ≡ is_cursed jubilee self.now }
    {
        u64::from(self.height) < jubilee && self.marks != 0
    }

    /// Whether it is vindicated: revealed from this jubilee on, and marked.
    pub fn is_vindicated(&self, jubilee: u64) -> bool
        ensures { result ≡ is_vindicated jubilee self.now }
    {
        jubilee <= u64::from(self.height) && self.marks != 0
    }
}
