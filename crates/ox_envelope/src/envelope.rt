//! The envelopes of a script, whose pushes are read in place.

ghost use Rattle.std.specs.Prelude.{◌≡◌, ◌∷◌, ◌++◌, [], true, false, length, map, OnOk, ◌==◌};

use ox_bytes::Memory;
use smallvec::SmallVec;
use std::alloc::Global;
use std::marker::Model;

/// What an envelope has between its opening and its OP_ENDIF. Four pushes take no memory of their
/// own: most envelopes have a content type alone, and a body of one push.
#[derive(Drop)]
pub struct Envelope<'a> {
    items: SmallVec<&'a [u8], 4>,
    numbered: bool,
}

impl<'a> Model for Envelope<'a> {
    ghost use Rattle.std.specs.Prelude.{map};
    ghost use Rattle.ox_envelope.specs.Envelope.{EnvelopePushes};

    ghost Value = { EnvelopePushes };

    ghost view = { λ e. record {
      pushes = map (λ p. p.now) e.items.items;
      has_number = e.numbered;
    } };
}

impl<'a> Envelope<'a> {
    /// No pushes.
    pub(crate) fn new(alloc: Global) -> Envelope<'a>
        ensures pushes { result.pushes ≡ [] }
        ensures number { result.has_number ≡ false }
    {
        Envelope {
            items: SmallVec::new(alloc),
            numbered: false,
        }
    }

    /// The pushes, in order. Each is a part of the script, but for those of OP_1NEGATE and OP_1 to
    /// OP_16, which are constants.
    pub fn pushes(&self) -> &[&'a [u8]]
        ensures { map (λ p. p.now) result.now ≡ self.now.pushes }
    {
        self.items.as_slice()
    }

    /// Whether one of the pushes is by OP_1NEGATE or OP_1 to OP_16.
    pub fn has_number(&self) -> bool
        ensures { result ≡ self.now.has_number }
    {
        self.numbered
    }

    /// Appends a push of bytes.
    pub(crate) fn push(&mut self, bytes: &'a [u8]) -> Result<(), Memory>
        ensures pushes { OnOk result (self.new.pushes ≡ self.old.pushes ++ bytes.now ∷ []) }
        ensures number { OnOk result (self.new.has_number ≡ self.old.has_number) }
    {
        self.items.push(bytes)?;
        Ok(())
    }

    /// Appends the push of an opcode that pushes a number.
    pub(crate) fn push_number(&mut self, byte: &'a [u8]) -> Result<(), Memory>
        ensures pushes { OnOk result (self.new.pushes ≡ self.old.pushes ++ byte.now ∷ []) }
        ensures number { OnOk result (self.new.has_number ≡ true) }
    {
        self.items.push(byte)?;
        self.numbered = true;
        Ok(())
    }
}

/// The envelopes of a script, from the first to the last. Contracts see the list of them.
#[derive(Drop)]
pub struct Envelopes<'a> {
    items: Vec<Envelope<'a>>,
}

impl<'a> Model for Envelopes<'a> {
    ghost use Rattle.std.specs.Prelude.{List};
    ghost use Rattle.ox_envelope.specs.Envelope.{EnvelopePushes};

    ghost Value = { List EnvelopePushes };

    ghost view = { λ e. e.items.items };
}

impl<'a> Envelopes<'a> {
    /// No envelopes.
    pub(crate) fn new(alloc: Global) -> Envelopes<'a>
        ensures { result ≡ [] }
    {
        Envelopes {
            items: Vec::new(alloc),
        }
    }

    /// The envelopes, in order.
    pub fn as_slice(&self) -> &[Envelope<'a>]
        ensures { result.now ≡ self.now }
    {
        self.items.as_slice()
    }

    /// How many there are.
    pub fn len(&self) -> usize
        ensures { result ≡ length self.now }
    {
        self.items.len()
    }

    /// Whether there are none.
    pub fn is_empty(&self) -> bool
        ensures { result ≡ (length self.now == 0) }
    {
        self.items.is_empty()
    }

    /// Appends an envelope. Most scripts have one alone, so the first takes room for no more.
    pub(crate) fn push(&mut self, envelope: Envelope<'a>) -> Result<(), Memory>
        ensures { OnOk result (self.new ≡ self.old ++ envelope.entry ∷ []) }
    {
        if self.items.is_empty() {
            self.items.reserve_exact(1)?;
        }
        self.items.push(envelope)?;
        Ok(())
    }
}
