//! The witness stack of an input.

ghost use Rattle.std.specs.Prelude.{◌≡◌, ◌-◌, ◌==◌, ◌++◌, ◌∷◌, [], length, slice_get};
ghost use Rattle.std.specs.Prelude.{option_copied, IfOk, OnOk, OnErr};
ghost use Rattle.std.specs.List.{flat_map};
ghost use Rattle.ox_bytes.specs.Reading.{Gives, string_at};
ghost use Rattle.ox_bytes.specs.Spelling.{string};
ghost use Rattle.ox_block.specs.Witness.{strings_in, AreStrings, behind_strings, string_behind};

use crate::spelling::put_string;
use ox_bytes::{FieldFault, Memory, compact_field, run_field};
use std::alloc::Global;
use std::marker::Model;

/// A witness stack: an input's byte strings. Contracts see the list of them. However many there
/// are, they stand in one piece of memory, each behind its length, as they stand in the block.
#[derive(Drop)]
pub struct Witness {
    count: usize,
    bytes: Vec<u8>,
}

impl Model for Witness {
    ghost use Rattle.std.specs.Prelude.{List, ℕ};

    ghost Value = { List (List ℕ) };

    ghost use Rattle.ox_block.specs.Witness.{strings_in, AreStrings};

    ghost view = { λ w. strings_in w.count w.bytes.items };

    ghost invariant = { λ w. AreStrings w.count w.bytes.items };
}

impl Witness {
    /// No byte strings. It takes no memory until one is pushed.
    pub fn new(alloc: Global) -> Witness
        ensures { result ≡ [] }
    {
        Witness {
            count: 0,
            bytes: Vec::new(alloc),
        }
    }

    /// That many byte strings, which these bytes spell, copied as they are. `Memory` where there is
    /// none for them.
    pub(crate) fn copy(alloc: Global, count: usize, strings: &[u8]) -> Result<Witness, Memory>
        requires { AreStrings count strings.now }
        ensures { IfOk result (λ witness. witness ≡ strings_in count strings.now) }
    {
        Ok(Witness {
            count,
            bytes: Vec::from_slice(alloc, strings)?,
        })
    }

    /// How many byte strings there are.
    pub fn len(&self) -> usize
        ensures { result ≡ length self.now }
    {
        self.count
    }

    /// Whether there are none.
    pub fn is_empty(&self) -> bool
        ensures { result ≡ (length self.now == 0) }
    {
        self.count == 0
    }

    /// The byte string at a place, counted from 0; `None` where there are no more than that many.
    /// It is found from the first on, by the lengths of those before it.
    pub fn get(&self, place: usize) -> Option<&[u8]>
        ensures { option_copied result ≡ slice_get self.now place }
    {
        string_behind(place as u64, self.bytes.as_slice()).ok()
    }

    /// The last byte string; `None` where there are none. It is found like one at a place.
    pub fn last(&self) -> Option<&[u8]>
        ensures { option_copied result ≡ slice_get self.now (length self.now - 1) }
    {
        self.get(self.count.saturating_sub(1))
    }

    /// Appends a byte string, copied. `Memory` where there is none for it: nothing has changed
    /// then.
    pub fn push(&mut self, item: &[u8]) -> Result<(), Memory>
        ensures ok { OnOk result (self.new ≡ self.old ++ item.now ∷ []) }
        ensures err { OnErr result (self.new ≡ self.old) }
    {
        let mut spelled = Vec::new(*self.bytes.allocator());
        put_string(&mut spelled, item)?;
        self.bytes.extend_from_slice(spelled.as_slice())?;
        self.count += 1;
        Ok(())
    }

    /// The byte strings as they stand in a block, each behind its length.
    pub(crate) fn spelled(&self) -> &[u8]
        ensures { result.now ≡ flat_map string self.now }
    {
        self.bytes.as_slice()
    }
}

/// A byte string, which isn't copied, and the bytes behind it.
#[tactic(auto, unfolding(ox_bytes::specs::Reading::string_at))]
pub(crate) fn string_of(bytes: &[u8]) -> Result<(&[u8], &[u8]), FieldFault>
    ensures { Gives (λ x. (x.0.now, x.1.now)) result (string_at bytes.now) }
{
    let (len, rest) = compact_field(bytes)?;
    run_field(rest, len)
}

/// The bytes behind that many byte strings.
pub fn behind_strings(count: u64, bytes: &[u8]) -> Result<&[u8], FieldFault>
    ensures { Gives (λ rest. rest.now) result (behind_strings count bytes.now) }
{
    let mut rest = bytes;
    for _ in 0..count {
        let (_, after) = string_of(rest)?;
        rest = after;
    }
    Ok(rest)
}

/// The byte string behind that many others.
fn string_behind(count: u64, bytes: &[u8]) -> Result<&[u8], FieldFault>
    ensures { Gives (λ item. item.now) result (string_behind count bytes.now) }
{
    let rest = behind_strings(count, bytes)?;
    let (item, _) = string_of(rest)?;
    Ok(item)
}
