//! Rows of runes.

ghost use Rattle.std.specs.Prelude.{◌≡◌, ◌++◌, IsTrue};
ghost use Rattle.std.specs.Int.{w32, w128, to_le_bytes};
ghost use Rattle.ox_rows.specs.FrontLaws.{character_fronts, rune_fronts, terms_fronts};
ghost use Rattle.ox_rows.specs.RowFits.{FitsRune, FitsRuneId, FitsTerms, is_character};
ghost use Rattle.ox_rows.specs.RowReading.{character_at, rune_at, terms_at};
ghost use Rattle.ox_rows.specs.RowSpelling.{rune, rune_id, terms};

use crate::ids::rune_id_bytes;
use crate::put::put_optional;
use crate::readable::{Readable, four_of, optional_of};
use crate::writable::Writable;
use ox_block::Txid;
use ox_bytes::{Bytes, FieldFault, Memory, ReadError, put_u32le};
use ox_etching::RuneRow;
use ox_runestone::{RuneId, Terms};
use std::alloc::Global;

impl Readable for char {
    ghost at = { character_at };

    #[tactic(auto, unfolding(crate::specs::RowReading::character_at))]
    fn read(alloc: Global, bytes: &[u8]) -> Result<(char, &[u8]), ReadError> {
        let (number, rest) = u32::read(alloc, bytes)?;
        match char::from_u32(number) {
            Some(character) => Ok((character, rest)),
            None => Err(ReadError::Fault(FieldFault { left: bytes.len() })),
        }
    }

    ghost fronts = { character_fronts };
}

impl Writable for char {
    ghost spelling = { to_le_bytes w32 };

    ghost fits = { λ c. IsTrue (is_character c) };

    ghost keeps = { λ c. Unit {0} };

    fn put(&self, bytes: &mut Bytes) -> Result<(), Memory> {
        put_u32le(bytes, *self as u32)
    }
}

impl Readable for Terms {
    ghost at = { terms_at };

    fn read(alloc: Global, bytes: &[u8]) -> Result<(Terms, &[u8]), ReadError> {
        let ((amount, cap, height_start, height_end), rest) = four_of(alloc, bytes)?;
        let (offset_start, rest) = optional_of(alloc, rest)?;
        let (offset_end, rest) = optional_of(alloc, rest)?;
        let terms = Terms {
            amount,
            cap,
            height_start,
            height_end,
            offset_start,
            offset_end,
        };
        Ok((terms, rest))
    }

    ghost fronts = { terms_fronts };
}

impl Writable for Terms {
    ghost spelling = { terms };

    ghost fits = { FitsTerms };

    ghost keeps = { λ terms. Unit {0} };

    fn put(&self, bytes: &mut Bytes) -> Result<(), Memory> {
        put_optional(bytes, &self.amount)?;
        put_optional(bytes, &self.cap)?;
        put_optional(bytes, &self.height_start)?;
        put_optional(bytes, &self.height_end)?;
        put_optional(bytes, &self.offset_start)?;
        put_optional(bytes, &self.offset_end)
    }
}

impl Readable for RuneRow {
    ghost at = { rune_at };

    fn read(alloc: Global, bytes: &[u8]) -> Result<(RuneRow, &[u8]), ReadError> {
        let ((id, name, spacers, divisibility), rest) = four_of(alloc, bytes)?;
        let ((symbol, premine, terms, mints), rest) = four_of(alloc, rest)?;
        let (burned, rest) = u128::read(alloc, rest)?;
        let (etching, rest) = <[u8; 32] as Readable>::read(alloc, rest)?;
        let row = RuneRow {
            id,
            name,
            spacers,
            divisibility,
            symbol,
            premine,
            terms,
            mints,
            burned,
            etching: Txid(etching),
        };
        Ok((row, rest))
    }

    ghost fronts = { rune_fronts };
}

/// What a rune's row begins with, its id, its name and its spacers, spelled.
fn front_bytes(id: RuneId, name: u128, spacers: u32) -> [u8; 32]
    ensures spelled { result ≡ rune_id id ++ to_le_bytes w128 name ++ to_le_bytes w32 spacers }
    ensures fits { FitsRuneId id }
{
    let mut bytes = [0; 32];
    let (front, spacers_at) = bytes.split_at_mut(28);
    let (id_at, name_at) = front.split_at_mut(12);
    id_at.copy_from_slice(&rune_id_bytes(id));
    name_at.copy_from_slice(&name.to_le_bytes());
    spacers_at.copy_from_slice(&spacers.to_le_bytes());
    bytes
}

/// What a rune's row ends with, its mints, what was burned and the transaction that etched it,
/// spelled.
fn back_bytes(mints: u128, burned: u128, etching: &[u8; 32]) -> [u8; 64]
    ensures { result ≡ to_le_bytes w128 mints ++ to_le_bytes w128 burned ++ etching.now }
{
    let mut bytes = [0; 64];
    let (front, etching_at) = bytes.split_at_mut(32);
    let (mints_at, burned_at) = front.split_at_mut(16);
    mints_at.copy_from_slice(&mints.to_le_bytes());
    burned_at.copy_from_slice(&burned.to_le_bytes());
    etching_at.copy_from_slice(etching);
    bytes
}

impl Writable for RuneRow {
    ghost spelling = { rune };

    ghost fits = { FitsRune };

    ghost keeps = { λ row. Unit {0} };

    fn put(&self, bytes: &mut Bytes) -> Result<(), Memory> {
        bytes.append(&front_bytes(self.id, self.name, self.spacers))?;
        self.divisibility.put(bytes)?;
        put_optional(bytes, &self.symbol)?;
        self.premine.put(bytes)?;
        put_optional(bytes, &self.terms)?;
        bytes.append(&back_bytes(self.mints, self.burned, &self.etching.0))
    }
}
