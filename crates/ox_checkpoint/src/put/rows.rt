//! Hashes, inscriptions and runes, put from where they are in memory.

use super::buffer::Rows;
use ox_bytes::{Bytes, Memory};
use ox_index::Live;
use ox_model::View;
use ox_rows::Writable;

/// The blocks' hashes.
#[derive(Drop)]
pub(super) struct Hashes<'a>(pub(super) &'a [[u8; 32]]);

impl<'a> Rows for Hashes<'a> {
    ghost use Rattle.std.specs.Prelude.{List, ℕ};
    ghost use Rattle.ox_rows.specs.Fits.{IsHash};
    ghost use Rattle.ox_rows.specs.Spelling.{hash};

    ghost Item = { List ℕ };

    ghost items = { λ s. s.0.now };

    ghost spelling = { λ s one. hash one };

    ghost fits = { λ s one. IsHash one };

    ghost keeps = { λ s. Unit {0} };

    fn len(&self) -> usize {
        self.0.len()
    }

    fn put_row(&self, n: usize, bytes: &mut Bytes) -> Result<(), Memory> {
        match self.0.get(n) {
            Some(hash) => hash.put(bytes),
            None => Ok(()),
        }
    }
}

/// The inscriptions by their sequences.
#[derive(Drop)]
pub(super) struct Inscriptions<'a>(pub(super) &'a Live);

impl<'a> Rows for Inscriptions<'a> {
    ghost use Rattle.ox_inscribe.specs.declared.row.InsRow.{InsRow};
    ghost use Rattle.ox_index.specs.Live.{index_in};
    ghost use Rattle.ox_rows.specs.RowFits.{FitsInscription};
    ghost use Rattle.ox_rows.specs.RowSpelling.{inscription};

    ghost Item = { InsRow };

    ghost items = { λ s. (index_in s.0.now).inscriptions };

    ghost spelling = { λ s row. inscription row };

    ghost fits = { λ s row. FitsInscription row };

    ghost keeps = { λ s. Unit {0} };

    fn len(&self) -> usize {
        self.0.inscriptions() as usize
    }

    fn put_row(&self, n: usize, bytes: &mut Bytes) -> Result<(), Memory> {
        match u32::try_from(n) {
            Ok(n) => self.0.inscription(n).put(bytes),
            Err(_) => Err(Memory),
        }
    }
}

/// The runes by their etchings.
#[derive(Drop)]
pub(super) struct Runes<'a>(pub(super) &'a Live);

impl<'a> Rows for Runes<'a> {
    ghost use Rattle.ox_etching.specs.declared.row.RuneRow.{RuneRow};
    ghost use Rattle.ox_index.specs.Live.{index_in};
    ghost use Rattle.ox_rows.specs.RowFits.{FitsRune};
    ghost use Rattle.ox_rows.specs.RowSpelling.{rune};

    ghost Item = { RuneRow };

    ghost items = { λ s. (index_in s.0.now).runes };

    ghost spelling = { λ s row. rune row };

    ghost fits = { λ s row. FitsRune row };

    ghost keeps = { λ s. Unit {0} };

    fn len(&self) -> usize {
        self.0.runes() as usize
    }

    fn put_row(&self, n: usize, bytes: &mut Bytes) -> Result<(), Memory> {
        match u32::try_from(n) {
            Ok(n) => self.0.rune(n).put(bytes),
            Err(_) => Err(Memory),
        }
    }
}
