//! Rows of outputs.

ghost use Rattle.std.specs.Prelude.{◌≡◌};
ghost use Rattle.ox_bytes.specs.Reading.{GivesOrMemory};
ghost use Rattle.ox_rows.specs.FrontLaws.{out_row_fronts};
ghost use Rattle.ox_rows.specs.Fits.{AreSats};
ghost use Rattle.ox_rows.specs.RowFits.{FitsOutRow, FitsOutput};
ghost use Rattle.ox_rows.specs.RowReading.{out_row_at, outputs_at};
ghost use Rattle.ox_rows.specs.RowSpelling.{out_row, output};

use crate::put::put_text;
use crate::readable::{Readable, text_of};
use crate::rising::rising_of;
use crate::sats::{put_sats, sats_of};
use crate::writable::Writable;
use ox_block::{OutPoint, Script};
use ox_bytes::{Bytes, List, Memory, ReadError, put_u32le, u32le_field};
use ox_rules::{OutRow, TableRows};
use std::alloc::Global;

impl Readable for OutRow {
    ghost at = { out_row_at };

    #[tactic(auto, unfolding(crate::specs::RowReading::out_row_at))]
    fn read(alloc: Global, bytes: &[u8]) -> Result<(OutRow, &[u8]), ReadError> {
        let (script, rest) = text_of(bytes)?;
        let (height, rest) = u32::read(alloc, rest)?;
        let (sats, rest) = sats_of(alloc, rest)?;
        let row = OutRow {
            script: Script::copy(alloc, script)?,
            height,
            sats,
        };
        Ok((row, rest))
    }

    ghost fronts = { out_row_fronts };
}

impl Writable for OutRow {
    ghost spelling = { out_row };

    ghost fits = { FitsOutRow };

    ghost keeps = { λ row. AreSats row.sats };

    fn put(&self, bytes: &mut Bytes) -> Result<(), Memory> {
        put_text(bytes, self.script.as_slice())?;
        put_u32le(bytes, self.height)?;
        put_sats(bytes, &self.sats)
    }
}

impl Writable for (OutPoint, OutRow) {
    ghost spelling = { output };

    ghost fits = { FitsOutput };

    ghost keeps = { λ placed. AreSats placed.1.sats };

    fn put(&self, bytes: &mut Bytes) -> Result<(), Memory> {
        let (at, row) = self;
        at.put(bytes)?;
        row.put(bytes)
    }
}

/// Outputs: how many in 4 bytes, and these by rising outpoint.
#[tactic(auto, unfolding(crate::specs::RowReading::outputs_at))]
pub(crate) fn outputs_of(alloc: Global, bytes: &[u8]) -> Result<(TableRows, &[u8]), ReadError>
    ensures { GivesOrMemory (λ x. (x.0, x.1.now)) result (outputs_at bytes.now) }
{
    let (count, rest) = u32le_field(bytes)?;
    let (rows, rest) = rising_of(alloc, count, rest)?;
    Ok((List::from_vec(rows), rest))
}
