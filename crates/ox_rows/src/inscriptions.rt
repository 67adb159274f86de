//! Rows of inscriptions.

ghost use Rattle.std.specs.Prelude.{◌≡◌, ◌++◌};
ghost use Rattle.std.specs.Int.{w32, to_le_bytes};
ghost use Rattle.ox_rows.specs.FrontLaws.{inscription_fronts};
ghost use Rattle.ox_rows.specs.RowFits.{FitsInsId, FitsInscription};
ghost use Rattle.ox_rows.specs.RowReading.{inscription_at};
ghost use Rattle.ox_rows.specs.RowSpelling.{inscription, inscription_id};

use crate::ids::place_bytes;
use crate::put::{put_list, put_optional};
use crate::readable::{Readable, four_of};
use crate::writable::Writable;
use ox_bytes::{Bytes, Memory, ReadError};
use ox_envelope::InsId;
use ox_inscribe::{InsRow, SharedRow};
use std::alloc::Global;

impl Readable for InsRow {
    ghost at = { inscription_at };

    fn read(alloc: Global, bytes: &[u8]) -> Result<(InsRow, &[u8]), ReadError> {
        let ((id, height, content_type, body), rest) = four_of(alloc, bytes)?;
        let ((metadata, metaprotocol, encoding, delegate), rest) = four_of(alloc, rest)?;
        let ((pointer, parents, marks, sat), rest) = four_of(alloc, rest)?;
        let row = InsRow {
            id,
            height,
            content_type,
            body,
            metadata,
            metaprotocol,
            encoding,
            pointer,
            delegate,
            parents,
            marks,
            sat,
        };
        Ok((row, rest))
    }

    ghost fronts = { inscription_fronts };
}

/// What an inscription's row begins with, its id and the height of its block, spelled.
fn front_bytes(id: InsId, height: u32) -> [u8; 40]
    ensures spelled { result ≡ inscription_id id ++ to_le_bytes w32 height }
    ensures fits { FitsInsId id }
{
    let mut bytes = [0; 40];
    let (front, back) = bytes.split_at_mut(36);
    front.copy_from_slice(&place_bytes(&id.txid, id.index));
    back.copy_from_slice(&height.to_le_bytes());
    bytes
}

impl Writable for InsRow {
    ghost spelling = { inscription };

    ghost fits = { FitsInscription };

    ghost keeps = { λ row. Unit {0} };

    fn put(&self, bytes: &mut Bytes) -> Result<(), Memory> {
        bytes.append(&front_bytes(self.id, self.height))?;
        put_optional(bytes, &self.content_type)?;
        put_optional(bytes, &self.body)?;
        put_optional(bytes, &self.metadata)?;
        put_optional(bytes, &self.metaprotocol)?;
        put_optional(bytes, &self.encoding)?;
        put_optional(bytes, &self.delegate)?;
        put_optional(bytes, &self.pointer)?;
        put_list(bytes, self.parents.as_slice())?;
        self.marks.put(bytes)?;
        put_optional(bytes, &self.sat)
    }
}

impl Readable for SharedRow {
    ghost at = { inscription_at };

    fn read(alloc: Global, bytes: &[u8]) -> Result<(SharedRow, &[u8]), ReadError> {
        let (row, rest) = InsRow::read(alloc, bytes)?;
        Ok((SharedRow::new(alloc, row)?, rest))
    }

    ghost fronts = { inscription_fronts };
}

impl Writable for SharedRow {
    ghost spelling = { inscription };

    ghost fits = { FitsInscription };

    ghost keeps = { λ row. Unit {0} };

    fn put(&self, bytes: &mut Bytes) -> Result<(), Memory> {
        self.row().put(bytes)
    }
}
