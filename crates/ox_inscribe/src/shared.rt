//! A row that several lists have.

ghost use Rattle.std.specs.Prelude.{◌≡◌, IfOk};

use crate::row::InsRow;
use ox_bytes::Memory;
use std::alloc::Global;
use std::marker::Model;
use std::rc::Rc;

/// A row with one or more owners in one thread, in memory once. Contracts see the row, so that a
/// list of shared rows is a list of rows.
#[derive(Drop)]
pub struct SharedRow {
    row: Rc<InsRow>,
}

impl Model for SharedRow {
    ghost use Rattle.ox_inscribe.specs.declared.row.InsRow.{InsRow};

    ghost Value = { InsRow };

    ghost view = { λ shared. shared.row.value };
}

impl SharedRow {
    /// A row with one owner. `Memory` where there is none for it.
    pub fn new(alloc: Global, row: InsRow) -> Result<SharedRow, Memory>
        ensures { IfOk result (λ shared. shared ≡ row) }
    {
        Ok(SharedRow {
            row: Rc::new(alloc, row)?,
        })
    }

    /// One more owner of the same row, which isn't copied. It takes no memory, but a row can't have
    /// more owners than a `usize` counts: `Memory` where it has those.
    pub fn share(&self) -> Result<SharedRow, Memory>
        ensures { IfOk result (λ shared. shared ≡ self.now) }
    {
        Ok(SharedRow {
            row: self.row.clone()?,
        })
    }

    /// The row.
    pub fn row(&self) -> &InsRow
        ensures { result.now ≡ self.now }
    {
        self.row.as_ref()
    }
}
