//! Rows that can be compared and had once more.

ghost use Rattle.std.specs.Prelude.{◌≡◌, Bool, IfOk, bytes_eq};
ghost use Rattle.ox_plain.specs.Same.{same_balances, same_content, same_field, same_inscription};
ghost use Rattle.ox_plain.specs.Same.{same_links, same_output, same_place};

use ox_allocation::Balances;
use ox_bytes::{Bytes, Memory};
use ox_inscribe::{InsRow, SharedRow};
use ox_range::Ranges;
use ox_rules::OutRow;
use std::alloc::Global;

/// A row of an index's tables.
pub(crate) trait Row: Drop {
    /// Whether two rows are the same.
    ghost same: { Self → Self → Bool };

    /// Whether another row is the same.
    fn is_same(&self, other: &Self) -> bool
        ensures { result ≡ same self.now other.now };

    /// The same row once more. `Memory` where there is none for it.
    fn again(&self, alloc: Global) -> Result<Self, Memory>
        ensures { IfOk result (λ row. row ≡ self.now) };
}

impl Row for OutRow {
    ghost same = { same_output };

    fn is_same(&self, other: &OutRow) -> bool {
        self.height == other.height
            && self.script.as_slice() == other.script.as_slice()
            && are_same(&self.sats, &other.sats)
    }

    fn again(&self, alloc: Global) -> Result<OutRow, Memory> {
        self.copy(alloc)
    }
}

impl Row for Balances {
    ghost same = { same_balances };

    fn is_same(&self, other: &Balances) -> bool {
        self.as_slice() == other.as_slice()
    }

    fn again(&self, alloc: Global) -> Result<Balances, Memory> {
        self.copy(alloc)
    }
}

impl Row for SharedRow {
    ghost same = { same_inscription };

    fn is_same(&self, other: &SharedRow) -> bool {
        is_same_inscription(self.row(), other.row())
    }

    fn again(&self, _alloc: Global) -> Result<SharedRow, Memory> {
        self.share()
    }
}

/// Whether two lists of satoshis are the same. It costs by their runs.
pub(crate) fn are_same(sats: &Ranges, others: &Ranges) -> bool
    ensures { result ≡ bytes_eq sats.now others.now }
{
    sats.runs() == others.runs()
}

/// Whether two inscriptions are the same.
fn is_same_inscription(row: &InsRow, other: &InsRow) -> bool
    ensures { result ≡ same_inscription row.now other.now }
{
    is_same_place(row, other) && is_same_content(row, other) && are_same_links(row, other)
}

/// Whether two inscriptions were made at the same place and on the same satoshi.
fn is_same_place(row: &InsRow, other: &InsRow) -> bool
    ensures { result ≡ same_place row.now other.now }
{
    row.id == other.id
        && row.height == other.height
        && row.marks == other.marks
        && row.sat == other.sat
}

/// Whether two inscriptions have the same content, and say the same of it.
fn is_same_content(row: &InsRow, other: &InsRow) -> bool
    ensures { result ≡ same_content row.now other.now }
{
    is_same_field(&row.content_type, &other.content_type)
        && is_same_field(&row.body, &other.body)
        && is_same_field(&row.metadata, &other.metadata)
        && is_same_field(&row.metaprotocol, &other.metaprotocol)
        && is_same_field(&row.encoding, &other.encoding)
}

/// Whether two inscriptions say the same of others and of their place.
fn are_same_links(row: &InsRow, other: &InsRow) -> bool
    ensures { result ≡ same_links row.now other.now }
{
    is_same_field(&row.pointer, &other.pointer)
        && row.delegate == other.delegate
        && row.parents.as_slice() == other.parents.as_slice()
}

/// Whether two byte strings, of which each may be missing, are the same.
fn is_same_field(field: &Option<Bytes>, other: &Option<Bytes>) -> bool
    ensures { result ≡ same_field field.now other.now }
{
    match (field, other) {
        (Some(bytes), Some(others)) => bytes.as_slice() == others.as_slice(),
        (None, None) => true,
        _ => false,
    }
}
