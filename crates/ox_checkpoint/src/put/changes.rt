//! Changes, put from where they are in memory.

use super::buffer::Rows;
use ox_bytes::{Bytes, Memory};
use ox_index::Changes;
use ox_rows::put_change;

/// The changes of the kept blocks, the newest first.
#[derive(Drop)]
pub(super) struct Kept<'a>(pub(super) &'a Changes);

impl<'a> Rows for Kept<'a> {
    ghost use Rattle.std.specs.List.{All};
    ghost use Rattle.ox_model.specs.declared.change.Change.{Change};
    ghost use Rattle.ox_rows.specs.RowFits.{FitsChange, KeepsChange};
    ghost use Rattle.ox_rows.specs.RowSpelling.{change_rows};

    ghost Item = { Change };

    ghost items = { λ s. s.0.now.kept };

    ghost spelling = { λ s change. change_rows change };

    ghost fits = { λ s change. FitsChange change };

    ghost keeps = { λ s. All KeepsChange s.0.now.kept };

    fn len(&self) -> usize {
        self.0.len()
    }

    fn put_row(&self, n: usize, bytes: &mut Bytes) -> Result<(), Memory> {
        match self.0.get(n) {
            Some(change) => put_change(bytes, change),
            None => Ok(()),
        }
    }
}
