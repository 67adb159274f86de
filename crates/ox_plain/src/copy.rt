//! An index once more.

ghost use Rattle.std.specs.Prelude.{◌≡◌, [], ◌++◌, IfOk};
ghost use Rattle.ox_plain.specs.Plain.{index_in};

use crate::index::Index;
use crate::lists::push_again;
use crate::tables::copy_table;
use ox_bytes::{List, Memory};
use ox_inscribe::SharedRow;
use std::alloc::Global;

impl Index {
    /// The same index once more. Its inscriptions are shared, all else is copied. It costs by the
    /// index. `Memory` where there is none for it.
    pub fn copy(&self, alloc: Global) -> Result<Index, Memory>
        ensures same { IfOk result (λ copy. index_in copy ≡ index_in self.now) }
        ensures outs { IfOk result (λ copy. copy.outs.entries ≡ self.now.outs.entries) }
        ensures balances { IfOk result (λ copy. copy.bal.entries ≡ self.now.bal.entries) }
    {
        let inscriptions = share_all(alloc, &self.inscriptions)?;
        let outs = copy_table(alloc, &self.outs)?;
        let bal = copy_table(alloc, &self.bal)?;
        Ok(Index {
            hashes: self.hashes.copy(alloc)?,
            outs,
            lost: self.lost.copy(alloc)?,
            inscriptions,
            bal,
            runes: self.runes.copy(alloc)?,
        })
    }
}

/// The same inscriptions once more.
fn share_all(alloc: Global, rows: &List<SharedRow>) -> Result<List<SharedRow>, Memory>
    ensures { IfOk result (λ copy. copy ≡ rows.now) }
{
    let mut copy = List::new(alloc);
    push_again(alloc, &mut copy, rows.as_slice())?;
    Ok(copy)
}
