//! The outputs of each script.

ghost use Rattle.std.specs.Prelude.{◌≡◌, ℕ, List, ◌++◌, not, ◌&&◌, ◌||◌, IfOk, OnOk};
ghost use Rattle.std.specs.FinMap.{empty, entries};
ghost use Rattle.ox_block.specs.declared.block.OutPoint.{OutPoint};
ghost use Rattle.ox_rules.specs.Differences.{AreGone};
ghost use Rattle.ox_rules.specs.Outputs.{Outputs};
ghost use Rattle.ox_rules.specs.Transfer.{as_list};
ghost use Rattle.ox_holders.specs.Keys.{StandFor, is_among, is_in, is_row};
ghost use Rattle.ox_holders.specs.Outputs.{outputs_with};

use crate::key::{Key, key_behind, key_of};
use ox_block::OutPoint;
use ox_bytes::{List, Memory};
use ox_outputs::InOrder;
use ox_rules::OutRow;
use std::alloc::Global;
use std::collections::BTreeSet;

/// The outputs of each script, of one table of outputs.
#[derive(Drop)]
pub struct Holders {
    alloc: Global,
    keys: BTreeSet<Key>,
}

impl Holders {
    /// Those of a table without rows. It takes no memory.
    pub fn new(alloc: Global) -> Holders
        ensures { StandFor result empty }
    {
        Holders {
            alloc,
            keys: BTreeSet::new(alloc),
        }
    }

    /// Those of a table with these rows, by rising outpoint. `Memory` where there is none for them.
    pub fn of(alloc: Global, rows: &InOrder) -> Result<Holders, Memory>
        ensures { (outs : Outputs) → rows.now ≡ entries outs
            → IfOk result (λ holders. StandFor holders outs) }
    {
        let mut holders = Holders::new(alloc);
        for n in 0..rows.len() {
            if let Some((at, row)) = rows.get(n) {
                holders.put(at, row)?;
            }
        }
        Ok(holders)
    }

    /// Those of the table that differs from this one by the rows that are gone and those that came,
    /// each by rising outpoint. `Memory` where there is none for them, and these are gone.
    pub fn step(
        self,
        gone: &[(OutPoint, OutRow)],
        came: &[(OutPoint, OutRow)],
    ) -> Result<Holders, Memory>
        ensures { (before after : Outputs) → StandFor self before
            → AreGone before after gone.now → AreGone after before came.now
            → IfOk result (λ holders. StandFor holders after) }
    {
        let mut holders = self;
        holders.leave(gone)?;
        holders.join(came)?;
        Ok(holders)
    }

    /// Without these rows.
    fn leave(&mut self, rows: &[(OutPoint, OutRow)]) -> Result<(), Memory>
        ensures { IfOk result (λ _. (script : List ℕ) (at : OutPoint)
            → is_among self.new.keys.keys script at
            ≡ (is_among self.old.keys.keys script at && not (is_in rows.now script at))) }
    {
        for (at, row) in rows {
            self.take(at, row)?;
        }
        Ok(())
    }

    /// With these rows.
    fn join(&mut self, rows: &[(OutPoint, OutRow)]) -> Result<(), Memory>
        ensures { IfOk result (λ _. (script : List ℕ) (at : OutPoint)
            → is_among self.new.keys.keys script at
            ≡ (is_among self.old.keys.keys script at || is_in rows.now script at)) }
    {
        for (at, row) in rows {
            self.put(at, row)?;
        }
        Ok(())
    }

    /// Without one row.
    fn take(&mut self, at: &OutPoint, row: &OutRow) -> Result<(), Memory>
        ensures { IfOk result (λ _. (script : List ℕ) (place : OutPoint)
            → is_among self.new.keys.keys script place
            ≡ (is_among self.old.keys.keys script place
            && not (is_row at.now row.now script place))) }
    {
        let key = key_of(self.alloc, row.script.as_slice(), Some(*at))?;
        self.keys.remove(&key);
        Ok(())
    }

    /// With one row more.
    fn put(&mut self, at: &OutPoint, row: &OutRow) -> Result<(), Memory>
        ensures { IfOk result (λ _. (script : List ℕ) (place : OutPoint)
            → is_among self.new.keys.keys script place
            ≡ (is_among self.old.keys.keys script place || is_row at.now row.now script place)) }
    {
        let key = key_of(self.alloc, row.script.as_slice(), Some(*at))?;
        self.keys.insert(key)?;
        Ok(())
    }

    /// The outpoints of the outputs with a script, rising; none exactly where no output has it.
    /// `Memory` where there is none for them.
    pub fn outputs(&self, script: &[u8]) -> Result<List<OutPoint>, Memory>
        ensures { (outs : Outputs) → StandFor self.now outs
            → IfOk result (λ found. found ≡ outputs_with script.now outs) }
    {
        let first = key_of(self.alloc, script, None)?;
        let behind = key_behind(self.alloc, script)?;
        let mut found = List::new(self.alloc);
        for key in self.keys.range(first..behind) {
            push_place(&mut found, key)?;
        }
        Ok(found)
    }
}

/// With the outpoint of a key, if it has one.
fn push_place(found: &mut List<OutPoint>, key: &Key) -> Result<(), Memory>
    ensures { OnOk result (found.new ≡ found.old ++ as_list key.now.at) }
{
    match key.at {
        Some(at) => found.push(at),
        None => Ok(()),
    }
}
