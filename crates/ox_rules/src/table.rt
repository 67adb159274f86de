//! The table of unspent outputs, as the crates above see it.

ghost use Rattle.std.specs.Prelude.{◌≡◌, Option, Some, None, IsSome, IfOk, IfErr, OnOk, OnErr};
ghost use Rattle.std.specs.Option.{option_copied};
ghost use Rattle.std.specs.FinMap as map;
ghost use Rattle.ox_rules.specs.Outputs.{Outputs, MayStand};

use crate::rows::OutRow;
use ox_block::OutPoint;
use ox_bytes::{List, Memory};
use std::fmt;

/// Rows of a table, each with its outpoint.
pub type TableRows = List<(OutPoint, OutRow)>;

/// There was no memory for a row in the table, which is as it was. The row is handed back.
#[derive(Drop)]
pub struct Unplaced {
    /// The row.
    pub row: OutRow,
}

/// By hand: it says the same of every row.
impl fmt::Debug for Unplaced {
    fn fmt<W: fmt::Write>(&self, f: &mut fmt::Formatter<W>) -> fmt::Result {
        f.write_str("Unplaced")
    }
}

impl From<Unplaced> for Memory {
    fn from(_e: Unplaced) -> Memory {
        Memory
    }
}

/// A table of unspent outputs: rows by outpoint, and a mark to which the table can go back.
pub trait OutTable {
    /// The rows, by outpoint.
    ghost contents: { Self → Outputs };

    /// The rows as they were when the mark was set, where there is a mark.
    ghost marked: { Self → Option Outputs };

    /// The row at this outpoint, if any. It takes no memory.
    fn get(&self, at: &OutPoint) -> Option<&OutRow>
        ensures { option_copied result ≡ map.get (contents self.now) at.now };

    /// Takes the row at this outpoint out of the table, if there is one. `Memory` where there is
    /// none left: the table is as before.
    fn take(&mut self, at: &OutPoint) -> Result<Option<OutRow>, Memory>
        ensures row { IfOk result (λ row. row ≡ map.get (contents self.old) at.now) }
        ensures ok { OnOk result (contents self.new ≡ map.remove (contents self.old) at.now) }
        ensures err { OnErr result (contents self.new ≡ contents self.old) }
        ensures mark { marked self.new ≡ marked self.old };

    /// Puts a row at this outpoint, and answers the one that it displaces there, if any. The row
    /// may hold no satoshi twice, and none that a row at another outpoint holds. Where there is no
    /// memory, the row is handed back and the table is as before.
    fn place(&mut self, at: &OutPoint, row: OutRow) -> Result<Option<OutRow>, Unplaced>
        requires { MayStand at.now row.sats (contents self.old) }
        ensures displaced { IfOk result
            (λ displaced. displaced ≡ map.get (contents self.old) at.now) }
        ensures ok { OnOk result (contents self.new ≡ map.insert (contents self.old) at.now row) }
        ensures handed_back { IfErr result (λ e. e.row ≡ row) }
        ensures err { OnErr result (contents self.new ≡ contents self.old) }
        ensures mark { marked self.new ≡ marked self.old };

    /// Sets the mark at the rows as they are, in place of an earlier one. `Memory` where there is
    /// none left: the rows are as before, and there is no mark.
    fn begin(&mut self) -> Result<(), Memory>
        ensures rows { contents self.new ≡ contents self.old }
        ensures ok { OnOk result (marked self.new ≡ Some (contents self.old)) }
        ensures err { OnErr result (marked self.new ≡ None) };

    /// Goes back to the rows at the mark, which is spent. It takes no memory.
    fn cancel(&mut self)
        requires { IsSome (marked self.old) }
        ensures rows { Some (contents self.new) ≡ marked self.old }
        ensures spent { marked self.new ≡ None };
}
