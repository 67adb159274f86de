//! What a block does to satoshis, in definitions: satoshis' rules alone, those of inscriptions and
//! runes stand in ox_inscribe and ox_ledger. Beside them the plain types that they and the crates
//! above share.
#![tactic(auto)]

mod laws;
mod moved;
mod place;
mod refusal;
mod reply;
mod rows;
mod table;
mod values;
mod why;

ghost use Rattle.std.specs.Prelude.{◌≡◌};
ghost use Rattle.ox_block.specs.declared.block.OutPoint.{OutPoint};
ghost use Rattle.ox_rules.specs.declared.rows.OutRow.{OutRow};
ghost use Rattle.ox_rules.specs.Differences.{Differ, Difference, other_end, reverse_of};
ghost use Rattle.ox_rules.specs.Outputs.{Outputs};

pub use laws::{dealing_is_cutting, spends_move_in_order};
pub use moved::{DisplacedRows, Moved, MovedTx, MovedTxs, SpentRows};
pub use ox_block::Script;
pub use ox_bytes::Memory;
pub use place::Place;
pub use refusal::{Refusal, hash_digits, hash_text, outpoint_text};
pub use reply::{LONGEST_OK, empty_line, ok_line_in};
pub use rows::OutRow;
pub use table::{OutTable, TableRows, Unplaced};
pub use values::value_sum;
pub use why::Why;

/// What differs between two tables of outputs: the rows that are gone and those that came, each by
/// rising outpoint. There is one such pair of lists, and with either table it gives the other.
pub fn tables_differ_once()
    ensures some { (before after : Outputs)
        → (difference : Difference OutPoint OutRow) × Differ before after difference }
    ensures one { (before after : Outputs) (d e : Difference OutPoint OutRow)
        → Differ before after d → Differ before after e → d ≡ e }
    ensures back { (before after : Outputs) (difference : Difference OutPoint OutRow)
        → Differ before after difference → other_end after difference ≡ before }
    ensures forth { (before after : Outputs) (difference : Difference OutPoint OutRow)
        → Differ before after difference → other_end before (reverse_of difference) ≡ after }
{}
