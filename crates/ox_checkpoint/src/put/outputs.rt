//! Unspent outputs, put from where they are in memory.

ghost use Rattle.std.specs.Prelude.{◌≡◌, ◌++◌, OnOk};
ghost use Rattle.ox_rows.specs.Fits.{AreSats};
ghost use Rattle.ox_rows.specs.RowFits.{FitsOutput};
ghost use Rattle.ox_rows.specs.RowSpelling.{output};

use super::buffer::Rows;
use ox_block::OutPoint;
use ox_bytes::{Bytes, Memory};
use ox_outputs::InOrder;
use ox_rows::Writable;
use ox_rules::OutRow;

/// Outputs in their order.
#[derive(Drop)]
pub(super) struct Outputs<'a>(pub(super) &'a InOrder<'a>);

impl<'a> Rows for Outputs<'a> {
    ghost use Rattle.std.specs.List.{All};
    ghost use Rattle.ox_block.specs.declared.block.OutPoint.{OutPoint};
    ghost use Rattle.ox_rules.specs.declared.rows.OutRow.{OutRow};
    ghost use Rattle.ox_rows.specs.Fits.{AreSats};
    ghost use Rattle.ox_rows.specs.RowFits.{FitsOutput};
    ghost use Rattle.ox_rows.specs.RowSpelling.{output};

    ghost Item = { OutPoint × OutRow };

    ghost items = { λ s. s.0.now };

    ghost spelling = { λ s placed. output placed };

    ghost fits = { λ s placed. FitsOutput placed };

    ghost keeps = { λ s. All (λ placed. AreSats placed.1.sats) s.0.now };

    fn len(&self) -> usize {
        self.0.len()
    }

    fn put_row(&self, n: usize, bytes: &mut Bytes) -> Result<(), Memory> {
        match self.0.get(n) {
            Some((at, row)) => put_output(bytes, at, row),
            None => Ok(()),
        }
    }
}

/// Puts an output with its outpoint.
fn put_output(bytes: &mut Bytes, at: &OutPoint, row: &OutRow) -> Result<(), Memory>
    requires { AreSats row.now.sats }
    ensures ok { OnOk result (bytes.new ≡ bytes.old ++ output (at.now, row.now)) }
    ensures fits { OnOk result (FitsOutput (at.now, row.now)) }
{
    at.put(bytes)?;
    row.put(bytes)
}
