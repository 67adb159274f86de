//! How much there is of a rune, and where.

ghost use Rattle.std.specs.Prelude.{◌≡◌, ◌<◌, ◌*◌, ◌-◌, ◌≤◌, ◌^◌};
ghost use Rattle.ox_ledger.specs.Balanced.{amount_per_mint, made_of};
ghost use Rattle.ox_asof.specs.Amounts.{audit_by, held_by};

use ox_model::{RuneAudit, RuneRow};

/// What a rune's mints gave.
fn minted_of(row: &RuneRow) -> u128
    requires { made_of row.now < 2 ^ 128 }
    ensures { result ≡ row.now.mints * amount_per_mint row.now.terms }
{
    match &row.terms {
        Some(terms) => row.mints * terms.amount.unwrap_or(0),
        None => 0,
    }
}

/// What outputs hold of a rune: what its etching and its mints gave, less what was burned.
pub(crate) fn held_of(row: &RuneRow) -> u128
    requires fits { made_of row.now < 2 ^ 128 }
    requires burned { row.now.burned ≤ made_of row.now }
    ensures { result ≡ held_by row.now }
{
    row.premine + minted_of(row) - row.burned
}

/// Where a rune is, and where it came from.
pub(crate) fn rune_audit(row: &RuneRow) -> RuneAudit
    requires fits { made_of row.now < 2 ^ 128 }
    requires burned { row.now.burned ≤ made_of row.now }
    ensures { result ≡ audit_by row.now }
{
    RuneAudit {
        id: row.id,
        premine: row.premine,
        minted: minted_of(row),
        held: held_of(row),
        burned: row.burned,
    }
}
