//! The runes' part of an audit.

ghost use Rattle.std.specs.Prelude.{◌≡◌, ◌<◌, ◌*◌, ◌^◌, IfOk, length, map, slice_get};
ghost use Rattle.std.specs.Option.{IfSome};
ghost use Rattle.ox_ledger.specs.Balanced.{amount_per_mint, made_of};
ghost use Rattle.ox_ledger.specs.Ledger.{runes_in};
ghost use Rattle.ox_index.specs.Audits.{audit_of_rune};

use ox_bytes::{List, Memory};
use ox_ledger::Ledger;
use ox_model::{RuneAudit, RuneRow};
use std::alloc::Global;

/// What a rune's mints gave.
fn amount_minted(row: &RuneRow) -> u128
    requires { made_of row.now < 2 ^ 128 }
    ensures { result ≡ row.now.mints * amount_per_mint row.now.terms }
{
    match &row.terms {
        Some(terms) => row.mints * terms.amount.unwrap_or(0),
        None => 0,
    }
}

/// Where the rune with a number is, and where it came from.
fn rune_audit(ledger: &Ledger, n: u32) -> RuneAudit
    requires { n < length (runes_in ledger.now).runes }
    ensures { IfSome (slice_get (runes_in ledger.now).runes n)
        (λ row. result ≡ audit_of_rune (runes_in ledger.now).bal row) }
{
    let row = ledger.rune(n);
    RuneAudit {
        id: row.id,
        premine: row.premine,
        minted: amount_minted(row),
        held: ledger.held(n),
        burned: row.burned,
    }
}

/// Where all runes are, by etching. `Memory` where there is none for it.
pub fn audits_of(alloc: Global, ledger: &Ledger) -> Result<List<RuneAudit>, Memory>
    ensures { IfOk result (λ audits. audits
        ≡ map (audit_of_rune (runes_in ledger.now).bal) (runes_in ledger.now).runes) }
{
    let mut audits = List::new(alloc);
    for n in 0..ledger.len() {
        audits.push(rune_audit(ledger, n))?;
    }
    Ok(audits)
}
