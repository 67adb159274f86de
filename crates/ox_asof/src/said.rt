//! What undone changes say of an outpoint: the oldest that names it decides.

ghost use Rattle.std.specs.Prelude.{◌≡◌, IsTrue, List, Option, map};
ghost use Rattle.std.specs.FinMap as finite;
ghost use Rattle.std.specs.List.{AllByRecursion};
ghost use Rattle.std.specs.Option.{option_copied};
ghost use Rattle.ox_block.specs.declared.block.OutPoint.{OutPoint as Key};
ghost use Rattle.ox_rules.specs.Differences.{Difference};
ghost use Rattle.ox_rules.specs.Outputs.{outpoint_cmp};
ghost use Rattle.ox_ledger.specs.Part.{balances_of};
ghost use Rattle.ox_model.specs.Change.{outputs_changed};
ghost use Rattle.ox_model.specs.declared.change.Change.{Change as IndexChange};
ghost use Rattle.ox_asof.specs.Said.{AreRising, before_all, by, meant, said_in};

use crate::undone::Undone;
use ox_allocation::Balances;
use ox_block::OutPoint;
use ox_model::{Change, OutRow};
use std::cmp::Ordering;

/// What undone changes say of an outpoint.
pub(crate) enum Said<'a, X> {
    /// This row stood there before them.
    Stood(&'a X),
    /// No row did.
    Gone,
    /// None of them names it.
    Nothing,
}

/// Rows by outpoint, of which a change tells those that are gone and those that came.
pub(crate) trait Row: Sized {
    /// What a change tells of them.
    ghost told: { IndexChange → Difference Key Self };

    /// The rows that are gone, by rising outpoint.
    fn gone(change: &Change) -> &[(OutPoint, Self)]
        ensures { result.now ≡ (told change.now).gone };

    /// The rows that came, by rising outpoint.
    fn came(change: &Change) -> &[(OutPoint, Self)]
        ensures { result.now ≡ (told change.now).came };
}

impl Row for OutRow {
    ghost told = { outputs_changed };

    fn gone(change: &Change) -> &[(OutPoint, OutRow)] {
        change.gone.as_slice()
    }

    fn came(change: &Change) -> &[(OutPoint, OutRow)] {
        change.came.as_slice()
    }
}

impl Row for Balances {
    ghost told = { λ change. balances_of change.runes };

    fn gone(change: &Change) -> &[(OutPoint, Balances)] {
        change.runes.before.as_slice()
    }

    fn came(change: &Change) -> &[(OutPoint, Balances)] {
        change.runes.after.as_slice()
    }
}

/// The row at an outpoint, of some by rising outpoint. It costs a logarithm.
pub(crate) fn row_at<'a, X>(rows: &'a [(OutPoint, X)], at: &OutPoint) -> Option<&'a X>
    requires { IsTrue (finite.is_sorted outpoint_cmp rows.now) }
    ensures { option_copied result ≡ finite.find outpoint_cmp at.now rows.now }
{
    let mut left = rows;
    while !left.is_empty() {
        let (front, back) = left.split_at(left.len() / 2);
        let Some((row, rest)) = back.split_first() else {
            return None;
        };
        match row.0.cmp(at) {
            Ordering::Less => left = rest,
            Ordering::Equal => return Some(&row.1),
            Ordering::Greater => left = front,
        }
    }
    None
}

/// What a change says of an outpoint.
fn said_by<'a, X: Row>(change: &'a Change, at: &OutPoint) -> Said<'a, X>
    requires { AreRising (X.told change.now) }
    ensures { meant result ≡ said_in (X.told change.now) at.now }
{
    if let Some(row) = row_at(X::gone(change), at) {
        return Said::Stood(row);
    }
    match row_at(X::came(change), at) {
        Some(_) => Said::Gone,
        None => Said::Nothing,
    }
}

/// What undone changes say of an outpoint together. It costs a few logarithms a change.
pub(crate) fn oldest_said<'a, X: Row>(undone: &Undone<'a>, at: &OutPoint) -> Said<'a, X>
    requires { AllByRecursion (λ change. AreRising (X.told change)) undone.now }
    ensures { (now : Option X) → before_all (map X.told undone.now) at.now now
        ≡ by (meant result) now }
{
    for place in (0..undone.len()).rev() {
        match said_by(undone.at(place), at) {
            Said::Nothing => (),
            said => return said,
        }
    }
    Said::Nothing
}
