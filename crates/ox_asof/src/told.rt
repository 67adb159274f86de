//! Which replies tell of runes, and the view that a reply needs.

ghost use Rattle.std.specs.Prelude.{◌≡◌, ◌≤◌, IfOk, [], false, length, take};
ghost use Rattle.std.specs.Bool.{OnFalse};
ghost use Rattle.ox_ledger.specs.Runes.{balances_at};
ghost use Rattle.ox_model.specs.Ends.{AllEnd};
ghost use Rattle.ox_routes.specs.declared.route.Route.TheVariants.{Output};
ghost use Rattle.ox_asof.specs.Shown.{TellsNoRune};
ghost use Rattle.ox_asof.specs.Undone.{undone_by};

use crate::past::{Past, past_of, past_without_runes};
use crate::said::{Said, oldest_said};
use crate::undone::Undone;
use ox_allocation::Balances;
use ox_block::OutPoint;
use ox_bytes::Memory;
use ox_index::Changes;
use ox_model::{RuneId, View};
use ox_query::outpoint;
use ox_routes::{Found, Route};
use std::alloc::Global;

/// The runes of an output before undone changes, ids rising. It costs a few logarithms a change.
pub(crate) fn balance_before<'a, V: View>(
    view: &'a V,
    undone: &Undone<'a>,
    at: &OutPoint,
) -> &'a [(RuneId, u128)]
    requires { AllEnd (V.chain view.now) (V.index view.now) undone.now }
    ensures { result.now ≡ balances_at (undone_by (V.index view.now) undone.now).bal at.now }
{
    match oldest_said::<Balances>(undone, at) {
        Said::Stood(balances) => balances.as_slice(),
        Said::Gone => &[],
        Said::Nothing => view.balance(at),
    }
}

/// Whether an output that a part names may have held runes before undone changes.
fn has_runes<V: View>(view: &V, undone: &Undone<'_>, part: &[u8]) -> bool
    requires { AllEnd (V.chain view.now) (V.index view.now) undone.now }
    ensures { OnFalse result
        (TellsNoRune (undone_by (V.index view.now) undone.now) Output part.now) }
{
    match outpoint(part) {
        Some(at) => !balance_before(view, undone, &at).is_empty(),
        None => true,
    }
}

/// Whether the reply to a part of a route may tell of runes, before undone changes.
fn tells_runes<V: View>(view: &V, undone: &Undone<'_>, found: &Found) -> bool
    requires { AllEnd (V.chain view.now) (V.index view.now) undone.now }
    ensures { OnFalse result
        (TellsNoRune (undone_by (V.index view.now) undone.now) found.now.route
        found.now.part.now) }
{
    match found.route {
        Route::Audit | Route::Rune | Route::Runes => true,
        Route::Output => has_runes(view, undone, found.part),
        Route::BlockHash
        | Route::Connect
        | Route::Content
        | Route::Disconnect
        | Route::Inscription
        | Route::Inscriptions
        | Route::Sat
        | Route::Status => false,
    }
}

/// A view of an index before so many of its newest blocks, by which a part of a route is replied:
/// without the runes, which take time and memory, where the reply tells of none. `Memory` where
/// there is none for them.
pub(crate) fn past_for<'a, V: View>(
    alloc: Global,
    view: &'a V,
    changes: &'a Changes,
    back: usize,
    found: &Found,
) -> Result<Past<'a, V>, Memory>
    requires end { AllEnd (V.chain view.now) (V.index view.now) changes.now.kept }
    requires kept { back ≤ length changes.now.kept }
    ensures chain { IfOk result (λ past. V.chain past.view.now ≡ V.chain view.now) }
    ensures index { IfOk result (λ past. undone_by (V.index past.view.now) past.undone
        ≡ undone_by (V.index view.now) (take back changes.now.kept)) }
    ensures runes { IfOk result (λ past. past.has_runes ≡ false
        → TellsNoRune (undone_by (V.index view.now) (take back changes.now.kept))
        found.now.route found.now.part.now) }
{
    let undone = Undone::of(changes, back);
    if tells_runes(view, &undone, found) {
        past_of(alloc, view, changes, back)
    } else {
        Ok(past_without_runes(alloc, view, changes, back))
    }
}
