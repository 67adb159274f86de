//! What stands at outpoints after a change.

ghost use Rattle.std.specs.Prelude.{◌≡◌, ◌&&◌, ◌||◌, not, IsTrue, is_some};
ghost use Rattle.std.specs.FinMap.{get, is_sorted};
ghost use Rattle.std.specs.List.{list_all};
ghost use Rattle.ox_block.specs.declared.block.OutPoint.{OutPoint as At};
ghost use Rattle.ox_rules.specs.Differences.{other_end};
ghost use Rattle.ox_rules.specs.Outputs.{outpoint_cmp};
ghost use Rattle.ox_rules.specs.declared.rows.OutRow.{OutRow as Row};
ghost use Rattle.ox_ledger.specs.Runes.{Placement};
ghost use Rattle.ox_plain.specs.Ends.{begins_in};
ghost use Rattle.ox_plain.specs.Plain.{index_in};
ghost use Rattle.ox_plain.specs.Tables.{table_of};
ghost use Rattle.ox_sound.specs.Keeps.{has_runes_after, is_output_after, places_keep};

use ox_allocation::Balances;
use ox_block::OutPoint;
use ox_model::Change;
use ox_plain::{Index, has_row};
use ox_rules::OutRow;
use std::collections::BTreeMap;

/// Whether something is there after, where it came, or stood and didn't go.
fn is_there(came: bool, stood: bool, went: bool) -> bool
    ensures { result ≡ (came || (stood && not went)) }
{
    came || (stood && !went)
}

/// Whether something stands at an outpoint of a table after some rows went and others came.
fn stands_after<X>(
    table: &BTreeMap<OutPoint, X>,
    gone: &[(OutPoint, X)],
    came: &[(OutPoint, X)],
    at: &OutPoint,
) -> bool
    requires gone { IsTrue (is_sorted outpoint_cmp gone.now) }
    requires came { IsTrue (is_sorted outpoint_cmp came.now) }
    ensures { result ≡ is_some (get (other_end (table_of table.now.entries)
        (record { gone = came.now; came = gone.now })) at.now) }
{
    is_there(has_row(came, at), table.contains_key(at), has_row(gone, at))
}

/// Whether an output stands at an outpoint after a change.
fn is_output_after(before: &Index, change: &Change, at: &OutPoint) -> bool
    requires { IsTrue (begins_in (index_in before.now) change.now) }
    ensures { result ≡ is_output_after (index_in before.now) change.now at.now }
{
    stands_after(
        &before.outs,
        change.gone.as_slice(),
        change.came.as_slice(),
        at,
    )
}

/// Whether there are runes at an outpoint after a change.
fn has_runes_after(before: &Index, change: &Change, at: &OutPoint) -> bool
    requires { IsTrue (begins_in (index_in before.now) change.now) }
    ensures { result ≡ has_runes_after (index_in before.now) change.now at.now }
{
    let part = &change.runes;
    stands_after(
        &before.bal,
        part.before.as_slice(),
        part.after.as_slice(),
        at,
    )
}

/// Whether these balances come at outputs that stand after the change.
fn do_come_at_outputs(before: &Index, change: &Change, came: &[(OutPoint, Balances)]) -> bool
    requires { IsTrue (begins_in (index_in before.now) change.now) }
    ensures { result ≡ list_all (λ (row : Placement).
        is_output_after (index_in before.now) change.now row.0) came.now }
{
    for (at, _) in came {
        if !is_output_after(before, change, at) {
            return false;
        }
    }
    true
}

/// Whether nothing is left at these outputs, where they go.
fn do_leave_nothing(before: &Index, change: &Change, gone: &[(OutPoint, OutRow)]) -> bool
    requires { IsTrue (begins_in (index_in before.now) change.now) }
    ensures { result ≡ list_all (λ (row : At × Row).
        is_output_after (index_in before.now) change.now row.0
        || not (has_runes_after (index_in before.now) change.now row.0)) gone.now }
{
    for (at, _) in gone {
        if !is_output_after(before, change, at) && has_runes_after(before, change, at) {
            return false;
        }
    }
    true
}

/// Whether balances come at outputs that stand after the change, and at outputs that go nothing is
/// left.
pub(crate) fn do_places_keep(before: &Index, change: &Change) -> bool
    requires { IsTrue (begins_in (index_in before.now) change.now) }
    ensures { result ≡ places_keep (index_in before.now) change.now }
{
    do_come_at_outputs(before, change, change.runes.after.as_slice())
        && do_leave_nothing(before, change, change.gone.as_slice())
}
