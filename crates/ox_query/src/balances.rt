//! The runes of outputs.

ghost use Rattle.std.specs.Prelude.{◌≤◌, [], ◌∷◌};
ghost use Rattle.std.specs.List.{filter_map};
ghost use Rattle.ox_replies.specs.Runes.{balance_among, balance_tree, balances_tree};
ghost use Rattle.ox_query.specs.Written.{Adds, tokens_of, tokens_of_all};

use crate::bodies::Body;
use crate::rune_values::{write_amount, write_rune_id, write_rune_name, write_shown};
use ox_model::{RuneId, RuneRow, View};

/// Writes so much of a rune.
fn write_held(out: &mut Body, amount: u128, row: &RuneRow)
    requires { row.now.divisibility ≤ 38 }
    ensures { Adds out.old out.new (tokens_of (balance_tree amount row.now)) }
{
    out.begin_object();
    out.key("amount");
    write_amount(out, amount);
    out.key("id");
    write_rune_id(out, &row.id);
    out.key("name");
    write_rune_name(out, row);
    out.key("shown");
    write_shown(out, amount, row.divisibility);
    out.end_object();
}

/// Writes a balance, if its rune is there.
fn write_balance<V: View>(out: &mut Body, live: &V, balance: &(RuneId, u128))
    ensures { Adds out.old out.new (tokens_of_all
        (filter_map (balance_among (V.index live.now).runes) (balance.now ∷ []))) }
{
    let (id, amount) = *balance;
    if let Some(n) = live.by_id(id) {
        write_held(out, amount, live.rune(n));
    }
}

/// Writes balances, in order.
pub(crate) fn write_balances<V: View>(out: &mut Body, live: &V, balances: &[(RuneId, u128)])
    ensures { Adds out.old out.new
        (tokens_of (balances_tree (V.index live.now).runes balances.now)) }
{
    out.begin_array();
    for balance in balances {
        write_balance(out, live, balance);
    }
    out.end_array();
}
