//! Ids of inscriptions, and lists of them.

ghost use Rattle.std.specs.Prelude.{◌+◌, ◌^◌, ◌<◌, All, length};
ghost use Rattle.ox_replies.specs.Inscriptions.{id_tree, ids_on_all, ids_tree};
ghost use Rattle.ox_replies.specs.Walk.{on_between};
ghost use Rattle.ox_inscribe.specs.Inscriptions.{children, on};
ghost use Rattle.ox_query.specs.Listed.{inscription_ids_of};
ghost use Rattle.ox_query.specs.Written.{Adds, tokens_of, tokens_of_all};
ghost use Rattle.ox_range.specs.Runs.{AreMaximal, end_of, numbers_of};

use crate::bodies::Body;
use crate::values::text_of;
use ox_held::next_between;
use ox_model::{InsId, View};
use ox_range::{Ranges, Run};

/// Writes an inscription's id as it is printed.
pub(crate) fn write_id(out: &mut Body, id: &InsId)
    ensures { Adds out.old out.new (tokens_of (id_tree id.now)) }
{
    let mut letters = [0; 75];
    let len = ox_envelope::write_id(id, &mut letters);
    out.string(text_of(&letters[..len]));
}

/// Writes the ids of the inscriptions with these sequences, one behind the other.
fn write_ids<V: View>(out: &mut Body, live: &V, numbers: &[u32])
    requires { All (λ n. n < length (V.index live.now).inscriptions) numbers.now }
    ensures { Adds out.old out.new
        (tokens_of_all (inscription_ids_of (V.index live.now).inscriptions numbers.now)) }
{
    for n in numbers {
        write_id(out, &live.inscription(*n).id);
    }
}

/// Writes the ids of the inscriptions with these sequences, as an array.
pub(crate) fn write_id_array<V: View>(out: &mut Body, live: &V, numbers: &[u32])
    requires { All (λ n. n < length (V.index live.now).inscriptions) numbers.now }
    ensures { Adds out.old out.new
        (tokens_of (ids_tree (V.index live.now).inscriptions numbers.now)) }
{
    out.begin_array();
    write_ids(out, live, numbers);
    out.end_array();
}

/// Writes the ids of the inscriptions on a satoshi, by sequence.
pub(crate) fn write_ids_on<V: View>(out: &mut Body, live: &V, sat: u64)
    ensures { Adds out.old out.new (tokens_of
        (ids_tree (V.index live.now).inscriptions (on (V.index live.now).inscriptions sat))) }
{
    write_id_array(out, live, live.on(sat));
}

/// Writes the ids of the children of the inscription with a sequence, by sequence.
pub(crate) fn write_children<V: View>(out: &mut Body, live: &V, of: u32)
    requires { of < length (V.index live.now).inscriptions }
    ensures { Adds out.old out.new (tokens_of (ids_tree
        (V.index live.now).inscriptions (children (V.index live.now).inscriptions of))) }
{
    write_id_array(out, live, live.children(of));
}

/// Writes the ids of the inscriptions on a run of satoshis, from one satoshi that bears some to the
/// next.
fn write_ids_on_run<V: View>(out: &mut Body, live: &V, run: &Run)
    requires { run.now.first + run.now.count < 2 ^ 64 }
    ensures { Adds out.old out.new
        (tokens_of_all (inscription_ids_of (V.index live.now).inscriptions
        (on_between (V.index live.now).inscriptions run.now.first (end_of run.now)))) }
{
    let end = run.first + run.count;
    let mut from = run.first;
    while let Some((sat, numbers)) = next_between(live, from, end) {
        write_ids(out, live, numbers);
        from = sat + 1;
    }
}

/// Writes the ids of the inscriptions on the satoshis of these runs.
fn write_ids_on_runs<V: View>(out: &mut Body, live: &V, runs: &[Run])
    requires { AreMaximal runs.now }
    ensures { Adds out.old out.new
        (tokens_of (ids_on_all (V.index live.now).inscriptions (numbers_of runs.now))) }
{
    out.begin_array();
    for run in runs {
        write_ids_on_run(out, live, run);
    }
    out.end_array();
}

/// Writes the ids of the inscriptions on these satoshis: satoshi by satoshi, and on each by
/// sequence.
pub(crate) fn write_ids_in<V: View>(out: &mut Body, live: &V, sats: &Ranges)
    ensures { Adds out.old out.new
        (tokens_of (ids_on_all (V.index live.now).inscriptions sats.now)) }
{
    write_ids_on_runs(out, live, sats.runs());
}
