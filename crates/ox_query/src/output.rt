//! What `/output/{outpoint}` says.

ghost use Rattle.std.specs.Prelude.{◌≡◌, ◌+◌, ◌^◌, ◌<◌, IfOk, option_map};
ghost use Rattle.std.specs.FinMap as map;
ghost use Rattle.serde_json.specs.Data.{array};
ghost use Rattle.serde_json.specs.Written.{compact_text};
ghost use Rattle.ox_replies.specs.Outputs.{output_tree, run_items, run_tree};
ghost use Rattle.ox_query.specs.Written.{Adds, tokens_of};
ghost use Rattle.ox_range.specs.Runs.{AreMaximal};

use crate::balances::write_balances;
use crate::bodies::Body;
use crate::ids::write_ids_in;
use crate::values::write_hex;
use ox_block::OutPoint;
use ox_bytes::{Bytes, Memory};
use ox_model::{OutRow, View};
use ox_range::Run;
use std::alloc::Global;

/// Writes a run's first satoshi, and the one behind its last.
fn write_run(out: &mut Body, run: &Run)
    requires { run.now.first + run.now.count < 2 ^ 64 }
    ensures { Adds out.old out.new (tokens_of (run_tree run.now)) }
{
    out.begin_array();
    out.u64(run.first);
    out.u64(run.first + run.count);
    out.end_array();
}

/// Writes runs, in order.
fn write_runs(out: &mut Body, runs: &[Run])
    requires { AreMaximal runs.now }
    ensures { Adds out.old out.new (tokens_of (array (run_items runs.now))) }
{
    out.begin_array();
    for run in runs {
        write_run(out, run);
    }
    out.end_array();
}

/// Writes an unspent output.
fn write_output<V: View>(alloc: Global, out: &mut Body, live: &V, at: &OutPoint, row: &OutRow)
    ensures { Adds out.old out.new
        (tokens_of (output_tree (V.index live.now) at.now row.now)) }
{
    out.begin_object();
    out.key("height");
    out.u64(u64::from(row.height));
    out.key("inscriptions");
    write_ids_in(out, live, &row.sats);
    out.key("ranges");
    write_runs(out, row.sats.runs());
    out.key("runes");
    write_balances(out, live, live.balance(at));
    out.key("script");
    write_hex(alloc, out, row.script.as_slice());
    out.key("value");
    out.u64(row.sats.len());
    out.end_object();
}

/// An unspent output.
fn output_body<V: View>(
    alloc: Global,
    live: &V,
    at: &OutPoint,
    row: &OutRow,
) -> Result<Bytes, Memory>
    ensures { IfOk result
        (λ body. body ≡ compact_text (output_tree (V.index live.now) at.now row.now)) }
{
    let mut out = Body::new(alloc);
    write_output(alloc, &mut out, live, at, row);
    out.into_bytes()
}

/// The unspent output at an outpoint, if there is one. `Memory` where there is none for it.
pub(crate) fn output_at<V: View>(
    alloc: Global,
    live: &V,
    at: &OutPoint,
) -> Result<Option<Bytes>, Memory>
    ensures { IfOk result (λ found. found ≡ option_map compact_text
        (option_map (output_tree (V.index live.now) at.now)
        (map.get (V.index live.now).outs at.now))) }
{
    match live.output(at) {
        Some(row) => Ok(Some(output_body(alloc, live, at, row)?)),
        None => Ok(None),
    }
}
