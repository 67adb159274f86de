//! What `/audit` says.

ghost use Rattle.std.specs.Prelude.{◌≡◌, IfOk, map};
ghost use Rattle.serde_json.specs.Data.{array};
ghost use Rattle.serde_json.specs.View.{items_of};
ghost use Rattle.serde_json.specs.Written.{compact_text};
ghost use Rattle.ox_replies.specs.Audits.{audit_tree, rune_audit_tree};
ghost use Rattle.ox_model.specs.Audit.{audit_of};
ghost use Rattle.ox_query.specs.Written.{Adds, tokens_of};

use crate::bodies::Body;
use crate::rune_values::{write_amount, write_rune_id};
use ox_bytes::{Bytes, Memory};
use ox_model::{Audit, RuneAudit, View};
use std::alloc::Global;

/// Writes where a rune is and where it came from.
fn write_rune_audit(out: &mut Body, rune: &RuneAudit)
    ensures { Adds out.old out.new (tokens_of (rune_audit_tree rune.now)) }
{
    out.begin_object();
    out.key("burned");
    write_amount(out, rune.burned);
    out.key("held");
    write_amount(out, rune.held);
    out.key("id");
    write_rune_id(out, &rune.id);
    out.key("minted");
    write_amount(out, rune.minted);
    out.key("premine");
    write_amount(out, rune.premine);
    out.end_object();
}

/// Writes runes, in order.
fn write_runes(out: &mut Body, runes: &[RuneAudit])
    ensures { Adds out.old out.new
        (tokens_of (array (items_of (map rune_audit_tree runes.now)))) }
{
    out.begin_array();
    for rune in runes {
        write_rune_audit(out, rune);
    }
    out.end_array();
}

/// Writes where all satoshis and all runes are.
fn write_audit(out: &mut Body, audit: &Audit)
    ensures { Adds out.old out.new (tokens_of (audit_tree audit.now)) }
{
    out.begin_object();
    out.key("claimable");
    out.u64(audit.claimable);
    out.key("lost");
    out.u64(audit.lost);
    out.key("outputs");
    out.u64(audit.outputs);
    out.key("runes");
    write_runes(out, audit.runes.as_slice());
    out.end_object();
}

/// Where all satoshis and all runes are. `Memory` where there is none for it.
pub(crate) fn audit_body<V: View>(alloc: Global, live: &V) -> Result<Bytes, Memory>
    ensures { IfOk result (λ body. body
        ≡ compact_text (audit_tree (audit_of (V.chain live.now) (V.index live.now)))) }
{
    let audit = live.audit()?;
    let mut out = Body::new(alloc);
    write_audit(&mut out, &audit);
    out.into_bytes()
}
