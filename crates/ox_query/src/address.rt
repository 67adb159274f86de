//! What `/address/{address}` says.

ghost use Rattle.std.specs.Prelude.{◌≡◌, ◌<◌, ℕ, All, IfOk, List, Some, length, map, option_map};
ghost use Rattle.serde_json.specs.Data.{array, string};
ghost use Rattle.serde_json.specs.View.{items_of};
ghost use Rattle.serde_json.specs.Written.{compact_text};
ghost use Rattle.ox_address.specs.Address.{IsHrp, address_of};
ghost use Rattle.ox_address.specs.Spelled.{script_in};
ghost use Rattle.ox_http.specs.declared.Method.TheVariants.{Get};
ghost use Rattle.ox_holders.specs.Outputs.{outputs_with};
ghost use Rattle.ox_held.specs.Paths.{hrp_in};
ghost use Rattle.ox_held.specs.Replies.{address_reply, tree_named};
ghost use Rattle.ox_held.specs.Trees.{address_tree, held_tree, outpoint_tree};
ghost use Rattle.ox_query.specs.Written.{Adds, tokens_of};

use crate::balances::write_balances;
use crate::bodies::Body;
use crate::ids::write_id_array;
use crate::replies::{error_reply, same_method, tree_or_missing};
use crate::texts::write_outpoint;
use crate::values::{text_of, write_hex};
use ox_address::write;
use ox_block::OutPoint;
use ox_bytes::{Bytes, Memory};
use ox_held::{Held, SegwitScript, held_at, hrp_in, script_in};
use ox_http::{Method, Reply, Request};
use ox_model::View;
use std::alloc::Global;

/// Writes the address of a script behind this human-readable part.
fn write_address(out: &mut Body, hrp: &[u8], script: &SegwitScript)
    requires { IsHrp hrp.now }
    ensures { Adds out.old out.new (tokens_of (string (address_of hrp.now script.now))) }
{
    let mut text = [0; 90];
    match write(hrp, script.as_slice(), &mut text) {
        Some(len) => out.string(text_of(&text[..len])),
        None => unreachable!(),
    }
}

/// Writes outpoints, in order.
fn write_outpoints(out: &mut Body, places: &[OutPoint])
    ensures { Adds out.old out.new
        (tokens_of (array (items_of (map outpoint_tree places.now)))) }
{
    out.begin_array();
    for at in places {
        write_outpoint(out, at);
    }
    out.end_array();
}

/// Writes the address of a script, and what these outputs of it hold.
fn write_held<V: View>(
    alloc: Global,
    out: &mut Body,
    live: &V,
    script: &SegwitScript,
    places: &[OutPoint],
    held: &Held,
)
    requires { All (λ n. n < length (V.index live.now).inscriptions) held.now.inscriptions }
    ensures { Adds out.old out.new (tokens_of (held_tree (V.index live.now)
        (address_of (hrp_in (V.chain live.now)) script.now) script.now places.now held.now)) }
{
    out.begin_object();
    out.key("address");
    write_address(out, hrp_in(live.profile()), script);
    out.key("inscriptions");
    write_id_array(out, live, held.inscriptions.as_slice());
    out.key("outputs");
    write_outpoints(out, places);
    out.key("runes");
    write_balances(out, live, held.runes.as_slice());
    out.key("script");
    write_hex(alloc, out, script.as_slice());
    out.key("value");
    out.u64(held.value);
    out.end_object();
}

/// What the address of a script holds, by the outpoints of its outputs. `Memory` where there is
/// none for it.
fn address_body<V: View>(
    alloc: Global,
    live: &V,
    script: &SegwitScript,
    places: &[OutPoint],
) -> Result<Bytes, Memory>
    requires { places.now ≡ outputs_with script.now (V.index live.now).outs }
    ensures { IfOk result (λ body. body ≡ compact_text
        (address_tree (V.index live.now) (hrp_in (V.chain live.now)) script.now)) }
{
    let held = held_at(alloc, live, places)?;
    let mut out = Body::new(alloc);
    write_held(alloc, &mut out, live, script, places, &held);
    out.into_bytes()
}

/// What the address holds that a part is, if it is one of the chain. `Memory` where there is none
/// for it.
fn address_at<V: View>(
    alloc: Global,
    live: &V,
    part: &[u8],
    held: &[OutPoint],
) -> Result<Option<Bytes>, Memory>
    requires { (script : List ℕ) → script_in (hrp_in (V.chain live.now)) part.now ≡ Some script
        → held.now ≡ outputs_with script (V.index live.now).outs }
    ensures { IfOk result (λ found. found ≡ option_map compact_text
        (tree_named (V.chain live.now) (V.index live.now) part.now)) }
{
    match script_in(live.profile(), part) {
        Some(script) => Ok(Some(address_body(alloc, live, &script, held)?)),
        None => Ok(None),
    }
}

/// The reply to a request whose path has a part that stands for an address: 405 for another method
/// than GET, 404 where the part is no segwit address of the chain (BIP 173, BIP 350), and else 200
/// with what the address holds. `held` are the outpoints of the outputs with its script, as holders
/// lend them; where the reply isn't 200, they may be any. `Memory` where there is none for the
/// reply.
pub fn answer_address<V: View>(
    alloc: Global,
    live: &V,
    part: &[u8],
    held: &[OutPoint],
    request: &Request,
) -> Result<Reply, Memory>
    requires held { (script : List ℕ) → request.now.method ≡ Get
        → script_in (hrp_in (V.chain live.now)) part.now ≡ Some script
        → held.now ≡ outputs_with script (V.index live.now).outs }
    ensures { IfOk result (λ reply. reply ≡ address_reply (V.chain live.now)
        (V.index live.now) request.now part.now) }
{
    if !same_method(request.method, Method::Get) {
        return error_reply(alloc, 405, request.close);
    }
    tree_or_missing(alloc, address_at(alloc, live, part, held)?, request.close)
}
