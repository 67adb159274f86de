//! What `/sat/{sat}` says.

ghost use Rattle.std.specs.Prelude.{◌≡◌, ◌<◌, IfOk, Some};
ghost use Rattle.serde_json.specs.Written.{compact_text};
ghost use Rattle.ox_rules.specs.declared.place.Place.TheVariants.{Lost, Out};
ghost use Rattle.ox_replies.specs.Sats.{sat_tree};
ghost use Rattle.ox_replies.specs.Values.{place_tree};
ghost use Rattle.ox_query.specs.Written.{Adds, tokens_of};

use crate::bodies::Body;
use crate::ids::write_ids_on;
use crate::texts::{rarity_word, write_decimal, write_degree, write_outpoint, write_sat_name};
use ox_block::OutPoint;
use ox_bytes::{Bytes, Memory};
use ox_model::{Place, View};
use ox_sat::{degree_of, rarity_of};
use std::alloc::Global;

/// Writes the output that a satoshi is in, and its place there.
fn write_place_out(out: &mut Body, outpoint: &OutPoint, offset: u64)
    ensures { Adds out.old out.new (tokens_of (place_tree (Some (Out outpoint.now offset)))) }
{
    out.begin_object();
    out.key("offset");
    out.u64(offset);
    out.key("outpoint");
    write_outpoint(out, outpoint);
    out.end_object();
}

/// Writes the place of a lost satoshi among those that are lost.
fn write_place_lost(out: &mut Body, offset: u64)
    ensures { Adds out.old out.new (tokens_of (place_tree (Some (Lost offset)))) }
{
    out.begin_object();
    out.key("lost");
    out.u64(offset);
    out.end_object();
}

/// Writes where a satoshi is, or null where it is nowhere.
pub(crate) fn write_place(out: &mut Body, place: Option<Place>)
    ensures { Adds out.old out.new (tokens_of (place_tree place)) }
{
    match place {
        Some(Place::Out { outpoint, offset }) => write_place_out(out, &outpoint, offset),
        Some(Place::Lost { offset }) => write_place_lost(out, offset),
        None => out.null(),
    }
}

/// Writes a satoshi.
fn write_sat<V: View>(out: &mut Body, live: &V, sat: u64)
    requires { sat < (V.chain live.now).supply }
    ensures { Adds out.old out.new
        (tokens_of (sat_tree (V.chain live.now) (V.index live.now) sat)) }
{
    let p = live.profile();
    let degree = degree_of(p, sat);
    out.begin_object();
    out.key("decimal");
    write_decimal(out, p, sat);
    out.key("degree");
    write_degree(out, &degree);
    out.key("inscriptions");
    write_ids_on(out, live, sat);
    out.key("name");
    write_sat_name(out, p, sat);
    out.key("number");
    out.u64(sat);
    out.key("place");
    write_place(out, live.locate(sat));
    out.key("rarity");
    out.string(rarity_word(rarity_of(&degree)));
    out.end_object();
}

/// A satoshi: its names, its rarity, where it is and what is on it. `Memory` where there is none
/// for it.
pub(crate) fn sat_body<V: View>(alloc: Global, live: &V, sat: u64) -> Result<Bytes, Memory>
    requires { sat < (V.chain live.now).supply }
    ensures { IfOk result
        (λ body. body ≡ compact_text (sat_tree (V.chain live.now) (V.index live.now) sat)) }
{
    let mut out = Body::new(alloc);
    write_sat(&mut out, live, sat);
    out.into_bytes()
}
