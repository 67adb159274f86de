//! What `/rune/{rune}` says.

ghost use Rattle.std.specs.Prelude.{◌≡◌, IfOk, Some, is_some, length, option_and_then, option_map};
ghost use Rattle.std.specs.Prelude.{slice_get};
ghost use Rattle.serde_json.specs.Written.{compact_text};
ghost use Rattle.ox_replies.specs.Ask.{rune_at};
ghost use Rattle.ox_replies.specs.Named.{rune_named};
ghost use Rattle.ox_replies.specs.Runes.{character, rune_tree, span_tree};
ghost use Rattle.ox_etching.specs.Minted.{minted};
ghost use Rattle.ox_model.specs.Found.{held_of};
ghost use Rattle.ox_replies.specs.Values.{amount, or_null};
ghost use Rattle.ox_query.specs.Written.{Adds, tokens_of};

use crate::bodies::Body;
use crate::rune_named::rune_named;
use crate::rune_values::{write_amount, write_rune_id, write_rune_name};
use crate::values::{write_count_or_null, write_hash};
use ox_bytes::{Bytes, Memory};
use ox_etching::minted;
use ox_model::{RuneRow, View};
use ox_runestone::Terms;
use std::alloc::Global;

/// Writes an amount, or null without one.
fn write_amount_or_null(out: &mut Body, number: Option<u128>)
    ensures { Adds out.old out.new (tokens_of (or_null amount number)) }
{
    match number {
        Some(number) => write_amount(out, number),
        None => out.null(),
    }
}

/// Writes a start and an end, each null where it is missing.
fn write_span(out: &mut Body, start: Option<u64>, end: Option<u64>)
    ensures { Adds out.old out.new (tokens_of (span_tree start end)) }
{
    out.begin_array();
    write_count_or_null(out, start);
    write_count_or_null(out, end);
    out.end_array();
}

/// What a mint gives, if the terms say it.
fn amount_of(terms: &Option<Terms>) -> Option<u128>
    ensures { result ≡ option_and_then (λ t. t.amount) terms.now }
{
    terms.as_ref()?.amount
}

/// How many mints there may be, if the terms say it.
fn cap_of(terms: &Option<Terms>) -> Option<u128>
    ensures { result ≡ option_and_then (λ t. t.cap) terms.now }
{
    terms.as_ref()?.cap
}

/// Writes the first open and the first closed height, or null without terms.
fn write_heights(out: &mut Body, terms: &Option<Terms>)
    ensures { Adds out.old out.new
        (tokens_of (or_null (λ t. span_tree t.height_start t.height_end) terms.now)) }
{
    match terms {
        Some(terms) => write_span(out, terms.height_start, terms.height_end),
        None => out.null(),
    }
}

/// Writes the first open and the first closed height, counted from the etching's, or null without
/// terms.
fn write_offsets(out: &mut Body, terms: &Option<Terms>)
    ensures { Adds out.old out.new
        (tokens_of (or_null (λ t. span_tree t.offset_start t.offset_end) terms.now)) }
{
    match terms {
        Some(terms) => write_span(out, terms.offset_start, terms.offset_end),
        None => out.null(),
    }
}

/// Writes a character, or null without one.
fn write_symbol(out: &mut Body, symbol: Option<char>)
    ensures { Adds out.old out.new (tokens_of (or_null character symbol)) }
{
    match symbol {
        Some(symbol) => out.string(symbol.encode_utf8(&mut [0; 4])),
        None => out.null(),
    }
}

/// How much of a rune outputs hold.
fn amount_held<V: View>(live: &V, n: u32, row: &RuneRow) -> u128
    requires { slice_get (V.index live.now).runes n ≡ Some row.now }
    ensures { result ≡ held_of (V.index live.now) row.now }
{
    live.held(n)
}

/// Whether a rune's mint is open for the next block.
fn is_mintable<V: View>(live: &V, row: &RuneRow) -> bool
    ensures { result ≡ is_some (minted row.now (length (V.index live.now).hashes)) }
{
    minted(row, live.blocks()).is_some()
}

/// Writes a rune with its number.
fn write_rune<V: View>(out: &mut Body, live: &V, n: u32, row: &RuneRow)
    requires { slice_get (V.index live.now).runes n ≡ Some row.now }
    ensures { Adds out.old out.new
        (tokens_of (rune_tree (V.index live.now) n row.now)) }
{
    out.begin_object();
    out.key("amount");
    write_amount_or_null(out, amount_of(&row.terms));
    out.key("burned");
    write_amount(out, row.burned);
    out.key("cap");
    write_amount_or_null(out, cap_of(&row.terms));
    out.key("divisibility");
    out.u64(u64::from(row.divisibility));
    out.key("etching");
    write_hash(out, &row.etching.0);
    out.key("height");
    write_heights(out, &row.terms);
    out.key("held");
    write_amount(out, amount_held(live, n, row));
    out.key("id");
    write_rune_id(out, &row.id);
    out.key("mintable");
    out.boolean(is_mintable(live, row));
    out.key("mints");
    write_amount(out, row.mints);
    out.key("name");
    write_rune_name(out, row);
    out.key("number");
    out.u64(u64::from(n));
    out.key("offset");
    write_offsets(out, &row.terms);
    out.key("premine");
    write_amount(out, row.premine);
    out.key("symbol");
    write_symbol(out, row.symbol);
    out.end_object();
}

/// The body of a rune with its number.
fn body_with<V: View>(alloc: Global, live: &V, n: u32, row: &RuneRow) -> Result<Bytes, Memory>
    requires { slice_get (V.index live.now).runes n ≡ Some row.now }
    ensures { IfOk result
        (λ body. body ≡ compact_text (rune_tree (V.index live.now) n row.now)) }
{
    let mut out = Body::new(alloc);
    write_rune(&mut out, live, n, row);
    out.into_bytes()
}

/// The rune with the id or the name that a part spells, if there is one: its terms, how much of it
/// there is, and whether its mint is open for the next block. `Memory` where there is none for it.
pub(crate) fn rune_body<V: View>(
    alloc: Global,
    live: &V,
    part: &[u8],
) -> Result<Option<Bytes>, Memory>
    ensures { IfOk result (λ body. body ≡ option_map compact_text
        (option_and_then (rune_at (V.index live.now))
        (rune_named (V.index live.now).runes part.now))) }
{
    match rune_named(alloc, live, part)? {
        Some(n) => Ok(Some(body_with(alloc, live, n, live.rune(n))?)),
        None => Ok(None),
    }
}
