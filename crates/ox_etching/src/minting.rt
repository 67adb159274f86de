//! Open mints: Runes specification, "Minting".

ghost use Rattle.std.specs.Prelude.{◌≡◌};
ghost use Rattle.std.specs.Option.{option_map};
ghost use Rattle.ox_etching.specs.Minted.{has_come, height_behind, is_ahead, is_open, is_within};
ghost use Rattle.ox_etching.specs.Minted.{minted};

use crate::row::RuneRow;
use ox_runestone::Terms;

/// The height that an offset from the etching's height names. It stops at the greatest number of
/// 64 bits.
fn height_behind(etched: u64, offset: Option<u64>) -> Option<u64>
    ensures { result ≡ option_map (height_behind etched) offset }
{
    Some(etched.saturating_add(offset?))
}

/// Whether a start that is given has come.
fn has_come(height: u64, start: Option<u64>) -> bool
    ensures { result ≡ has_come height start }
{
    match start {
        Some(first) => first <= height,
        None => true,
    }
}

/// Whether an end that is given hasn't come.
fn is_ahead(height: u64, end: Option<u64>) -> bool
    ensures { result ≡ is_ahead height end }
{
    match end {
        Some(first) => height < first,
        None => true,
    }
}

/// Whether a height is at or past each start and before each end of the terms of a rune that was
/// etched at a height.
fn is_within(terms: &Terms, etched: u64, height: u64) -> bool
    ensures { result ≡ is_within terms.now etched height }
{
    has_come(height, terms.height_start)
        && has_come(height, height_behind(etched, terms.offset_start))
        && is_ahead(height, terms.height_end)
        && is_ahead(height, height_behind(etched, terms.offset_end))
}

/// Whether a rune with these terms can be minted at a height.
fn is_open(row: &RuneRow, terms: &Terms, height: u64) -> bool
    ensures { result ≡ is_open row.now terms.now height }
{
    row.mints < terms.cap.unwrap_or(0) && is_within(terms, row.id.block, height)
}

/// What a mint gives in a block of this height, where it is open; `None` where it isn't. Open is a
/// mint at or past each start and before each end, of which there were fewer than the cap. An
/// offset is counted from the etching's height, and stops at the greatest number of 64 bits. A cap
/// or an amount that is missing is 0: so a mint may give 0. Without terms no mint is open. (Runes
/// specification, "Minting".)
pub fn minted(row: &RuneRow, height: u32) -> Option<u128>
    ensures { result ≡ minted row.now height }
{
    let terms = row.terms?;
    if !is_open(row, &terms, height as u64) {
        return None;
    }
    Some(terms.amount.unwrap_or(0))
}
