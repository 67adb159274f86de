//! Which rune a part of a path names.

ghost use Rattle.std.specs.Prelude.{◌≡◌, ◌<◌, ◌++◌, [], length, IfOk, MatchOption, option_and_then};
ghost use Rattle.ox_replies.specs.Named.{rune_id_in, rune_named, without_escapes};
ghost use Rattle.ox_model.specs.Found.{by_id, by_name};
ghost use Rattle.ox_name.specs.Spaced.{name_in};

use ox_bytes::{Bytes, Memory};
use ox_model::{RuneId, View};
use ox_name::read_name;
use ox_sat::read_number;
use std::alloc::Global;

/// The id that a part spells, if any.
fn rune_id(part: &[u8]) -> Option<RuneId>
    ensures { result ≡ rune_id_in part.now }
{
    let Ok(text) = str::from_utf8(part) else {
        return None;
    };
    let (height, place) = text.split_once(':')?;
    let block = read_number(height)?;
    let tx = u32::try_from(read_number(place)?).ok()?;
    Some(RuneId { block, tx })
}

/// The number of the rune with the id that a part spells, if there is one.
fn with_id<V: View>(live: &V, part: &[u8]) -> Option<u32>
    ensures { result
        ≡ option_and_then (by_id (V.index live.now).runes) (rune_id_in part.now) }
{
    live.by_id(rune_id(part)?)
}

/// What the front of a text says, and the text behind it: U+2022 where the front is `%E2%80%A2`,
/// and else a byte.
fn front_of(text: &[u8]) -> Option<(&[u8], &[u8])>
    ensures { MatchOption result (text.now ≡ []) (λ x.
        (without_escapes text.now ≡ x.0.now ++ without_escapes x.1.now)
        × (length x.1.now < length text.now)) }
{
    match text.strip_prefix(b"%E2%80%A2") {
        Some(rest) => Some((b"\xe2\x80\xa2", rest)),
        None => text.split_at_checked(1),
    }
}

/// A text with U+2022 for each `%E2%80%A2`. `Memory` where there is none for it.
fn without_escapes(alloc: Global, text: &[u8]) -> Result<Bytes, Memory>
    ensures { IfOk result (λ read. read ≡ without_escapes text.now) }
{
    let mut read = Bytes::empty(alloc);
    let mut rest = text;
    while let Some((front, behind)) = front_of(rest) {
        read.append(front)?;
        rest = behind;
    }
    Ok(read)
}

/// The number of the rune with the name that a part spells, if there is one. `Memory` where there
/// is none to read it.
fn with_name<V: View>(alloc: Global, live: &V, part: &[u8]) -> Result<Option<u32>, Memory>
    ensures { IfOk result (λ found. found ≡ option_and_then
        (λ named. by_name (V.index live.now).runes named.name)
        (name_in (without_escapes part.now))) }
{
    let text = without_escapes(alloc, part)?;
    match read_name(text.as_slice()) {
        Ok(named) => Ok(live.by_name(named.name)),
        Err(_) => Ok(None),
    }
}

/// The number of the rune with the id or the name that a part spells, if there is one. `Memory`
/// where there is none to read it.
pub(crate) fn rune_named<V: View>(
    alloc: Global,
    live: &V,
    part: &[u8],
) -> Result<Option<u32>, Memory>
    ensures { IfOk result (λ found. found ≡ rune_named (V.index live.now).runes part.now) }
{
    match with_id(live, part) {
        Some(n) => Ok(Some(n)),
        None => with_name(alloc, live, part),
    }
}
