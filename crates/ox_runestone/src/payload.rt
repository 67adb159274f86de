//! From a script to integers.

ghost use Rattle.std.specs.Prelude.{◌≡◌, IfOk, Some, option_and_then};
ghost use Rattle.std.specs.Option.{option_map, IfSome};
ghost use Rattle.ox_runestone.specs.Payload.{is_stone, payload_of, integers_of};

use ox_bytes::Memory;
use ox_script::{Item, instructions_of};
use std::alloc::Global;

/// OP_RETURN.
pub(crate) const OP_RETURN: u8 = 0x6a;

/// OP_13, which marks a runestone.
pub(crate) const OP_13: u8 = 0x5d;

/// For how many integers room is taken before any is read, where the payload can have so many.
const FIRST_ROOM: usize = 64;

/// Whether a script carries a runestone: its items begin with OP_RETURN and OP_13.
pub fn is_stone(script: &[u8]) -> bool
    ensures { result ≡ is_stone script.now }
{
    let mut items = instructions_of(script);
    matches!(items.next(), Some(Item::Op(OP_RETURN)))
        && matches!(items.next(), Some(Item::Op(OP_13)))
}

/// The payload where it stands, if one push is all that the script has behind its first two items,
/// as nearly every runestone's does.
fn only_push(script: &[u8]) -> Option<&[u8]>
    ensures { IfSome result (λ payload. payload_of script.now ≡ Some payload.now) }
{
    let mut items = instructions_of(script);
    let _return = items.next();
    let _mark = items.next();
    let Some(Item::Push(payload)) = items.next() else {
        return None;
    };
    if items.next().is_some() || items.met_cut() {
        return None;
    }
    Some(payload)
}

/// What the script pushes behind its first two items, joined. `None` where another opcode stands
/// there, or a push is cut short.
fn payload_of(alloc: Global, script: &[u8]) -> Result<Option<Vec<u8>>, Memory>
    ensures { IfOk result (λ payload. option_map (λ v. v.items) payload ≡ payload_of script.now) }
{
    let mut items = instructions_of(script);
    let _return = items.next();
    let _mark = items.next();
    let mut payload = Vec::new(alloc);
    while let Some(item) = items.next() {
        match item {
            Item::Push(bytes) => payload.extend_from_slice(bytes)?,
            Item::Op(_) => return Ok(None),
        }
    }
    if items.met_cut() {
        return Ok(None);
    }
    Ok(Some(payload))
}

/// The integers that the payload spells one after another. `None` where one is cut short or too
/// great.
fn integers_of(alloc: Global, payload: &[u8]) -> Result<Option<Vec<u128>>, Memory>
    ensures { IfOk result (
        λ integers. option_map (λ v. v.items) integers ≡ integers_of payload.now) }
{
    let mut integers = Vec::with_capacity(alloc, payload.len().min(FIRST_ROOM))?;
    let mut rest = payload;
    while !rest.is_empty() {
        let Ok((integer, len)) = ox_varint::read(rest) else {
            return Ok(None);
        };
        integers.push(integer)?;
        let (_, behind) = rest.split_at(len);
        rest = behind;
    }
    Ok(Some(integers))
}

/// The integers that a script's payload spells. `None` where there is no payload, or an integer is
/// cut short or too great.
pub(crate) fn integers_in(alloc: Global, script: &[u8]) -> Result<Option<Vec<u128>>, Memory>
    ensures { IfOk result (λ integers. option_map (λ v. v.items) integers
        ≡ option_and_then integers_of (payload_of script.now)) }
{
    if let Some(payload) = only_push(script) {
        return integers_of(alloc, payload);
    }
    match payload_of(alloc, script)? {
        Some(payload) => integers_of(alloc, payload.as_slice()),
        None => Ok(None),
    }
}
