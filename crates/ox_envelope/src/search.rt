//! Finding the envelopes of a script in one pass over its items.

ghost use Rattle.std.specs.Prelude.{◌≡◌, ◌≢◌, ◌∷◌, ◌++◌, ◌<◌, ◌≤◌, List, [], Some, None, length};
ghost use Rattle.std.specs.Prelude.{map, IfOk, option_to_list, option_map};
ghost use Rattle.std.specs.List.{AllByRecursion};
ghost use Rattle.std.specs.Bool.{OnTrue, OnFalse};
ghost use Rattle.ox_script.specs.Script.{Op, instruction_of};
ghost use Rattle.ox_envelope.specs.Envelope.{bytes_pushed, envelopes_among, envelopes, no_pushes};
ghost use Rattle.ox_envelope.specs.Envelope.{HasPushesOf};
ghost use Rattle.ox_envelope.specs.Opening.{next_opened, envelopes_within};

use crate::envelope::{Envelope, Envelopes};
use ox_bytes::Memory;
use ox_script::{Instructions, Item, instructions_of};
use std::alloc::Global;

const OP_1NEGATE: u8 = 0x4f;

const OP_IF: u8 = 0x63;

const OP_ENDIF: u8 = 0x68;

/// How much of an opening stands before the next item.
#[derive(Clone, Copy)]
enum Opened {
    Nothing,
    /// An empty push.
    Empty,
    /// An empty push and OP_IF.
    If,
    /// An empty push, OP_IF and the push of "ord".
    Whole,
}

/// How much of an opening stands after an item. An item that breaks an opening may begin another.
#[inline(always)]
fn next_opened(opened: Opened, item: Item<'_>) -> Opened
    ensures { result ≡ next_opened opened (instruction_of item.entry) }
{
    match item {
        Item::Push([]) => Opened::Empty,
        Item::Push(bytes) => {
            if matches!(opened, Opened::If) && bytes == b"ord".as_slice() {
                Opened::Whole
            } else {
                Opened::Nothing
            }
        }
        Item::Op(op) => {
            if matches!(opened, Opened::Empty) && op == OP_IF {
                Opened::If
            } else {
                Opened::Nothing
            }
        }
    }
}

/// The byte that OP_1NEGATE or one of OP_1 to OP_16 pushes.
fn number_pushed(op: u8) -> Option<&'static [u8]>
    ensures { option_map (λ b. b.now) result ≡ bytes_pushed (Op op) }
{
    match op {
        OP_1NEGATE => Some(&[0x81]),
        0x51 => Some(&[1]),
        0x52 => Some(&[2]),
        0x53 => Some(&[3]),
        0x54 => Some(&[4]),
        0x55 => Some(&[5]),
        0x56 => Some(&[6]),
        0x57 => Some(&[7]),
        0x58 => Some(&[8]),
        0x59 => Some(&[9]),
        0x5a => Some(&[10]),
        0x5b => Some(&[11]),
        0x5c => Some(&[12]),
        0x5d => Some(&[13]),
        0x5e => Some(&[14]),
        0x5f => Some(&[15]),
        0x60 => Some(&[16]),
        _ => None,
    }
}

/// Reads on to the end of the next opening. `false` where there is none: then the items have ended.
fn find_opening(items: &mut Instructions<'_>) -> bool
    ensures found { OnTrue result (
        envelopes_among items.old.left ≡ envelopes_within no_pushes items.new.left) }
    ensures fewer { OnTrue result (length items.new.left < length items.old.left) }
    ensures none { OnFalse result (envelopes_among items.old.left ≡ []) }
    ensures end { OnFalse result (items.new.met_cut ≡ items.old.ends_cut) }
    ensures ends { items.new.ends_cut ≡ items.old.ends_cut }
{
    let mut opened = Opened::Nothing;
    while let Some(item) = items.next() {
        opened = next_opened(opened, item);
        if let Opened::Whole = opened {
            return true;
        }
    }
    false
}

/// Reads an envelope from the end of its opening to its stop. `None` where that isn't OP_ENDIF, or
/// the items end before it.
fn read_envelope<'a>(
    alloc: Global,
    items: &mut Instructions<'a>,
) -> Result<Option<Envelope<'a>>, Memory>
    ensures found { IfOk result (λ r.
        envelopes_within no_pushes items.old.left
        ≡ option_to_list r ++ envelopes_among items.new.left) }
    ensures fewer { length items.new.left ≤ length items.old.left }
    ensures ends { items.new.ends_cut ≡ items.old.ends_cut }
{
    let mut envelope = Envelope::new(alloc);
    while let Some(item) = items.next() {
        match item {
            Item::Push(bytes) => envelope.push(bytes)?,
            Item::Op(op) => match number_pushed(op) {
                Some(byte) => envelope.push_number(byte)?,
                None if op == OP_ENDIF => return Ok(Some(envelope)),
                None => return Ok(None),
            },
        }
    }
    Ok(None)
}

/// The envelopes of a script, from the first to the last, by one pass over it. An envelope begins
/// with an empty push, OP_IF and the push of "ord", has pushes, and ends with OP_ENDIF; OP_1NEGATE
/// and OP_1 to OP_16 count as pushes of one byte. Any other opcode inside voids it, and the search
/// goes on after that opcode; where an opening is broken, at the item that breaks it. A script that
/// ends at a push cut short has none. `Memory` where there is none for the list (Ordinal Theory
/// Handbook, "Inscriptions").
pub fn envelopes_of(alloc: Global, script: &[u8]) -> Result<Envelopes<'_>, Memory>
    ensures found { IfOk result (λ found. found ≡ envelopes script.now) }

    // each push is a part of the script, but for the constants
    ensures parts { IfOk result (AllByRecursion (HasPushesOf script.now)) }
{
    let mut items = instructions_of(script);
    let mut found = Envelopes::new(alloc);
    while find_opening(&mut items) {
        if let Some(envelope) = read_envelope(alloc, &mut items)? {
            found.push(envelope)?;
        }
    }
    if items.met_cut() {
        return Ok(Envelopes::new(alloc));
    }
    Ok(found)
}
