//! The items of a script, read in place.

ghost use Rattle.std.specs.Prelude.{◌≡◌, ◌∷◌, ◌<◌, ◌≤◌, ℕ, List, [], true, false, length, drop};
ghost use Rattle.std.specs.Prelude.{map, IfSome, IfNone};
ghost use Rattle.std.specs.List.{AllByRecursion};
ghost use Rattle.ox_script.specs.Form.{Form, item_of, Splits, HasSplit, is_some_byte};
ghost use Rattle.ox_script.specs.Script.{instruction_of, width_of, count_of, items_of, is_cut};
ghost use Rattle.ox_script.specs.Script.{IsPartOf};

use std::marker::Model;

/// The greatest opcode that pushes bytes of the script: its length has 4 bytes.
const OP_PUSHDATA4: u8 = 0x4e;

const OP_PUSHDATA2: u8 = 0x4d;

const OP_PUSHDATA1: u8 = 0x4c;

/// An item of a script.
#[derive(Clone, Copy, Debug, PartialEq, Eq)]
pub enum Item<'a> {
    /// Bytes of the script that are pushed: by opcodes 0x00 to 0x4b, whose number is their count,
    /// or by OP_PUSHDATA1, OP_PUSHDATA2 and OP_PUSHDATA4, 0x4c to 0x4e, which a length of 1, 2 or 4
    /// bytes follows, low byte first. A longer form than needed is the same push.
    Push(&'a [u8]),
    /// Any other opcode, from 0x4f up.
    Op(u8),
}

/// How many bytes a push has, and what follows its length. `None` where the length is cut short.
#[inline(always)]
fn split_length(op: u8, rest: &[u8]) -> Option<(usize, &[u8])>
    requires { op ≤ OP_PUSHDATA4 }
    ensures none { IfNone result (length rest.now < width_of op) }
    ensures fits { IfSome result (λ r. width_of op ≤ length rest.now) }
    ensures count { IfSome result (λ r. r.0 ≡ count_of op rest.now) }
    ensures rest { IfSome result (λ r. r.1.now ≡ drop (width_of op) rest.now) }
{
    match op {
        OP_PUSHDATA1 => match rest {
            [a, rest @ ..] => Some((usize::from(*a), rest)),
            _ => None,
        },
        OP_PUSHDATA2 => match rest {
            [a, b, rest @ ..] => Some((usize::from(u16::from_le_bytes([*a, *b])), rest)),
            _ => None,
        },
        OP_PUSHDATA4 => match rest {
            [a, b, c, d, rest @ ..] => Some((u32::from_le_bytes([*a, *b, *c, *d]) as usize, rest)),
            _ => None,
        },
        _ => Some((usize::from(op), rest)),
    }
}

/// The item that an opcode begins, and what follows it. `None` where it is a push that is cut
/// short.
#[inline(always)]
fn split_item(op: u8, rest: &[u8]) -> Option<(Item<'_>, &[u8])>
    ensures cut { IfNone result (
        (items_of (op ∷ rest.now) ≡ []) × (is_cut (op ∷ rest.now) ≡ true)) }
    ensures items { IfSome result (
        λ r. items_of (op ∷ rest.now) ≡ instruction_of r.0 ∷ items_of r.1.now) }
    ensures whole { IfSome result (λ r. is_cut (op ∷ rest.now) ≡ is_cut r.1.now) }
{
    if op > OP_PUSHDATA4 {
        return Some((Item::Op(op), rest));
    }
    let (count, rest) = split_length(op, rest)?;
    if count > rest.len() {
        return None;
    }
    let (bytes, rest) = rest.split_at(count);
    Some((Item::Push(bytes), rest))
}

/// The items of a script, from the first to the last. They end where the script does, or at a push
/// whose length or bytes are cut short by its end.
#[derive(Drop)]
pub struct Instructions<'a> {
    rest: &'a [u8],
    met_cut: bool,
}

impl<'a> Model for Instructions<'a> {
    ghost use Rattle.std.specs.Prelude.{◌||◌};
    ghost use Rattle.ox_script.specs.Script.{items_of, is_cut, Reading};

    ghost Value = { Reading };

    ghost view = { λ r. record {
      left = items_of r.rest.now;
      ends_cut = r.met_cut || is_cut r.rest.now;
      met_cut = r.met_cut;
    } };
}

/// The items of a script.
pub fn instructions_of(script: &[u8]) -> Instructions<'_>
    ensures items { result.left ≡ items_of script.now }
    ensures ends { result.ends_cut ≡ is_cut script.now }
    ensures begins { result.met_cut ≡ false }

    // each push is a part of the script
    ensures parts { AllByRecursion (IsPartOf script.now) (items_of script.now) }
{
    Instructions {
        rest: script,
        met_cut: false,
    }
}

/// What the items of a script are, in the words of their five forms: an opcode above 0x4e; at most
/// 75 bytes behind their
/// number; and bytes behind 0x4c, 0x4d or 0x4e and a length of 1, 2 or 4 bytes, low byte first.
pub fn forms_spell_the_script()
    // each script is such forms, one after the other, and an end at whose front none stands
    ensures split { (script : List ℕ) → HasSplit script }

    // however it is split so, the forms are its items
    ensures items { (script : List ℕ) (forms : List Form) (end : List ℕ)
        → Splits script forms end → items_of script ≡ map item_of forms }

    // and it is cut short exactly where the end has a byte
    ensures cut { (script : List ℕ) (forms : List Form) (end : List ℕ)
        → Splits script forms end → is_cut script ≡ is_some_byte end }
{}

impl Instructions<'_> {
    /// Whether the items have ended at a push that is cut short: it is false until `next` has
    /// answered `None` there.
    pub fn met_cut(&self) -> bool
        ensures { result ≡ self.now.met_cut }
    {
        self.met_cut
    }
}

impl<'a> Iterator for Instructions<'a> {
    ghost use Rattle.std.specs.Iterator.{item_count};
    ghost use Rattle.ox_script.specs.Script.{GivesItem, left_of};

    type Item = Item<'a>;

    ghost next_gives = { GivesItem };

    ghost remaining = { item_count left_of };

    fn next(&mut self) -> Option<Item<'a>> {
        let (op, rest) = self.rest.split_first()?;
        match split_item(*op, rest) {
            Some((item, rest)) => {
                self.rest = rest;
                Some(item)
            }
            None => {
                self.rest = &[];
                self.met_cut = true;
                None
            }
        }
    }
}
