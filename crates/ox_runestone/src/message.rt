//! From integers to the values of tags, and to edicts.

ghost use Rattle.std.specs.Prelude.{◌≡◌, ◌≤◌, ◌<◌, ◌^◌, [], length, All, IfOk};
ghost use Rattle.std.specs.Option.{option_map};
ghost use Rattle.ox_runestone.specs.Message.{message_of, id_of, id_after, edicts_of};
ghost use Rattle.ox_runestone.specs.ValuesKept.{first_kept, second_kept, with_value, with_field};
ghost use Rattle.ox_runestone.specs.ValuesKept.{leaves_in, IsKeptOf};

use crate::stone::{Edict, RuneId};
use ox_bytes::Memory;
use std::alloc::Global;

/// One more than the greatest tag with a field.
const TAGS: usize = 23;

/// What is kept of a tag's values: the first two, 0 where there is none, and how many there are,
/// where 3 stands for more than two.
#[derive(Clone, Copy)]
pub(crate) struct Values {
    first: u128,
    second: u128,
    count: u8,
}

impl Values {
    /// No value.
    const NONE: Values = Values {
        first: 0,
        second: 0,
        count: 0,
    };

    /// Adds a value.
    fn add(&mut self, value: u128)
        ensures { self.new ≡ with_value self.old value }
    {
        if self.count == 0 {
            self.first = value;
            self.count = 1;
        } else if self.count == 1 {
            self.second = value;
            self.count = 2;
        } else {
            self.count = 3;
        }
    }

    /// The first value.
    pub(crate) fn first(&self) -> Option<u128>
        ensures { result ≡ first_kept self.now }
    {
        if self.count > 0 {
            Some(self.first)
        } else {
            None
        }
    }

    /// The second value.
    pub(crate) fn second(&self) -> Option<u128>
        ensures { result ≡ second_kept self.now }
    {
        if self.count > 1 {
            Some(self.second)
        } else {
            None
        }
    }

    /// Whether there are more values than so many, which are at most two.
    pub(crate) fn outnumber(&self, taken: usize) -> bool
        requires { taken ≤ 2 }
        ensures { result ≡ leaves_in self.now taken }
    {
        self.count as usize > taken
    }
}

/// The values of each tag that has a field, and whether an even tag without one stands there.
#[derive(Drop)]
pub(crate) struct Fields {
    pub(crate) values: [Values; TAGS],
    pub(crate) strange: bool,
}

impl Fields {
    /// No values.
    pub(crate) fn none() -> Fields
        ensures { IsKeptOf result [] }
    {
        Fields {
            values: [Values::NONE; TAGS],
            strange: false,
        }
    }

    /// Adds a tag and its value.
    fn add(&mut self, tag: u128, value: u128)
        ensures { self.new ≡ with_field self.old tag value }
    {
        if tag < TAGS as u128 {
            self.values[tag as usize].add(value);
        } else {
            self.strange = self.strange || tag % 2 == 0;
        }
    }
}

/// What follows the tags with their values.
#[derive(Drop)]
pub(crate) struct Rest<'a> {
    /// Whether a tag without a value does.
    pub(crate) lone: bool,
    /// What follows the tag 0.
    pub(crate) body: &'a [u128],
}

/// Reads tags and values in turn, up to the tag 0, into fields that have no values.
pub(crate) fn read_message<'a>(fields: &mut Fields, integers: &'a [u128]) -> Rest<'a>
    requires { IsKeptOf fields.old [] }
    ensures fields { IsKeptOf fields.new (message_of integers.now).fields }
    ensures lone { result.lone ≡ (message_of integers.now).lone }
    ensures body { result.body.now ≡ (message_of integers.now).body }
    ensures small { All (λ n. n < 2 ^ 128) integers.now }
{
    let mut rest = integers;
    while let [tag, value, behind @ ..] = rest {
        if *tag == 0 {
            let (_, body) = rest.split_at(1);
            return Rest { lone: false, body };
        }
        fields.add(*tag, *value);
        rest = behind;
    }
    Rest {
        lone: is_tag(rest),
        body: &[],
    }
}

/// Whether an integer stands there that isn't 0.
fn is_tag(rest: &[u128]) -> bool
    requires { length rest.now ≤ 1 }
    ensures { result ≡ (message_of rest.now).lone }
{
    match rest {
        [tag] => *tag != 0,
        _ => false,
    }
}

/// The id of a block and a transaction, if it is one.
pub(crate) fn id_of(block: u128, tx: u128) -> Option<RuneId>
    ensures { result ≡ id_of block tx }
{
    let id = RuneId {
        block: u64::try_from(block).ok()?,
        tx: u32::try_from(tx).ok()?,
    };
    if id.block == 0 && id.tx > 0 {
        return None;
    }
    Some(id)
}

/// The id that follows another, if it is one.
fn id_after(id: RuneId, block: u128, tx: u128) -> Option<RuneId>
    ensures { result ≡ id_after id block tx }
{
    if block == 0 {
        id_of(u128::from(id.block), u128::from(id.tx).checked_add(tx)?)
    } else {
        id_of(u128::from(id.block).checked_add(block)?, tx)
    }
}

/// The edicts that the integers of a body spell in fours. `None` where a rest isn't four integers,
/// an id isn't valid, or an output is above the number of outputs.
pub(crate) fn edicts_of(
    alloc: Global,
    outputs: u32,
    body: &[u128],
) -> Result<Option<Vec<Edict>>, Memory>
    ensures { IfOk result (
        λ edicts. option_map (λ v. v.items) edicts ≡ edicts_of outputs body.now) }
{
    let mut edicts = Vec::with_capacity(alloc, body.len() / 4)?;
    let mut id = RuneId { block: 0, tx: 0 };
    let mut rest = body;
    while let [block, tx, amount, output, behind @ ..] = rest {
        let Some(next) = id_after(id, *block, *tx) else {
            return Ok(None);
        };
        if *output > u128::from(outputs) {
            return Ok(None);
        }
        edicts.push(Edict {
            id: next,
            amount: *amount,
            output: *output as u32,
        })?;
        id = next;
        rest = behind;
    }
    if !rest.is_empty() {
        return Ok(None);
    }
    Ok(Some(edicts))
}
