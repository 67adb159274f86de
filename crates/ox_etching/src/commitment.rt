//! The commitment to a name that is etched: Runes specification, "Etching".

ghost use Rattle.std.specs.Prelude.{◌≡◌};
ghost use Rattle.std.specs.Option.{option_copied};
ghost use Rattle.ox_script.specs.Script.{instruction_of};
ghost use Rattle.ox_script.specs.Witness.{tapscript};
ghost use Rattle.ox_etching.specs.Commitment.{commits, commits_by, has_push, is_mature};
ghost use Rattle.ox_etching.specs.Commitment.{pushes, some_commits};

use ox_block::{Tx, TxIn, Witness};
use ox_name::commitment;
use ox_rules::{OutRow, SpentRows};
use ox_script::{Item, instructions_of, is_taproot, tapscript_place};

/// The tapscript of a witness, if it has one.
fn tapscript_of(witness: &Witness) -> Option<&[u8]>
    ensures { option_copied result ≡ tapscript witness.now }
{
    let last = witness.last()?;
    let place = tapscript_place(witness.len(), last)?;
    witness.get(place)
}

/// Whether an item pushes just these bytes.
fn pushes(bytes: &[u8], item: Item<'_>) -> bool
    ensures { result ≡ pushes bytes.now (instruction_of item.entry) }
{
    match item {
        Item::Push(pushed) => pushed == bytes,
        Item::Op(_) => false,
    }
}

/// Whether a script pushes just these bytes, before it is cut short if it is.
fn has_push(bytes: &[u8], script: &[u8]) -> bool
    ensures { result ≡ has_push bytes.now script.now }
{
    for item in instructions_of(script) {
        if pushes(bytes, item) {
            return true;
        }
    }
    false
}

/// Whether a block of this height is the sixth with the one that made the output, or a later one.
fn is_mature(row: &OutRow, height: u32) -> bool
    ensures { result ≡ is_mature row.now height }
{
    height as u64 + 1 >= row.height as u64 + 6
}

/// Whether an input, which spends this row, commits with these bytes.
fn commits_by(bytes: &[u8], height: u32, input: &TxIn, row: &OutRow) -> bool
    ensures { result ≡ commits_by bytes.now height input.now row.now }
{
    is_taproot(row.script.as_slice())
        && is_mature(row, height)
        && tapscript_of(&input.witness).is_some_and(|script| has_push(bytes, script))
}

/// Whether one of some inputs, which spend these rows, commits with these bytes.
fn some_commits(bytes: &[u8], height: u32, inputs: &[TxIn], spent: &[OutRow]) -> bool
    ensures { result ≡ some_commits bytes.now height inputs.now spent.now }
{
    let mut pairs = inputs.iter().zip(spent);
    pairs.any(|(input, row)| commits_by(bytes, height, input, row))
}

/// Whether a transaction in a block of this height commits to a name. The rows are those that its
/// inputs spend, in input order; a coinbase has none, and commits to nothing.
///
/// An input commits whose tapscript pushes the name's number, lowest byte first and without zeros
/// at the end, so that 0 is an empty push. A push counts that stands before the script is cut
/// short. What the input spends has to be a taproot output, made in a block so far below that the
/// two and those between them are at least six (Runes specification, "Etching"; how blocks are
/// counted is this project's own reading).
pub fn commits(body: &Tx, spent: &SpentRows, name: u128, height: u32) -> bool
    ensures { result ≡ commits body.now spent.now name height }
{
    let mut room = [0; 16];
    let len = commitment(name, &mut room);
    some_commits(
        &room[..len],
        height,
        body.inputs.as_slice(),
        spent.as_slice(),
    )
}
