//! Reading a block from left to right, each script and each witness stack copied once.

ghost use Rattle.std.specs.Prelude.{◌≡◌, ◌*◌, ◌≤◌, length, Ok, IfOk};
ghost use Rattle.ox_bytes.specs.Reading.{Gives, GivesOrMemory, run_at, times, string_at};
ghost use Rattle.std.specs.List.{list_any};
ghost use Rattle.ox_block.specs.Spelling.{has_witness};
ghost use Rattle.ox_block.specs.Reading.{count_at, outpoint_at, input_at, inputs_at, output_at};
ghost use Rattle.ox_block.specs.Reading.{outputs_of, outputs_at, stack_at, stacks_of, witnesses_at};
ghost use Rattle.ox_block.specs.Reading.{marker_at, maybe_witnesses_at, tx_at, header_at, block_at};
ghost use Rattle.ox_block.specs.Reading.{whole_of};

use crate::block::{Block, Header, OutPoint, Tx, TxIn, TxOut, Txid};
use crate::few::Form;
use crate::lists::{Inputs, Outs, Txs};
use crate::script::Script;
use crate::witness::{Witness, behind_strings, string_of};
use ox_bytes::{FieldFault, ReadError, compact_field, string_field, u32le_field, u64le_field};
use std::alloc::Global;

/// The most satoshis of a transaction's outputs together.
const MOST_VALUE: u64 = 2_100_000_000_000_000;

/// 32 bytes.
#[tactic(auto, unfolding(ox_bytes::specs::Reading::run_at))]
fn hash_of(bytes: &[u8]) -> Result<([u8; 32], &[u8]), FieldFault>
    ensures { Gives (λ x. (x.0, x.1.now)) result (run_at 32 bytes.now) }
{
    if bytes.len() < 32 {
        return Err(FieldFault { left: bytes.len() });
    }
    let (front, rest) = bytes.split_at(32);
    let mut hash = [0; 32];
    hash.copy_from_slice(front);
    Ok((hash, rest))
}

/// A count that isn't 0.
#[tactic(auto, unfolding(crate::specs::Reading::count_at))]
fn count_of(bytes: &[u8]) -> Result<(u64, &[u8]), FieldFault>
    ensures { Gives (λ x. (x.0, x.1.now)) result (count_at bytes.now) }
{
    let (count, rest) = compact_field(bytes)?;
    match count {
        0 => Err(FieldFault { left: bytes.len() }),
        _ => Ok((count, rest)),
    }
}

#[tactic(auto, unfolding(crate::specs::Reading::outpoint_at))]
fn outpoint_of(bytes: &[u8]) -> Result<(OutPoint, &[u8]), FieldFault>
    ensures { Gives (λ x. (x.0, x.1.now)) result (outpoint_at bytes.now) }
{
    let (hash, rest) = hash_of(bytes)?;
    let (index, rest) = u32le_field(rest)?;
    let point = OutPoint {
        txid: Txid(hash),
        index,
    };
    Ok((point, rest))
}

/// An input. Its witness stack comes later.
#[tactic(auto, unfolding(crate::specs::Reading::input_at))]
fn input_of(alloc: Global, bytes: &[u8]) -> Result<(TxIn, &[u8]), ReadError>
    ensures { GivesOrMemory (λ x. (x.0, x.1.now)) result (input_at bytes.now) }
{
    let (from, rest) = outpoint_of(bytes)?;
    let (script, rest) = string_field(alloc, rest)?;
    let (sequence, rest) = u32le_field(rest)?;
    let input = TxIn {
        from,
        script,
        sequence,
        witness: Witness::new(alloc),
    };
    Ok((input, rest))
}

/// One input, kept in place.
#[tactic(auto, unfolding(ox_bytes::specs::Reading::times))]
fn one_input(alloc: Global, bytes: &[u8]) -> Result<(Inputs, &[u8]), ReadError>
    ensures { GivesOrMemory (λ x. (x.0, x.1.now)) result (times input_at 1 bytes.now) }
{
    let (input, rest) = input_of(alloc, bytes)?;
    Ok((Inputs::one(alloc, input), rest))
}

/// Two inputs, kept in place.
#[tactic(auto, unfolding(ox_bytes::specs::Reading::times))]
fn two_inputs(alloc: Global, bytes: &[u8]) -> Result<(Inputs, &[u8]), ReadError>
    ensures { GivesOrMemory (λ x. (x.0, x.1.now)) result (times input_at 2 bytes.now) }
{
    let (first, rest) = input_of(alloc, bytes)?;
    let (second, rest) = input_of(alloc, rest)?;
    Ok((Inputs::two(alloc, first, second), rest))
}

/// Any number of inputs.
fn inputs_pushed(alloc: Global, count: u64, bytes: &[u8]) -> Result<(Inputs, &[u8]), ReadError>
    ensures { GivesOrMemory (λ x. (x.0, x.1.now)) result (times input_at count bytes.now) }
{
    let mut inputs = Inputs::new(alloc);
    let mut rest = bytes;
    for _ in 0..count {
        let (input, after) = input_of(alloc, rest)?;
        inputs.push(input)?;
        rest = after;
    }
    Ok((inputs, rest))
}

/// That many inputs.
fn inputs_times(alloc: Global, count: u64, bytes: &[u8]) -> Result<(Inputs, &[u8]), ReadError>
    ensures { GivesOrMemory (λ x. (x.0, x.1.now)) result (times input_at count bytes.now) }
{
    match count {
        1 => one_input(alloc, bytes),
        2 => two_inputs(alloc, bytes),
        _ => inputs_pushed(alloc, count, bytes),
    }
}

#[tactic(auto, unfolding(crate::specs::Reading::inputs_at))]
fn inputs_of(alloc: Global, bytes: &[u8]) -> Result<(Inputs, &[u8]), ReadError>
    ensures { GivesOrMemory (λ x. (x.0, x.1.now)) result (inputs_at bytes.now) }
{
    let (count, rest) = count_of(bytes)?;
    inputs_times(alloc, count, rest)
}

/// A script, copied: its length as a compact size, and its bytes. The length and the bytes are two
/// fields.
fn script_of(alloc: Global, bytes: &[u8]) -> Result<(Script, &[u8]), ReadError>
    ensures { GivesOrMemory (λ x. (x.0, x.1.now)) result (string_at bytes.now) }
{
    let (run, rest) = string_of(bytes)?;
    Ok((Script::copy(alloc, run)?, rest))
}

/// An output of at most that many satoshis.
#[tactic(auto, unfolding(crate::specs::Reading::output_at))]
fn output_of(alloc: Global, most: u64, bytes: &[u8]) -> Result<(TxOut, &[u8]), ReadError>
    ensures { GivesOrMemory (λ x. (x.0, x.1.now)) result (output_at most bytes.now) }
{
    let (value, rest) = u64le_field(bytes)?;
    if most < value {
        return Err(ReadError::Fault(FieldFault { left: bytes.len() }));
    }
    let (script, rest) = script_of(alloc, rest)?;
    Ok((TxOut { value, script }, rest))
}

/// One output, kept in place.
#[tactic(auto, unfolding(crate::specs::Reading::outputs_of))]
fn one_output(alloc: Global, most: u64, bytes: &[u8]) -> Result<(Outs, &[u8]), ReadError>
    ensures { GivesOrMemory (λ x. (x.0, x.1.now)) result (outputs_of 1 most bytes.now) }
{
    let (output, rest) = output_of(alloc, most, bytes)?;
    Ok((Outs::one(alloc, output), rest))
}

/// Two outputs, kept in place.
#[tactic(auto, unfolding(crate::specs::Reading::outputs_of))]
fn two_outputs(alloc: Global, most: u64, bytes: &[u8]) -> Result<(Outs, &[u8]), ReadError>
    ensures { GivesOrMemory (λ x. (x.0, x.1.now)) result (outputs_of 2 most bytes.now) }
{
    let (first, rest) = output_of(alloc, most, bytes)?;
    let (second, rest) = output_of(alloc, most.saturating_sub(first.value), rest)?;
    Ok((Outs::two(alloc, first, second), rest))
}

/// Any number of outputs.
fn outputs_pushed(
    alloc: Global,
    count: u64,
    most: u64,
    bytes: &[u8],
) -> Result<(Outs, &[u8]), ReadError>
    ensures { GivesOrMemory (λ x. (x.0, x.1.now)) result (outputs_of count most bytes.now) }
{
    let mut outputs = Outs::new(alloc);
    let mut spare = most;
    let mut rest = bytes;
    for _ in 0..count {
        let (output, after) = output_of(alloc, spare, rest)?;
        spare = spare.saturating_sub(output.value);
        outputs.push(output)?;
        rest = after;
    }
    Ok((outputs, rest))
}

/// That many outputs, of at most that many satoshis together.
fn outputs_times(
    alloc: Global,
    count: u64,
    most: u64,
    bytes: &[u8],
) -> Result<(Outs, &[u8]), ReadError>
    ensures { GivesOrMemory (λ x. (x.0, x.1.now)) result (outputs_of count most bytes.now) }
{
    match count {
        1 => one_output(alloc, most, bytes),
        2 => two_outputs(alloc, most, bytes),
        _ => outputs_pushed(alloc, count, most, bytes),
    }
}

#[tactic(auto, unfolding(crate::specs::Reading::outputs_at))]
fn outputs_of(alloc: Global, bytes: &[u8]) -> Result<(Outs, &[u8]), ReadError>
    ensures { GivesOrMemory (λ x. (x.0, x.1.now)) result (outputs_at bytes.now) }
{
    let (count, rest) = count_of(bytes)?;
    outputs_times(alloc, count, MOST_VALUE, rest)
}

/// That many byte strings, copied in one piece, once all of them have been looked at.
fn strings_times(alloc: Global, count: u64, bytes: &[u8]) -> Result<(Witness, &[u8]), ReadError>
    ensures { GivesOrMemory (λ x. (x.0, x.1.now)) result (times string_at count bytes.now) }
{
    let behind = behind_strings(count, bytes)?;
    let (strings, rest) = bytes.split_at(bytes.len() - behind.len());
    Ok((Witness::copy(alloc, count as usize, strings)?, rest))
}

#[tactic(auto, unfolding(crate::specs::Reading::stack_at))]
fn stack_of(alloc: Global, bytes: &[u8]) -> Result<(Witness, &[u8]), ReadError>
    ensures { GivesOrMemory (λ x. (x.0, x.1.now)) result (stack_at bytes.now) }
{
    let (count, rest) = compact_field(bytes)?;
    strings_times(alloc, count, rest)
}

/// Gives each input its stack.
fn stacks_into<'a>(
    alloc: Global,
    inputs: &mut [TxIn],
    bytes: &'a [u8],
) -> Result<&'a [u8], ReadError>
    ensures { GivesOrMemory (λ x. (inputs.new, x.now)) result (stacks_of inputs.old bytes.now) }
{
    let mut rest = bytes;
    for input in inputs.iter_mut() {
        let (witness, after) = stack_of(alloc, rest)?;
        input.witness = witness;
        rest = after;
    }
    Ok(rest)
}

/// Gives each input its stack, wherever the inputs are kept.
#[tactic(auto, unfolding(crate::specs::Reading::stacks_of))]
fn stacks_given<'a>(
    alloc: Global,
    inputs: &mut Inputs,
    bytes: &'a [u8],
) -> Result<&'a [u8], ReadError>
    ensures { GivesOrMemory (λ x. (inputs.new, x.now)) result (stacks_of inputs.old bytes.now) }
{
    match &mut inputs.form {
        Form::Empty => Ok(bytes),
        Form::One(one) => stacks_into(alloc, one, bytes),
        Form::Two(two) => stacks_into(alloc, two, bytes),
        Form::Many(many) => stacks_into(alloc, many, bytes),
    }
}

/// Whether an input has a witness.
fn any_witness(inputs: &[TxIn]) -> bool
    ensures { result ≡ list_any has_witness inputs.now }
{
    inputs.iter().any(|input| input.witness.len() > 0)
}

/// The stacks, which may not all be empty. The marker has that many bytes from its place to the
/// end.
#[tactic(auto, unfolding(crate::specs::Reading::witnesses_at))]
fn witnesses_of<'a>(
    alloc: Global,
    marker: usize,
    inputs: &mut Inputs,
    bytes: &'a [u8],
) -> Result<&'a [u8], ReadError>
    ensures { GivesOrMemory (λ x. (inputs.new, x.now)) result
        (witnesses_at marker inputs.old bytes.now) }
{
    let rest = stacks_given(alloc, inputs, bytes)?;
    if !any_witness(inputs.as_slice()) {
        return Err(ReadError::Fault(FieldFault { left: marker }));
    }
    Ok(rest)
}

/// What follows the outputs: where there is a marker, the stacks.
#[tactic(auto, unfolding(crate::specs::Reading::maybe_witnesses_at))]
fn maybe_witnesses_of<'a>(
    alloc: Global,
    marked: bool,
    marker: usize,
    inputs: &mut Inputs,
    bytes: &'a [u8],
) -> Result<&'a [u8], ReadError>
    ensures { GivesOrMemory (λ x. (inputs.new, x.now)) result
        (maybe_witnesses_at marked marker inputs.old bytes.now) }
{
    if marked {
        witnesses_of(alloc, marker, inputs, bytes)
    } else {
        Ok(bytes)
    }
}

/// Whether a marker and a flag stand there.
#[tactic(auto, unfolding(crate::specs::Reading::marker_at))]
fn marker_of(bytes: &[u8]) -> Result<(bool, &[u8]), FieldFault>
    ensures { Gives (λ x. (x.0, x.1.now)) result (marker_at bytes.now) }
{
    match bytes {
        [0, 1, rest @ ..] => Ok((true, rest)),
        [0, rest @ ..] => Err(FieldFault { left: rest.len() }),
        _ => Ok((false, bytes)),
    }
}

#[tactic(auto, unfolding(crate::specs::Reading::tx_at))]
fn tx_of(alloc: Global, bytes: &[u8]) -> Result<(Tx, &[u8]), ReadError>
    ensures { GivesOrMemory (λ x. (x.0, x.1.now)) result (tx_at bytes.now) }
{
    let (version, behind_version) = u32le_field(bytes)?;
    let (marked, rest) = marker_of(behind_version)?;
    let (mut inputs, rest) = inputs_of(alloc, rest)?;
    let (outputs, rest) = outputs_of(alloc, rest)?;
    let rest = maybe_witnesses_of(alloc, marked, behind_version.len(), &mut inputs, rest)?;
    let (lock, rest) = u32le_field(rest)?;
    let tx = Tx {
        version,
        marked,
        inputs,
        outputs,
        lock,
    };
    Ok((tx, rest))
}

/// No fewer bytes than a place for a transaction takes in memory.
const TX_PLACE: usize = 256;

/// How many transactions room is taken for before any is read: as many as the count says, and no
/// more than fit into as much memory as there are bytes left, whatever the count says.
fn room_for_txs(count: u64, len: usize) -> usize
    ensures { result * 256 ≤ len }
{
    count.min((len / TX_PLACE) as u64) as usize
}

/// That many transactions.
fn txs_times(alloc: Global, count: u64, bytes: &[u8]) -> Result<(Vec<Tx>, &[u8]), ReadError>
    ensures { GivesOrMemory (λ x. (x.0.items, x.1.now)) result (times tx_at count bytes.now) }
{
    let mut txs = Vec::with_capacity(alloc, room_for_txs(count, bytes.len()))?;
    let mut rest = bytes;
    for _ in 0..count {
        let (tx, after) = tx_of(alloc, rest)?;
        txs.push(tx)?;
        rest = after;
    }
    Ok((txs, rest))
}

#[tactic(auto, unfolding(crate::specs::Reading::header_at))]
fn header_of(bytes: &[u8]) -> Result<(Header, &[u8]), FieldFault>
    ensures { Gives (λ x. (x.0, x.1.now)) result (header_at bytes.now) }
{
    let (version, rest) = u32le_field(bytes)?;
    let (previous, rest) = hash_of(rest)?;
    let (root, rest) = hash_of(rest)?;
    let (time, rest) = u32le_field(rest)?;
    let (bits, rest) = u32le_field(rest)?;
    let (nonce, rest) = u32le_field(rest)?;
    let header = Header {
        version,
        previous,
        root,
        time,
        bits,
        nonce,
    };
    Ok((header, rest))
}

/// A block, and the bytes behind it.
#[tactic(auto, unfolding(crate::specs::Reading::block_at))]
fn front_block(alloc: Global, bytes: &[u8]) -> Result<(Block, &[u8]), ReadError>
    ensures { GivesOrMemory (λ x. (x.0, x.1.now)) result (block_at bytes.now) }
{
    let (header, rest) = header_of(bytes)?;
    let (count, rest) = count_of(rest)?;
    let (txs, rest) = txs_times(alloc, count, rest)?;
    let block = Block {
        header,
        txs: Txs::from_vec(txs),
    };
    Ok((block, rest))
}

/// A block with nothing behind it.
#[tactic(auto, unfolding(crate::specs::Reading::whole_of))]
pub fn whole_block(alloc: Global, bytes: &[u8]) -> Result<Block, ReadError>
    ensures { GivesOrMemory (λ x. x) result (whole_of bytes.now) }
{
    let (block, rest) = front_block(alloc, bytes)?;
    if !rest.is_empty() {
        return Err(ReadError::Fault(FieldFault { left: rest.len() }));
    }
    Ok(block)
}
