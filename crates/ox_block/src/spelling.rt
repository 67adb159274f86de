//! The spelling of a block and its parts, put into a sink.

ghost use Rattle.std.specs.Prelude.{◌≡◌, OnOk, length};
ghost use Rattle.std.specs.Int.{w32, w64, to_le_bytes};
ghost use Rattle.std.specs.List.{flat_map};
ghost use Rattle.ox_bytes.specs.Spelling.{compact, string};
ghost use Rattle.ox_block.specs.Putting.{Puts};
ghost use Rattle.ox_block.specs.Spelling.{input, output, inputs, outputs, stack, stacks};
ghost use Rattle.ox_block.specs.Spelling.{stripped_form};
ghost use Rattle.ox_block.specs.Spelling.{extended_form, tx, header, spell};

use crate::block::{Block, Header, Tx, TxIn, TxOut};
use crate::sink::Sink;
use crate::witness::Witness;

fn put_u32<S: Sink>(sink: &mut S, number: u32) -> Result<(), S::Fault>
    ensures { OnOk result (Puts S.holds (to_le_bytes w32 number) sink.old sink.new) }
{
    sink.put(&number.to_le_bytes())
}

fn put_u64<S: Sink>(sink: &mut S, number: u64) -> Result<(), S::Fault>
    ensures { OnOk result (Puts S.holds (to_le_bytes w64 number) sink.old sink.new) }
{
    sink.put(&number.to_le_bytes())
}

/// A compact size, in its shortest form.
fn put_size<S: Sink>(sink: &mut S, size: u64) -> Result<(), S::Fault>
    ensures { OnOk result (Puts S.holds (compact size) sink.old sink.new) }
{
    if size < 253 {
        sink.put(&[size as u8])
    } else if size < 0x1_0000 {
        let [a, b] = (size as u16).to_le_bytes();
        sink.put(&[253, a, b])
    } else if size < 0x1_0000_0000 {
        let [a, b, c, d] = (size as u32).to_le_bytes();
        sink.put(&[254, a, b, c, d])
    } else {
        let [a, b, c, d, e, f, g, h] = size.to_le_bytes();
        sink.put(&[255, a, b, c, d, e, f, g, h])
    }
}

/// A byte string: its length, and its bytes.
pub fn put_string<S: Sink>(sink: &mut S, bytes: &[u8]) -> Result<(), S::Fault>
    ensures { OnOk result (Puts S.holds (string bytes.now) sink.old sink.new) }
{
    put_size(sink, bytes.len() as u64)?;
    sink.put(bytes)
}

fn put_input<S: Sink>(sink: &mut S, spent: &TxIn) -> Result<(), S::Fault>
    ensures { OnOk result (Puts S.holds (input spent.now) sink.old sink.new) }
{
    sink.put(&spent.from.txid.0)?;
    put_u32(sink, spent.from.index)?;
    put_string(sink, spent.script.as_slice())?;
    put_u32(sink, spent.sequence)
}

/// Each input, without a count.
fn put_input_run<S: Sink>(sink: &mut S, items: &[TxIn]) -> Result<(), S::Fault>
    ensures { OnOk result (Puts S.holds (flat_map input items.now) sink.old sink.new) }
{
    for spent in items {
        put_input(sink, spent)?;
    }
    Ok(())
}

fn put_inputs<S: Sink>(sink: &mut S, items: &[TxIn]) -> Result<(), S::Fault>
    ensures { OnOk result (Puts S.holds (inputs items.now) sink.old sink.new) }
{
    put_size(sink, items.len() as u64)?;
    put_input_run(sink, items)
}

fn put_output<S: Sink>(sink: &mut S, made: &TxOut) -> Result<(), S::Fault>
    ensures { OnOk result (Puts S.holds (output made.now) sink.old sink.new) }
{
    put_u64(sink, made.value)?;
    put_string(sink, made.script.as_slice())
}

/// Each output, without a count.
fn put_output_run<S: Sink>(sink: &mut S, items: &[TxOut]) -> Result<(), S::Fault>
    ensures { OnOk result (Puts S.holds (flat_map output items.now) sink.old sink.new) }
{
    for made in items {
        put_output(sink, made)?;
    }
    Ok(())
}

fn put_outputs<S: Sink>(sink: &mut S, items: &[TxOut]) -> Result<(), S::Fault>
    ensures { OnOk result (Puts S.holds (outputs items.now) sink.old sink.new) }
{
    put_size(sink, items.len() as u64)?;
    put_output_run(sink, items)
}

/// A stack, whose byte strings are kept as they are spelled.
fn put_stack<S: Sink>(sink: &mut S, witness: &Witness) -> Result<(), S::Fault>
    ensures { OnOk result (Puts S.holds (stack witness.now) sink.old sink.new) }
{
    put_size(sink, witness.len() as u64)?;
    sink.put(witness.spelled())
}

/// The stack of each input.
fn put_stacks<S: Sink>(sink: &mut S, items: &[TxIn]) -> Result<(), S::Fault>
    ensures { OnOk result (Puts S.holds (stacks items.now) sink.old sink.new) }
{
    for spent in items {
        put_stack(sink, &spent.witness)?;
    }
    Ok(())
}

/// A transaction without marker, flag and witnesses.
pub fn put_stripped<S: Sink>(sink: &mut S, tx: &Tx) -> Result<(), S::Fault>
    ensures { OnOk result (Puts S.holds (stripped_form tx.now) sink.old sink.new) }
{
    put_u32(sink, tx.version)?;
    put_inputs(sink, tx.inputs.as_slice())?;
    put_outputs(sink, tx.outputs.as_slice())?;
    put_u32(sink, tx.lock)
}

/// A transaction with marker, flag and witnesses.
fn put_extended<S: Sink>(sink: &mut S, tx: &Tx) -> Result<(), S::Fault>
    ensures { OnOk result (Puts S.holds (extended_form tx.now) sink.old sink.new) }
{
    put_u32(sink, tx.version)?;
    sink.put(&[0, 1])?;
    put_inputs(sink, tx.inputs.as_slice())?;
    put_outputs(sink, tx.outputs.as_slice())?;
    put_stacks(sink, tx.inputs.as_slice())?;
    put_u32(sink, tx.lock)
}

/// A transaction, in the form that it has.
pub fn put_tx<S: Sink>(sink: &mut S, whole: &Tx) -> Result<(), S::Fault>
    ensures { OnOk result (Puts S.holds (tx whole.now) sink.old sink.new) }
{
    if whole.marked {
        put_extended(sink, whole)
    } else {
        put_stripped(sink, whole)
    }
}

/// The 80 bytes of a header.
pub fn put_header<S: Sink>(sink: &mut S, head: &Header) -> Result<(), S::Fault>
    ensures { OnOk result (Puts S.holds (header head.now) sink.old sink.new) }
{
    put_u32(sink, head.version)?;
    sink.put(&head.previous)?;
    sink.put(&head.root)?;
    put_u32(sink, head.time)?;
    put_u32(sink, head.bits)?;
    put_u32(sink, head.nonce)
}

/// Each transaction, without a count.
fn put_tx_run<S: Sink>(sink: &mut S, items: &[Tx]) -> Result<(), S::Fault>
    ensures { OnOk result (Puts S.holds (flat_map tx items.now) sink.old sink.new) }
{
    for whole in items {
        put_tx(sink, whole)?;
    }
    Ok(())
}

/// A block.
#[tactic(auto, unfolding(crate::specs::Spelling::spell))]
pub fn put_block<S: Sink>(sink: &mut S, block: &Block) -> Result<(), S::Fault>
    ensures { OnOk result (Puts S.holds (spell block.now) sink.old sink.new) }
{
    put_header(sink, &block.header)?;
    put_size(sink, block.txs.len() as u64)?;
    put_tx_run(sink, block.txs.as_slice())
}
