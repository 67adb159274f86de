//! What both transactions of a made block have in common.

ghost use Rattle.std.specs.Prelude.{◌≡◌, ◌∷◌, [], IfOk};
ghost use Rattle.ox_gen.specs.Made.{claim as claimed, made_tx as made, open_script};

use ox_block::{Inputs, OutPoint, Outs, Script, Tx, TxIn, TxOut, Witness};
use ox_bytes::{Bytes, Memory};
use ox_sat::{ProfileName, profile_of, subsidy};
use std::alloc::Global;

/// OP_1, which anybody may spend.
const OPEN: [u8; 1] = [0x51];

/// What a coinbase of this height claims: all that its block mints but for one satoshi.
pub(crate) fn claim(height: u32) -> u64
    ensures { result ≡ claimed height }
{
    subsidy(&profile_of(ProfileName::Regtest), u64::from(height)).saturating_sub(1)
}

/// An output of so many satoshis that anybody may spend.
pub(crate) fn open_output(alloc: Global, value: u64) -> Result<TxOut, Memory>
    ensures { IfOk result (λ output. output ≡ record { value = value; script = open_script }) }
{
    Ok(TxOut {
        value,
        script: Script::copy(alloc, &OPEN)?,
    })
}

/// A transaction of one input, of version 2.
pub(crate) fn made_tx(
    alloc: Global,
    from: OutPoint,
    script: &[u8],
    witness: Witness,
    outputs: Outs,
) -> Result<Tx, Memory>
    ensures { IfOk result (λ tx. tx ≡ made from script.now witness outputs) }
{
    let marked = !witness.is_empty();
    let script = Bytes::copy(alloc, script)?;
    let input = TxIn {
        from,
        script,
        sequence: 0,
        witness,
    };
    Ok(Tx {
        version: 2,
        marked,
        inputs: Inputs::one(alloc, input),
        outputs,
        lock: 0,
    })
}
