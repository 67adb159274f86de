//! The transaction of a made block that spends the coinbase before.

ghost use Rattle.std.specs.Prelude.{◌≡◌, ◌++◌, ◌∷◌, [], ◌-◌, IfOk, OnOk, decimal, length};
ghost use Rattle.ox_gen.specs.Made.{control, spend as spend_said, tapscript as tapscript_said};
ghost use Rattle.ox_gen.specs.Made.{runestone as runestone_said};

use crate::parts::{claim, made_tx, open_output};
use itoa::Buffer;
use ox_block::{OutPoint, Outs, Script, Tx, TxOut, Witness};
use ox_bytes::{Bytes, Memory};
use std::alloc::Global;

/// An envelope with the content type `text/plain`, as far as the body's push: OP_FALSE OP_IF
/// "ord", tag 1 and its value, an empty push.
const FRONT: &[u8] = b"\x00\x63\x03ord\x01\x01\x0atext/plain\x00";

/// OP_ENDIF.
const END: [u8; 1] = [0x68];

/// What stands for a control block: a leaf version, and a key of zeros.
const CONTROL: &[u8] = b"\xc0\x00\x00\x00\x00\x00\x00\x00\x00\x00\x00\x00\x00\x00\x00\x00\x00\
\x00\x00\x00\x00\x00\x00\x00\x00\x00\x00\x00\x00\x00\x00\x00\x00";

/// A rune with a premine of 100, of which 7 may be minted 1,000,000 times.
const ETCHING: &[u8] = b"\x6a\x5d\x0a\x02\x03\x06\x64\x08\xc0\x84\x3d\x0a\x07";

/// A mint of the rune 1:1.
const MINT: &[u8] = b"\x6a\x5d\x04\x14\x01\x14\x01";

/// The same with a field of an unknown even tag, which makes it a cenotaph.
const CENOTAPH: &[u8] = b"\x6a\x5d\x06\x14\x01\x14\x01\x7e\x00";

/// The runestone of a height.
fn runestone(height: u32) -> &'static [u8]
    ensures { result.now ≡ runestone_said height }
{
    if height == 1 {
        ETCHING
    } else if height % 10 == 0 {
        CENOTAPH
    } else {
        MINT
    }
}

/// An inscription of the height's decimal digits.
fn tapscript(alloc: Global, height: u32) -> Result<Bytes, Memory>
    ensures { IfOk result (λ script. script ≡ tapscript_said height) }
{
    let mut digits = Buffer::new();
    let text = digits.format(height).as_bytes();
    let mut script = Bytes::copy(alloc, FRONT)?;
    script.append(&[text.len() as u8])?;
    script.append(text)?;
    script.append(&END)?;
    Ok(script)
}

/// The stack of two items whose first is a tapscript.
fn witness(alloc: Global, height: u32) -> Result<Witness, Memory>
    ensures { IfOk result (λ witness. witness ≡ tapscript_said height ∷ control ∷ []) }
{
    let mut witness = Witness::new(alloc);
    witness.push(tapscript(alloc, height)?.as_slice())?;
    witness.push(CONTROL)?;
    Ok(witness)
}

/// The transaction of this height that spends what the coinbase before claimed, reveals an
/// inscription and carries a runestone.
pub(crate) fn spend(alloc: Global, height: u32, paid: OutPoint) -> Result<Tx, Memory>
    ensures { IfOk result (λ tx. tx ≡ spend_said height paid) }
{
    let open = open_output(alloc, claim(height.saturating_sub(1)))?;
    let stone = TxOut {
        value: 0,
        script: Script::copy(alloc, runestone(height))?,
    };
    let outputs = Outs::two(alloc, open, stone);
    made_tx(alloc, paid, &[], witness(alloc, height)?, outputs)
}
