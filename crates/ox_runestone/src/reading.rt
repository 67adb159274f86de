//! From a script to an artifact.

ghost use Rattle.std.specs.Prelude.{◌≡◌, List, IfOk, true};
ghost use Rattle.std.specs.Option.{option_map};
ghost use Rattle.ox_runestone.specs.Message.{Field};
ghost use Rattle.ox_runestone.specs.ValuesKept.{IsKeptOf};
ghost use Rattle.ox_runestone.specs.Payload.{is_stone};
ghost use Rattle.ox_runestone.specs.Artifact.{name_in, artifact_of};
ghost use Rattle.ox_runestone.specs.Spelling.{EdictsDontFall, StoneCanCome};
ghost use Rattle.ox_runestone.specs.FieldsKept.{IsCenotaphOf, IsArtifactOf, SaysWhetherFlawed};

use crate::fields::overflows;
use crate::message::{Fields, edicts_of, read_message};
use crate::payload::integers_in;
use crate::stone::{Artifact, Edict, Edicts, Etching, Runestone};
use ox_bytes::Memory;
use std::alloc::Global;

/// A script without integers says nothing: neither a mint nor a name.
const SILENT: Artifact = Artifact::Cenotaph {
    mint: None,
    name: None,
};

/// The name of an etching.
fn name_in(etching: Option<Etching>) -> Option<u128>
    ensures { result ≡ name_in etching }
{
    match etching {
        Some(etching) => etching.name,
        None => None,
    }
}

/// Of a malformed message the mint counts, and the name of its etching.
fn cenotaph(fields: &Fields) -> Artifact
    ensures { IsCenotaphOf fields.now result }
{
    Artifact::Cenotaph {
        mint: fields.mint(),
        name: name_in(fields.etching()),
    }
}

/// Whether a flag or a value isn't taken, or more is etched than an amount can be.
fn are_flawed(fields: &Fields, outputs: u32) -> bool
    ensures { SaysWhetherFlawed fields.now outputs result }
{
    if fields.has_strange_flag() {
        return true;
    }
    if fields.leaves_even(outputs) {
        return true;
    }
    overflows(&fields.etching())
}

/// The artifact of a message.
fn artifact_from(fields: &Fields, lone: bool, edicts: Option<Vec<Edict>>, outputs: u32) -> Artifact
    ensures { IsArtifactOf fields.now lone (option_map (λ v. v.items) edicts) outputs result }
{
    let Some(edicts) = edicts else {
        return cenotaph(fields);
    };
    if lone {
        return cenotaph(fields);
    }
    if are_flawed(fields, outputs) {
        return cenotaph(fields);
    }
    Artifact::Stone(Runestone {
        etching: fields.etching(),
        mint: fields.mint(),
        pointer: fields.pointer(outputs),
        edicts: Edicts::from_vec(edicts),
    })
}

/// The artifact that a runestone's script deciphers as, in a transaction with so many outputs
/// (Runes specification, "Deciphering"). The script is one that `is_stone` accepts. A runestone
/// that is given can be enciphered again: its numbers are in range, and the ids of its edicts don't
/// fall.
///
/// `Memory` where there is none for the payload, the integers or the edicts.
pub fn decipher(alloc: Global, script: &[u8], outputs: u32) -> Result<Artifact, Memory>
    requires { is_stone script.now ≡ true }
    ensures exact { IfOk result (λ artifact. artifact ≡ artifact_of script.now outputs) }
    ensures possible { IfOk result (StoneCanCome outputs) }
    ensures rising { IfOk result EdictsDontFall }
{
    let Some(integers) = integers_in(alloc, script)? else {
        return Ok(SILENT);
    };
    let mut fields = Fields::none();
    let rest = read_message(&mut fields, integers.as_slice());
    let edicts = edicts_of(alloc, outputs, rest.body)?;
    Ok(artifact_from(&fields, rest.lone, edicts, outputs))
}
