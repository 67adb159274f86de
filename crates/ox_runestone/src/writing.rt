//! From a runestone to a script.

ghost use Rattle.std.specs.Prelude.{◌≡◌, ◌≤◌, ◌<◌, ◌^◌, ◌++◌, length, [], ◌∷◌, ◌-◌, ◌==◌};
ghost use Rattle.std.specs.Prelude.{if◌then◌else◌, true, IsTrue, ◌↔◌, IfOk, OnOk};
ghost use Rattle.std.specs.List.{flat_map};
ghost use Rattle.ox_varint.specs.Varint.{varint};
ghost use Rattle.ox_runestone.specs.Payload.{is_stone};
ghost use Rattle.ox_runestone.specs.Artifact.{artifact_of};
ghost use Rattle.ox_runestone.specs.Spelling.{
  pair,
  terms_pairs,
  etching_pairs,
  mint_pairs,
  fields_of,
  flags_for,
  deltas,
  body_for,
  payload_for,
  text_of,
  push_head,
  push,
  Spells,
  CanCome,
  NotBelow,
  DontFall,
  DontFallAfter,
};

use crate::payload::{OP_13, OP_RETURN};
use crate::stone::{Artifact, Edict, Etching, RuneId, Runestone, Terms};
use crate::tags::{
    AMOUNT, BODY, CAP, DIVISIBILITY, ETCHING_FLAG, FLAGS, HEIGHT_END, HEIGHT_START, MINT, NAME,
    OFFSET_END, OFFSET_START, POINTER, PREMINE, SPACERS, SYMBOL, TERMS_FLAG, TURBO_FLAG,
};
use ox_bytes::{Bytes, Memory};
use std::alloc::Global;

/// The most bytes that one push may have (Bitcoin Core's MAX_SCRIPT_ELEMENT_SIZE).
const MAX_PUSH: usize = 520;

const OP_PUSHDATA1: u8 = 0x4c;

const OP_PUSHDATA2: u8 = 0x4d;

/// Appends an integer.
fn put(payload: &mut Vec<u8>, integer: u128) -> Result<(), Memory>
    ensures { OnOk result (payload.new.items ≡ payload.old.items ++ varint integer) }
{
    let mut room = [0; 19];
    let len = ox_varint::write(integer, &mut room);
    payload.extend_from_slice(&room[..len])?;
    Ok(())
}

/// Appends a tag and its value, where there is one.
fn put_pair(payload: &mut Vec<u8>, tag: usize, value: Option<u128>) -> Result<(), Memory>
    ensures { OnOk result (payload.new.items ≡ payload.old.items ++ text_of (pair tag value)) }
{
    let Some(value) = value else {
        return Ok(());
    };
    put(payload, tag as u128)?;
    put(payload, value)
}

fn wide_64(value: Option<u64>) -> Option<u128>
    ensures { result ≡ value }
{
    match value {
        Some(value) => Some(u128::from(value)),
        None => None,
    }
}

fn wide_32(value: Option<u32>) -> Option<u128>
    ensures { result ≡ value }
{
    match value {
        Some(value) => Some(u128::from(value)),
        None => None,
    }
}

fn wide_8(value: Option<u8>) -> Option<u128>
    ensures { result ≡ value }
{
    match value {
        Some(value) => Some(u128::from(value)),
        None => None,
    }
}

fn code_of(symbol: Option<char>) -> Option<u128>
    ensures { result ≡ symbol }
{
    match symbol {
        Some(symbol) => Some(symbol as u128),
        None => None,
    }
}

/// Appends the terms.
fn put_terms(payload: &mut Vec<u8>, terms: Option<Terms>) -> Result<(), Memory>
    ensures { OnOk result (payload.new.items ≡ payload.old.items ++ text_of (terms_pairs terms)) }
{
    let Some(terms) = terms else {
        return Ok(());
    };
    put_pair(payload, CAP, terms.cap)?;
    put_pair(payload, AMOUNT, terms.amount)?;
    put_pair(payload, HEIGHT_START, wide_64(terms.height_start))?;
    put_pair(payload, HEIGHT_END, wide_64(terms.height_end))?;
    put_pair(payload, OFFSET_START, wide_64(terms.offset_start))?;
    put_pair(payload, OFFSET_END, wide_64(terms.offset_end))?;
    Ok(())
}

/// The flags of an etching.
fn flags_for(etching: &Etching) -> u128
    ensures { result ≡ flags_for etching.now }
{
    let terms = if etching.terms.is_some() {
        TERMS_FLAG
    } else {
        0
    };
    let turbo = if etching.turbo { TURBO_FLAG } else { 0 };
    ETCHING_FLAG + terms + turbo
}

/// Appends the etching.
fn put_etching(payload: &mut Vec<u8>, etching: Option<Etching>) -> Result<(), Memory>
    ensures { OnOk result (
        payload.new.items ≡ payload.old.items ++ text_of (etching_pairs etching)) }
{
    let Some(etching) = etching else {
        return Ok(());
    };
    put_pair(payload, FLAGS, Some(flags_for(&etching)))?;
    put_pair(payload, NAME, etching.name)?;
    put_pair(payload, DIVISIBILITY, wide_8(etching.divisibility))?;
    put_pair(payload, SPACERS, wide_32(etching.spacers))?;
    put_pair(payload, SYMBOL, code_of(etching.symbol))?;
    put_pair(payload, PREMINE, etching.premine)?;
    put_terms(payload, etching.terms)?;
    Ok(())
}

/// Appends the mint.
fn put_mint(payload: &mut Vec<u8>, mint: Option<RuneId>) -> Result<(), Memory>
    ensures { OnOk result (payload.new.items ≡ payload.old.items ++ text_of (mint_pairs mint)) }
{
    let Some(id) = mint else {
        return Ok(());
    };
    put_pair(payload, MINT, Some(u128::from(id.block)))?;
    put_pair(payload, MINT, Some(u128::from(id.tx)))
}

/// Whether an id isn't below another.
fn follows(id: RuneId, next: RuneId) -> bool
    ensures { IsTrue result ↔ NotBelow id next }
{
    id.block < next.block || (id.block == next.block && id.tx <= next.tx)
}

/// Whether the ids of the edicts don't fall, from one to the next.
pub fn ids_rise(edicts: &[Edict]) -> bool
    ensures { IsTrue result ↔ DontFall edicts.now }
{
    let mut id = RuneId { block: 0, tx: 0 };
    for edict in edicts {
        if !follows(id, edict.id) {
            return false;
        }
        id = edict.id;
    }
    true
}

/// Appends an edict behind an id.
fn put_edict(payload: &mut Vec<u8>, id: RuneId, edict: &Edict) -> Result<(), Memory>
    requires { NotBelow id edict.now.id }
    ensures { OnOk result (
        payload.new.items ≡ payload.old.items ++ flat_map varint (deltas id (edict.now ∷ []))) }
{
    let block = edict.id.block - id.block;
    put(payload, u128::from(block))?;
    put(payload, u128::from(tx_behind(id, edict.id)))?;
    put(payload, edict.amount)?;
    put(payload, u128::from(edict.output))
}

/// The transaction of an id, told behind another.
fn tx_behind(id: RuneId, next: RuneId) -> u32
    requires { NotBelow id next }
    ensures { result ≡ (if next.block == id.block then next.tx - id.tx else next.tx) }
{
    if next.block == id.block {
        next.tx - id.tx
    } else {
        next.tx
    }
}

/// Appends the edicts behind the tag 0, where there are any.
fn put_edicts(payload: &mut Vec<u8>, edicts: &[Edict]) -> Result<(), Memory>
    requires { DontFall edicts.now }
    ensures { OnOk result (
        payload.new.items ≡ payload.old.items ++ flat_map varint (body_for edicts.now)) }
{
    if edicts.is_empty() {
        return Ok(());
    }
    put(payload, BODY as u128)?;
    let mut id = RuneId { block: 0, tx: 0 };
    for edict in edicts {
        put_edict(payload, id, edict)?;
        id = edict.id;
    }
    Ok(())
}

/// The payload that says a runestone.
fn payload_for(alloc: Global, stone: &Runestone) -> Result<Vec<u8>, Memory>
    requires { DontFall stone.now.edicts }
    ensures { IfOk result (λ payload. payload.items ≡ payload_for stone.now) }
{
    let mut payload = Vec::new(alloc);
    put_etching(&mut payload, stone.etching)?;
    put_mint(&mut payload, stone.mint)?;
    put_pair(&mut payload, POINTER, wide_32(stone.pointer))?;
    put_edicts(&mut payload, stone.edicts.as_slice())?;
    Ok(payload)
}

/// Appends the opcode of a push with so many bytes, and their number where it isn't the opcode.
fn put_head(script: &mut Vec<u8>, count: usize) -> Result<(), Memory>
    requires { count ≤ MAX_PUSH }
    ensures { OnOk result (script.new.items ≡ script.old.items ++ push_head count) }
{
    if count < 76 {
        script.push(count as u8)?;
    } else if count < 256 {
        script.push(OP_PUSHDATA1)?;
        script.push(count as u8)?;
    } else {
        script.push(OP_PUSHDATA2)?;
        script.push((count % 256) as u8)?;
        script.push((count / 256) as u8)?;
    }
    Ok(())
}

/// Appends a push.
fn put_push(script: &mut Vec<u8>, bytes: &[u8]) -> Result<(), Memory>
    requires { length bytes.now ≤ MAX_PUSH }
    ensures { OnOk result (script.new.items ≡ script.old.items ++ push bytes.now) }
{
    put_head(script, bytes.len())?;
    script.extend_from_slice(bytes)?;
    Ok(())
}

/// A script that says the runestone: OP_RETURN, OP_13 and the payload in pushes. The runestone is
/// one that a script can say in a transaction with so many outputs, and the ids of its edicts don't
/// fall.
///
/// `Memory` where there is none for the payload or the script.
pub fn encipher(alloc: Global, stone: &Runestone, outputs: u32) -> Result<Bytes, Memory>
    requires possible { CanCome stone.now outputs }
    requires rising { DontFall stone.now.edicts }
    ensures spelled { IfOk result (λ script. Spells script stone.now) }
    // What is written deciphers as the same runestone.
    ensures marked { IfOk result (λ script. is_stone script ≡ true) }
    ensures deciphered { IfOk result (
        λ script. artifact_of script outputs ≡ Artifact.Stone stone.now) }
{
    let payload = payload_for(alloc, stone)?;
    let mut script = Vec::new(alloc);
    script.push(OP_RETURN)?;
    script.push(OP_13)?;
    let mut rest = payload.as_slice();
    while !rest.is_empty() {
        let (chunk, behind) = rest.split_at(rest.len().min(MAX_PUSH));
        put_push(&mut script, chunk)?;
        rest = behind;
    }
    Ok(Bytes::from_vec(script))
}
