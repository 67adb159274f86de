//! The records of a file.

ghost use Rattle.std.specs.Prelude.{◌≡◌, ◌+◌, ◌<◌, ◌≤◌, ◌^◌, length, MatchOption, IfOk, OnErr};
ghost use Rattle.std.specs.Prelude.{bytes_eq};
ghost use Rattle.ox_bytes.specs.Reading.{Gives};
ghost use Rattle.ox_gated.specs.Gate.{HasFront, IsShut, IsOpen, IsBroken, IsCutFront, chain_of};
ghost use Rattle.ox_gated.specs.Gate.{gates_of};
ghost use Rattle.ox_gated.specs.Layout.{layout_of};
ghost use Rattle.ox_gated.specs.OtherFile.{BeginsShut};
ghost use Rattle.ox_gated.specs.RecordLayout.{plain_payload, record_sum, summed_payload};

use crate::head::Head;
use crate::layout::record_sum;
use ox_bytes::{Bytes, FieldFault, List, Memory, run_field, u32le_field, u64le_field};
use std::alloc::Global;

/// One record: the place of its gate in the file, and its payload.
#[derive(Drop)]
pub struct Record {
    pub place: u64,
    pub payload: Bytes,
}

/// Records, in order.
pub type Records = List<Record>;

/// Records from a place on, and the place of the closed gate behind them; or of the first gate that
/// is missing, or whose record is cut or not as its sum says.
#[derive(Drop)]
pub struct Walk {
    pub records: Records,
    pub end: Result<u64, u64>,
}

/// Reads the gates of a file with this head from this place on, where these bytes stand.
pub fn walk_from(alloc: Global, head: &Head, place: u64, bytes: &[u8]) -> Result<Walk, Memory>
    requires { place + length bytes.now < 2 ^ 64 }
    ensures chain { IfOk result (λ walk. gates_of walk ≡ chain_of head.now place bytes.now) }
    ensures count { IfOk result (λ walk.
        IfOk walk.end (λ gate. place + length walk.records ≤ gate)) }
{
    walk_on(alloc, head, place, bytes)
}

fn walk_on(alloc: Global, head: &Head, place: u64, bytes: &[u8]) -> Result<Walk, Memory>
    requires { place + length bytes.now < 2 ^ 64 }
    ensures { IfOk result (λ walk. gates_of walk ≡ chain_of head.now place bytes.now) }
{
    let mut records = List::new(alloc);
    let mut place = place;
    let mut rest = bytes;
    let end = 'gates: loop {
        match gate_at(head, place, rest) {
            Err(Broken) => break 'gates Err(place),
            Ok(None) => break 'gates Ok(place),
            Ok(Some((payload, next))) => {
                records.push(Record {
                    place,
                    payload: Bytes::copy(alloc, payload)?,
                })?;
                place += head.before_payload() + payload.len() as u64;
                rest = next;
            }
        }
    };
    Ok(Walk { records, end })
}

/// A gate that is missing, or whose record is cut or not as its sum says.
pub struct Broken;

/// What the first of these bytes, which stand at this place of a file with this head, is as a gate:
/// none behind a closed one, else its record's payload and what follows.
fn gate_at<'a>(
    head: &Head,
    place: u64,
    bytes: &'a [u8],
) -> Result<Option<(&'a [u8], &'a [u8])>, Broken>
    ensures there { IfOk result (λ gate.
        MatchOption gate (IsShut head.now place bytes.now)
        (λ g. IsOpen head.now place bytes.now g.0.now g.1.now)) }
    ensures broken { OnErr result (IsBroken head.now place bytes.now) }
{
    match bytes.split_first() {
        None => Err(Broken),
        Some((0, _)) => Ok(None),
        Some((_, behind)) => match payload_field(head, place, behind) {
            Ok((payload, rest)) => Ok(Some((payload, rest))),
            Err(_) => Err(Broken),
        },
    }
}

/// The payload of the record whose gate stands at this place of a file with this head, and what
/// stands behind it.
#[tactic(auto, unfolding(crate::specs::Layout::layout_of))]
fn payload_field<'a>(
    head: &Head,
    place: u64,
    bytes: &'a [u8],
) -> Result<(&'a [u8], &'a [u8]), FieldFault>
    ensures { let head = head.now in
        Gives (λ x. (x.0.now, x.1.now)) result
        ((layout_of head.version).payload_at head.generation place bytes.now) }
{
    if head.is_summed() {
        summed_payload(head.generation, place, bytes)
    } else {
        plain_payload(bytes)
    }
}

/// A payload behind its length.
#[tactic(auto, unfolding(crate::specs::RecordLayout::plain_payload))]
fn plain_payload(bytes: &[u8]) -> Result<(&[u8], &[u8]), FieldFault>
    ensures { Gives (λ x. (x.0.now, x.1.now)) result (plain_payload bytes.now) }
{
    let (size, rest) = u32le_field(bytes)?;
    run_field(rest, size as u64)
}

/// A payload behind its length and its sum, which has to be right.
#[tactic(auto, unfolding(crate::specs::RecordLayout::summed_payload))]
fn summed_payload(generation: u64, place: u64, bytes: &[u8]) -> Result<(&[u8], &[u8]), FieldFault>
    ensures { Gives (λ x. (x.0.now, x.1.now)) result
        (summed_payload generation place bytes.now) }
{
    let (size, rest) = u64le_field(bytes)?;
    let (sum, rest) = run_field(rest, 32)?;
    let (payload, rest) = run_field(rest, size)?;
    if is_summed_so(generation, place, payload, sum) {
        Ok((payload, rest))
    } else {
        Err(FieldFault { left: bytes.len() })
    }
}

/// Whether this is the sum of the payload whose record's gate stands at this place of a file of
/// this generation.
pub fn is_summed_so(generation: u64, place: u64, payload: &[u8], sum: &[u8]) -> bool
    ensures { result ≡ bytes_eq sum.now (record_sum generation place payload.now) }
{
    sum == &record_sum(generation, place, payload, &[])[..]
}

/// What the first of these bytes is as a gate of a file of version 3: none behind a closed one,
/// else its record's length and sum. They are 41 bytes, as many as stand before a payload, or fewer
/// where the file ends.
pub fn summed_gate(bytes: &[u8]) -> Result<Option<(u64, &[u8])>, Broken>
    requires { length bytes.now ≤ 41 }
    ensures there { IfOk result (λ gate.
        MatchOption gate (BeginsShut bytes.now) (λ g. HasFront bytes.now g.0 g.1.now)) }
    ensures broken { OnErr result (IsCutFront bytes.now) }
{
    match bytes.split_first() {
        None => Err(Broken),
        Some((0, _)) => Ok(None),
        Some((_, behind)) => match u64le_field(behind) {
            Ok((size, sum)) => {
                if sum.len() == 32 {
                    Ok(Some((size, sum)))
                } else {
                    Err(Broken)
                }
            }
            Err(_) => Err(Broken),
        },
    }
}
