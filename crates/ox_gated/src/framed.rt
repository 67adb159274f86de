//! What is written: a record with the closed gate behind it, and a file without records.

ghost use Rattle.std.specs.Prelude.{◌≡◌, ◌+◌, ◌≤◌, ◌<◌, ◌^◌, ◌++◌, ◌∷◌, [], length, IsTrue, IfOk};
ghost use Rattle.ox_gated.specs.Layout.{head_bytes, is_lawful, layout_of};
ghost use Rattle.ox_gated.specs.RecordLayout.{plain_record, summed_record};
ghost use Rattle.ox_gated.specs.Tail.{IsFramedBehind};

use crate::front::{plain_front, summed_front};
use crate::head::Head;
use crate::layout::record_sum;
use crate::tail::Tail;
use ox_bytes::{Bytes, Memory};
use sha2::{Digest, Sha256};
use std::alloc::Global;
use std::marker::Model;

/// A record as it is written behind an open gate, and the closed gate behind it. Contracts see its
/// payload and its bytes.
#[derive(Drop)]
pub struct Framed {
    before: usize,
    bytes: Bytes,
}

impl Model for Framed {
    ghost use Rattle.std.specs.Prelude.{length, take, drop, ◌-◌, ◌≤◌, ◌+◌};
    ghost use Rattle.ox_gated.specs.Tail.{Framing};

    ghost Value = { Framing };

    ghost view = { λ f. record {
      payload = take (length f.bytes - (f.before + 1)) (drop f.before f.bytes);
      bytes = f.bytes;
    } };

    ghost invariant = { λ f. f.before + 1 ≤ length f.bytes };
}

impl Framed {
    /// The bytes that are written behind the gate.
    pub fn as_slice(&self) -> &[u8]
        ensures { result.now ≡ self.now.bytes }
    {
        self.bytes.as_slice()
    }
}

/// The record of this payload, at version 2. `Memory` where there is none for it.
pub fn frame(alloc: Global, payload: &[u8]) -> Result<Framed, Memory>
    requires { length payload.now < 2 ^ 32 }
    ensures payload { IfOk result (λ framed. framed.payload ≡ payload.now) }
    ensures bytes { IfOk result (λ framed.
        framed.bytes ≡ plain_record payload.now ++ 0 ∷ []) }
{
    frame_parts(alloc, payload, &[])
}

/// The record whose payload is the bytes of `front` and then those of `rest`, each copied once, at
/// version 2. `Memory` where there is none for it.
#[tactic(auto, unfolding(crate::specs::RecordLayout::plain_record))]
pub fn frame_parts(alloc: Global, front: &[u8], rest: &[u8]) -> Result<Framed, Memory>
    requires { length front.now + length rest.now < 2 ^ 32 }
    ensures payload { IfOk result (λ framed. framed.payload ≡ front.now ++ rest.now) }
    ensures bytes { IfOk result (λ framed.
        framed.bytes ≡ plain_record (front.now ++ rest.now) ++ 0 ∷ []) }
{
    let size = (front.len() + rest.len()) as u32;
    record_of(alloc, &size.to_le_bytes(), &[], front, rest)
}

/// The same with its sum, at version 3: where its gate stands at this place of a file of this
/// generation.
#[tactic(auto, unfolding(crate::specs::RecordLayout::summed_record))]
fn frame_summed(
    alloc: Global,
    generation: u64,
    place: u64,
    front: &[u8],
    rest: &[u8],
) -> Result<Framed, Memory>
    ensures payload { IfOk result (λ framed. framed.payload ≡ front.now ++ rest.now) }
    ensures bytes { IfOk result (λ framed.
        framed.bytes ≡ summed_record generation place (front.now ++ rest.now) ++ 0 ∷ []) }
{
    let size = (front.len() + rest.len()) as u64;
    let sum = record_sum(generation, place, front, rest);
    record_of(alloc, &size.to_le_bytes(), &sum, front, rest)
}

/// What is written of a record: its length and its sum, as these bytes spell them, its payload,
/// which is the bytes of `front` and then those of `rest`, and a closed gate.
fn record_of(
    alloc: Global,
    size: &[u8],
    sum: &[u8],
    front: &[u8],
    rest: &[u8],
) -> Result<Framed, Memory>
    requires { length size.now + length sum.now ≤ 40 }
    ensures payload { IfOk result (λ framed. framed.payload ≡ front.now ++ rest.now) }
    ensures bytes { IfOk result (λ framed.
        framed.bytes ≡ size.now ++ sum.now ++ (front.now ++ rest.now) ++ 0 ∷ []) }
{
    let before = size.len() + sum.len();
    let room = (before + 1)
        .saturating_add(front.len())
        .saturating_add(rest.len());
    let mut bytes = Vec::with_capacity(alloc, room)?;
    bytes.extend_from_slice(size)?;
    bytes.extend_from_slice(sum)?;
    bytes.extend_from_slice(front)?;
    bytes.extend_from_slice(rest)?;
    bytes.push(0)?;
    Ok(Framed {
        before,
        bytes: Bytes::from_vec(bytes),
    })
}

impl Tail {
    /// The record whose payload is the bytes of `front` and then those of `rest`, as this tail's
    /// file has it behind the tail's gate. `Memory` where there is none for it, and where it has
    /// 2^32 bytes or more in a file of version 2.
    #[tactic(auto, unfolding(crate::specs::Layout::layout_of))]
    pub fn frame(&self, alloc: Global, front: &[u8], rest: &[u8]) -> Result<Framed, Memory>
        ensures payload { IfOk result (λ framed. framed.payload ≡ front.now ++ rest.now) }
        ensures framed { IfOk result (IsFramedBehind self.now) }
    {
        if self.head().is_summed() {
            return frame_summed(alloc, self.head().generation, self.gate(), front, rest);
        }
        if front.len() > LONGEST || rest.len() > LONGEST - front.len() {
            return Err(Memory);
        }
        frame_parts(alloc, front, rest)
    }
}

/// The greatest length of a payload in a file of version 1 or 2.
const LONGEST: usize = 0xffff_ffff;

/// A file without records, but for its first gate, in two pieces: the bytes before the body, and
/// the body with the closed gate behind it. Contracts see its head and its body.
#[derive(Drop)]
pub struct Checkpoint {
    head: Head,
    front: Bytes,
    behind: Bytes,
}

impl Model for Checkpoint {
    ghost use Rattle.std.specs.Prelude.{◌≡◌, ◌≤◌, ◌+◌, ◌^◌, length, take, ◌-◌, ◌++◌, ◌∷◌, []};
    ghost use Rattle.std.specs.Prelude.{IsTrue};
    ghost use Rattle.ox_gated.specs.Layout.{Whole, is_lawful, head_bytes, body_before};

    ghost Value = { Whole };

    ghost view = { λ c. record { head = c.head; body = body_before c.behind } };

    ghost invariant = { λ c.
        (c.front ≡ head_bytes c.head (body_before c.behind))
        × (c.behind ≡ body_before c.behind ++ 0 ∷ [])
        × IsTrue (is_lawful c.head) × (length c.behind ≤ 2 ^ 63) };
}

impl Checkpoint {
    /// The head of the file.
    pub fn head(&self) -> Head
        ensures { result ≡ self.now.head }
    {
        self.head
    }

    /// The bytes between the first gate and the body: the head, the body's length, and in version
    /// 3 the sums of the body and of the head.
    pub fn front(&self) -> &[u8]
        ensures bytes { result.now ≡ head_bytes self.now.head self.now.body }
        ensures size { length result.now + 1 ≡ (layout_of self.now.head.version).body_at }
    {
        self.front.as_slice()
    }

    /// The body, and the closed gate behind it.
    pub fn behind(&self) -> &[u8]
        ensures bytes { result.now ≡ self.now.body ++ 0 ∷ [] }
        ensures size { length result.now ≡ length self.now.body + 1 }
        ensures small { length self.now.body < 2 ^ 63 }
        ensures lawful { IsTrue (is_lawful self.now.head) }
        ensures depth { self.now.head.depth < 2 ^ 16 }
        ensures generation { self.now.head.generation < 2 ^ 64 }
    {
        let _generation = self.head.generation;
        self.behind.as_slice()
    }
}

/// The file of this head and body, without records. The body isn't copied: it is written from where
/// it stands. `Memory` where there is none for the gate behind it or for the bytes before it.
pub fn checkpoint_of(alloc: Global, head: &Head, body: Bytes) -> Result<Checkpoint, Memory>
    requires size { length body < 2 ^ 63 }
    requires head { IsTrue (is_lawful head.now) }
    ensures { IfOk result (λ checkpoint. checkpoint ≡ record { head = head.now; body = body }) }
{
    let front = front_of(alloc, head, body.as_slice())?;
    let mut behind = body.into_vec();
    behind.push(0)?;
    Ok(Checkpoint {
        head: *head,
        front,
        behind: Bytes::from_vec(behind),
    })
}

/// What stands between the first gate and this body.
#[tactic(auto, unfolding(crate::specs::Layout::layout_of))]
fn front_of(alloc: Global, head: &Head, body: &[u8]) -> Result<Bytes, Memory>
    ensures { IfOk result (λ front. front ≡ head_bytes head.now body.now) }
{
    let size = body.len() as u64;
    if head.is_summed() {
        Bytes::copy(alloc, &summed_front(head, size, &Sha256::digest(body)))
    } else {
        Bytes::copy(alloc, &plain_front(head, size))
    }
}
