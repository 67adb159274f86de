//! What a file stands for, as plain data and as a chain.

ghost use Rattle.std.specs.Prelude.{◌≡◌, IfErr, IfOk, IfSome, IsTrue, Ok};
ghost use Rattle.ox_gated.specs.Layout.{is_lawful};
ghost use Rattle.ox_gated.specs.Opened.{intact_part};
ghost use Rattle.ox_index.specs.Chain.{stack_in};
ghost use Rattle.ox_files.specs.Stands.{place_of_cut, stack_at_body, stack_in_file};
ghost use Rattle.ox_checkpoint.specs.Unjudged.{IsUnjudged, stack_after_record};

use crate::standing::{Judgement, Standing};
use ox_bytes::Bytes;
use ox_files::profile_of_head;
use ox_gated::{Before, Head, Record, Records};
use ox_index::Chain;
use std::alloc::Global;

/// Why a head, a body and records give nothing.
#[derive(Clone, Copy, Debug, PartialEq, Eq)]
pub enum Unjudged {
    /// They stand for none: the place in the file of the first test that fails.
    At(u64),
    /// There is no memory for what they stand for.
    Memory,
}

/// What a head, a body and records stand for: the body is an index and the changes of its newest
/// blocks, and each record holds a change, or takes the newest block back. All of them are tested.
/// `At` exactly where they stand for nothing, with the place of the first test that fails: that of
/// the body, or that of the gate of the first record that isn't accepted. `Memory` where there is
/// none for the standing.
///
/// It goes back from the newest index to the oldest kept one, tests that one whole, and comes on
/// again. So it costs by one index, by the kept changes and by the records. A change that doesn't
/// keep the rules of `keeps_sound` costs an index more; those of a chain keep them.
pub fn stand(
    alloc: Global,
    head: &Head,
    body: &Bytes,
    records: &Records,
) -> Result<Standing, Unjudged>
    requires { IsTrue (is_lawful head.now) }
    ensures stack { IfOk result (λ standing.
        stack_in_file head.now body.now records.now ≡ Ok standing) }
    ensures place { IfErr result (IsUnjudged (stack_in_file head.now body.now records.now)) }
{
    let mut standing = begin(alloc, head, body)?;
    for record in records.as_slice() {
        standing = stand_after(alloc, standing, record)?;
    }
    Ok(standing)
}

/// The chain that a head, a body and records stand for, its index in memory: that of `stand`, which
/// says what is tested and what it costs. `At` exactly where they stand for none, with the place of
/// the first test that fails. `Memory` where there is none for the chain. The body is let go of
/// before the index in memory is made, which takes the most.
pub fn restore(
    alloc: Global,
    head: &Head,
    body: Bytes,
    records: &Records,
) -> Result<Chain, Unjudged>
    requires { IsTrue (is_lawful head.now) }
    ensures stack { IfOk result (λ chain.
        stack_in_file head.now body records.now ≡ Ok (stack_in chain)) }
    ensures place { IfErr result (IsUnjudged (stack_in_file head.now body records.now)) }
{
    let standing = stand(alloc, head, &body, records)?;
    drop(body);
    match standing.into_chain(alloc) {
        Ok(chain) => Ok(chain),
        Err(_) => Err(Unjudged::Memory),
    }
}

/// The first test that fails in a file whose gate or record at this place is cut: the body and the
/// records before it are tested first. `Memory` where there is none for what these stand for.
pub fn earliest(alloc: Global, before: Option<Before>, at: u64) -> Unjudged
    requires { IfSome before (λ before. IsTrue (is_lawful before.head)) }
    ensures { IsUnjudged (place_of_cut at (intact_part before)) result }
{
    let Some(before) = before else {
        return Unjudged::At(at);
    };
    match stand(alloc, &before.head, &before.body, &before.records) {
        Ok(_) => Unjudged::At(at),
        Err(unjudged) => unjudged,
    }
}

/// What a head and a body stand for.
fn begin(alloc: Global, head: &Head, body: &Bytes) -> Result<Standing, Unjudged>
    requires { IsTrue (is_lawful head.now) }
    ensures stack { IfOk result (λ standing. stack_at_body head.now body.now ≡ Ok standing) }
    ensures place { IfErr result (IsUnjudged (stack_at_body head.now body.now)) }
{
    match Standing::of(alloc, profile_of_head(head), head.depth, body.as_slice()) {
        Ok(Some(standing)) => Ok(standing),
        Ok(None) => Err(Unjudged::At(head.body_at())),
        Err(_) => Err(Unjudged::Memory),
    }
}

/// What it goes on to after a record: `At` exactly where the record isn't accepted, with the place
/// of its gate. `Memory` where there is none for its change.
pub fn stand_after(alloc: Global, standing: Standing, record: &Record) -> Result<Standing, Unjudged>
    ensures stack { IfOk result (λ next.
        stack_after_record standing «record».now ≡ Ok next) }
    ensures place { IfErr result (IsUnjudged (stack_after_record standing «record».now)) }
{
    match standing.judge(alloc, record.payload.as_slice()) {
        Ok(Judgement::Accepted(next)) => Ok(next),
        Ok(Judgement::NotAccepted(_)) => Err(Unjudged::At(record.place)),
        Err(_) => Err(Unjudged::Memory),
    }
}
