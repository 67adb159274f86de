//! Chains by records.

ghost use Rattle.std.specs.Prelude.{◌≡◌, IsTrue, Ok, Result};
ghost use Rattle.std.specs.Prelude.{IfOk, IfErr, IfSome, OnOk};
ghost use Rattle.ox_gated.specs.Layout.{is_lawful};
ghost use Rattle.ox_gated.specs.Opened.{intact_part};
ghost use Rattle.ox_index.specs.Chain.{stack_in};
ghost use Rattle.ox_model.specs.Stack.{Stack};
ghost use Rattle.ox_files.specs.OldStands.{empty_stack_at, or_refused};
ghost use Rattle.ox_files.specs.OldStands.{old_fault_of_cut, old_stack_after, old_stack_in_file};
ghost use Rattle.ox_rules.specs.Why.{Refuses};
ghost use Rattle.ox_rules.specs.declared.refusal.Refusal.{Refusal};
ghost use Rattle.ox_replay.specs.Replay.{IsReplayFault};

use crate::commands::{Recorded, command_in};
use ox_bytes::{Bytes, Memory};
use ox_files::profile_of_head;
use ox_gated::{BODY_AT, Before, Head, Record, Records};
use ox_index::Chain;
use ox_rules::{Refusal, Why};
use std::alloc::Global;

/// Why a part of a file gives no chain.
#[derive(Clone, Copy, Debug, PartialEq, Eq)]
pub enum ReplayFault {
    /// Its form is broken: the place in the file of the first test that fails.
    At(u64),
    /// The present rules refuse a command: its number, from 0, and why.
    Old { command: u64, refusal: Refusal },
    /// There is no memory for the chain.
    Memory,
}

/// The chain that a head, a body and records of version 1 stand for: the commands of the records
/// are carried out again, by the present rules. Where they stand for none, the first test that
/// fails decides: `At`, with the place of the body, where that isn't empty, or with the place of a
/// record's gate, where its payload is no command's; `Old`, with the number of the command, where
/// it is refused, a malformed block included. `Memory` where there is none for the chain.
pub fn replay(
    alloc: Global,
    head: &Head,
    body: &Bytes,
    records: &Records,
) -> Result<Chain, ReplayFault>
    requires { IsTrue (is_lawful head.now) }
    ensures stack { IfOk result (λ chain.
        old_stack_in_file head.now body.now records.now ≡ Ok (stack_in chain)) }
    ensures fault { IfErr result (IsReplayFault (old_stack_in_file head.now body.now records.now)) }
{
    if !body.is_empty() {
        return Err(ReplayFault::At(BODY_AT as u64));
    }
    let Ok(mut chain) = begin(alloc, head) else {
        return Err(ReplayFault::Memory);
    };
    for (number, record) in records.as_slice().iter().enumerate() {
        redo(&mut chain, number as u64, record)?;
    }
    Ok(chain)
}

/// The first test that fails in a file whose gate or record at this place is cut: the body and the
/// records before it are tested first.
pub fn earliest(alloc: Global, before: Option<Before>, at: u64) -> ReplayFault
    requires { IfSome before (λ before. IsTrue (is_lawful before.head)) }
    ensures { IsReplayFault (old_fault_of_cut at (intact_part before)) result }
{
    let Some(before) = before else {
        return ReplayFault::At(at);
    };
    match replay(alloc, &before.head, &before.body, &before.records) {
        Ok(_) => ReplayFault::At(at),
        Err(fault) => fault,
    }
}

/// The chain of a file with this head and no record. `Memory` where there is none for it.
fn begin(alloc: Global, head: &Head) -> Result<Chain, Memory>
    requires { IsTrue (is_lawful head.now) }
    ensures { IfOk result (λ chain. stack_in chain ≡ empty_stack_at head.now) }
{
    Chain::new(alloc, &profile_of_head(head), head.depth)
}

/// Why the chain doesn't take the command of this number.
fn fault_by(why: Why, command: u64) -> ReplayFault
    ensures { (wanted : Result Stack Refusal) → Refuses why wanted
        → IsReplayFault (or_refused command wanted) result }
{
    match why {
        Why::Refused(refusal) => ReplayFault::Old { command, refusal },
        Why::Memory => ReplayFault::Memory,
    }
}

/// Carries out the command of the record of this number again. `At`, with the place of its gate,
/// exactly where it has none; `Old`, with the number, exactly where the chain refuses it; `Memory`
/// where there is none for it.
fn redo(chain: &mut Chain, number: u64, record: &Record) -> Result<(), ReplayFault>
    ensures stack { OnOk result
        (old_stack_after number (stack_in chain.old) «record».now ≡ Ok (stack_in chain.new)) }
    ensures fault { IfErr result
        (IsReplayFault (old_stack_after number (stack_in chain.old) «record».now)) }
{
    match command_in(record.payload.as_slice()) {
        Some(Recorded::Connect(block)) => match chain.connect(block) {
            Ok(()) => Ok(()),
            Err(why) => Err(fault_by(why, number)),
        },
        Some(Recorded::Disconnect) => match chain.disconnect() {
            Ok(_) => Ok(()),
            Err(why) => Err(fault_by(why, number)),
        },
        None => Err(ReplayFault::At(record.place)),
    }
}
