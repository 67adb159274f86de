//! A stack as plain data.

ghost use Rattle.std.specs.Prelude.{◌≡◌, ◌≤◌, ℕ, List, [], Some, IfErr, IfOk, IfSome, OnOk};
ghost use Rattle.ox_sat.specs.Profiles.{IsProfile};
ghost use Rattle.ox_rows.specs.RowReading.{change_at};
ghost use Rattle.ox_files.specs.Body.{whole};
ghost use Rattle.ox_checkpoint.specs.Coming.{Halted};
ghost use Rattle.ox_checkpoint.specs.Judgement.{IsJudgement};

use crate::coming::{BodyFault, body_from};
use crate::leads::{is_kept, leads_on};
use crate::read::{read_body, whole_change};
use ox_bytes::{List, Memory};
use ox_files::{CONNECT, DISCONNECT};
use ox_index::{Chain, Live};
use ox_model::Change;
use ox_plain::Index;
use ox_rows::Source;
use ox_sat::Profile;
use std::alloc::Global;
use std::collections::VecDeque;
use std::marker::Model;

/// What a file stands for, as plain data: an index, and the changes by which its newest blocks can
/// be taken back. It judges payloads, and answers no query. Contracts see its stack.
pub struct Standing {
    profile: Profile,
    depth: u16,
    index: Index,
    /// The newest first.
    changes: VecDeque<Change>,
}

impl Model for Standing {
    ghost use Rattle.std.specs.Coded.{codes};
    ghost use Rattle.std.specs.FinMap as map;
    ghost use Rattle.ox_model.specs.Stack.{Stack};
    ghost use Rattle.ox_plain.specs.Plain.{index_in};
    ghost use Rattle.ox_files.specs.Body.{body_of, stack_of};
    ghost use Rattle.ox_checkpoint.specs.Standing.{CanStand};

    ghost Value = { Stack };

    ghost coded = { Prim.hlevel (codes, map.code) };

    ghost view = { λ s.
        stack_of s.profile s.depth (body_of (index_in s.index) s.changes.items) };

    ghost invariant = { λ s.
        CanStand s.profile s.depth (body_of (index_in s.index) s.changes.items) };
}

/// By hand, so that whoever drops one makes one call, and proves nothing of its fields.
impl Drop for Standing {
    fn drop(self) {
        let Standing {
            profile: _profile,
            depth: _depth,
            index: _index,
            changes: _changes,
        } = self;
    }
}

/// What becomes of a standing by a payload.
#[derive(Drop)]
pub enum Judgement {
    /// The payload is accepted: the standing after it.
    Accepted(Standing),
    /// It isn't: the standing as before.
    NotAccepted(Standing),
}

impl Standing {
    ghost use Rattle.ox_index.specs.Chain.{stack_in as stack_of_chain};
    ghost use Rattle.ox_plain.specs.Plain.{index_in};
    ghost use Rattle.ox_files.specs.Body.{body_of, stack_in, stack_in_body};
    ghost use Rattle.ox_files.specs.Payload.{payload_step, stack_back, stack_by_change};

    /// What a body stands for, whose chain counts by this profile and keeps at most `depth` blocks,
    /// from 1 to 1,000; `None` exactly where it stands for nothing. Its newest index, its changes
    /// and each older index are tested, at the cost of one index and of the changes, as `restore`
    /// says. `Memory` where there is none for it.
    pub fn of(
        alloc: Global,
        profile: Profile,
        depth: u16,
        body: &[u8],
    ) -> Result<Option<Standing>, Memory>
        requires known { IsProfile profile }
        requires depth { (1 ≤ depth) × (depth ≤ 1000) }
        ensures { IfOk result (λ found. found ≡ stack_in_body profile depth body.now) }
    {
        let Some((index, changes)) = read_body(alloc, body)? else {
            return Ok(None);
        };
        Standing::of_kept(alloc, profile, depth, index, changes)
    }

    /// What a body stands for whose bytes come from a source, in a world of its own, as `of` says:
    /// `None` exactly where it stands for nothing. Its rows are read as they come, so it takes no
    /// room for the body but for the row that is read. `Memory` where there is none for it;
    /// `Source` where the source ends, by what it ends by.
    pub fn of_rows<W, S: Source<W>>(
        alloc: Global,
        profile: Profile,
        depth: u16,
        source: &mut S,
        world: &mut W,
    ) -> Result<Option<Standing>, BodyFault<S::Fault>>
        requires known { IsProfile profile }
        requires depth { (1 ≤ depth) × (depth ≤ 1000) }
        requires ready { S.ready source.old world.old }
        ensures stack { (bytes : List ℕ) → S.comes source.old world.old bytes
            → IfOk result (λ found. found ≡ stack_in_body profile depth bytes) }
        // Whatever comes.
        ensures counts { IfOk result (λ found. IfSome found (λ standing.
            (standing.profile ≡ profile) × (standing.depth ≡ depth))) }
        ensures went { OnOk result (S.went source.old world.old source.new world.new) }
        ensures ended { IfErr result (λ fault.
            Halted S.went S.ended source.old world.old fault source.new world.new) }
    {
        let Some((index, changes)) = body_from(alloc, source, world)? else {
            return Ok(None);
        };
        Ok(Standing::of_kept(alloc, profile, depth, index, changes)?)
    }

    /// Judges the payload of a record: where it is accepted this goes on to the stack after it, and
    /// else is handed back as it was. It copies no index: its room is that of the change, and so is
    /// its time, but where only a test of the whole index tells whether the one after the change is
    /// sound. `Memory` where there is none for the change; the standing is gone then, since what
    /// was done of a step can't be undone without memory.
    pub fn judge(self, alloc: Global, payload: &[u8]) -> Result<Judgement, Memory>
        ensures { IfOk result (IsJudgement self (payload_step self payload.now)) }
    {
        match payload.split_first() {
            Some((&CONNECT, rows)) => self.by_rows(alloc, rows),
            Some((&DISCONNECT, [])) => self.back(alloc),
            _ => Ok(Judgement::NotAccepted(self)),
        }
    }

    /// Judges the change that these bytes spell.
    fn by_rows(self, alloc: Global, rows: &[u8]) -> Result<Judgement, Memory>
        ensures { IfOk result
            (IsJudgement self (stack_by_change self (whole (change_at rows.now)))) }
    {
        match whole_change(alloc, rows)? {
            Some(change) => self.put_on(alloc, change),
            None => Ok(Judgement::NotAccepted(self)),
        }
    }

    /// Judges a change: it has to begin in the newest index and leave a sound one.
    fn put_on(self, alloc: Global, change: Change) -> Result<Judgement, Memory>
        ensures { IfOk result (IsJudgement self (stack_by_change self (Some change))) }
    {
        let Standing {
            profile,
            depth,
            mut index,
            mut changes,
        } = self;
        if !leads_on(alloc, &profile, &mut index, &change)? {
            return Ok(Judgement::NotAccepted(Standing {
                profile,
                depth,
                index,
                changes,
            }));
        }
        changes.push_front(change)?;
        changes.truncate(depth as usize);
        Ok(Judgement::Accepted(Standing {
            profile,
            depth,
            index,
            changes,
        }))
    }

    /// Judges that the newest block is taken back: it has to be kept.
    fn back(self, alloc: Global) -> Result<Judgement, Memory>
        ensures { IfOk result (IsJudgement self (stack_back self [])) }
    {
        let Standing {
            profile,
            depth,
            mut index,
            mut changes,
        } = self;
        let Some(change) = changes.pop_front() else {
            return Ok(Judgement::NotAccepted(Standing {
                profile,
                depth,
                index,
                changes,
            }));
        };
        index.step(alloc, &change, true)?;
        Ok(Judgement::Accepted(Standing {
            profile,
            depth,
            index,
            changes,
        }))
    }

    /// What an index and the changes of its newest blocks stand for; `None` exactly where the
    /// changes aren't kept ones of it.
    fn of_kept(
        alloc: Global,
        profile: Profile,
        depth: u16,
        mut index: Index,
        changes: List<Change>,
    ) -> Result<Option<Standing>, Memory>
        requires known { IsProfile profile }
        requires depth { (1 ≤ depth) × (depth ≤ 1000) }
        ensures { IfOk result (λ found.
            found ≡ stack_in profile depth (Some (body_of (index_in index) changes))) }
    {
        if !is_kept(alloc, &profile, depth, &mut index, changes.as_slice())? {
            return Ok(None);
        }
        Ok(Some(Standing {
            profile,
            depth,
            index,
            changes: VecDeque::from_vec(changes.into_vec()),
        }))
    }

    /// The chain of this stack, with its index in memory. `Memory` where there is none for that.
    pub fn into_chain(self, alloc: Global) -> Result<Chain, Memory>
        ensures { IfOk result (λ chain. stack_of_chain chain ≡ self) }
    {
        let Standing {
            profile,
            depth,
            index,
            changes,
        } = self;
        let live = Live::of(alloc, &profile, index)?;
        Ok(Chain::of(live, depth, changes))
    }
}
