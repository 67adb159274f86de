//! A chain in memory whose newest blocks can be taken back.

ghost use Rattle.std.specs.Prelude.{◌≡◌, ◌≤◌, Ok, Some, None, IsSome, IfOk, IfErr, OnOk, OnErr};
ghost use Rattle.std.specs.Prelude.{length};
ghost use Rattle.std.specs.Option.{ForSome, option_copied};
ghost use Rattle.ox_model.specs.Ends.{AllEnd};
ghost use Rattle.ox_model.proofs.Ended.{AllEnd-prop};
ghost use Rattle.ox_index.specs.Earlier.{EndThen};
ghost use Rattle.ox_index.specs.Live.{index_in as index_at, profile_in as profile_at};

use crate::changes::Changes;
use crate::live::Live;
use ox_bytes::Memory;
use ox_model::{About, Change, Refusal};
use ox_rules::Why;
use ox_sat::Profile;
use std::alloc::Global;
use std::collections::VecDeque;

/// An index in memory with the changes of its newest blocks, at most `depth` many, so that each of
/// these can be taken back. What the last command took away of it is kept until the next one, so
/// that the command can be cancelled. Contracts see its stack, the stack that `cancel` gives, where
/// there is one, and the change of the block that the last command took back.
pub struct Chain {
    live: Live,
    depth: u16,
    changes: Changes,
    ghost some: { 1 ≤ depth },
    ghost few: { depth ≤ 1000 },
    ghost kept: { length changes.kept ≤ depth },
    ghost kept_then: { ForSome changes.before (λ then. length then ≤ depth) },
    ghost lead: { AllEnd (profile_at live) (index_at live) changes.kept } by { AllEnd-prop _ _ _ },
    ghost lead_then: { EndThen live changes.before } by { Prim.hlevel AllEnd-prop },
}

/// By hand, so that whoever drops a chain makes one call, and proves nothing of its fields.
impl Drop for Chain {
    fn drop(self) {
        let Chain {
            live: _live,
            depth: _depth,
            changes: _changes,
        } = self;
    }
}

impl Chain {
    ghost use Rattle.ox_feed.specs.declared.command.Command.TheVariants.{Connect, Disconnect};
    ghost use Rattle.ox_sat.specs.Profiles.{IsProfile};
    ghost use Rattle.ox_model.specs.Ends.{LeadDown, older_by};
    ghost use Rattle.ox_model.specs.Machine.{empty_machine, stack_of};
    ghost use Rattle.ox_model.specs.Stack.{stack_after};
    ghost use Rattle.ox_index.specs.Chain.{earlier_in, stack_in, taken_back_in};
    ghost use Rattle.ox_index.specs.Earlier.{LeadsBy};
    ghost use Rattle.ox_rules.specs.Why.{Refuses};
    ghost use Rattle.ox_index.specs.Live.{index_in, profile_in};

    /// A chain without a block that counts by this profile, and of whose blocks at most `depth` are
    /// kept, from 1 to 1,000. `Memory` where there is none for the rune that is there from the
    /// start, which mainnet has alone; else it takes none.
    pub fn new(alloc: Global, p: &Profile, depth: u16) -> Result<Chain, Memory>
        requires known { IsProfile p.now }
        requires depth { (1 ≤ depth) × (depth ≤ 1000) }
        ensures { IfOk result (λ chain. stack_in chain ≡ stack_of (empty_machine p.now depth)) }
    {
        Ok(Chain {
            live: Live::new(alloc, p)?,
            depth,
            changes: Changes::new(alloc),
        })
    }

    /// The chain of an index whose newest blocks made these changes, the newest first, so that each
    /// of them can be taken back; at most `depth` blocks are kept, from 1 to 1,000.
    pub fn of(live: Live, depth: u16, kept: VecDeque<Change>) -> Chain
        requires depth { (1 ≤ depth) × (depth ≤ 1000) }
        requires few { length kept.items ≤ depth }
        requires end { AllEnd (profile_in live) (index_in live) kept.items }
        ensures chain { (stack_in result).profile ≡ profile_in live }
        ensures depth { (stack_in result).depth ≡ depth }
        ensures index { (stack_in result).index ≡ index_in live }
        ensures older { (stack_in result).older ≡ older_by (index_in live) kept.items }
        ensures none_back { taken_back_in result ≡ None }
    {
        Chain {
            live,
            depth,
            changes: Changes::of(kept),
        }
    }

    /// The index.
    pub fn live(&self) -> &Live
        ensures profile { profile_in result.now ≡ (stack_in self.now).profile }
        ensures index { index_in result.now ≡ (stack_in self.now).index }
    {
        &self.live
    }

    /// How many blocks may be kept, and how many are.
    pub fn about(&self) -> About
        ensures depth { result.depth ≡ (stack_in self.now).depth }
        ensures kept { result.kept ≡ length (stack_in self.now).older }
    {
        About {
            depth: self.depth,
            kept: self.changes.len() as u16,
        }
    }

    /// The changes of the kept blocks, the newest first: each leads from the next older index to
    /// the newer one, and each of these indexes is sound.
    pub fn changes(&self) -> &Changes
        ensures lead { LeadDown (stack_in self.now).index (stack_in self.now).older
            result.now.kept }
        ensures end { AllEnd (stack_in self.now).profile (stack_in self.now).index
            result.now.kept }
    {
        &self.changes
    }

    /// The change of the block that the last command took back; `None` where the last command was
    /// no `disconnect` with Ok.
    pub fn taken_back(&self) -> Option<&Change>
        ensures { option_copied result ≡ taken_back_in self.now }
    {
        self.changes.taken_back()
    }

    /// Takes in the block that has these bytes, and keeps it, so that it can be taken back; where
    /// more than `depth` would be kept the oldest of them isn't any more. `Refused` exactly where
    /// the definition refuses, with the first cause; `Memory` where there is none. After a refusal
    /// or `Memory` the stack is as before; after Ok it goes back there by `cancel`.
    pub fn connect(&mut self, block: &[u8]) -> Result<(), Why>
        ensures ok { OnOk result
            (stack_after (stack_in self.old) (Connect block.now) ≡ Ok (stack_in self.new)) }
        ensures refused { IfErr result
            (λ fault. Refuses fault (stack_after (stack_in self.old) (Connect block.now))) }
        ensures err { OnErr result (stack_in self.new ≡ stack_in self.old) }
        ensures mark { OnOk result (earlier_in self.new ≡ Some (stack_in self.old)) }
        ensures no_mark { OnErr result (earlier_in self.new ≡ None) }
        ensures none_back { taken_back_in self.new ≡ None }
    {
        self.changes.forget();
        let change = self.live.connect(block)?;
        if let Err(e) = self.changes.push(change, self.depth as usize) {
            self.live.cancel();
            return Err(e.into());
        }
        Ok(())
    }

    /// Takes back the newest block, whose change `taken_back` then answers. `Refused` with `Depth`
    /// exactly where no block is kept; `Memory` where there is none. After either the stack is as
    /// before; after Ok it goes back there by `cancel`.
    pub fn disconnect(&mut self) -> Result<(), Why>
        ensures ok { OnOk result
            (stack_after (stack_in self.old) Disconnect ≡ Ok (stack_in self.new)) }
        ensures change { OnOk result
            (LeadsBy (stack_in self.new).index (stack_in self.old).index
            (taken_back_in self.new)) }
        ensures refused { IfErr result
            (λ fault. Refuses fault (stack_after (stack_in self.old) Disconnect)) }
        ensures err { OnErr result (stack_in self.new ≡ stack_in self.old) }
        ensures mark { OnOk result (earlier_in self.new ≡ Some (stack_in self.old)) }
        ensures no_mark { OnErr result (earlier_in self.new ≡ None) }
        ensures none_back { OnErr result (taken_back_in self.new ≡ None) }
    {
        self.changes.forget();
        let Some(change) = self.changes.get(0) else {
            return Err(Why::Refused(Refusal::Depth));
        };
        self.live.back(change)?;
        self.changes.take_back();
        Ok(())
    }

    /// Goes back to the stack before the last `connect` or `disconnect`, which was Ok and after
    /// which none of them was called. It takes no memory.
    pub fn cancel(&mut self)
        requires { IsSome (earlier_in self.old) }
        ensures stack { Some (stack_in self.new) ≡ earlier_in self.old }
        ensures spent { earlier_in self.new ≡ None }
        ensures none_back { taken_back_in self.new ≡ None }
    {
        self.changes.cancel();
        self.live.cancel();
    }
}
