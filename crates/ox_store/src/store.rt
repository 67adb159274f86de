//! A store between two commands.

ghost use Rattle.std.specs.Prelude.{◌≡◌, ◌≢◌, ◌≤◌, ◌<◌, ◌^◌, ◌-◌, [], ◌↔◌, ◌⊎◌};
ghost use Rattle.std.specs.Prelude.{length, Ok, Err, Some};
ghost use Rattle.std.specs.Prelude.{IsTrue, IfOk, IfErr, IsErrOf, OnOk, OnErr};
ghost use Rattle.ox_outside.specs.Counts.{IsFailure, Rose, StopsAtFault};
ghost use Rattle.ox_outside.specs.Runs.{OnlyLooks};
ghost use Rattle.ox_gated.specs.Tail.{Holds};
ghost use Rattle.ox_gated.specs.Writes.{OnlyWrites};
ghost use Rattle.ox_gated.specs.declared.fault.Halt.TheVariants as halts;
ghost use Rattle.ox_index.specs.Chain.{earlier_in, stack_in, taken_back_in};
ghost use Rattle.ox_model.specs.Ends.{AllEnd, LeadDown};
ghost use Rattle.ox_model.specs.Stack.{stack_after};
ghost use Rattle.ox_files.specs.Stands.{stack_in_file};
ghost use Rattle.ox_rules.specs.Why.{Refuses};
ghost use Rattle.ox_store.specs.Heads.{Names};
ghost use Rattle.ox_store.specs.Make.{first_head, made_stack, no_files};
ghost use Rattle.ox_store.specs.Ready.{HasChange, left_by};
ghost use Rattle.ox_store.specs.Writing.{IsDue, LeadsTo};
ghost use Rattle.ox_store.specs.declared.fault.MakeFault.TheVariants as makes;

use crate::fault::{Kept, MakeFault};
use crate::ready::Ready;
use crate::writing::{VERSION, Writing, file_of, writing_of};
use ox_bytes::Memory;
use ox_feed::Command;
use ox_gated::{Checkpoint, Halt, Head, Tail};
use ox_index::{Chain, Changes, Live};
use ox_model::About;
use ox_outside::{Failed, Site, Which};
use ox_rules::Why;
use ox_sat::{ProfileName, profile_of};
use std::alloc::Global;
use std::marker::Model;

/// A chain in memory, whose newest blocks can be taken back, and the tail of its records. Contracts
/// see the stack that the files stand for, the tail, and the number of commands that were accepted
/// since it was opened.
pub struct Store {
    pub(crate) alloc: Global,
    pub(crate) chain: Chain,
    pub(crate) tail: Tail,
    pub(crate) commands: u64,
}

/// By hand, so that whoever drops a store makes one call, and proves nothing of its fields.
impl Drop for Store {
    fn drop(self) {
        let Store {
            alloc: _alloc,
            chain: _chain,
            tail: _tail,
            commands: _commands,
        } = self;
    }
}

impl Model for Store {
    ghost use Rattle.std.specs.Coded.{codes};
    ghost use Rattle.std.specs.FinMap as map;
    ghost use Rattle.ox_index.specs.Chain.{stack_in};
    ghost use Rattle.ox_store.specs.Heads.{Names};
    ghost use Rattle.ox_store.specs.Store.{StoreContents};

    ghost Value = { StoreContents };

    ghost coded = { Prim.hlevel (codes, map.code) };

    ghost view = { λ s.
        record {
          stack = stack_in s.chain;
          tail = s.tail;
          commands = s.commands;
        } };

    ghost invariant = { λ s. Names s.tail.head (stack_in s.chain) };
}

impl Store {
    ghost use Rattle.ox_index.specs.Live.{profile_in, index_in};
    ghost use Rattle.ox_files.specs.Stands.{stands};
    ghost use Rattle.ox_store.specs.Ready.{Prepares};

    /// Makes two empty files a store without a block, whose chain counts by this profile and of
    /// whose blocks at most `depth` may be kept, from 1 to 1,000. At `Ok` it is on the disk: each
    /// crash then leaves that store.
    ///
    /// `NotEmpty` exactly where a file's length isn't 0. `Halt` with `Disk` only where a call on a
    /// file failed, and with `Memory` where there is none for the store. Nothing was written at
    /// `NotEmpty` and for want of memory, nor ever into files that aren't both empty.
    pub fn make<S: Site>(
        alloc: Global,
        site: &mut S,
        name: ProfileName,
        depth: u16,
    ) -> Result<Store, MakeFault>
        requires { (1 ≤ depth) × (depth ≤ 1000) }
        ensures stack { IfOk result (λ store. store.stack ≡ made_stack name depth) }
        ensures fresh { IfOk result (λ store. store.commands ≡ 0) }
        // Its records begin in A.
        ensures tail { IfOk result (λ store. (store.tail.file ≡ Which.A)
            × (store.tail.head ≡ first_head name depth) × (store.tail.records ≡ 0)) }
        ensures stands { IsTrue (S.told site.old)
            → IfOk result (λ store. stands (S.seen site.new) ≡ Ok store.stack) }
        ensures holds { IsTrue (S.told site.old)
            → IfOk result (λ store. Holds S.Site store.tail site.new) }
        ensures empty { IsTrue (S.told site.old) → OnOk result (S.seen site.old ≡ no_files) }
        ensures not_empty { IsTrue (S.told site.old) → IsErrOf result MakeFault.NotEmpty
            → S.seen site.old ≢ no_files }
        ensures spared { IsTrue (S.told site.old) → S.seen site.old ≢ no_files
            → OnlyLooks S.Site site.old site.new }
        ensures wrote_nothing { (result ≡ Err MakeFault.NotEmpty)
            ⊎ (result ≡ Err (makes.Halt halts.Memory))
            → OnlyLooks S.Site site.old site.new }
        ensures failed { IsErrOf result (makes.Halt halts.Disk)
            → Rose (S.counts site.old).disk (S.counts site.new).disk }
        ensures counted { StopsAtFault (IsErrOf result (makes.Halt halts.Disk)) ⊥ ⊥
            (S.counts site.old) (S.counts site.new) }
        ensures writes { OnlyWrites S.Site site.old site.new }
    {
        let Ok(empty) = are_empty(site) else {
            return Err(MakeFault::Halt(Halt::Disk));
        };
        if !empty {
            return Err(MakeFault::NotEmpty);
        }
        let Ok((chain, checkpoint)) = first_parts(alloc, name, depth) else {
            return Err(MakeFault::Halt(Halt::Memory));
        };
        let Ok(tail) = Tail::make(site, &checkpoint) else {
            return Err(MakeFault::Halt(Halt::Disk));
        };
        Ok(Store {
            alloc,
            chain,
            tail,
            commands: 0,
        })
    }

    /// The index.
    pub fn live(&self) -> &Live
        ensures profile { profile_in result.now ≡ self.now.stack.profile }
        ensures index { index_in result.now ≡ self.now.stack.index }
    {
        self.chain.live()
    }

    /// How many blocks may be kept, and how many are.
    pub fn about(&self) -> About
        ensures depth { result.depth ≡ self.now.stack.depth }
        ensures kept { result.kept ≡ length self.now.stack.older }
    {
        self.chain.about()
    }

    /// The changes of the kept blocks, the newest first: each leads from the next older index to
    /// the newer one, and each of these indexes is sound.
    pub fn changes(&self) -> &Changes
        ensures lead { LeadDown self.now.stack.index self.now.stack.older result.now.kept }
        ensures end { AllEnd self.now.stack.profile self.now.stack.index result.now.kept }
    {
        self.chain.changes()
    }

    /// How many commands were accepted since the store was opened or made.
    pub fn commands(&self) -> u64
        ensures { result ≡ self.now.commands }
    {
        self.commands
    }

    /// Its chain and its tail.
    pub(crate) fn into_parts(self) -> (Chain, Tail)
        ensures stack { stack_in result.0 ≡ self.stack }
        ensures tail { result.1 ≡ self.tail }
        ensures names { Names result.1.head (stack_in result.0) }
    {
        let Store {
            alloc: _alloc,
            chain,
            tail,
            commands: _commands,
        } = self;
        (chain, tail)
    }

    /// Carries a command out in memory and takes all the memory of what is written of it: its
    /// record, or the whole file where one of version 2 has to turn. Nothing is written yet.
    /// `Refused` exactly where the command is refused; `Memory` where there is none for it, and
    /// where at version 2 the record or the body of the file is 2^32 bytes or longer. Both hand the
    /// store back as it was.
    pub fn prepare(self, command: &Command) -> Result<Ready, Kept>
        requires { self.commands < 2 ^ 64 - 1 }
        ensures ready { IfOk result (λ ready. Prepares self command.now ready) }
        ensures refused { IfErr result
            (λ kept. Refuses kept.why (stack_after self.stack command.now)) }
        ensures kept { IfErr result (λ kept. kept.store ≡ self) }
    {
        let Store {
            alloc,
            mut chain,
            tail,
            commands,
        } = self;
        match carry_out(alloc, &mut chain, &tail, command) {
            Ok(writing) => Ok(Ready {
                alloc,
                chain,
                tail,
                commands,
                writing,
            }),
            Err(why) => Err(Kept {
                store: Store {
                    alloc,
                    chain,
                    tail,
                    commands,
                },
                why,
            }),
        }
    }
}

/// The chain of a store without a block, and its file. `Memory` where there is none for them.
fn first_parts(alloc: Global, name: ProfileName, depth: u16) -> Result<(Chain, Checkpoint), Memory>
    requires { (1 ≤ depth) × (depth ≤ 1000) }
    ensures stack { IfOk result (λ first. stack_in first.0 ≡ made_stack name depth) }
    ensures head { IfOk result (λ first. first.1.head ≡ first_head name depth) }
    ensures file { IfOk result (λ first.
        stack_in_file first.1.head first.1.body [] ≡ Ok (stack_in first.0)) }
{
    let profile = profile_of(name);
    let chain = Chain::new(alloc, &profile, depth)?;
    let head = Head {
        version: VERSION,
        profile: profile.byte,
        depth,
        generation: 1,
    };
    let file = file_of(alloc, &chain, &head)?;
    Ok((chain, file))
}

/// Carries out a command in memory, and makes what is written of it. Where no memory is found for
/// the latter the chain goes back.
fn carry_out(
    alloc: Global,
    chain: &mut Chain,
    tail: &Tail,
    command: &Command,
) -> Result<Writing, Why>
    requires { Names tail.now.head (stack_in chain.old) }
    ensures ok { OnOk result
        (stack_after (stack_in chain.old) command.now ≡ Ok (stack_in chain.new)) }
    ensures due { IfOk result (IsDue tail.now) }
    ensures leads { IfOk result (LeadsTo (stack_in chain.old) (stack_in chain.new)) }
    ensures names { OnOk result (Names tail.now.head (stack_in chain.new)) }
    ensures change { OnOk result (HasChange (stack_in chain.new) (taken_back_in chain.new)) }
    ensures left { OnOk result
        (left_by (stack_in chain.new) (stack_in chain.new).older (taken_back_in chain.new)
        ≡ (stack_in chain.old).index) }
    ensures refused { IfErr result
        (λ why. Refuses why (stack_after (stack_in chain.old) command.now)) }
    ensures err { OnErr result (stack_in chain.new ≡ stack_in chain.old) }
{
    obey(chain, command)?;
    match writing_of(alloc, chain, tail, command) {
        Ok(writing) => Ok(writing),
        Err(Memory) => {
            chain.cancel();
            Err(Why::Memory)
        }
    }
}

/// Carries out a command in memory. The chain then has its change: the one that was taken back, or
/// the newest that is kept.
fn obey(chain: &mut Chain, command: &Command) -> Result<(), Why>
    ensures ok { OnOk result
        (stack_after (stack_in chain.old) command.now ≡ Ok (stack_in chain.new)) }
    ensures change { OnOk result (HasChange (stack_in chain.new) (taken_back_in chain.new)) }
    ensures left { OnOk result
        (left_by (stack_in chain.new) (stack_in chain.new).older (taken_back_in chain.new)
        ≡ (stack_in chain.old).index) }
    ensures refused { IfErr result
        (λ why. Refuses why (stack_after (stack_in chain.old) command.now)) }
    ensures err { OnErr result (stack_in chain.new ≡ stack_in chain.old) }
    ensures mark { OnOk result (earlier_in chain.new ≡ Some (stack_in chain.old)) }
{
    match command {
        Command::Connect(block) => chain.connect(block.as_slice()),
        Command::Disconnect => chain.disconnect(),
    }
}

/// Whether the length of both files is 0.
fn are_empty<S: Site>(site: &mut S) -> Result<bool, Failed>
    ensures empty { IsTrue (S.told site.old)
        → IfOk result (λ empty. IsTrue empty ↔ (S.seen site.old ≡ no_files)) }
    ensures looks { OnlyLooks S.Site site.old site.new }
    ensures failed { OnErr result (Rose (S.counts site.old).disk (S.counts site.new).disk) }
    ensures counted { StopsAtFault (IsFailure result) ⊥ ⊥ (S.counts site.old) (S.counts site.new) }
{
    let a = site.len(Which::A)?;
    let b = site.len(Which::B)?;
    Ok(a == 0 && b == 0)
}
