//! A command between its preparation and what is written of it.

ghost use Rattle.std.specs.Prelude.{◌≡◌, ◌+◌, Ok, IsTrue, IfOk, OnErr};
ghost use Rattle.ox_outside.specs.Counts.{IsFailure, Rose, StopsAtFault};
ghost use Rattle.ox_outside.specs.Runs.{LeavesOnly};
ghost use Rattle.ox_gated.specs.Tail.{Holds};
ghost use Rattle.ox_gated.specs.Writes.{OnlyWrites};

use crate::store::Store;
use crate::turning::turn_where_due;
use crate::writing::Writing;
use ox_gated::{DiskFault, Tail};
use ox_index::Chain;
use ox_model::Change;
use ox_outside::Site;
use std::alloc::Global;
use std::marker::Model;

/// What a command changes.
#[derive(Clone, Copy)]
pub enum Moving<'a> {
    /// A block is connected, and this is its change.
    On(&'a Change),
    /// The block is taken back whose change this is.
    Back(&'a Change),
}

/// A command that is accepted, with all its memory taken. It answers no query, and has to be
/// committed. Contracts see the index before the command, the stack after it, the tail and the
/// number of commands before it, and what is written of it.
pub struct Ready {
    pub(crate) alloc: Global,
    pub(crate) chain: Chain,
    pub(crate) tail: Tail,
    pub(crate) commands: u64,
    pub(crate) writing: Writing,
}

impl Model for Ready {
    ghost use Rattle.std.specs.Prelude.{◌<◌, ◌^◌, ◌-◌};
    ghost use Rattle.std.specs.Coded.{codes};
    ghost use Rattle.std.specs.FinMap as map;
    ghost use Rattle.ox_index.specs.Chain.{stack_in, taken_back_in};
    ghost use Rattle.ox_store.specs.Heads.{Names};
    ghost use Rattle.ox_store.specs.Ready.{HasChange, PreparedCommand, left_by};
    ghost use Rattle.ox_store.specs.Writing.{IsDue};

    ghost Value = { PreparedCommand };

    ghost coded = { Prim.hlevel (codes, map.code) };

    ghost view = { λ r.
        record {
          left = left_by (stack_in r.chain) (stack_in r.chain).older (taken_back_in r.chain);
          stack = stack_in r.chain;
          tail = r.tail;
          commands = r.commands;
          writing = r.writing;
        } };

    ghost invariant = { λ r.
        (r.commands < 2 ^ 64 - 1) × IsDue r.tail r.writing
        × Names r.tail.head (stack_in r.chain)
        × HasChange (stack_in r.chain) (taken_back_in r.chain) };
}

impl Ready {
    ghost use Rattle.ox_model.specs.Sound.{IsSound};
    ghost use Rattle.ox_model.specs.Stack.{Stack};
    ghost use Rattle.ox_files.specs.Stands.{stands};
    ghost use Rattle.ox_store.specs.Ready.{Leads, Moves, StandsForEither};
    ghost use Rattle.ox_index.specs.Tip.{tip_of};
    ghost use Rattle.ox_store.specs.Turning.{HasGoneOn};
    ghost use Rattle.ox_store.specs.Writing.{HasOneMore, HasTurned, IsFileDue};

    /// The newest block's height and its hash in serialized order, as the command leaves them;
    /// `None` exactly where no block is left.
    pub fn tip(&self) -> Option<(u32, [u8; 32])>
        ensures { result ≡ tip_of self.now.stack.index }
    {
        self.chain.live().tip()
    }

    /// The command's own change: that of the block that it connects, or takes back. The index
    /// before the command and the one after it are sound.
    pub fn moving(&self) -> Moving<'_>
        ensures moves { Moves self.now.left self.now.stack.index result }
        ensures before { IsSound self.now.stack.profile self.now.left }
        ensures after { IsSound self.now.stack.profile self.now.stack.index }
    {
        match self.chain.taken_back() {
            Some(change) => Moving::Back(change),
            None => match self.chain.changes().get(0) {
                Some(change) => Moving::On(change),
                None => unreachable!(),
            },
        }
    }

    /// Writes the command's record; where the current file is of version 2, has 64 records or more,
    /// and its generation isn't the greatest, it writes the whole store into the other file, which
    /// takes the current one's place. At version 3 it writes the record, and where that makes 64
    /// records or a multiple, at least half as long as the body, the whole store after it into the
    /// other file, in pieces; where there is no memory for this the store goes on as it is.
    ///
    /// At `Ok` the command is on the disk: each crash then leaves files that have it. At any moment
    /// of the call a crash leaves files that stand for the stack before the command or for the one
    /// after it. No channel's event is logged. `DiskFault` only where a call on a file failed; the
    /// store is gone then.
    pub fn commit<S: Site>(self, site: &mut S) -> Result<Store, DiskFault>
        requires { IsTrue (S.told site.old) → Holds S.Site self.tail site.old }
        ensures stack { IfOk result (λ store. store.stack ≡ self.stack) }
        ensures one_more { IfOk result (λ store. store.commands ≡ self.commands + 1) }
        // At version 2 the same file is current, with one record more.
        ensures appended { self.tail.head.version ≡ 2 → ¬ IsFileDue self.tail
            → IfOk result (λ store. HasOneMore self.tail store.tail) }
        // The other file is current, with the next generation and no record.
        ensures turned { IsFileDue self.tail
            → IfOk result (λ store. HasTurned self.tail store.tail) }
        // At version 3 the same file with one record more; or, where a turn pays behind that one,
        // the other file, with the next generation and no record.
        ensures went_on { self.tail.head.version ≡ 3
            → IfOk result (λ store. HasGoneOn self.tail store.tail) }
        ensures holds { IsTrue (S.told site.old)
            → IfOk result (λ store. Holds S.Site store.tail site.new) }
        ensures stands { IsTrue (S.told site.old)
            → (before : Stack) → stands (S.seen site.old) ≡ Ok before → Leads before self
            → IfOk result (λ store. stands (S.seen site.new) ≡ Ok store.stack) }
        ensures any_moment { IsTrue (S.told site.old)
            → (before : Stack) → stands (S.seen site.old) ≡ Ok before → Leads before self
            → LeavesOnly S.Site site.old site.new
            (λ r. StandsForEither before self.stack r.files) }
        ensures failed { OnErr result (Rose (S.counts site.old).disk (S.counts site.new).disk) }
        ensures counted { StopsAtFault (IsFailure result) ⊥ ⊥
            (S.counts site.old) (S.counts site.new) }
        ensures writes { OnlyWrites S.Site site.old site.new }
    {
        let Ready {
            alloc,
            chain,
            tail,
            commands,
            writing,
        } = self;
        let written = writing.write(tail, site)?;
        let tail = turn_where_due(alloc, &chain, written, site)?;
        Ok(Store {
            alloc,
            chain,
            tail,
            commands: commands + 1,
        })
    }
}
