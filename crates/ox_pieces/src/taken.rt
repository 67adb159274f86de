//! A piece between its taking and what is written of it.

ghost use Rattle.std.specs.Prelude.{◌≡◌, Some, IsTrue, IfOk, OnOk, OnErr};
ghost use Rattle.ox_outside.specs.Counts.{IsFailure, Rose, StopsAtFault};
ghost use Rattle.ox_outside.specs.Runs.{LeavesOnly};
ghost use Rattle.ox_gated.specs.Tail.{Holds};
ghost use Rattle.ox_gated.specs.Writes.{OnlyWrites};

use crate::follower::Follower;
use crate::writing::Writing;
use ox_checkpoint::Standing;
use ox_gated::{DiskFault, Tail};
use ox_outside::Site;
use std::alloc::Global;
use std::marker::Model;

/// A piece that a follower takes, with all its memory. It answers nothing, and has to be committed.
/// Contracts see where the files then stand and what for, the tail before that, and what is
/// written.
pub struct Taken {
    pub(crate) alloc: Global,
    pub(crate) standing: Standing,
    pub(crate) tail: Tail,
    pub(crate) writing: Writing,
}

impl Model for Taken {
    ghost use Rattle.std.specs.Coded.{codes};
    ghost use Rattle.std.specs.FinMap as map;
    ghost use Rattle.ox_pieces.specs.Follower.{NamesLed};
    ghost use Rattle.ox_pieces.specs.Taken.{TakenPiece};
    ghost use Rattle.ox_pieces.specs.Writing.{CanFollow, stood_behind};

    ghost Value = { TakenPiece };

    ghost coded = { Prim.hlevel (codes, map.code) };

    ghost view = { λ t.
        record {
          next = stood_behind t.tail t.standing t.writing;
          tail = t.tail;
          writing = t.writing;
        } };

    ghost invariant = { λ t. CanFollow t.tail t.writing × NamesLed t.tail.head t.standing };
}

impl Taken {
    ghost use Rattle.ox_model.specs.Stack.{Stack};
    ghost use Rattle.ox_follow.specs.World.{Stood};
    ghost use Rattle.ox_pieces.specs.Stood.{stood_in};
    ghost use Rattle.ox_pieces.specs.Taken.{Leads};
    ghost use Rattle.ox_pieces.specs.Writing.{StandsEither};

    /// Writes the piece: a step as a record behind those of the current file, also where these are
    /// 64 or more; a base as a whole file in place of the current one. At `Ok` it is on the disk:
    /// each crash then leaves files that have it. At any moment of the call a crash leaves files
    /// that stand where they stood, or where the piece leads. No event of a channel is logged.
    /// `DiskFault` only where a call on a file failed; the follower is gone then.
    pub fn commit<S: Site>(self, site: &mut S) -> Result<Follower, DiskFault>
        requires { IsTrue (S.told site.old) → Holds S.Site self.tail site.old }
        ensures mine { IfOk result (λ follower. follower.mine ≡ self.next) }
        ensures holds { IsTrue (S.told site.old)
            → IfOk result (λ follower. Holds S.Site follower.tail site.new) }
        ensures stood { IsTrue (S.told site.old)
            → (mine : Stood Stack) → stood_in (S.seen site.old) ≡ Some mine → Leads mine self
            → OnOk result (stood_in (S.seen site.new) ≡ Some self.next) }
        ensures any_moment { IsTrue (S.told site.old)
            → (mine : Stood Stack) → stood_in (S.seen site.old) ≡ Some mine → Leads mine self
            → LeavesOnly S.Site site.old site.new (λ r. StandsEither mine self.next r.files) }
        ensures failed { OnErr result (Rose (S.counts site.old).disk (S.counts site.new).disk) }
        ensures counted { StopsAtFault (IsFailure result) ⊥ ⊥
            (S.counts site.old) (S.counts site.new) }
        ensures writes { OnlyWrites S.Site site.old site.new }
    {
        let Taken {
            alloc,
            standing,
            tail,
            writing,
        } = self;
        let tail = writing.write(tail, site)?;
        Ok(Follower {
            alloc,
            standing,
            tail,
        })
    }
}
