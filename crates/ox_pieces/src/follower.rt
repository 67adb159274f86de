//! A store that takes the pieces of another one.

ghost use Rattle.std.specs.Prelude.{◌≡◌, Ok, Some, IsTrue, IfOk, IfErr, IsErrOf};
ghost use Rattle.ox_outside.specs.Counts.{Rose, StopsAtFault};
ghost use Rattle.ox_outside.specs.Runs.{OnlyLooks};
ghost use Rattle.ox_gated.specs.Layout.{is_lawful};
ghost use Rattle.ox_gated.specs.Tail.{Holds, IsSettled};
ghost use Rattle.ox_gated.specs.declared.fault.Halt.TheVariants as halts;
ghost use Rattle.ox_files.specs.Stands.{stack_in_file};
ghost use Rattle.ox_store.specs.Fault.{IsMisfit};
ghost use Rattle.ox_store.specs.declared.fault.OpenFault.TheVariants as opens;
ghost use Rattle.ox_pieces.specs.Stood.{led_stands};
ghost use Rattle.ox_pieces.specs.Follower.{position_of};

use crate::open::{Current, open_files};
use crate::taken::Taken;
use crate::writing::{Writing, file_of, record_of};
use ox_bytes::Memory as OutOfMemory;
use ox_checkpoint::{Judgement, Standing};
use ox_follow::{Frame, Position};
use ox_gated::{Head, Tail};
use ox_outside::Site;
use ox_store::OpenFault;
use std::alloc::Global;
use std::marker::Model;

/// A store that takes the pieces of another one. It stands as plain data, and answers no query.
/// Contracts see where its files stand and what for, and the tail of their records.
pub struct Follower {
    pub(crate) alloc: Global,
    pub(crate) standing: Standing,
    pub(crate) tail: Tail,
}

/// By hand, so that whoever drops one makes one call, and proves nothing of its fields.
impl Drop for Follower {
    fn drop(self) {
        let Follower {
            alloc: _alloc,
            standing: _standing,
            tail: _tail,
        } = self;
    }
}

impl Model for Follower {
    ghost use Rattle.std.specs.Coded.{codes};
    ghost use Rattle.std.specs.FinMap as map;
    ghost use Rattle.ox_pieces.specs.Follower.{FollowerContents, NamesLed, position_of};

    ghost Value = { FollowerContents };

    ghost coded = { Prim.hlevel (codes, map.code) };

    ghost view = { λ f.
        record {
          mine = record { at = position_of f.tail; state = f.standing };
          tail = f.tail;
        } };

    ghost invariant = { λ f. NamesLed f.tail.head f.standing };
}

/// Why a frame isn't taken.
#[derive(Drop)]
pub enum NotTaken {
    /// It isn't next: a step of another position, a base of a generation that isn't greater, or a
    /// Level of another position. The follower is as before.
    NotNext(Follower),
    /// No leader of this follower sends it: a Have; a base that is next, of another profile or
    /// depth, or whose body stands for nothing; or a step that is next, whose payload isn't
    /// accepted. The follower is as before.
    NotFit(Follower),
    /// The leader stands where the follower does. The follower is as before.
    IsLevel(Follower),
    /// There is no memory for it. The follower is gone: open the files again.
    Memory,
}

impl From<OutOfMemory> for NotTaken {
    ghost use Rattle.ox_pieces.specs.declared.follower.NotTaken.TheVariants as whys;

    ghost from_gives = { λ _ e. e ≡ whys.Memory };

    fn from(_memory: OutOfMemory) -> NotTaken {
        NotTaken::Memory
    }
}

impl Follower {
    ghost use Rattle.ox_pieces.specs.Stood.{stood_in};

    /// Opens two files of version 2, as `Store::open` does, but for the index, which stands as
    /// plain data. It begins with a sync (`fsync`) of both files, and changes nothing: at no moment
    /// does a crash leave anything that it didn't leave before.
    ///
    /// `NotStore` exactly where the files stand for nothing, with the file and the place of the
    /// first test that fails: 6 where the current file has another version, of which nothing more
    /// is read. `Halt` with `Disk` only where a call on a file failed, and with `Memory` where
    /// there is none for what the files hold.
    pub fn open<S: Site>(alloc: Global, site: &mut S) -> Result<Follower, OpenFault>
        ensures stood { IsTrue (S.told site.old)
            → IfOk result (λ follower. stood_in (S.seen site.old) ≡ Some follower.mine) }
        ensures holds { IsTrue (S.told site.old)
            → IfOk result (λ follower. Holds S.Site follower.tail site.new) }
        ensures not_store { IsTrue (S.told site.old)
            → IfErr result (IsMisfit (led_stands (S.seen site.old))) }
        ensures failed { IsErrOf result (opens.Halt halts.Disk)
            → Rose (S.counts site.old).disk (S.counts site.new).disk }
        ensures counted { StopsAtFault (IsErrOf result (opens.Halt halts.Disk)) ⊥ ⊥
            (S.counts site.old) (S.counts site.new) }
        // Each crash leaves what is read, unless a call failed.
        ensures settled { ¬ IsErrOf result (opens.Halt halts.Disk) → IsSettled S.Site site.new }
        ensures looks { OnlyLooks S.Site site.old site.new }
    {
        match open_files(alloc, site) {
            Ok(current) => Ok(follower_of(alloc, current)),
            Err(fault) => Err(fault),
        }
    }

    /// Where the files stand.
    pub fn position(&self) -> Position
        ensures { result ≡ self.now.mine.at }
    {
        Position {
            generation: self.tail.head().generation,
            place: self.tail.records(),
        }
    }
}

impl Follower {
    ghost use Rattle.ox_follow.specs.Frame.{Base, Level, Step, plain};
    ghost use Rattle.ox_follow.specs.Position.{is_same};
    ghost use Rattle.ox_pieces.specs.NotTaken.{IsNotTaken};
    ghost use Rattle.ox_pieces.specs.Taken.{IsTaken};

    /// Judges a frame, and takes a step of just its own position, or a base of a greater generation
    /// and of its own profile and depth, where these stand: then all memory of what is written is
    /// taken, and nothing is written yet.
    ///
    /// `NotNext`, `NotFit` and `IsLevel` exactly by the frame, and hand the follower back as it
    /// was. `Memory` where there is none, where a payload or a body is 2^32 bytes or longer, and
    /// where the file has no room for the payload.
    pub fn take(self, frame: &Frame<'_>) -> Result<Taken, NotTaken>
        ensures taken { IfOk result (IsTaken self (plain frame.now)) }
        ensures not_taken { IfErr result (IsNotTaken self (plain frame.now)) }
    {
        match *frame {
            Frame::Base {
                at,
                profile,
                depth,
                body,
            } => self.take_base(at, profile, depth, body),
            Frame::Step { at, payload } => self.take_step(at, payload),
            Frame::Have { .. } => Err(NotTaken::NotFit(self)),
            Frame::Level { at } => Err(self.meet_level(at)),
        }
    }

    /// Judges a step, and takes it where it is next and accepted.
    fn take_step(self, at: Position, payload: &[u8]) -> Result<Taken, NotTaken>
        ensures taken { IfOk result (IsTaken self (Step at payload.now)) }
        ensures not_taken { IfErr result (IsNotTaken self (Step at payload.now)) }
    {
        if !self.stands_at(at) {
            return Err(NotTaken::NotNext(self));
        }
        let Follower {
            alloc,
            standing,
            tail,
        } = self;
        match standing.judge(alloc, payload)? {
            Judgement::Accepted(standing) => {
                let framed = record_of(alloc, &tail, payload)?;
                Ok(Taken {
                    alloc,
                    standing,
                    tail,
                    writing: Writing::Append(framed),
                })
            }
            Judgement::NotAccepted(standing) => Err(NotTaken::NotFit(Follower {
                alloc,
                standing,
                tail,
            })),
        }
    }

    /// Judges a base, and takes it where it is next and its body stands for a stack.
    fn take_base(
        self,
        at: Position,
        profile: u8,
        depth: u16,
        body: &[u8],
    ) -> Result<Taken, NotTaken>
        ensures taken { IfOk result (IsTaken self (Base at profile depth body.now)) }
        ensures not_taken { IfErr result (IsNotTaken self (Base at profile depth body.now)) }
    {
        let head = self.tail.head();
        if at.generation <= head.generation {
            return Err(NotTaken::NotNext(self));
        }
        if profile != head.profile || depth != head.depth {
            return Err(NotTaken::NotFit(self));
        }
        let later = Head {
            generation: at.generation,
            ..head
        };
        match file_of(self.alloc, &later, body)? {
            Some((standing, checkpoint)) => {
                let Follower {
                    alloc,
                    standing: _left,
                    tail,
                } = self;
                Ok(Taken {
                    alloc,
                    standing,
                    tail,
                    writing: Writing::Turn(checkpoint),
                })
            }
            None => Err(NotTaken::NotFit(self)),
        }
    }

    /// Whether the files stand there.
    fn stands_at(&self, at: Position) -> bool
        ensures { result ≡ is_same at self.now.mine.at }
    {
        at == self.position()
    }

    /// What a Level says to it.
    fn meet_level(self, at: Position) -> NotTaken
        ensures { IsNotTaken self (Level at) result }
    {
        if self.stands_at(at) {
            NotTaken::IsLevel(self)
        } else {
            NotTaken::NotNext(self)
        }
    }
}

/// The follower of files that were read.
fn follower_of(alloc: Global, current: Current) -> Follower
    requires stack { stack_in_file current.opened.head current.opened.body current.opened.records
        ≡ Ok current.standing }
    requires head { (current.opened.tail.head ≡ current.opened.head)
        × (current.opened.head.version ≡ 2) }
    requires lawful { IsTrue (is_lawful current.opened.head) }
    ensures state { result.mine.state ≡ current.standing }
    ensures at { result.mine.at ≡ position_of current.opened.tail }
    ensures tail { result.tail ≡ current.opened.tail }
{
    let Current { opened, standing } = current;
    Follower {
        alloc,
        standing,
        tail: opened.tail,
    }
}
