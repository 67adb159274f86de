//! A store that hands out its pieces.

ghost use Rattle.std.specs.Prelude.{◌≡◌, ◌<◌, ◌^◌, Ok, Some, IsTrue, IfOk, IfErr, IfSome};
ghost use Rattle.std.specs.Prelude.{All, IsErrOf, length};
ghost use Rattle.std.specs.Option.{option_map};
ghost use Rattle.ox_outside.specs.Counts.{Rose, StopsAtFault};
ghost use Rattle.ox_outside.specs.Runs.{OnlyLooks};
ghost use Rattle.ox_gated.specs.Layout.{is_lawful};
ghost use Rattle.ox_gated.specs.Tail.{IsSettled};
ghost use Rattle.ox_gated.specs.declared.fault.Halt.TheVariants as halts;
ghost use Rattle.ox_files.specs.Stands.{stack_in_file};
ghost use Rattle.ox_store.specs.Fault.{IsMisfit};
ghost use Rattle.ox_store.specs.declared.fault.OpenFault.TheVariants as opens;
ghost use Rattle.ox_pieces.specs.Stood.{leader_of as leader_as, led_stands};

use crate::open::{Current, open_files};
use crate::writing::LONGEST;
use ox_bytes::Bytes;
use ox_follow::{Frame, Position};
use ox_gated::{Halt, Head, Records};
use ox_outside::Site;
use ox_store::OpenFault;
use std::alloc::Global;
use std::cmp::Ordering;
use std::marker::Model;

/// A store that hands out its pieces. What was opened stays in memory as bytes, and no call is made
/// on the files. Contracts see its generation, its body, its payloads, and the stack that they lead
/// to.
#[derive(Drop)]
pub struct Leader {
    head: Head,
    body: Bytes,
    records: Records,
}

impl Model for Leader {
    ghost use Rattle.std.specs.Coded.{codes};
    ghost use Rattle.std.specs.FinMap as map;
    ghost use Rattle.ox_follow.specs.World.{Leader as Pieces};
    ghost use Rattle.ox_model.specs.Stack.{Stack};
    ghost use Rattle.ox_pieces.specs.Leader.{CanLead, pieces_of};

    ghost Value = { Pieces Stack };

    ghost coded = { Prim.hlevel (codes, map.code) };

    ghost view = { λ l. pieces_of l.head l.body l.records };

    ghost invariant = { λ l. CanLead l.head l.body l.records };
}

impl Leader {
    ghost use Rattle.ox_follow.specs.Frame.{FitsFrame, plain};
    ghost use Rattle.ox_follow.specs.World.{answer_to, stood};
    ghost use Rattle.ox_pieces.specs.Stood.{leader_in, rules_of};

    /// Opens two files of version 2 and tests them, as `Store::open` does. It begins with a sync
    /// (`fsync`) of both files, and changes nothing: at no moment does a crash leave anything that
    /// it didn't leave before.
    ///
    /// `NotStore` exactly where the files stand for nothing, with the file and the place of the
    /// first test that fails: 6 where the current file has another version, of which nothing more
    /// is read. `Halt` with `Disk` only where a call on a file failed, and with `Memory` where
    /// there is none for what the files hold, and where the body is 2^32 bytes or longer, which no
    /// store writes.
    pub fn open<S: Site>(alloc: Global, site: &mut S) -> Result<Leader, OpenFault>
        ensures leads { IsTrue (S.told site.old)
            → IfOk result (λ leader. leader_in (S.seen site.old) ≡ Some leader) }
        ensures not_store { IsTrue (S.told site.old)
            → IfErr result (IsMisfit (led_stands (S.seen site.old))) }
        ensures failed { IsErrOf result (opens.Halt halts.Disk)
            → Rose (S.counts site.old).disk (S.counts site.new).disk }
        ensures counted { StopsAtFault (IsErrOf result (opens.Halt halts.Disk)) ⊥ ⊥
            (S.counts site.old) (S.counts site.new) }
        // Each crash leaves what is read, unless a call failed.
        ensures settled { ¬ IsErrOf result (opens.Halt halts.Disk) → IsSettled S.Site site.new }
        ensures looks { OnlyLooks S.Site site.old site.new }
    {
        match open_files(alloc, site) {
            Ok(current) => leader_of(current),
            Err(fault) => Err(fault),
        }
    }

    /// Where the files stand.
    pub fn position(&self) -> Position
        ensures { result ≡ (stood self.now).at }
    {
        Position {
            generation: self.head.generation,
            place: self.records.len() as u64,
        }
    }

    /// The frame that answers a Have of this position: the record behind it, a Level where there is
    /// none, the whole file where its generation is an older one. `None` exactly where it is past
    /// the leader's own position. What is lent fits a frame.
    pub fn next(&self, at: Position) -> Option<Frame<'_>>
        ensures answer { option_map plain result ≡ answer_to (rules_of self.now.state) self.now at }
        ensures fits { IfSome result (λ frame. FitsFrame (plain frame)) }
    {
        match at.generation.cmp(&self.head.generation) {
            Ordering::Less => Some(self.base()),
            Ordering::Equal => self.behind(at),
            Ordering::Greater => None,
        }
    }
}

impl Leader {
    ghost use Rattle.std.specs.Prelude.{length};
    ghost use Rattle.ox_follow.specs.Frame.{FitsFrame, plain};
    ghost use Rattle.ox_follow.specs.World.{Whole, frame_of, piece_in};
    ghost use Rattle.ox_pieces.specs.Stood.{rules_of};

    /// The whole file.
    fn base(&self) -> Frame<'_>
        ensures base { (at : Position)
            → Some (plain result) ≡ frame_of (rules_of self.now.state) self.now at Whole }
        ensures fits { FitsFrame (plain result) }
    {
        let _generation = self.head.generation;
        Frame::Base {
            at: Position {
                generation: self.head.generation,
                place: 0,
            },
            profile: self.head.profile,
            depth: self.head.depth,
            body: self.body.as_slice(),
        }
    }

    /// What comes behind a position of the file's own generation.
    fn behind(&self, at: Position) -> Option<Frame<'_>>
        ensures piece { option_map plain result
            ≡ frame_of (rules_of self.now.state) self.now at (piece_in at.place self.now.payloads) }
        ensures fits { IfSome result (λ frame. FitsFrame (plain frame)) }
    {
        match self.records.as_slice().get(at.place as usize) {
            Some(record) => Some(Frame::Step {
                at,
                payload: record.payload.as_slice(),
            }),
            None if at.place == self.records.len() as u64 => Some(Frame::Level { at }),
            None => None,
        }
    }
}

/// The leader of files that were read. `Memory` where a piece is too long for a frame.
fn leader_of(current: Current) -> Result<Leader, OpenFault>
    requires stack { stack_in_file current.opened.head current.opened.body current.opened.records
        ≡ Ok current.standing }
    requires lawful { IsTrue (is_lawful current.opened.head) }
    ensures leads { let o = current.opened in
        IfOk result (λ leader. leader ≡ leader_as o.head o.body o.records current.standing) }
    ensures memory { IfErr result (λ fault. fault ≡ opens.Halt halts.Memory) }
{
    let Current {
        opened,
        standing: _,
    } = current;
    if opened.body.len() > LONGEST || !are_short(&opened.records) {
        return Err(OpenFault::Halt(Halt::Memory));
    }
    Ok(Leader {
        head: opened.head,
        body: opened.body,
        records: opened.records,
    })
}

/// Whether each payload fits a frame.
fn are_short(records: &Records) -> bool
    ensures { IsTrue result → All (λ one. length one.payload < 2 ^ 32) records.now }
{
    records
        .as_slice()
        .iter()
        .all(|record| record.payload.len() <= LONGEST)
}
