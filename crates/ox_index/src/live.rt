//! The index in memory.

ghost use Rattle.std.specs.Prelude.{◌≡◌, Some, None, Ok, IsSome, IfOk, OnOk, OnErr};
ghost use Rattle.std.specs.Prelude.{◌^◌, ◌≤◌, length, map, take};
ghost use Rattle.std.specs.FinMap.{entries};
ghost use Rattle.std.specs.Option.{ForSome};
ghost use Rattle.std.proofs.Props.{props};
ghost use Rattle.ox_model.specs.Sound.{IsSound};
ghost use Rattle.ox_index.specs.Lengths.{index_of_parts, index_to, AreWithin, IsMark};
ghost use Rattle.ox_index.specs.Parts.{held_in, mark_of};

mod made;
mod plain;

use crate::admit::admit;
use crate::audit::audits_of;
use crate::lengths::Lengths;
use crate::parts::Parts;
use ox_block::{Block, OutPoint, Txids, read_block};
use ox_bytes::{Bytes, Memory, Room};
use ox_model::{Audit, Change, InsId, InsRow, OutRow, OutTable, Place, RuneId, RuneRow, View};
use ox_outputs::InOrder;
use ox_range::Growing;
use ox_rules::{LONGEST_OK, Why, ok_line_in};
use ox_sat::{Profile, first};
use std::alloc::Global;

/// The index of a chain: the hashes of its blocks, its unspent outputs, the satoshis that no output
/// holds any more, the inscriptions and the runes. After a command it can go back to the index
/// before it.
pub struct Live {
    alloc: Global,
    hashes: Vec<[u8; 32]>,
    parts: Parts,
    lost: Growing,
    /// So much of the lists counts.
    shown: Lengths,
    /// And so much did before the last command, where it can be gone back to.
    marked: Option<Lengths>,
    ghost within: { AreWithin hashes.items lost shown },
    ghost sound: { IsSound parts.profile
        (index_to hashes.items (held_in parts) lost shown) } by { Prim.hlevel props },
    ghost mark: { ForSome marked (λ lengths.
        IsMark parts.profile hashes.items (mark_of parts) lost lengths) } by { Prim.hlevel props },
}

/// By hand, so that whoever drops an index makes one call, and proves nothing of its fields.
impl Drop for Live {
    fn drop(self) {
        let Live {
            alloc: _alloc,
            hashes: _hashes,
            parts: _parts,
            lost: _lost,
            shown: _shown,
            marked: _marked,
        } = self;
    }
}

impl Live {
    ghost use Rattle.ox_sat.specs.Profiles.{IsProfile};
    ghost use Rattle.ox_model.specs.Change.{redone, undone};
    ghost use Rattle.ox_model.specs.Index.{no_blocks};
    ghost use Rattle.ox_block.specs.Hashes.{txid};
    ghost use Rattle.ox_block.specs.Spelling.{Lawful};
    ghost use Rattle.ox_rules.specs.Where.{place_in};
    ghost use Rattle.ox_model.specs.Step.{admission, index_after, step};
    ghost use Rattle.ox_model.specs.Replies.{ok_line};
    ghost use Rattle.ox_model.specs.Ends.{BeginsIn, EndsIn};
    ghost use Rattle.ox_index.specs.Live.{profile_in, index_in, marked_in};
    ghost use Rattle.ox_index.specs.Promises.{BlockPromises};
    ghost use Rattle.ox_rules.specs.Text.{tip_line};
    ghost use Rattle.ox_index.specs.Tip.{tip_of};

    /// The index of a chain without a block that counts by this profile. `Memory` where there is
    /// none for the rune that is there from the start, which mainnet has alone; else it takes none.
    pub fn new(alloc: Global, p: &Profile) -> Result<Live, Memory>
        requires { IsProfile p.now }
        ensures profile { IfOk result (λ live. profile_in live ≡ p.now) }
        ensures index { IfOk result (λ live. index_in live ≡ no_blocks p.now) }
    {
        let parts = Parts::new(alloc, p)?;
        Ok(Live::unmarked(alloc, Vec::new(alloc), parts, Growing::empty(alloc)))
    }

    /// The index of these parts and of all of these lists. It has to be sound. There is no mark.
    fn unmarked(alloc: Global, hashes: Vec<[u8; 32]>, parts: Parts, lost: Growing) -> Live
        requires { IsSound parts.profile (index_of_parts hashes.items (held_in parts) lost) }
        ensures profile { profile_in result ≡ parts.profile }
        ensures index { index_in result ≡ index_of_parts hashes.items (held_in parts) lost }
        ensures no_mark { marked_in result ≡ None }
    {
        let shown = Lengths {
            blocks: hashes.len(),
            lost: lost.len(),
        };
        Live {
            alloc,
            hashes,
            parts,
            lost,
            shown,
            marked: None,
        }
    }

    /// Takes in the block that has these bytes, at the height after the newest, and answers what it
    /// changed. `Refused` exactly where the definition refuses, with the first cause: `Malformed`,
    /// `ChainEnd`, `Unlinked`, `BadRoot`, `Coinbase`, and then `UnknownOutput`, `Overspend` and
    /// `Overclaim` in block order. `Memory` where there is none. After a refusal or `Memory` the
    /// index is as before; after Ok it goes back there by `cancel`.
    pub fn connect(&mut self, bytes: &[u8]) -> Result<Change, Why>
        ensures { BlockPromises result (step (profile_in self.old) (index_in self.old) bytes.now)
            (profile_in self.old) (index_in self.old) self.new }
    {
        self.forget();
        self.read_in(bytes)
    }

    /// Reads a block and takes it in, where no mark is left.
    fn read_in(&mut self, bytes: &[u8]) -> Result<Change, Why>
        requires none { self.old.marked ≡ None }
        ensures { BlockPromises result (step (profile_in self.old) (index_in self.old) bytes.now)
            (profile_in self.old) (index_in self.old) self.new }
    {
        let block = read_block(self.alloc, bytes)?;
        let ids = admit(self.alloc, &self.parts.profile, self.hashes(), &block)?;
        self.take_in(&block, &ids)
    }

    /// Takes in a block that is admitted, and answers what it changed. The fault is that of the
    /// first satoshis that can't be moved.
    fn take_in(&mut self, block: &Block, ids: &Txids) -> Result<Change, Why>
        requires lawful { Lawful block.now }
        requires ids { ids.now ≡ map txid block.now.txs }
        requires admitted { admission (profile_in self.old) (index_in self.old).hashes block.now
            ≡ Ok tt }
        ensures { BlockPromises result
            (index_after (profile_in self.old) (index_in self.old) block.now)
            (profile_in self.old) (index_in self.old) self.new }
    {
        self.forget();
        self.hashes.reserve(1)?;
        let before = self.shown;
        let change = self.parts.take_in(block, ids, before.blocks as u32)?;
        match self.lost.join(&change.lost) {
            Ok(()) => {
                self.hashes.push_reserved(change.hash);
                self.shown = before.with_block(&change);
                self.marked = Some(before);
                Ok(change)
            }
            Err(_) => {
                self.parts.cancel();
                Err(Why::Memory)
            }
        }
    }

    /// Goes back to the index before a change that ends here; the one before has to be sound.
    /// `Memory` where there is none: the index is as before. After Ok it goes back by `cancel`.
    pub fn back(&mut self, change: &Change) -> Result<(), Memory>
        requires { EndsIn (profile_in self.old) (index_in self.old) change.now }
        ensures ok { OnOk result (index_in self.new ≡ undone (index_in self.old) change.now) }
        ensures err { OnErr result (index_in self.new ≡ index_in self.old) }
        ensures mark { OnOk result (marked_in self.new ≡ Some (index_in self.old)) }
        ensures no_mark { OnErr result (marked_in self.new ≡ None) }
        ensures profile { profile_in self.new ≡ profile_in self.old }
    {
        self.forget();
        self.parts.back(change)?;
        let before = self.shown;
        self.shown = before.without_block(change);
        self.marked = Some(before);
        Ok(())
    }

    /// Goes on to the index after a change that begins here; the one after has to be sound.
    /// `Memory` where there is none, or where there would be 2^32 inscriptions: the index is as
    /// before. After Ok it goes back by `cancel`.
    pub fn again(&mut self, change: &Change) -> Result<(), Memory>
        requires { BeginsIn (profile_in self.old) (index_in self.old) change.now }
        ensures ok { OnOk result (index_in self.new ≡ redone (index_in self.old) change.now) }
        ensures err { OnErr result (index_in self.new ≡ index_in self.old) }
        ensures mark { OnOk result (marked_in self.new ≡ Some (index_in self.old)) }
        ensures no_mark { OnErr result (marked_in self.new ≡ None) }
        ensures profile { profile_in self.new ≡ profile_in self.old }
    {
        self.forget();
        self.hashes.reserve(1)?;
        self.parts.again(change)?;
        match self.lost.join(&change.lost) {
            Ok(()) => {
                let before = self.shown;
                self.hashes.push_reserved(change.hash);
                self.shown = before.with_block(change);
                self.marked = Some(before);
                Ok(())
            }
            Err(e) => {
                self.parts.cancel();
                Err(e)
            }
        }
    }

    /// Goes back to the index before the last `connect`, `back` or `again`, which was Ok and after
    /// which none of them was called. It takes no memory.
    pub fn cancel(&mut self)
        requires { IsSome (marked_in self.old) }
        ensures index { Some (index_in self.new) ≡ marked_in self.old }
        ensures spent { marked_in self.new ≡ None }
        ensures profile { profile_in self.new ≡ profile_in self.old }
    {
        if let Some(before) = self.marked {
            self.parts.cancel();
            self.shown = before;
            self.marked = None;
        }
    }

    /// The hashes of the chain's blocks, by height, each in serialized order.
    pub fn hashes(&self) -> &[[u8; 32]]
        ensures { result.now ≡ (index_in self.now).hashes }
    {
        &self.hashes[..self.shown.blocks]
    }

    /// The unspent outputs by rising outpoint, to be read in this order. It takes 16 bytes for
    /// each, and the time of a sort. `Memory` where there is none for them.
    pub fn in_order(&self) -> Result<InOrder<'_>, Memory>
        ensures { IfOk result (λ order. order ≡ entries (index_in self.now).outs) }
    {
        self.parts.outputs.in_order()
    }

    /// The satoshis that no output holds any more, in the order in which they were lost, and how
    /// many of these count: those behind were lost by a block that was taken back.
    pub fn lost_sats(&self) -> (&Growing, u64)
        ensures count { result.1 ≤ length result.0.now }
        ensures first { take result.1 result.0.now ≡ (index_in self.now).lost }
    {
        (&self.lost, self.shown.lost)
    }

    /// The place of a satoshi among the lost ones.
    fn lost_at(&self, sat: u64) -> Option<u64>
        ensures { result ≡ place_in (index_in self.now).lost sat }
    {
        match self.lost.place_of(sat) {
            Some(offset) if offset < self.shown.lost => Some(offset),
            _ => None,
        }
    }

    /// Drops what doesn't count of the lists, and the mark, which might have counted it again.
    fn forget(&mut self)
        ensures index { index_in self.new ≡ index_in self.old }
        ensures profile { profile_in self.new ≡ profile_in self.old }
        ensures none { self.new.marked ≡ None }
        ensures blocks { length self.new.hashes.items ≡ self.new.shown.blocks }
        ensures lost { length self.new.lost ≡ self.new.shown.lost }
    {
        self.marked = None;
        self.hashes.truncate(self.shown.blocks);
        self.lost.truncate(self.shown.lost);
    }

    /// The line of an accepted command: `ok`, the height and the hash of the newest block, or `ok
    /// empty`, and a line feed. The hash is printed in reversed order. `Memory` where there is none
    /// for it.
    pub fn line(&self) -> Result<Bytes, Memory>
        ensures { IfOk result (λ line. line ≡ ok_line (index_in self.now)) }
    {
        let room = Room::new(self.alloc, LONGEST_OK)?;
        Ok(ok_line_in(room, self.tip()))
    }

    /// The newest block's height and its hash in serialized order; `None` exactly where there is no
    /// block.
    pub fn tip(&self) -> Option<(u32, [u8; 32])>
        ensures { result ≡ tip_of (index_in self.now) }
    {
        let height = self.blocks().checked_sub(1)?;
        let hash = self.hash_of(height)?;
        Some((height, *hash))
    }
}

impl View for Live {
    ghost use Rattle.ox_index.specs.Live.{profile_in as counted, index_in as shown};

    ghost chain = { counted };

    ghost index = { shown };

    fn profile(&self) -> &Profile {
        &self.parts.profile
    }

    fn blocks(&self) -> u32 {
        self.shown.blocks as u32
    }

    fn hash_of(&self, height: u32) -> Option<&[u8; 32]> {
        self.hashes().get(height as usize)
    }

    fn output(&self, at: &OutPoint) -> Option<&OutRow> {
        self.parts.outputs.get(at)
    }

    fn lost(&self) -> u64 {
        self.shown.lost
    }

    fn locate(&self, sat: u64) -> Option<Place> {
        match self.parts.outputs.locate(sat) {
            Some(place) => Some(place),
            None => self.lost_at(sat).map(|offset| Place::Lost { offset }),
        }
    }

    fn inscriptions(&self) -> u32 {
        self.parts.shelf.len()
    }

    fn inscription(&self, n: u32) -> &InsRow {
        self.parts.shelf.row(n)
    }

    fn number(&self, n: u32) -> i64 {
        self.parts.shelf.number(n)
    }

    fn find(&self, id: &InsId) -> Option<u32> {
        self.parts.shelf.find(id)
    }

    fn on(&self, sat: u64) -> &[u32] {
        self.parts.shelf.on(sat)
    }

    fn next_on(&self, sat: u64) -> Option<(u64, &[u32])> {
        self.parts.shelf.next_on(sat)
    }

    fn children(&self, of: u32) -> &[u32] {
        self.parts.shelf.children(of)
    }

    fn balance(&self, at: &OutPoint) -> &[(RuneId, u128)] {
        self.parts.ledger.balance(at)
    }

    fn runes(&self) -> u32 {
        self.parts.ledger.len()
    }

    fn rune(&self, n: u32) -> &RuneRow {
        self.parts.ledger.rune(n)
    }

    fn by_name(&self, name: u128) -> Option<u32> {
        self.parts.ledger.by_name(name)
    }

    fn by_id(&self, id: RuneId) -> Option<u32> {
        self.parts.ledger.by_id(id)
    }

    fn held(&self, n: u32) -> u128 {
        self.parts.ledger.held(n)
    }

    fn audit(&self) -> Result<Audit, Memory> {
        let claimable = first(&self.parts.profile, self.shown.blocks as u64);
        Ok(Audit {
            claimable,
            lost: self.shown.lost,
            outputs: claimable - self.shown.lost,
            runes: audits_of(self.alloc, &self.parts.ledger)?,
        })
    }

    ghost known = { λ live. live.parts.known };

    ghost sound = { λ live. live.sound };
}
