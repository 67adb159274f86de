//! The parts of an index that go back to a mark.

ghost use Rattle.std.specs.Prelude.{◌≡◌, ◌≤◌, ◌++◌, [], length, IfOk, OnOk, OnErr, unwrap_or};
ghost use Rattle.std.specs.Option.{ForSome};
ghost use Rattle.ox_block.specs.Spelling.{Lawful};
ghost use Rattle.ox_sat.specs.Profiles.{IsProfile};
ghost use Rattle.ox_sat.proofs.Known.{IsProfile-prop};
ghost use Rattle.ox_ledger.specs.Block.{runes_after};
ghost use Rattle.ox_ledger.specs.Ledger.{mark_in as rune_mark, runes_in};
ghost use Rattle.ox_ledger.specs.Tables.{nothing};
ghost use Rattle.ox_index.specs.Held.{NoneOf};

use ox_block::{Block, Tx, Txids, hash};
use ox_bytes::Memory;
use ox_inscribe::{SharedRow, Shelf};
use ox_ledger::Ledger;
use ox_model::{Change, Moved, OutTable};
use ox_outputs::Outputs;
use ox_range::Ranges;
use ox_rules::{MovedTx, Why};
use ox_sat::Profile;
use ox_transfer::transfer;
use std::alloc::Global;

/// The ledger is told so many transactions at a time.
const BATCH: usize = 16;

/// The unspent outputs, the inscriptions and the runes of a chain, each with a mark to go back to.
#[derive(Drop)]
pub struct Parts {
    pub alloc: Global,
    pub profile: Profile,
    pub outputs: Outputs,
    pub shelf: Shelf,
    pub ledger: Ledger,
    ghost known: { IsProfile profile } by { IsProfile-prop profile },
    ghost counted: { ledger.profile ≡ profile },
    ghost numbered: { shelf.jubilee ≡ profile.jubilee },
    ghost undue: { (runes_in ledger).due ≡ [] },
    ghost undue_then: { ForSome (rune_mark ledger) (λ runes. runes.due ≡ []) },
}

impl Parts {
    ghost use Rattle.std.specs.Prelude.{Some, None, IsSome, IfErr, map};
    ghost use Rattle.std.specs.FinMap.{empty};
    ghost use Rattle.ox_block.specs.Hashes.{txid};
    ghost use Rattle.ox_sat.specs.Heights.{first_at};
    ghost use Rattle.ox_rules.specs.Differences.{reverse_of};
    ghost use Rattle.ox_rules.specs.Transfer.{transfer_of};
    ghost use Rattle.ox_ledger.specs.Block.{no_runes};
    ghost use Rattle.ox_ledger.specs.Moves.{Begins, Ends};
    ghost use Rattle.ox_ledger.specs.Part.{Continues};
    ghost use Rattle.ox_model.specs.Change.{outputs_changed};
    ghost use Rattle.ox_outputs.specs.Table.{EndsIn as EndsAt};
    ghost use Rattle.ox_transfer.specs.Apart.{HoldsOnce};
    ghost use Rattle.ox_rules.specs.Why.{Refuses};
    ghost use Rattle.ox_index.specs.Held.{HasMoved, Held, IsBack, IsOn, IsTaken, IsTold};
    ghost use Rattle.ox_index.specs.Held.{RevealsWithin};
    ghost use Rattle.ox_index.specs.Parts.{held_in, mark_of};

    /// No outputs, no inscriptions, and the runes that are there before a chain's first block.
    /// `Memory` where there is none for these.
    pub fn new(alloc: Global, p: &Profile) -> Result<Parts, Memory>
        requires { IsProfile p.now }
        ensures profile { IfOk result (λ parts. parts.profile ≡ p.now) }
        ensures held { IfOk result (λ parts. held_in parts
            ≡ record { outs = empty; inscriptions = []; runes = no_runes p.now }) }
    {
        let ledger = Ledger::new(alloc, p)?;
        Ok(Parts {
            alloc,
            profile: *p,
            outputs: Outputs::new(alloc),
            shelf: Shelf::new(alloc, p.jubilee),
            ledger,
        })
    }

    /// Takes in a block that is admitted at this height, and answers what it changed. The fault is
    /// that of the first satoshis that can't be moved, or `Memory`: nothing has changed then.
    pub fn take_in(&mut self, block: &Block, ids: &Txids, height: u32) -> Result<Change, Why>
        requires lawful { Lawful block.now }
        requires ids { ids.now ≡ map txid block.now.txs }
        requires once { HoldsOnce (first_at self.old.profile height) (held_in self.old).outs }
        requires none { NoneOf self.old.profile height (held_in self.old).runes.runes }
        ensures ok { IfOk result (λ change. IsTaken self.old.profile height block.now
            (held_in self.old) (held_in self.new) change) }
        ensures refused { IfErr result (λ fault. Refuses fault
            (transfer_of self.old.profile height block.now.txs (held_in self.old).outs)) }
        ensures err { OnErr result (held_in self.new ≡ held_in self.old) }
        ensures mark { OnOk result (mark_of self.new ≡ Some (held_in self.old)) }
        ensures profile { self.new.profile ≡ self.old.profile }
    {
        self.shelf.begin();
        self.ledger.begin();
        self.outputs.expect(block, ids);
        let moved = transfer(
            self.alloc,
            &mut self.outputs,
            &self.profile,
            block,
            ids,
            height,
        )?;
        match self.follow(block, moved, height) {
            Ok(change) => Ok(change),
            Err(e) => {
                self.cancel();
                Err(e.into())
            }
        }
    }

    /// What a block reveals, and what it does to runes, once its satoshis have moved since the
    /// marks. It answers what the block changed. `Memory` where there is none: the marks stay.
    fn follow(&mut self, block: &Block, moved: Moved, height: u32) -> Result<Change, Memory>
        requires lawful { Lawful block.now }
        requires moved { HasMoved self.old.profile height block.now moved (mark_of self.old)
            (held_in self.old) }
        requires none { NoneOf self.old.profile height (held_in self.old).runes.runes }
        ensures ok { IfOk result (λ change. (before : Held) → mark_of self.old ≡ Some before
            → IsTaken self.old.profile height block.now before (held_in self.new) change) }
        ensures mark { mark_of self.new ≡ mark_of self.old }
        ensures profile { self.new.profile ≡ self.old.profile }
    {
        let before = self.shelf.len();
        self.shelf.reveal(&moved, block, height)?;
        move_runes(&mut self.ledger, block, &moved, height)?;
        self.changed(hash(&block.header), moved.lost, before)
    }

    /// What was changed since the marks, by a block with this hash that lost these satoshis, behind
    /// so many inscriptions. `Memory` where there is none for it.
    fn changed(&self, hash: [u8; 32], lost: Ranges, from: u32) -> Result<Change, Memory>
        requires marked { IsSome (mark_of self.now) }
        requires from { from ≤ length (held_in self.now).inscriptions }
        requires continues { (before : Held) → mark_of self.now ≡ Some before
            → Continues before.runes.runes (held_in self.now).runes.runes }
        ensures { IfOk result
            (IsTold (mark_of self.now) (held_in self.now) hash lost from) }
    {
        let (gone, came) = self.outputs.changed()?;
        let inscriptions = self.shelf.rows_from(from)?;
        let runes = self.ledger.changed()?;
        Ok(Change {
            hash,
            gone,
            came,
            lost,
            inscriptions,
            runes,
        })
    }

    /// Goes back over a change that ends here. `Memory` where there is none: nothing has changed
    /// then.
    pub fn back(&mut self, change: &Change) -> Result<(), Memory>
        requires rows { EndsAt (held_in self.old).outs (outputs_changed change.now) }
        requires inscriptions { RevealsWithin change.now (held_in self.old) }
        requires runes { Ends change.now.runes (held_in self.old).runes }
        ensures ok { OnOk result (IsBack (held_in self.old) (held_in self.new) change.now) }
        ensures err { OnErr result (held_in self.new ≡ held_in self.old) }
        ensures mark { OnOk result (mark_of self.new ≡ Some (held_in self.old)) }
        ensures profile { self.new.profile ≡ self.old.profile }
    {
        self.begin()?;
        match self.put_back(change) {
            Ok(()) => Ok(()),
            Err(e) => {
                self.cancel();
                Err(e)
            }
        }
    }

    /// The same under marks, which stay.
    fn put_back(&mut self, change: &Change) -> Result<(), Memory>
        requires marked { IsSome (mark_of self.old) }
        requires rows { EndsAt (held_in self.old).outs (outputs_changed change.now) }
        requires inscriptions { RevealsWithin change.now (held_in self.old) }
        requires runes { Ends change.now.runes (held_in self.old).runes }
        ensures ok { OnOk result (IsBack (held_in self.old) (held_in self.new) change.now) }
        ensures mark { mark_of self.new ≡ mark_of self.old }
        ensures profile { self.new.profile ≡ self.old.profile }
    {
        self.outputs.put(&change.gone, &change.came)?;
        self.ledger.back(&change.runes)?;
        let last = change.inscriptions.len().min(self.shelf.len() as usize);
        self.shelf.drop_last(last as u32);
        Ok(())
    }

    /// Goes on over a change that begins here. `Memory` where there is none, or where there would
    /// be 2^32 inscriptions: nothing has changed then.
    pub fn again(&mut self, change: &Change) -> Result<(), Memory>
        requires rows { EndsAt (held_in self.old).outs (reverse_of (outputs_changed change.now)) }
        requires runes { Begins change.now.runes (held_in self.old).runes }
        ensures ok { OnOk result (IsOn (held_in self.old) (held_in self.new) change.now) }
        ensures err { OnErr result (held_in self.new ≡ held_in self.old) }
        ensures mark { OnOk result (mark_of self.new ≡ Some (held_in self.old)) }
        ensures profile { self.new.profile ≡ self.old.profile }
    {
        self.begin()?;
        match self.put_again(change) {
            Ok(()) => Ok(()),
            Err(e) => {
                self.cancel();
                Err(e)
            }
        }
    }

    /// The same under marks, which stay.
    fn put_again(&mut self, change: &Change) -> Result<(), Memory>
        requires marked { IsSome (mark_of self.old) }
        requires rows { EndsAt (held_in self.old).outs (reverse_of (outputs_changed change.now)) }
        requires runes { Begins change.now.runes (held_in self.old).runes }
        ensures ok { OnOk result (IsOn (held_in self.old) (held_in self.new) change.now) }
        ensures mark { mark_of self.new ≡ mark_of self.old }
        ensures profile { self.new.profile ≡ self.old.profile }
    {
        self.outputs.put(&change.came, &change.gone)?;
        self.ledger.again(&change.runes)?;
        append(&mut self.shelf, change.inscriptions.as_slice())
    }

    /// Sets all marks. `Memory` where there is none: nothing has changed then.
    fn begin(&mut self) -> Result<(), Memory>
        ensures held { held_in self.new ≡ held_in self.old }
        ensures ok { OnOk result (mark_of self.new ≡ Some (held_in self.old)) }
        ensures profile { self.new.profile ≡ self.old.profile }
    {
        self.shelf.begin();
        self.ledger.begin();
        self.outputs.begin()
    }

    /// Goes back to all marks, which are spent. It takes no memory.
    pub fn cancel(&mut self)
        requires { IsSome (mark_of self.old) }
        ensures held { Some (held_in self.new) ≡ mark_of self.old }
        ensures mark { mark_of self.new ≡ None }
        ensures profile { self.new.profile ≡ self.old.profile }
    {
        self.outputs.cancel();
        self.shelf.cancel();
        self.ledger.cancel();
    }
}

/// The runes of a block, whose satoshis moved so: each transaction in order, and the block's end.
/// After `Memory` they are as at the mark, which stays.
fn move_runes(ledger: &mut Ledger, block: &Block, moved: &Moved, height: u32) -> Result<(), Memory>
    requires lawful { Lawful block.now }
    requires none { NoneOf ledger.old.profile height (runes_in ledger.old).runes }
    ensures ok { OnOk result (runes_in ledger.new ≡ runes_after ledger.old.profile height
        block.now.txs moved.now.txs (runes_in ledger.old)) }
    ensures err { OnErr result (runes_in ledger.new ≡ unwrap_or (rune_mark ledger.old) nothing) }
    ensures mark { rune_mark ledger.new ≡ rune_mark ledger.old }
    ensures profile { ledger.new.profile ≡ ledger.old.profile }
{
    let txs = block.txs.as_slice();
    let all = moved.txs.as_slice();
    for place in 0..txs.len().min(all.len()) {
        expect_from(ledger, txs, all, place);
        let did = &all[place];
        ledger.turn(height, place as u32, did.txid, &txs[place], &did.spent)?;
    }
    ledger.end()
}

/// Before the first of some transactions, tells the ledger all of these.
fn expect_from(ledger: &mut Ledger, txs: &[Tx], all: &[MovedTx], place: usize)
    ensures runes { runes_in ledger.new ≡ runes_in ledger.old }
    ensures mark { rune_mark ledger.new ≡ rune_mark ledger.old }
    ensures profile { ledger.new.profile ≡ ledger.old.profile }
{
    if place % BATCH == 0 {
        ledger.expect(batch_from(txs, place), batch_from(all, place));
    }
}

/// What is at a place and behind it, as much as is told at a time.
fn batch_from<T>(all: &[T], place: usize) -> &[T] {
    match all.get(place..) {
        Some(left) => &left[..left.len().min(BATCH)],
        None => &[],
    }
}

/// Puts inscriptions behind the others. `Memory` where there is none, or where there would be 2^32.
pub(crate) fn append(shelf: &mut Shelf, rows: &[SharedRow]) -> Result<(), Memory>
    ensures ok { OnOk result (shelf.new.rows ≡ shelf.old.rows ++ rows.now) }
    ensures mark { shelf.new.mark ≡ shelf.old.mark }
    ensures jubilee { shelf.new.jubilee ≡ shelf.old.jubilee }
{
    if rows.len() > (u32::MAX - shelf.len()) as usize {
        return Err(Memory);
    }
    shelf.append(rows)
}
