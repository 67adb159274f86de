//! The ledger of runes.

ghost use Rattle.std.specs.Prelude.{◌≡◌, ◌↔◌, ◌^◌, ◌<◌, is_some, IfOk, None};
ghost use Rattle.std.proofs.Props.{props};
ghost use Rattle.std.specs.Option.{ForSome, IfSome};
ghost use Rattle.ox_ledger.specs.Balanced.{Balanced, made_of};
ghost use Rattle.ox_ledger.specs.Block.{first_rune, no_runes};
ghost use Rattle.ox_ledger.specs.Tables.{mark_of, runes_of};

use crate::ahead::read_ahead;
use crate::part::RunePart;
use crate::tables::Tables;
use ox_block::{OutPoint, Tx, Txid};
use ox_bytes::Memory;
use ox_etching::{RuneRow, Spot};
use ox_rules::{MovedTx, SpentRows};
use ox_runestone::{RuneId, Terms};
use ox_sat::Profile;
use std::alloc::Global;

/// The rune that is there from the start of mainnet: Runes specification, "Genesis Rune".
const FIRST_RUNE: RuneRow = RuneRow {
    id: RuneId { block: 1, tx: 0 },
    name: 2_055_900_680_524_219_742,
    spacers: 128,
    divisibility: 0,
    symbol: Some('\u{29c9}'),
    premine: 0,
    terms: Some(Terms {
        amount: Some(1),
        cap: Some(u128::MAX),
        height_start: Some(840_000),
        height_end: Some(1_050_000),
        offset_start: None,
        offset_end: None,
    }),
    mints: 0,
    burned: 0,
    etching: Txid([0; 32]),
};

/// The rune that is there from the start of mainnet.
fn first_rune() -> RuneRow
    ensures { result ≡ first_rune }
{
    FIRST_RUNE
}

/// The runes that are there before a chain's first block, and no mark. `Memory` where there is none
/// for them.
fn tables_at_start(alloc: Global, p: &Profile) -> Result<Tables, Memory>
    ensures runes { IfOk result (λ tables. runes_of tables ≡ no_runes p.now) }
    ensures mark { IfOk result (λ tables. mark_of tables ≡ None) }
{
    let mut tables = Tables::new(alloc);
    if p.first_rune {
        tables.runes.push(first_rune())?;
    }
    Ok(tables)
}

/// What a rune's etching and its mints gave.
fn made_of(row: &RuneRow) -> u128
    requires { made_of row.now < 2 ^ 128 }
    ensures { result ≡ made_of row.now }
{
    let amount = match &row.terms {
        Some(terms) => terms.amount.unwrap_or(0),
        None => 0,
    };
    row.premine + row.mints * amount
}

/// The runes of a chain, and which output holds how much of them; in the midst of a block also what
/// is due to its coinbase's outputs. It goes back to a mark.
///
/// What there is of each rune, with outputs, due and burned, is what its etching and its mints gave
/// (`Balanced`).
pub struct Ledger {
    alloc: Global,
    profile: Profile,
    tables: Tables,
    marked: bool,
    /// What was read ahead, added up. It says nothing, and is there so that no reading is left out.
    sum: u32,
    ghost balanced: { Balanced (runes_of tables) } by { Prim.hlevel props },
    ghost balanced_then: { ForSome (mark_of tables) Balanced } by { Prim.hlevel props },
    ghost known: { marked ≡ is_some (mark_of tables) },
}

/// By hand, so that whoever drops a ledger makes one call, and proves nothing of its fields.
impl Drop for Ledger {
    fn drop(self) {
        let Ledger {
            alloc: _alloc,
            profile: _profile,
            tables: _tables,
            marked: _marked,
            sum: _sum,
        } = self;
    }
}

impl Ledger {
    ghost use Rattle.std.specs.Prelude.{ℕ, Some, IsSome, OnOk, OnErr, length};
    ghost use Rattle.std.specs.Prelude.{slice_get, unwrap_or};
    ghost use Rattle.std.specs.FinMap.{values};
    ghost use Rattle.ox_ledger.specs.Balanced.{amount_held};
    ghost use Rattle.ox_ledger.specs.Ledger.{mark_in, runes_in};
    ghost use Rattle.ox_ledger.specs.Moves.{Begins, Ends};
    ghost use Rattle.ox_ledger.specs.Part.{Continues, IsPart, earlier_end, later_end};
    ghost use Rattle.ox_ledger.specs.Runes.{balances_at, end, turn};
    ghost use Rattle.ox_ledger.specs.Shown.{HasAt};
    ghost use Rattle.ox_ledger.specs.Tables.{nothing};
    ghost use Rattle.ox_ledger.specs.Turn.{IsFree};

    /// The runes that are there before a chain's first block, and no mark. `Memory` where there is
    /// none for them.
    pub fn new(alloc: Global, p: &Profile) -> Result<Ledger, Memory>
        ensures runes { IfOk result (λ ledger. runes_in ledger ≡ no_runes p.now) }
        ensures mark { IfOk result (λ ledger. mark_in ledger ≡ None) }
        ensures profile { IfOk result (λ ledger. ledger.profile ≡ p.now) }
    {
        let tables = tables_at_start(alloc, p)?;
        Ok(Ledger {
            alloc,
            profile: *p,
            tables,
            marked: false,
            sum: 0,
        })
    }

    /// No runes, also where a chain begins with one, and no mark. It takes no memory.
    pub fn empty(alloc: Global, p: &Profile) -> Ledger
        ensures runes { runes_in result ≡ nothing }
        ensures mark { mark_in result ≡ None }
        ensures profile { result.profile ≡ p.now }
    {
        Ledger {
            alloc,
            profile: *p,
            tables: Tables::new(alloc),
            marked: false,
            sum: 0,
        }
    }

    /// The runes that an output holds: ids and amounts, by rising ids. None where it holds none.
    pub fn balance(&self, at: &OutPoint) -> &[(RuneId, u128)]
        ensures { result.now ≡ balances_at (runes_in self.now).bal at.now }
    {
        self.tables.balance(at)
    }

    /// How many runes there are.
    pub fn len(&self) -> u32
        ensures { result ≡ length (runes_in self.now).runes }
    {
        self.tables.runes.len()
    }

    /// The rune with a number, counted from 0 in the order of the etchings.
    pub fn rune(&self, n: u32) -> &RuneRow
        requires { n < length (runes_in self.now).runes }
        ensures { slice_get (runes_in self.now).runes n ≡ Some result.now }
    {
        self.tables.runes.get(n)
    }

    /// The number of the rune with this name. `None` exactly where no rune has it.
    pub fn by_name(&self, name: u128) -> Option<u32>
        ensures { (n : ℕ) → (result ≡ Some n)
            ↔ HasAt (λ row. row.name) (runes_in self.now).runes n name }
    {
        self.tables.runes.by_name(name)
    }

    /// The number of the rune with this id. `None` exactly where no rune has it.
    pub fn by_id(&self, id: RuneId) -> Option<u32>
        ensures { (n : ℕ) → (result ≡ Some n)
            ↔ HasAt (λ row. row.id) (runes_in self.now).runes n id }
    {
        self.tables.runes.by_id(id)
    }

    /// How much of the rune with a number outputs hold together. What is due to a coinbase's
    /// outputs isn't held yet.
    pub fn held(&self, n: u32) -> u128
        requires { n < length (runes_in self.now).runes }
        ensures { IfSome (slice_get (runes_in self.now).runes n) (λ row.
            result ≡ amount_held (values (runes_in self.now).bal) row.id) }
    {
        let row = self.tables.runes.get(n);
        made_of(row) - row.burned - self.tables.due_of(row.id)
    }

    /// Says which transactions have their turns next, so that what these ask for is read ahead. It
    /// is a hint: where others come all is as it would be without it, but slower. It takes no
    /// memory.
    pub fn expect(&mut self, txs: &[Tx], moved: &[MovedTx])
        ensures runes { runes_in self.new ≡ runes_in self.old }
        ensures mark { mark_in self.new ≡ mark_in self.old }
        ensures profile { self.new.profile ≡ self.old.profile }
    {
        let read = read_ahead(&self.tables.holders, txs, moved);
        self.sum = self.sum.wrapping_add(read);
    }

    /// One transaction, with its id, at a place of a block of this height: the coinbase is at place
    /// 0. It spends these rows, one for each input, in input order; a coinbase spends none. Blocks
    /// go up, and each one's transactions in order, so that no rune is of this height and place.
    ///
    /// Its inputs' runes, its mint and its premine are dealt to its outputs, or burned; what an
    /// output displaces is burned. What a coinbase's outputs get is due until `end`.
    ///
    /// After `Memory` a ledger with a mark is as it was at the mark, which stays, and one without a
    /// mark has no runes.
    pub fn turn(
        &mut self,
        height: u32,
        tx: u32,
        id: Txid,
        body: &Tx,
        spent: &SpentRows,
    ) -> Result<(), Memory>
        requires { IsFree
            (record { profile = self.old.profile; height = height; tx = tx; txid = id })
            (runes_in self.old).runes }
        ensures ok { OnOk result (runes_in self.new ≡ turn
            (record { profile = self.old.profile; height = height; tx = tx; txid = id })
            body.now spent.now (runes_in self.old)) }
        ensures err { OnErr result (runes_in self.new ≡ unwrap_or (mark_in self.old) nothing) }
        ensures mark { mark_in self.new ≡ mark_in self.old }
        ensures profile { self.new.profile ≡ self.old.profile }
    {
        let at = Spot {
            profile: self.profile,
            height,
            tx,
            txid: id,
        };
        match self.tables.turn(self.alloc, at, body, spent) {
            Ok(()) => Ok(()),
            Err(e) => {
                self.tables.fall_back(self.alloc, self.marked);
                Err(e)
            }
        }
    }

    /// The end of a block: what is due to its coinbase's outputs is placed, and what these displace
    /// is burned. After `Memory` a ledger with a mark is as it was at the mark, which stays, and
    /// one without a mark has no runes.
    pub fn end(&mut self) -> Result<(), Memory>
        ensures ok { OnOk result (runes_in self.new ≡ end (runes_in self.old)) }
        ensures err { OnErr result (runes_in self.new ≡ unwrap_or (mark_in self.old) nothing) }
        ensures mark { mark_in self.new ≡ mark_in self.old }
        ensures profile { self.new.profile ≡ self.old.profile }
    {
        match self.tables.end(self.alloc) {
            Ok(()) => Ok(()),
            Err(e) => {
                self.tables.fall_back(self.alloc, self.marked);
                Err(e)
            }
        }
    }

    /// What of the change since the mark is about runes: the balances that are gone and those that
    /// came, the changed counts of the runes that there were, and the runes that came behind these,
    /// which are as they were but for the counts. `Memory` where there is none for it.
    pub fn changed(&self) -> Result<RunePart, Memory>
        requires mark { IsSome (mark_in self.now) }
        requires continues { IfSome (mark_in self.now)
            (λ before. Continues before.runes (runes_in self.now).runes) }
        ensures { IfOk result (λ part. IfSome (mark_in self.now)
            (λ before. IsPart before (runes_in self.now) part)) }
    {
        self.tables.changed(self.alloc)
    }

    /// Goes from the state in which a part ends to the one in which it begins. Nothing is due at
    /// either. After `Memory` the ledger is as it was at the mark, which stays.
    pub fn back(&mut self, part: &RunePart) -> Result<(), Memory>
        requires mark { IsSome (mark_in self.old) }
        requires ends { Ends part.now (runes_in self.old) }
        ensures ok { OnOk result (runes_in self.new ≡ earlier_end (runes_in self.old) part.now) }
        ensures err { OnErr result (runes_in self.new ≡ unwrap_or (mark_in self.old) nothing) }
        ensures mark { mark_in self.new ≡ mark_in self.old }
        ensures profile { self.new.profile ≡ self.old.profile }
    {
        match self.tables.back(self.alloc, part) {
            Ok(()) => Ok(()),
            Err(e) => {
                self.tables.fall_back(self.alloc, self.marked);
                Err(e)
            }
        }
    }

    /// Goes from the state in which a part begins to the one in which it ends. Nothing is due at
    /// either. After `Memory` the ledger is as it was at the mark, which stays.
    pub fn again(&mut self, part: &RunePart) -> Result<(), Memory>
        requires mark { IsSome (mark_in self.old) }
        requires begins { Begins part.now (runes_in self.old) }
        ensures ok { OnOk result (runes_in self.new ≡ later_end (runes_in self.old) part.now) }
        ensures err { OnErr result (runes_in self.new ≡ unwrap_or (mark_in self.old) nothing) }
        ensures mark { mark_in self.new ≡ mark_in self.old }
        ensures profile { self.new.profile ≡ self.old.profile }
    {
        match self.tables.again(self.alloc, part) {
            Ok(()) => Ok(()),
            Err(e) => {
                self.tables.fall_back(self.alloc, self.marked);
                Err(e)
            }
        }
    }

    /// Sets the mark at the runes as they are, in place of an earlier one. It takes no memory.
    pub fn begin(&mut self)
        ensures runes { runes_in self.new ≡ runes_in self.old }
        ensures mark { mark_in self.new ≡ Some (runes_in self.old) }
        ensures profile { self.new.profile ≡ self.old.profile }
    {
        self.tables.begin();
        self.marked = true;
    }

    /// Goes back to the runes at the mark, which is spent. It takes no memory.
    pub fn cancel(&mut self)
        requires { IsSome (mark_in self.old) }
        ensures runes { mark_in self.old ≡ Some (runes_in self.new) }
        ensures mark { mark_in self.new ≡ None }
        ensures profile { self.new.profile ≡ self.old.profile }
    {
        self.tables.cancel();
        self.marked = false;
    }
}
