//! The tables of the ledger together, and what a transaction does to them.

ghost use Rattle.std.specs.Prelude.{◌≡◌, ◌==◌, ◌^◌, ◌<◌, ◌++◌, [], map, length, IsSome, Some, None};
ghost use Rattle.std.specs.Prelude.{All, ◌≢◌, if◌then◌else◌, is_some, unwrap_or, IfOk, OnOk, OnErr};
ghost use Rattle.std.specs.Option.{option_map, IfSome};
ghost use Rattle.ox_runestone.specs.Spelling.{StoneCanCome};
ghost use Rattle.ox_rules.specs.Differences.{with_rows, without_rows};
ghost use Rattle.ox_rules.specs.Transfer.{as_list};
ghost use Rattle.ox_ledger.specs.Balanced.{amount_held};
ghost use Rattle.ox_ledger.specs.Moves.{Begins, Ends};
ghost use Rattle.ox_ledger.specs.Part.{Continues, IsPart, earlier_end, later_end};
ghost use Rattle.ox_ledger.specs.Runes.{balances_at, brought_of, burn, dealt_by};
ghost use Rattle.ox_ledger.specs.Runes.{end, pool_with, place, place_all};
ghost use Rattle.ox_ledger.specs.Runes.{placements, premine_of, turn, with_mint};
ghost use Rattle.ox_ledger.specs.Steps.{CanBurn, CanPlace, CanPlaceAll, CanTakeUp, CanTurn};
ghost use Rattle.ox_ledger.specs.Steps.{HoldAmounts, dealt_without, given_out};
ghost use Rattle.ox_ledger.specs.Steps.{turn_without_stone, without_brought};
ghost use Rattle.ox_ledger.specs.Tables.{mark_of, nothing, runes_of};

use crate::artifact::{count_of, etching_by, mint_by, stone_at};
use crate::holders::{
    Holders, Placement, amount_in, are_free, balances_at, changed, empty, fill, fill_free, gather,
};
use crate::list::MarkedList;
use crate::part::RunePart;
use crate::table::RuneTable;
use ox_allocation::{Allocated, Balances, Pool, allocate};
use ox_block::{OutPoint, Tx, TxOut, Txid};
use ox_bytes::{List, Memory};
use ox_etching::{RuneRow, Spot};
use ox_marked::Marked;
use ox_rules::SpentRows;
use ox_runestone::{Artifact, RuneId, decipher};
use std::alloc::Global;

/// What outputs hold, the runes, and what is due to the outputs of a block's coinbase.
#[derive(Drop)]
pub(crate) struct Tables {
    pub(crate) holders: Holders,
    pub(crate) runes: RuneTable,
    pub(crate) due: MarkedList<Placement>,
}

impl Tables {
    /// No runes, and no mark.
    pub(crate) fn new(alloc: Global) -> Tables
        ensures now { runes_of result ≡ nothing }
        ensures mark { mark_of result ≡ None }
    {
        Tables {
            holders: Marked::new(alloc),
            runes: RuneTable::new(alloc),
            due: MarkedList::new(alloc),
        }
    }

    /// Sets the mark at the tables as they are.
    pub(crate) fn begin(&mut self)
        ensures now { runes_of self.new ≡ runes_of self.old }
        ensures mark { mark_of self.new ≡ Some (runes_of self.old) }
    {
        self.holders.begin();
        self.runes.begin();
        self.due.begin();
    }

    /// Goes back to the mark, which is spent.
    pub(crate) fn cancel(&mut self)
        requires { IsSome (mark_of self.old) }
        ensures now { mark_of self.old ≡ Some (runes_of self.new) }
        ensures mark { mark_of self.new ≡ None }
    {
        self.holders.cancel();
        self.runes.cancel();
        self.due.cancel();
    }

    /// Goes back to the mark, which stays.
    pub(crate) fn restore(&mut self)
        requires { IsSome (mark_of self.old) }
        ensures now { mark_of self.old ≡ Some (runes_of self.new) }
        ensures mark { mark_of self.new ≡ mark_of self.old }
    {
        self.holders.restore();
        self.runes.restore();
        self.due.restore();
    }

    /// Goes back to the mark, which stays; without a mark there are no runes then.
    pub(crate) fn fall_back(&mut self, alloc: Global, marked: bool)
        requires { marked ≡ is_some (mark_of self.old) }
        ensures now { runes_of self.new ≡ unwrap_or (mark_of self.old) nothing }
        ensures mark { mark_of self.new ≡ mark_of self.old }
    {
        if marked {
            self.restore();
        } else {
            *self = Tables::new(alloc);
        }
    }

    /// The runes that an output holds.
    pub(crate) fn balance(&self, at: &OutPoint) -> &[(RuneId, u128)]
        ensures { result.now ≡ balances_at (runes_of self.now).bal at.now }
    {
        balances_at(&self.holders, at)
    }

    /// How much of a rune is due to a coinbase's outputs.
    pub(crate) fn due_of(&self, id: RuneId) -> u128
        requires { amount_held (map (λ new. new.1) (runes_of self.now).due) id < 2 ^ 128 }
        ensures { result ≡ amount_held (map (λ new. new.1) (runes_of self.now).due) id }
    {
        let mut amount = 0;
        for place in 0..self.due.len() {
            let (_, balances) = self.due.get(place);
            amount += amount_in(balances.as_slice(), id);
        }
        amount
    }

    /// Makes an output with these runes. What still stands at its outpoint is burned.
    fn place(&mut self, at: OutPoint, balances: Balances) -> Result<(), Memory>
        requires { CanPlace (runes_of self.old) at }
        ensures ok { OnOk result
            (runes_of self.new ≡ place (runes_of self.old) (at, balances)) }
        ensures mark { mark_of self.new ≡ mark_of self.old }
    {
        let Some(displaced) = self.holders.get(&at) else {
            return fill_free(&mut self.holders, at, balances);
        };
        self.runes.burn(displaced.as_slice())?;
        fill(&mut self.holders, at, balances)
    }

    /// Makes outputs with these runes, in order.
    fn place_all(&mut self, new: Vec<Placement>) -> Result<(), Memory>
        requires { CanPlaceAll (runes_of self.old) new.items }
        ensures ok { OnOk result (runes_of self.new ≡ place_all (runes_of self.old) new.items) }
        ensures mark { mark_of self.new ≡ mark_of self.old }
    {
        for (at, balances) in new {
            self.place(at, balances)?;
        }
        Ok(())
    }

    /// Keeps the runes of a coinbase's outputs until its block ends.
    fn owe(&mut self, new: Vec<Placement>) -> Result<(), Memory>
        ensures ok { OnOk result (runes_of self.new
            ≡ record (runes_of self.old) { due = (runes_of self.old).due ++ new.items }) }
        ensures mark { mark_of self.new ≡ mark_of self.old }
    {
        for placement in new {
            self.due.push(placement)?;
        }
        Ok(())
    }

    /// Makes a transaction's outputs with what each is given.
    fn place_given(&mut self, id: Txid, given: List<Balances>) -> Result<(), Memory>
        requires count { length given < 2 ^ 32 }
        requires displaced { CanPlaceAll (runes_of self.old) (placements id 0 given) }
        ensures ok { OnOk result
            (runes_of self.new ≡ place_all (runes_of self.old) (placements id 0 given)) }
        ensures mark { mark_of self.new ≡ mark_of self.old }
    {
        let mut index = 0;
        for balances in given.into_vec() {
            self.place(OutPoint { txid: id, index }, balances)?;
            index += 1;
        }
        Ok(())
    }

    /// Makes the outputs of a transaction, those of a coinbase when its block ends.
    fn settle(
        &mut self,
        alloc: Global,
        tx: u32,
        id: Txid,
        given: List<Balances>,
    ) -> Result<(), Memory>
        requires count { length given < 2 ^ 32 }
        requires displaced { tx ≢ 0 → CanPlaceAll (runes_of self.old) (placements id 0 given) }
        ensures ok { OnOk result (runes_of self.new
            ≡ (if tx == 0
            then record (runes_of self.old) {
              due = (runes_of self.old).due ++ placements id 0 given;
            }
            else place_all (runes_of self.old) (placements id 0 given))) }
        ensures mark { mark_of self.new ≡ mark_of self.old }
    {
        if tx == 0 {
            let new = placements(alloc, id, given)?;
            self.owe(new)
        } else {
            self.place_given(id, given)
        }
    }

    /// Takes a mint and an etching up: the mint counts, the rune is appended, and the mint's amount
    /// and the premine join the pool.
    fn take_up(
        &mut self,
        pool: &mut Pool,
        mint: Option<(RuneId, u128)>,
        etching: Option<RuneRow>,
    ) -> Result<(), Memory>
        requires { CanTakeUp (runes_of self.old).runes pool.old mint etching }
        ensures runes { OnOk result (runes_of self.new ≡ record (runes_of self.old) {
          runes = with_mint (runes_of self.old).runes mint ++ as_list etching;
        }) }
        ensures pool { OnOk result (pool.new
            ≡ pool_with (pool_with pool.old mint) (option_map premine_of etching)) }
        ensures mark { mark_of self.new ≡ mark_of self.old }
    {
        if let Some((id, amount)) = mint {
            self.runes.mint(id)?;
            pool.add(id, amount)?;
        }
        if let Some(row) = etching {
            self.runes.push(row)?;
            pool.add(row.id, row.premine)?;
        }
        Ok(())
    }

    /// What the inputs of a transaction bring; those of a coinbase bring nothing.
    fn bring(&mut self, alloc: Global, tx: u32, body: &Tx) -> Result<Pool, Memory>
        requires { HoldAmounts (runes_of self.old).bal }
        ensures pool { IfOk result (λ pool.
            pool ≡ (brought_of tx body.now (runes_of self.old).bal).pool) }
        ensures left { OnOk result (runes_of self.new ≡ record (runes_of self.old) {
          bal = (brought_of tx body.now (runes_of self.old).bal).bal;
        }) }
        ensures mark { mark_of self.new ≡ mark_of self.old }
    {
        if tx == 0 {
            return Ok(Pool::new(alloc));
        }
        gather(alloc, &mut self.holders, body.inputs.as_slice())
    }

    /// Counts what is burned of a pool that is dealt, and gives the outputs the rest, those of a
    /// coinbase when its block ends.
    fn give(&mut self, alloc: Global, tx: u32, id: Txid, dealt: Allocated) -> Result<(), Memory>
        requires count { length dealt.given < 2 ^ 32 }
        requires burned { All (CanBurn dealt.burned) (runes_of self.old).runes }
        requires displaced { tx ≢ 0 → CanPlaceAll
            (record (runes_of self.old) { runes = burn dealt.burned (runes_of self.old).runes })
            (placements id 0 dealt.given) }
        ensures ok { OnOk result
            (runes_of self.new ≡ given_out tx id (runes_of self.old) dealt.given dealt.burned) }
        ensures mark { mark_of self.new ≡ mark_of self.old }
    {
        self.runes.burn(dealt.burned.as_slice())?;
        self.settle(alloc, tx, id, dealt.given)
    }

    /// One transaction without a runestone: its outputs get what its inputs bring.
    fn turn_without_stone(
        &mut self,
        alloc: Global,
        tx: u32,
        id: Txid,
        body: &Tx,
    ) -> Result<(), Memory>
        requires brings { HoldAmounts (runes_of self.old).bal }
        requires burned { All (CanBurn (dealt_without tx body.now (runes_of self.old)).burned)
            (runes_of self.old).runes }
        requires displaced { tx ≢ 0 → CanPlaceAll
            (record (without_brought tx body.now (runes_of self.old)) {
              runes = burn (dealt_without tx body.now (runes_of self.old)).burned
                  (runes_of self.old).runes;
            })
            (placements id 0 (dealt_without tx body.now (runes_of self.old)).given) }
        ensures ok { OnOk result
            (runes_of self.new ≡ turn_without_stone tx id body.now (runes_of self.old)) }
        ensures mark { mark_of self.new ≡ mark_of self.old }
    {
        let pool = self.bring(alloc, tx, body)?;
        let outputs = body.outputs.as_slice();
        let count = count_of(outputs)?;
        if pool.is_empty() && tx != 0 && are_free(&self.holders, id, count) {
            return Ok(());
        }
        let dealt = allocate(alloc, pool, &[], None, None, outputs)?;
        self.give(alloc, tx, id, dealt)
    }

    /// One transaction in its block, which spends these rows. After `Memory` a part of it may be
    /// done.
    pub(crate) fn turn(
        &mut self,
        alloc: Global,
        at: Spot,
        body: &Tx,
        spent: &SpentRows,
    ) -> Result<(), Memory>
        requires { CanTurn at body.now spent.now (runes_of self.old) }
        ensures ok { OnOk result
            (runes_of self.new ≡ turn at body.now spent.now (runes_of self.old)) }
        ensures mark { mark_of self.new ≡ mark_of self.old }
    {
        let tx = at.tx;
        let id = at.txid;
        let Some(script) = stone_at(&at.profile, at.height, body) else {
            return self.turn_without_stone(alloc, tx, id, body);
        };
        let outputs = body.outputs.as_slice();
        let count = count_of(outputs)?;
        let artifact = decipher(alloc, script, count)?;
        let mint = mint_by(&self.runes, at.height, &artifact);
        let etching = etching_by(&self.runes, at, body, spent, &artifact);
        let mut pool = self.bring(alloc, tx, body)?;
        self.take_up(&mut pool, mint, etching)?;
        if pool.is_empty() && tx != 0 && are_free(&self.holders, id, count) {
            return Ok(());
        }
        let etched = id_of(&etching);
        let dealt = deal(alloc, artifact, pool, etched, outputs)?;
        self.give(alloc, tx, id, dealt)
    }

    /// What of the change since the mark is about runes.
    pub(crate) fn changed(&self, alloc: Global) -> Result<RunePart, Memory>
        requires mark { IsSome (mark_of self.now) }
        requires continues { IfSome (mark_of self.now)
            (λ before. Continues before.runes (runes_of self.now).runes) }
        ensures { IfOk result (λ part. IfSome (mark_of self.now)
            (λ before. IsPart before (runes_of self.now) part)) }
    {
        let exchange = changed(alloc, &self.holders)?;
        Ok(RunePart {
            before: exchange.gone,
            after: exchange.came,
            counts: self.runes.counts_changed(alloc)?,
            appended: self.runes.appended(alloc)?,
        })
    }

    /// Takes away what some outputs hold, and gives others these runes.
    fn exchange(
        &mut self,
        alloc: Global,
        gone: &[Placement],
        came: &[Placement],
    ) -> Result<(), Memory>
        requires { All (λ new. new.1 ≢ []) came.now }
        ensures ok { OnOk result (runes_of self.new ≡ record (runes_of self.old) {
          bal = with_rows (without_rows (runes_of self.old).bal gone.now) came.now;
        }) }
        ensures mark { mark_of self.new ≡ mark_of self.old }
    {
        for (at, _) in gone.iter().rev() {
            empty(&mut self.holders, at)?;
        }
        for (at, balances) in came.iter().rev() {
            fill(&mut self.holders, *at, balances.copy(alloc)?)?;
        }
        Ok(())
    }

    /// Goes to the state before a part, from the one after it.
    pub(crate) fn back(&mut self, alloc: Global, part: &RunePart) -> Result<(), Memory>
        requires { Ends part.now (runes_of self.old) }
        ensures ok { OnOk result (runes_of self.new ≡ earlier_end (runes_of self.old) part.now) }
        ensures mark { mark_of self.new ≡ mark_of self.old }
    {
        self.due.cut(0);
        self.exchange(alloc, part.after.as_slice(), part.before.as_slice())?;
        let count = self.runes.len() - part.appended.len() as u32;
        self.runes.keep_first(count)?;
        self.runes.recount_all(part.counts.as_slice(), true)
    }

    /// Goes to the state after a part, from the one before it.
    pub(crate) fn again(&mut self, alloc: Global, part: &RunePart) -> Result<(), Memory>
        requires { Begins part.now (runes_of self.old) }
        ensures ok { OnOk result (runes_of self.new ≡ later_end (runes_of self.old) part.now) }
        ensures mark { mark_of self.new ≡ mark_of self.old }
    {
        self.due.cut(0);
        self.exchange(alloc, part.before.as_slice(), part.after.as_slice())?;
        self.runes.recount_all(part.counts.as_slice(), false)?;
        self.runes.push_all(part.appended.as_slice())
    }

    /// The end of a block: what is due to its coinbase's outputs is placed. After `Memory` a part
    /// of that may be done.
    pub(crate) fn end(&mut self, alloc: Global) -> Result<(), Memory>
        requires { CanPlaceAll (runes_of self.old) (runes_of self.old).due }
        ensures ok { OnOk result (runes_of self.new ≡ end (runes_of self.old)) }
        ensures mark { mark_of self.new ≡ mark_of self.old }
    {
        let due = copies(alloc, &self.due)?;
        self.due.cut(0);
        self.place_all(due)
    }
}

/// What is in a list, once more.
fn copies(alloc: Global, list: &MarkedList<Placement>) -> Result<Vec<Placement>, Memory>
    ensures { IfOk result (λ copies. copies.items ≡ list.now.now) }
{
    let mut copies = Vec::new(alloc);
    for place in 0..list.len() {
        let (at, balances) = list.get(place);
        copies.push((*at, balances.copy(alloc)?))?;
    }
    Ok(copies)
}

/// The id of a rune that is etched.
fn id_of(etching: &Option<RuneRow>) -> Option<RuneId>
    ensures { result ≡ option_map (λ row. row.id) etching.now }
{
    match etching {
        Some(row) => Some(row.id),
        None => None,
    }
}

/// The outputs of a transaction with what each is given.
fn placements(alloc: Global, id: Txid, given: List<Balances>) -> Result<Vec<Placement>, Memory>
    requires { length given < 2 ^ 32 }
    ensures { IfOk result (λ new. new.items ≡ placements id 0 given) }
{
    let mut new = Vec::with_capacity(alloc, given.len())?;
    let mut index = 0;
    for balances in given.into_vec() {
        new.push((OutPoint { txid: id, index }, balances))?;
        index += 1;
    }
    Ok(new)
}

/// Deals a pool as an artifact says.
fn deal(
    alloc: Global,
    artifact: Artifact,
    pool: Pool,
    etching: Option<RuneId>,
    outputs: &[TxOut],
) -> Result<Allocated, Memory>
    requires { StoneCanCome (length outputs.now) artifact }
    ensures given { IfOk result (λ dealt.
        dealt.given ≡ (dealt_by (Some artifact) pool etching outputs.now).given) }
    ensures burned { IfOk result (λ dealt.
        dealt.burned ≡ (dealt_by (Some artifact) pool etching outputs.now).burned) }
{
    match artifact {
        Artifact::Stone(stone) => allocate(
            alloc,
            pool,
            stone.edicts.as_slice(),
            etching,
            stone.pointer,
            outputs,
        ),
        Artifact::Cenotaph { .. } => Ok(Allocated {
            given: nothing_each(alloc, outputs)?,
            burned: pool.into_balances(alloc)?,
        }),
    }
}

/// No runes for each output.
fn nothing_each(alloc: Global, outputs: &[TxOut]) -> Result<List<Balances>, Memory>
    ensures { IfOk result (λ given. given ≡ map (λ output. []) outputs.now) }
{
    let mut given = List::new(alloc);
    for _ in outputs {
        given.push(Balances::empty(alloc))?;
    }
    Ok(given)
}
