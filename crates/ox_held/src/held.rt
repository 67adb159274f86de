//! What some outputs hold.

ghost use Rattle.std.specs.Prelude.{◌≡◌, ◌+◌, ◌^◌, ◌<◌, List as Seen, [], ◌∷◌, length, IfOk, OnOk};
ghost use Rattle.std.specs.List.Sorted.{IsStrictlySortedBy};
ghost use Rattle.ox_block.specs.declared.block.OutPoint.{OutPoint as Place};
ghost use Rattle.ox_rules.specs.Outputs.{outpoint_cmp};
ghost use Rattle.ox_runestone.specs.declared.stone.RuneId.{RuneId as Id};
ghost use Rattle.ox_allocation.specs.Balances.{amount_in, id_cmp, ids_of};
ghost use Rattle.ox_ledger.specs.Runes.{balances_at, joined_with};
ghost use Rattle.ox_model.specs.Index.{Index};
ghost use Rattle.ox_held.specs.Gathered.{AddsOutput, AddsSats, Gathers, IsBlank};
ghost use Rattle.ox_held.specs.Held.{held_at, sats_at};

use crate::sequences::{append_on, rising};
use ox_allocation::{Balances, Pool};
use ox_block::OutPoint;
use ox_bytes::{List, Memory};
use ox_model::{OutRow, RuneId, View};
use std::alloc::Global;

/// What some outputs hold together.
pub struct Held {
    /// How many satoshis.
    pub value: u64,
    /// How much of each rune, ids rising, no amount 0.
    pub runes: Balances,
    /// The sequences of the inscriptions on the satoshis, rising.
    pub inscriptions: List<u32>,
}

/// By hand, so that whoever drops it makes one call, and proves nothing of its lists.
impl Drop for Held {
    fn drop(self) {
        let Held {
            value: _,
            runes: _runes,
            inscriptions: _inscriptions,
        } = self;
    }
}

/// What the outputs hold that were looked up so far.
#[derive(Drop)]
struct Gathered {
    value: u64,
    runes: Pool,
    /// Output by output, and satoshi by satoshi.
    sequences: Vec<u32>,
}

/// Adds balances to a pool. `Memory` where there is none for them.
fn join(pool: &mut Pool, balances: &[(RuneId, u128)]) -> Result<(), Memory>
    requires fits { (id : Id) → amount_in pool.old id + amount_in balances.now id < 2 ^ 128 }
    requires proper { IsStrictlySortedBy id_cmp (ids_of balances.now) }
    ensures { OnOk result (pool.new ≡ joined_with pool.old balances.now) }
{
    for (id, amount) in balances {
        pool.add(*id, *amount)?;
    }
    Ok(())
}

impl Gathered {
    /// Nothing yet. It takes no memory.
    fn new(alloc: Global) -> Gathered
        ensures { IsBlank result }
    {
        Gathered {
            value: 0,
            runes: Pool::new(alloc),
            sequences: Vec::new(alloc),
        }
    }

    /// With the satoshis of an output more, and the inscriptions on them.
    fn add_row<V: View>(&mut self, live: &V, row: &OutRow) -> Result<(), Memory>
        requires { self.old.value + length row.now.sats < 2 ^ 64 }
        ensures { OnOk result (AddsSats (V.index live.now) row.now.sats self.old self.new) }
    {
        let count = row.sats.len();
        self.value += count;
        append_on(&mut self.sequences, live, row.sats.runs())
    }

    /// With the satoshis of the output at an outpoint more, and the inscriptions on them.
    fn add_sats<V: View>(&mut self, live: &V, at: &OutPoint) -> Result<(), Memory>
        requires { self.old.value
            + length (sats_at (V.index live.now).outs (at.now ∷ [])) < 2 ^ 64 }
        ensures { OnOk result (AddsSats (V.index live.now)
            (sats_at (V.index live.now).outs (at.now ∷ [])) self.old self.new) }
    {
        match live.output(at) {
            Some(row) => self.add_row(live, row),
            None => Ok(()),
        }
    }

    /// With what the output at an outpoint holds. `Memory` where there is none for it.
    fn add<V: View>(&mut self, live: &V, at: &OutPoint) -> Result<(), Memory>
        requires sats { self.old.value
            + length (sats_at (V.index live.now).outs (at.now ∷ [])) < 2 ^ 64 }
        requires runes { (id : Id) → amount_in self.old.runes id
            + amount_in (balances_at (V.index live.now).bal at.now) id < 2 ^ 128 }
        ensures { OnOk result (AddsOutput (V.index live.now) at.now self.old self.new) }
    {
        self.add_sats(live, at)?;
        join(&mut self.runes, live.balance(at))
    }

    /// The same, with the sequences in order. `Memory` where there is none for it.
    fn into_held(self, alloc: Global) -> Result<Held, Memory>
        ensures { (index : Index) (places : Seen Place) → Gathers index places [] self
            → IfOk result (λ held. held ≡ held_at index places) }
    {
        let Gathered {
            value,
            runes,
            sequences,
        } = self;
        Ok(Held {
            value,
            runes: runes.into_balances(alloc)?,
            inscriptions: rising(sequences),
        })
    }
}

/// What the outputs at these outpoints hold, which rise, so that none counts twice. `Memory` where
/// there is none for it.
pub fn held_at<V: View>(alloc: Global, live: &V, places: &[OutPoint]) -> Result<Held, Memory>
    requires { IsStrictlySortedBy outpoint_cmp places.now }
    ensures { IfOk result (λ held. held ≡ held_at (V.index live.now) places.now) }
{
    let mut gathered = Gathered::new(alloc);
    for at in places {
        gathered.add(live, at)?;
    }
    gathered.into_held(alloc)
}
