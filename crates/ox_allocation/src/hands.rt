//! What outputs have been given.

ghost use Rattle.std.specs.Prelude.{◌≡◌, ◌+◌, ◌^◌, ◌<◌, length, IfOk, OnOk, OnErr};
ghost use Rattle.ox_allocation.specs.Balances.{amount_in};
ghost use Rattle.std.specs.List.{AllByRecursion};
ghost use Rattle.ox_allocation.specs.Dealing.{empty_hands, Fits, gifts_for, hand, owed_to};
ghost use Rattle.ox_allocation.specs.Dealing.{same_to, with_all, with_gift, with_gifts};
ghost use Rattle.ox_allocation.specs.Gifts.{amount_given};

use crate::allocation::Allocated;
use crate::balances::{Balances, Pool};
use crate::rune_amounts::Amounts;
use ox_block::TxOut;
use ox_bytes::{List, Memory};
use ox_runestone::RuneId;
use ox_script::is_return;
use std::alloc::Global;
use std::marker::Model;

/// The outputs, the runes that they have been given so far, and those that are burned. Contracts
/// see the outputs, and the lists of ids and amounts.
#[derive(Drop)]
pub(crate) struct Hands<'a> {
    outputs: &'a [TxOut],
    /// What each output has been given, in the outputs' order.
    given: Vec<Pool>,
    burned: Pool,
}

impl<'a> Model for Hands<'a> {
    ghost use Rattle.std.specs.Prelude.{◌≡◌, length};
    ghost use Rattle.ox_allocation.specs.Dealing.{Held};

    ghost Value = { Held };

    ghost view = { λ held. record {
      outputs = held.outputs.now;
      hands = record { given = held.given.items; burned = held.burned };
    } };

    ghost invariant = { λ held. length held.given.items ≡ length held.outputs.now };
}

impl<'a> Hands<'a> {
    /// Nothing given to these outputs. `Memory` where there is none for a hand for each.
    pub(crate) fn empty(alloc: Global, outputs: &'a [TxOut]) -> Result<Hands<'a>, Memory>
        ensures { IfOk result (λ held. held ≡ record {
          outputs = outputs.now;
          hands = empty_hands (length outputs.now);
        }) }
    {
        let count = outputs.len();
        let mut given = Vec::with_capacity(alloc, count)?;
        for _ in 0..count {
            given.push(Pool::new(alloc))?;
        }
        Ok(Hands {
            outputs,
            given,
            burned: Pool::new(alloc),
        })
    }

    /// How many outputs there are.
    pub(crate) fn count(&self) -> usize
        ensures { result ≡ length self.now.outputs }
    {
        self.outputs.len()
    }

    /// Gives so much of a rune to the output at a place. What an output with OP_RETURN is given is
    /// burned.
    pub(crate) fn give(&mut self, place: usize, id: RuneId, amount: u128) -> Result<(), Memory>
        requires place { place < length self.old.outputs }
        requires given { amount_in (hand self.old.hands place) id + amount < 2 ^ 128 }
        requires burned { amount_in self.old.hands.burned id + amount < 2 ^ 128 }
        ensures ok { OnOk result (self.new ≡ record self.old {
          hands = with_gift self.old.outputs self.old.hands
              (record { output = place; id = id; amount = amount });
        }) }
        ensures err { OnErr result (self.new ≡ self.old) }
    {
        let outputs = self.outputs;
        if is_return(outputs[place].script.as_slice()) {
            self.burned.add(id, amount)
        } else {
            self.given[place].add(id, amount)
        }
    }

    /// Gives so much of a rune to each of the outputs at these places.
    fn give_same(&mut self, places: &[usize], id: RuneId, amount: u128) -> Result<(), Memory>
        requires places { AllByRecursion (λ place. place < length self.old.outputs) places.now }
        requires fits { Fits (λ rune. amount_given rune (same_to id amount places.now))
            self.old.hands }
        ensures { OnOk result (self.new ≡ record self.old {
          hands = with_gifts self.old.outputs self.old.hands (same_to id amount places.now);
        }) }
    {
        for place in places {
            self.give(*place, id, amount)?;
        }
        Ok(())
    }

    /// Gives these runes to each of the outputs at these places.
    pub(crate) fn give_each(&mut self, places: &[usize], mut runes: Amounts) -> Result<(), Memory>
        requires places { AllByRecursion (λ place. place < length self.old.outputs) places.now }
        requires fits { Fits (λ rune. amount_given rune (owed_to places.now runes))
            self.old.hands }
        ensures { OnOk result (self.new ≡ record self.old {
          hands = with_gifts self.old.outputs self.old.hands (owed_to places.now runes);
        }) }
    {
        while let Some((id, amount)) = runes.pop_first() {
            self.give_same(places, id, amount)?;
        }
        Ok(())
    }

    /// Gives these runes to the output at a place.
    pub(crate) fn give_all(&mut self, place: usize, mut runes: Amounts) -> Result<(), Memory>
        requires place { place < length self.old.outputs }
        requires fits { Fits (amount_in runes) self.old.hands }
        ensures { OnOk result (self.new ≡ record self.old {
          hands = with_gifts self.old.outputs self.old.hands (gifts_for place runes);
        }) }
    {
        while let Some((id, amount)) = runes.pop_first() {
            self.give(place, id, amount)?;
        }
        Ok(())
    }

    /// Burns these runes.
    pub(crate) fn burn_all(&mut self, mut runes: Amounts) -> Result<(), Memory>
        requires { Fits (amount_in runes) self.old.hands }
        ensures { OnOk result (self.new ≡ record self.old {
          hands = record self.old.hands { burned = with_all self.old.hands.burned runes };
        }) }
    {
        while let Some((id, amount)) = runes.pop_first() {
            self.burned.add(id, amount)?;
        }
        Ok(())
    }

    /// What each output has, and what is burned, as outputs hold them.
    pub(crate) fn into_allocated(self, alloc: Global) -> Result<Allocated, Memory>
        ensures given { IfOk result (λ allocated. allocated.given ≡ self.entry.hands.given) }
        ensures burned { IfOk result (λ allocated. allocated.burned ≡ self.entry.hands.burned) }
    {
        Ok(Allocated {
            given: balances_of(alloc, self.given)?,
            burned: self.burned.into_balances(alloc)?,
        })
    }
}

/// What is in each of these pools, as outputs hold it.
fn balances_of(alloc: Global, pools: Vec<Pool>) -> Result<List<Balances>, Memory>
    ensures { IfOk result (λ balances. balances ≡ pools.items) }
{
    let mut balances = List::from_vec(Vec::with_capacity(alloc, pools.len())?);
    for pool in pools {
        balances.push(pool.into_balances(alloc)?)?;
    }
    Ok(balances)
}
