//! A pool while it is dealt.

ghost use Rattle.std.specs.Prelude.{◌≡◌, ◌≤◌, ◌<◌, ◌*◌, [], ◌∷◌, length, OnOk, IfOk};
ghost use Rattle.std.specs.Option.{ForSome};
ghost use Rattle.ox_allocation.specs.Balances.{amount_in};
ghost use Rattle.std.specs.List.{AllByRecursion};
ghost use Rattle.ox_allocation.specs.Dealing.{empty_hands, Gives, IsPool, with_rest};
ghost use Rattle.ox_allocation.specs.Gifts.{given_by, gifts_by, gifts_of_all, gifts_to};
ghost use Rattle.ox_allocation.specs.Gifts.{holders as holders_in, parts_of, rune_of};

use crate::hands::Hands;
use crate::parts::{Parts, sum_for_each};
use crate::rune_amounts::Amounts;
use ox_block::TxOut;
use ox_bytes::Memory;
use ox_runestone::{Edict, RuneId};
use ox_script::is_return;
use std::alloc::Global;
use std::marker::Model;

/// The places of the outputs that can hold runes, which those that begin with OP_RETURN can't.
pub(crate) fn holders_of(alloc: Global, outputs: &[TxOut]) -> Result<Vec<usize>, Memory>
    ensures { IfOk result (λ places. places.items ≡ holders_in outputs.now) }
{
    let mut holders = Vec::with_capacity(alloc, outputs.len())?;
    for (place, output) in outputs.iter().enumerate() {
        if !is_return(output.script.as_slice()) {
            holders.push(place)?;
        }
    }
    Ok(holders)
}

/// The rune that an edict names: 0:0 is the one that is etched here, if any.
fn rune_of(etched: Option<RuneId>, id: RuneId) -> Option<RuneId>
    ensures { result ≡ rune_of etched id }
{
    if id.block == 0 && id.tx == 0 {
        etched
    } else {
        Some(id)
    }
}

/// A pool while it is dealt: what is left of each rune, what the outputs have been given, the
/// places of those that can hold runes, and what each of these is owed. Contracts see the first
/// two, as if all were paid.
#[derive(Drop)]
pub(crate) struct Deal<'a> {
    left: Amounts,
    hands: Hands<'a>,
    holders: &'a [usize],
    /// So much is each output that can hold runes to be given, beside what is in its hand.
    owed: Amounts,
}

impl<'a> Model for Deal<'a> {
    ghost use Rattle.std.specs.Prelude.{◌≡◌};
    ghost use Rattle.ox_allocation.specs.Balances.{amount_in};
    ghost use Rattle.ox_allocation.specs.Dealing.{IsDealt, Stage, owed_to, with_gifts};

    ghost Value = { Stage };

    ghost view = { λ deal. record {
      outputs = deal.hands.outputs;
      left = deal.left;
      hands = with_gifts deal.hands.outputs deal.hands.hands
          (owed_to deal.holders.now deal.owed);
    } };

    ghost invariant = { λ deal.
        IsDealt (amount_in deal.left) deal.hands deal.holders.now deal.owed };
}

impl<'a> Deal<'a> {
    /// A pool of which nothing has been given yet, for outputs of which these can hold runes.
    pub(crate) fn new(
        alloc: Global,
        left: Amounts,
        hands: Hands<'a>,
        holders: &'a [usize],
    ) -> Deal<'a>
        requires left { IsPool left }
        requires hands { hands.hands ≡ empty_hands (length hands.outputs) }
        requires holders { holders.now ≡ holders_in hands.outputs }
        ensures outputs { result.outputs ≡ hands.entry.outputs }
        ensures left { result.left ≡ left }
        ensures hands { result.hands ≡ hands.entry.hands }
    {
        Deal {
            left,
            hands,
            holders,
            owed: Amounts::new(alloc),
        }
    }

    /// How much is left of a rune.
    fn left(&self, id: RuneId) -> u128
        ensures { result ≡ amount_in self.now.left id }
    {
        self.left.amount(id)
    }

    /// Gives so much of a rune to the output at a place.
    fn give(&mut self, place: usize, id: RuneId, amount: u128) -> Result<(), Memory>
        requires place { place < length self.old.outputs }
        requires amount { amount ≤ amount_in self.old.left id }
        ensures { OnOk result (Gives self.old self.new
            (record { output = place; id = id; amount = amount } ∷ [])) }
    {
        self.hands.give(place, id, amount)?;
        self.left.spend(id, amount);
        Ok(())
    }

    /// Deals a rune to the outputs at these places: with amount 0 all that is left, evenly, else
    /// so much to each while it lasts.
    fn deal(&mut self, places: &[usize], id: RuneId, amount: u128) -> Result<(), Memory>
        requires { AllByRecursion (λ place. place < length self.old.outputs) places.now }
        ensures { OnOk result (Gives self.old self.new
            (gifts_to id places.now (parts_of amount (amount_in self.old.left id)
            (length places.now)))) }
    {
        if places.is_empty() {
            return Ok(());
        }
        let mut parts = Parts::new(amount, self.left(id), places.len());
        for place in places {
            let part = parts.take_next();
            self.give(*place, id, part)?;
        }
        Ok(())
    }

    /// Deals a rune to all outputs that can hold runes: with amount 0 all that is left, evenly,
    /// else so much to each while it lasts. Where it lasts for all, each is owed so much more, so
    /// that outputs are gone over only where a rune runs out.
    fn deal_to_all(&mut self, id: RuneId, amount: u128) -> Result<(), Memory>
        ensures { OnOk result (Gives self.old self.new
            (gifts_of_all self.old.outputs id amount (amount_in self.old.left id))) }
    {
        let holders = self.holders;
        let left = self.left(id);
        match sum_for_each(amount, holders.len(), left) {
            Some(sum) => self.owe(id, amount, sum),
            None if left == 0 => Ok(()),
            None => self.deal(holders, id, amount),
        }
    }

    /// Owes all outputs that can hold runes so much more of a rune, which comes to this sum.
    fn owe(&mut self, id: RuneId, amount: u128, sum: u128) -> Result<(), Memory>
        requires sum { sum ≡ length (holders_in self.old.outputs) * amount }
        requires some { 0 < sum }
        requires enough { sum ≤ amount_in self.old.left id }
        ensures { OnOk result (Gives self.old self.new
            (gifts_of_all self.old.outputs id amount (amount_in self.old.left id))) }
    {
        self.owed.add(id, amount)?;
        self.left.spend(id, sum);
        Ok(())
    }

    /// Does what the edicts say, one after the other.
    pub(crate) fn follow_all(
        &mut self,
        etched: Option<RuneId>,
        edicts: &[Edict],
    ) -> Result<(), Memory>
        ensures { OnOk result (Gives self.old self.new
            (given_by self.old.outputs etched edicts.now (amount_in self.old.left))) }
    {
        for edict in edicts {
            self.follow(etched, edict)?;
        }
        Ok(())
    }

    /// Does what an edict says.
    fn follow(&mut self, etched: Option<RuneId>, edict: &Edict) -> Result<(), Memory>
        ensures { OnOk result (Gives self.old self.new
            (gifts_by self.old.outputs edict.now (amount_in self.old.left)
            (rune_of etched edict.now.id))) }
    {
        let Some(id) = rune_of(etched, edict.id) else {
            return Ok(());
        };
        let output = edict.output as usize;
        if output < self.hands.count() {
            self.deal(&[output], id, edict.amount)
        } else {
            self.deal_to_all(id, edict.amount)
        }
    }

    /// Gives each output what it is owed, and what is left to the output at the heir's place, or
    /// burns it where there is none.
    pub(crate) fn give_rest(self, heir: Option<usize>) -> Result<Hands<'a>, Memory>
        requires { ForSome heir (λ place. place < length self.outputs) }
        ensures { IfOk result (λ held.
            held.hands ≡ with_rest self.entry.outputs self.entry.hands heir self.entry.left) }
    {
        let Deal {
            left,
            mut hands,
            holders,
            owed,
        } = self;
        hands.give_each(holders, owed)?;
        match heir {
            Some(place) => hands.give_all(place, left)?,
            None => hands.burn_all(left)?,
        }
        Ok(hands)
    }
}
