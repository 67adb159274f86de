//! Amounts of runes, as outputs hold them and as a transaction gathers them.

ghost use Rattle.std.specs.Prelude.{◌≡◌, ◌==◌, ◌+◌, ◌^◌, ◌<◌, [], length, OnOk, OnErr, IfOk};
ghost use Rattle.std.specs.Prelude.{IsTrue};
ghost use Rattle.std.specs.List.{AllByRecursion};
ghost use Rattle.std.specs.List.Sorted.{IsStrictlySortedBy};
ghost use Rattle.ox_allocation.specs.Kept.{runes_in};
ghost use Rattle.ox_allocation.specs.Balances.{amount_in, id_cmp, ids_of, with_more};
ghost use Rattle.ox_allocation.specs.Dealing.{IsPool};
ghost use Rattle.std.specs.declared.cmp.Ordering.TheVariants.{Less};

use crate::rune_amounts::Amounts;
use ox_bytes::Memory;
use ox_runestone::RuneId;
use smallvec::SmallVec;
use std::alloc::Global;
use std::cmp::Ordering;
use std::marker::Model;

/// The runes that an output holds: ids and amounts, ids rising, no amount 0. One rune takes no
/// memory of its own. Contracts see the list.
#[derive(Drop)]
pub struct Balances {
    items: SmallVec<(RuneId, u128), 1>,
}

impl Model for Balances {
    ghost use Rattle.std.specs.Prelude.{List};
    ghost use Rattle.ox_allocation.specs.Balances.{AreBalances, Balance};

    ghost Value = { List Balance };

    ghost view = { λ balances. balances.items.items };

    ghost invariant = { λ balances. AreBalances balances.items.items };
}

impl Balances {
    /// No runes. It takes no memory.
    #[tactic(auto, using(crate::proofs::BalanceLemmas::no_balances))]
    pub fn empty(alloc: Global) -> Balances
        ensures { result ≡ [] }
    {
        Balances {
            items: SmallVec::new(alloc),
        }
    }

    /// The ids and their amounts, by rising ids.
    pub fn as_slice(&self) -> &[(RuneId, u128)]
        ensures { result.now ≡ self.now }
    {
        &self.items
    }

    /// How many runes there are.
    pub fn len(&self) -> usize
        ensures { result ≡ length self.now }
    {
        self.items.len()
    }

    /// Whether there are none.
    pub fn is_empty(&self) -> bool
        ensures { result ≡ (length self.now == 0) }
    {
        self.items.is_empty()
    }

    /// The same runes once more. `Memory` where there is none for them.
    pub fn copy(&self, alloc: Global) -> Result<Balances, Memory>
        ensures { IfOk result (λ copy. copy ≡ self.now) }
    {
        let items = SmallVec::from_slice(alloc, &self.items)?;
        Ok(Balances { items })
    }
}

/// The runes that a transaction has to give: those of its inputs, its mint and its etching. One
/// rune takes no memory of its own. Contracts see the list of ids and amounts, ids rising, no
/// amount 0.
#[derive(Drop)]
pub struct Pool {
    alloc: Global,
    kept: Kept,
}

/// How a pool is kept.
#[derive(Drop)]
enum Kept {
    /// As an output holds runes, while they come by rising ids.
    Rising(SmallVec<(RuneId, u128), 1>),
    /// By their ids, once another one has come.
    ById(Amounts),
}

impl Model for Pool {
    ghost use Rattle.std.specs.Prelude.{List};
    ghost use Rattle.ox_allocation.specs.Kept.{runes_in};
    ghost use Rattle.ox_allocation.specs.Balances.{Balance};
    ghost use Rattle.ox_allocation.specs.Dealing.{IsPool};

    ghost Value = { List Balance };

    ghost view = { λ pool. runes_in pool.kept };

    ghost invariant = { λ pool. IsPool (runes_in pool.kept) };
}

impl Pool {
    /// No runes. It takes no memory.
    #[tactic(auto, using(crate::proofs::BalanceLemmas::no_pool))]
    pub fn new(alloc: Global) -> Pool
        ensures { result ≡ [] }
    {
        Pool {
            alloc,
            kept: Kept::Rising(SmallVec::new(alloc)),
        }
    }

    /// Whether there are no runes.
    pub fn is_empty(&self) -> bool
        ensures { result ≡ (length self.now == 0) }
    {
        match &self.kept {
            Kept::Rising(runes) => runes.is_empty(),
            Kept::ById(amounts) => amounts.is_empty(),
        }
    }

    /// How much of a rune there is.
    pub fn amount(&self, id: RuneId) -> u128
        ensures { result ≡ amount_in self.now id }
    {
        match &self.kept {
            Kept::Rising(runes) => amount_of(runes, id),
            Kept::ById(amounts) => amounts.amount(id),
        }
    }

    /// So much more of a rune. `Memory` where there is none left, and then nothing has changed.
    pub fn add(&mut self, id: RuneId, amount: u128) -> Result<(), Memory>
        requires { amount_in self.old id + amount < 2 ^ 128 }
        ensures ok { OnOk result (self.new ≡ with_more self.old id amount) }
        ensures err { OnErr result (self.new ≡ self.old) }
    {
        if amount == 0 {
            return Ok(());
        }
        self.kept.add(self.alloc, id, amount)
    }

    /// The amounts by their ids. `Memory` where there is none left.
    pub(crate) fn into_amounts(self, alloc: Global) -> Result<Amounts, Memory>
        ensures amounts { IfOk result (λ amounts. amounts ≡ self) }
        ensures lawful { IfOk result (λ amounts. IsPool amounts) }
    {
        match self.kept {
            Kept::Rising(runes) => by_id(alloc, &runes),
            Kept::ById(amounts) => Ok(amounts),
        }
    }

    /// The same runes, as an output holds them. `Memory` where there is none left.
    pub fn into_balances(self, alloc: Global) -> Result<Balances, Memory>
        ensures { IfOk result (λ balances. balances ≡ self) }
    {
        match self.kept {
            Kept::Rising(items) => Ok(Balances { items }),
            Kept::ById(amounts) => balances_of(alloc, amounts),
        }
    }
}

impl Kept {
    /// Adds so much of a rune, which isn't nothing.
    fn add(&mut self, alloc: Global, id: RuneId, amount: u128) -> Result<(), Memory>
        requires some { 0 < amount }
        requires fits { amount_in (runes_in self.old) id + amount < 2 ^ 128 }
        requires pool { IsPool (runes_in self.old) }
        ensures ok { OnOk result (runes_in self.new ≡ with_more (runes_in self.old) id amount) }
        ensures err { OnErr result (runes_in self.new ≡ runes_in self.old) }
    {
        match self {
            Kept::Rising(runes) if is_above(id, runes) => runes.push((id, amount))?,
            Kept::Rising(runes) => {
                let mut amounts = by_id(alloc, runes)?;
                amounts.add(id, amount)?;
                *self = Kept::ById(amounts);
            }
            Kept::ById(amounts) => amounts.add(id, amount)?,
        }
        Ok(())
    }
}

/// Whether an id is above those of all runes, whose ids rise.
fn is_above(id: RuneId, runes: &[(RuneId, u128)]) -> bool
    requires { IsStrictlySortedBy id_cmp (ids_of runes.now) }
    ensures { IsTrue result
        → AllByRecursion (λ other. id_cmp other id ≡ Less) (ids_of runes.now) }
{
    match runes.last() {
        Some((last, _)) => matches!(last.cmp(&id), Ordering::Less),
        None => true,
    }
}

/// How much of a rune there is.
fn amount_of(runes: &[(RuneId, u128)], id: RuneId) -> u128
    ensures { result ≡ amount_in runes.now id }
{
    for (other, amount) in runes {
        if *other == id {
            return *amount;
        }
    }
    0
}

/// Runes by their ids. `Memory` where there is none for them.
fn by_id(alloc: Global, runes: &[(RuneId, u128)]) -> Result<Amounts, Memory>
    requires { IsPool runes.now }
    ensures { IfOk result (λ amounts. amounts ≡ runes.now) }
{
    let mut amounts = Amounts::new(alloc);
    for (id, amount) in runes {
        amounts.add(*id, *amount)?;
    }
    Ok(amounts)
}

/// Runes, as an output holds them. `Memory` where there is none for them.
fn balances_of(alloc: Global, mut amounts: Amounts) -> Result<Balances, Memory>
    requires { IsPool amounts }
    ensures { IfOk result (λ balances. balances ≡ amounts) }
{
    let mut items = SmallVec::with_capacity(alloc, amounts.len())?;
    while let Some(balance) = amounts.pop_first() {
        items.push(balance)?;
    }
    Ok(Balances { items })
}
