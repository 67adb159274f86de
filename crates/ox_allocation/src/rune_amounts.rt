//! Amounts of runes by their ids, of which there is mostly one.

ghost use Rattle.std.specs.Prelude.{◌≡◌, ◌≤◌, ◌==◌, ◌+◌, ◌^◌, ◌<◌, ◌∷◌, [], length};
ghost use Rattle.std.specs.Prelude.{IsOk, IfOk, OnOk, OnErr, MatchOption};
ghost use Rattle.std.specs.BTreeMap.{insert_entry};
ghost use Rattle.std.specs.List.Sorted.{IsStrictlySortedBy};
ghost use Rattle.ox_allocation.specs.Amounts.{entries_in, IsForm, IsMany};
ghost use Rattle.ox_allocation.specs.Balances.{amount_in, id_cmp, ids_of, with_more};
ghost use Rattle.ox_allocation.specs.Dealing.{less};

use ox_bytes::Memory;
use ox_runestone::RuneId;
use std::alloc::Global;
use std::collections::BTreeMap;
use std::marker::Model;

/// Amounts of runes by their ids. One rune takes no memory. Contracts see the list of ids and
/// amounts, by rising ids.
pub(crate) struct Amounts {
    alloc: Global,
    form: Form,
}

/// By hand, so that whoever drops amounts makes one call, and proves nothing of their forms.
impl Drop for Amounts {
    fn drop(self) {
        let Amounts {
            alloc: _alloc,
            form: _form,
        } = self;
    }
}

/// What amounts are kept as.
#[derive(Drop)]
enum Form {
    /// No rune.
    Empty,
    /// One rune, in place.
    One(RuneId, u128),
    /// More, in memory of their own: as few as one, where others have been taken out.
    Many(BTreeMap<RuneId, u128>),
}

impl Model for Amounts {
    ghost use Rattle.std.specs.Prelude.{List};
    ghost use Rattle.ox_allocation.specs.Amounts.{entries_in, IsForm};
    ghost use Rattle.ox_allocation.specs.Balances.{Balance};

    ghost Value = { List Balance };

    ghost view = { λ amounts. entries_in amounts.form };

    ghost invariant = { λ amounts. IsForm amounts.form };
}

impl Amounts {
    /// No runes.
    pub(crate) fn new(alloc: Global) -> Amounts
        ensures { result ≡ [] }
    {
        Amounts {
            alloc,
            form: Form::Empty,
        }
    }

    /// Whether there are no runes.
    pub(crate) fn is_empty(&self) -> bool
        ensures { result ≡ (length self.now == 0) }
    {
        matches!(&self.form, Form::Empty)
    }

    /// How many runes there are.
    pub(crate) fn len(&self) -> usize
        ensures { result ≡ length self.now }
    {
        match &self.form {
            Form::Empty => 0,
            Form::One(_, _) => 1,
            Form::Many(amounts) => amounts.len(),
        }
    }

    /// How much of a rune there is.
    pub(crate) fn amount(&self, id: RuneId) -> u128
        ensures { result ≡ amount_in self.now id }
    {
        match &self.form {
            Form::One(held, amount) if id == *held => *amount,
            Form::Many(amounts) => amounts.get(&id).copied().unwrap_or(0),
            _ => 0,
        }
    }

    /// So much more of a rune. `Memory` where there is none left, and then nothing has changed. A
    /// first rune takes none, and one that is there takes no more.
    pub(crate) fn add(&mut self, id: RuneId, amount: u128) -> Result<(), Memory>
        requires { amount_in self.old id + amount < 2 ^ 128 }
        ensures ok { OnOk result (self.new ≡ with_more self.old id amount) }
        ensures err { OnErr result (self.new ≡ self.old) }
        ensures first { self.old ≡ [] → IsOk result }
        ensures there { 0 < amount_in self.old id → IsOk result }
    {
        if amount == 0 {
            return Ok(());
        }
        self.form.add(self.alloc, id, amount)
    }

    /// Takes so much of a rune out. A rune of which nothing is left stays.
    pub(crate) fn spend(&mut self, id: RuneId, amount: u128)
        requires { amount ≤ amount_in self.old id }
        ensures left { amount_in self.new ≡ less self.old id amount }
        ensures ids { ids_of self.new ≡ ids_of self.old }
    {
        self.form.spend(id, amount);
    }

    /// Takes the first rune out, if there is one.
    pub(crate) fn pop_first(&mut self) -> Option<(RuneId, u128)>
        ensures first { MatchOption result ((self.old ≡ []) × (self.new ≡ []))
            (λ first. self.old ≡ first ∷ self.new) }
        ensures rising { IsStrictlySortedBy id_cmp (ids_of self.old) }
    {
        self.form.pop_first()
    }
}

impl Form {
    /// Adds so much of a rune, which isn't nothing.
    fn add(&mut self, alloc: Global, id: RuneId, amount: u128) -> Result<(), Memory>
        requires some { 0 < amount }
        requires fits { amount_in (entries_in self.old) id + amount < 2 ^ 128 }
        requires form { IsForm self.old }
        ensures ok { OnOk result (entries_in self.new ≡ with_more (entries_in self.old) id amount) }
        ensures err { OnErr result (entries_in self.new ≡ entries_in self.old) }
        ensures form { IsForm self.new }
        ensures first { entries_in self.old ≡ [] → IsOk result }
        ensures there { 0 < amount_in (entries_in self.old) id → IsOk result }
    {
        match self {
            Form::Empty => *self = Form::One(id, amount),
            Form::One(held, total) if id == *held => *total += amount,
            Form::One(held, total) => {
                let two = two_of(alloc, (*held, *total), (id, amount))?;
                *self = Form::Many(two);
            }
            Form::Many(amounts) => add_to(amounts, id, amount)?,
        }
        Ok(())
    }

    /// Takes so much of a rune out. A rune of which nothing is left stays.
    #[tactic(auto, using(crate::proofs::FormLemmas::spending))]
    fn spend(&mut self, id: RuneId, amount: u128)
        requires { amount ≤ amount_in (entries_in self.old) id }
        ensures left { amount_in (entries_in self.new) ≡ less (entries_in self.old) id amount }
        ensures ids { ids_of (entries_in self.new) ≡ ids_of (entries_in self.old) }
        ensures form { IsForm self.old → IsForm self.new }
    {
        match self {
            Form::One(held, left) if id == *held => *left -= amount,
            Form::Many(amounts) => spend_of(amounts, id, amount),
            _ => {}
        }
    }

    /// Takes the first rune out, if there is one.
    #[tactic(auto, using(crate::proofs::FormLemmas::ids_rise))]
    fn pop_first(&mut self) -> Option<(RuneId, u128)>
        requires { IsForm self.old }
        ensures first { MatchOption result
            ((entries_in self.old ≡ []) × (entries_in self.new ≡ []))
            (λ first. entries_in self.old ≡ first ∷ entries_in self.new) }
        ensures form { IsForm self.new }
        ensures rising { IsStrictlySortedBy id_cmp (ids_of (entries_in self.old)) }
    {
        match self {
            Form::Empty => None,
            Form::One(id, amount) => {
                let first = (*id, *amount);
                *self = Form::Empty;
                Some(first)
            }
            Form::Many(amounts) => {
                let first = amounts.pop_first();
                if amounts.is_empty() {
                    *self = Form::Empty;
                }
                first
            }
        }
    }
}

/// A rune and another one.
fn two_of(
    alloc: Global,
    first: (RuneId, u128),
    second: (RuneId, u128),
) -> Result<BTreeMap<RuneId, u128>, Memory>
    ensures entries { IfOk result (λ amounts.
        amounts.entries ≡ insert_entry id_cmp (first ∷ []) second.0 second.1) }
    ensures many { IfOk result (λ amounts. IsMany amounts.entries) }
{
    let mut amounts = BTreeMap::new(alloc);
    amounts.insert(first.0, first.1)?;
    amounts.insert(second.0, second.1)?;
    Ok(amounts)
}

/// Adds so much of a rune to several, by one descent.
#[tactic(auto, using(crate::proofs::FormLemmas::some_inserted))]
fn add_to(amounts: &mut BTreeMap<RuneId, u128>, id: RuneId, amount: u128) -> Result<(), Memory>
    requires fits { amount_in amounts.old.entries id + amount < 2 ^ 128 }
    requires many { IsMany amounts.old.entries }
    ensures ok { OnOk result (amounts.new.entries ≡ insert_entry id_cmp amounts.old.entries id
        (amount_in amounts.old.entries id + amount)) }
    ensures err { OnErr result (amounts.new.entries ≡ amounts.old.entries) }
    ensures there { 0 < amount_in amounts.old.entries id → IsOk result }
    ensures many { IsMany amounts.new.entries }
{
    *amounts.entry(id)?.or_insert(0) += amount;
    Ok(())
}

/// Takes so much of a rune out of several.
fn spend_of(amounts: &mut BTreeMap<RuneId, u128>, id: RuneId, amount: u128)
    requires { amount ≤ amount_in amounts.old.entries id }
    ensures left { amount_in amounts.new.entries ≡ less amounts.old.entries id amount }
    ensures ids { ids_of amounts.new.entries ≡ ids_of amounts.old.entries }
{
    if let Some(left) = amounts.get_mut(&id) {
        *left -= amount;
    }
}
