//! Rising numbers by key.

ghost use Rattle.std.specs.Prelude.{◌≡◌, ◌==◌, true, false, ◌∷◌, [], length, OnOk, OnErr, IfOk};
ghost use Rattle.std.specs.Prelude.{filter, nat_lt};
ghost use Rattle.std.specs.List.Sorted.{IsStrictlyIncreasing};
ghost use Rattle.std.specs.Ordering.{is_eq};
ghost use Rattle.ox_inscribe.specs.Shelved.{at, ends_with, is_key, IsEither};
ghost use Rattle.ox_inscribe.specs.Shelved.{with_last, with_last_if, without_last, without_last_if};

use ox_bytes::Memory;
use smallvec::SmallVec;
use std::alloc::Global;
use std::collections::BTreeMap;
use std::marker::Model;

/// Numbers in an order. One takes no memory of its own. Contracts see the list.
#[derive(Drop)]
pub(crate) struct Numbers {
    items: SmallVec<u32, 1>,
}

impl Model for Numbers {
    ghost use Rattle.std.specs.Prelude.{ℕ, List};

    ghost Value = { List ℕ };

    ghost view = { λ numbers. numbers.items.items };
}

impl Numbers {
    /// None. It takes no memory.
    pub(crate) fn new(alloc: Global) -> Numbers
        ensures { result ≡ [] }
    {
        Numbers {
            items: SmallVec::new(alloc),
        }
    }

    /// One number. `Memory` where there is none for it.
    pub(crate) fn one(alloc: Global, number: u32) -> Result<Numbers, Memory>
        ensures { IfOk result (λ numbers. numbers ≡ number ∷ []) }
    {
        Ok(Numbers {
            items: SmallVec::from_slice(alloc, &[number])?,
        })
    }

    /// The numbers, in order.
    pub(crate) fn as_slice(&self) -> &[u32]
        ensures { result.now ≡ self.now }
    {
        &self.items
    }

    /// Puts a number behind, unless it is the last already. `Memory` where there is none for it:
    /// nothing has changed then.
    pub(crate) fn push(&mut self, number: u32) -> Result<(), Memory>
        ensures ok { OnOk result (self.new ≡ with_last number self.old) }
        ensures err { OnErr result (self.new ≡ self.old) }
    {
        if self.items.last() == Some(&number) {
            return Ok(());
        }
        self.items.push(number)?;
        Ok(())
    }

    /// Takes a number away if it is the last. Answers whether none is left.
    pub(crate) fn pop(&mut self, number: u32) -> bool
        ensures numbers { self.new ≡ without_last number self.old }
        ensures empty { result ≡ (length self.new == 0) }
    {
        if self.items.last() == Some(&number) {
            self.items.pop();
        }
        self.items.is_empty()
    }
}

/// The numbers below an end, of some that rise.
pub(crate) fn numbers_below(numbers: &[u32], end: u32) -> &[u32]
    requires { IsStrictlyIncreasing numbers.now }
    ensures { result.now ≡ filter (λ n. nat_lt n end) numbers.now }
{
    let len = numbers.partition_point(|n| *n < end);
    let (front, _) = numbers.split_at(len);
    front
}

/// The numbers at a key, of which there may be none.
pub(crate) fn numbers_at<'a, K: Ord>(map: &'a BTreeMap<K, Numbers>, key: &K) -> &'a [u32]
    ensures { result.now ≡ at K.cmp map.now key.now }
{
    match map.get(key) {
        Some(numbers) => numbers.as_slice(),
        None => &[],
    }
}

/// Puts a number behind those at a key, unless it is their last already. `Memory` where there is
/// none for it: the numbers are as before.
fn add_number<K: Ord + Copy>(
    alloc: Global,
    map: &mut BTreeMap<K, Numbers>,
    key: K,
    number: u32,
) -> Result<(), Memory>
    ensures ok { OnOk result ((q : K) → at K.cmp map.new q
        ≡ with_last_if (is_eq (K.cmp key q)) number (at K.cmp map.old q)) }
    ensures err { OnErr result ((q : K) → at K.cmp map.new q ≡ at K.cmp map.old q) }
{
    match map.get_mut(&key) {
        Some(numbers) => numbers.push(number),
        None => {
            let numbers = Numbers::one(alloc, number)?;
            map.insert(key, numbers)?;
            Ok(())
        }
    }
}

/// Takes a number away from those at a key if it is their last. Answers whether the key has numbers
/// no more.
fn pop_number<K: Ord + Copy>(map: &mut BTreeMap<K, Numbers>, key: K, number: u32) -> bool
    ensures numbers { (q : K) → at K.cmp map.new q
        ≡ without_last_if (is_eq (K.cmp key q)) number (at K.cmp map.old q) }
    ensures empty { result ≡ true → at K.cmp map.new key ≡ [] }
{
    match map.get_mut(&key) {
        Some(numbers) => numbers.pop(number),
        None => false,
    }
}

/// Takes a number away from those at a key if it is their last.
fn drop_number<K: Ord + Copy>(map: &mut BTreeMap<K, Numbers>, key: K, number: u32)
    ensures { (q : K) → at K.cmp map.new q
        ≡ without_last_if (is_eq (K.cmp key q)) number (at K.cmp map.old q) }
{
    if pop_number(map, key, number) {
        map.remove(&key);
    }
}

/// Puts a number behind those at each of these keys, unless it is their last already. `Memory`
/// where there is none for it: at each of them the numbers are then as before, or it stands behind
/// them.
pub(crate) fn add_numbers<K: Ord + Copy>(
    alloc: Global,
    map: &mut BTreeMap<K, Numbers>,
    keys: &[K],
    number: u32,
) -> Result<(), Memory>
    ensures ok { OnOk result ((q : K) → at K.cmp map.new q
        ≡ with_last_if (is_key K.cmp keys.now q) number (at K.cmp map.old q)) }
    ensures err { OnErr result ((q : K) → IsEither (at K.cmp map.old q)
        (with_last_if (is_key K.cmp keys.now q) number (at K.cmp map.old q))
        (at K.cmp map.new q)) }
{
    for key in keys {
        add_number(alloc, map, *key, number)?;
    }
    Ok(())
}

/// Takes a number away from those at each of these keys if it is their last, and not their last but
/// one.
pub(crate) fn drop_numbers<K: Ord + Copy>(map: &mut BTreeMap<K, Numbers>, keys: &[K], number: u32)
    ensures { (q : K) → ends_with number (without_last number (at K.cmp map.old q)) ≡ false
        → at K.cmp map.new q
        ≡ without_last_if (is_key K.cmp keys.now q) number (at K.cmp map.old q) }
{
    for key in keys {
        drop_number(map, *key, number);
    }
}
