//! A map over many short lines.

ghost use Rattle.std.specs.Prelude.{◌≡◌, ◌<◌, ◌≤◌, ◌+◌, ◌-◌, ℕ, [], None, Some, OnOk, OnErr, IfOk, IfErr};
ghost use Rattle.std.specs.Prelude.{IsOk, IsSome};
ghost use Rattle.std.specs.Prelude.{if◌then◌else◌, length};
ghost use Rattle.std.specs.List.{position};
ghost use Rattle.std.specs.Map.{lookup};
ghost use Rattle.std.specs.Ordering.{is_eq};
ghost use Rattle.std.specs.Option.{option_copied};
ghost use Rattle.std.specs.BTreeMap.{is_at};
ghost use Rattle.ox_shards.specs.Lines.{line_of, is_last};
ghost use Rattle.ox_shards.specs.Shards.{Entries, AreShards, IsSound, IsSplit, Changes};
ghost use Rattle.ox_shards.specs.Shards.{entries_of, joined, items_at, value_at, value_with};

use crate::keys::Sharded;
use crate::lines::Lines;
use crate::shard::Shard;
use std::alloc::{AllocError, AllocFailed, Global};
use std::collections::BTreeMap;
use std::marker::Model;

/// So many keys a line has on average at most, while there is memory for more lines.
const FILL: usize = 5;

/// So many keys a line has at most.
const MOST: usize = 64;

/// A map whose keys are spread over many short lines. A look-up goes through the tags of one line,
/// and compares those keys alone whose tag is the same. When keys are put in, lines are split one
/// by one, so that each has some five keys however many there are. Whoever chooses keys can choose
/// them so that they fill one line, and no split parts them; when it has 64 entries, those of
/// further keys stand in one ordered map. So a look-up costs no more than a line and one in that
/// map, whatever the keys. A key stands in its line or in the ordered map, never in both.
#[derive(Drop)]
pub struct Shards<K: Sharded, V> {
    alloc: Global,
    lines: Lines,
    /// The lines, behind which others may be made already, that are empty. None is made until the
    /// first `insert`.
    lists: Vec<Shard<K, V>>,
    others: BTreeMap<K, V>,
    /// How many keys there are, by which lines are split.
    keys: usize,
}

impl<K: Sharded, V> Model for Shards<K, V> {
    ghost Value = { Entries K V };

    ghost view = { λ s. entries_of s.lists.items s.others.entries };

    ghost invariant = { λ s. AreShards K.cmp (λ key. line_of s.lines (K.spread key))
        s.lines.count s.lists.items s.others.entries };
}

impl<K: Sharded, V> Shards<K, V> {
    /// No values. It takes no memory until one is put in.
    pub fn new(alloc: Global) -> Shards<K, V>
        ensures { result ≡ [] }
    {
        Shards {
            alloc,
            lines: Lines::one(),
            lists: Vec::new(alloc),
            others: BTreeMap::new(alloc),
            keys: 0,
        }
    }

    /// The value at a key.
    pub fn get(&self, key: &K) -> Option<&V>
        ensures { option_copied result ≡ value_at K.cmp self.now key.now }
    {
        match value_in(&self.lists, &self.lines, key) {
            Some(value) => Some(value),
            None => self.others.get(key),
        }
    }

    /// Reads a little of the line in which a key would stand, so that the processor fetches it. It
    /// is a hint, and what it answers says nothing.
    pub fn glance(&self, key: &K) -> u32 {
        match self.lists.get(self.lines.line_of(key.spread())) {
            Some(list) => list.glance(),
            None => 0,
        }
    }

    /// Reads a little of the entry that may be that of a key, the first of its line with the key's
    /// tag, so that the processor fetches it. It waits for what `glance` reads. It is a hint, and
    /// what it answers says nothing.
    pub fn glance_entry(&self, key: &K) -> u32 {
        match self.candidate(key) {
            Some((other, _)) => other.tag(),
            None => 0,
        }
    }

    /// The entry that may be that of a key, the first of its line with the key's tag: whoever will
    /// read the value at the key reads a little of this one before, so that the processor fetches
    /// it. It waits for what `glance` reads. It is a hint, and may be the entry of another key.
    pub fn candidate(&self, key: &K) -> Option<&(K, V)> {
        self.lists
            .get(self.lines.line_of(key.spread()))?
            .candidate(key)
    }

    /// Puts a value at a key, and answers the one that it displaces. Where there is no memory, both
    /// are handed back, and nothing has changed. At a key that has a value it takes none.
    pub fn insert(&mut self, key: K, value: V) -> Result<Option<V>, AllocFailed<(K, V)>>
        ensures displaced { IfOk result (λ displaced. displaced ≡ value_at K.cmp self.old key) }
        ensures ok { OnOk result ((q : K) → value_at K.cmp self.new q
            ≡ (if is_eq (K.cmp key q) then Some value else value_at K.cmp self.old q)) }
        ensures handed_back { IfErr result (λ e. e.value ≡ (key, value)) }
        ensures err { OnErr result (self.new ≡ self.old) }
        ensures present { IsSome (value_at K.cmp self.old key) → IsOk result }
    {
        let displaced = self.set(key, value)?;
        if displaced.is_none() {
            self.keys = self.keys.saturating_add(1);
            self.grow();
        }
        Ok(displaced)
    }

    /// Puts a value at a key, and splits no line.
    fn set(&mut self, key: K, value: V) -> Result<Option<V>, AllocFailed<(K, V)>>
        ensures displaced { IfOk result (λ displaced. displaced ≡ value_at K.cmp self.old key) }
        ensures ok { OnOk result ((q : K) → value_at K.cmp self.new q
            ≡ (if is_eq (K.cmp key q) then Some value else value_at K.cmp self.old q)) }
        ensures handed_back { IfErr result (λ e. e.value ≡ (key, value)) }
        ensures err { OnErr result (self.new ≡ self.old) }
        ensures present { IsSome (value_at K.cmp self.old key) → IsOk result }
    {
        if make_lists(&mut self.lists, self.lines.count(), self.alloc).is_err() {
            return Err(AllocFailed {
                value: (key, value),
            });
        }
        let index = self.lines.line_of(key.spread());
        put(&mut self.lists[index], &mut self.others, key, value)
    }

    /// Splits a line where there are many keys for the lines. Where there is no memory for it, all
    /// stays as it is.
    fn grow(&mut self)
        ensures { (q : K) → value_at K.cmp self.new q ≡ value_at K.cmp self.old q }
    {
        if self.keys / FILL < self.lines.count() {
            return;
        }
        if let Some((lines, from)) = self.lines.more() {
            if split(&mut self.lists, from, &lines, self.alloc).is_ok() {
                self.lines = lines;
            }
        }
    }

    /// Takes the value at a key out, and answers it.
    pub fn remove(&mut self, key: &K) -> Option<V>
        ensures taken { result ≡ value_at K.cmp self.old key.now }
        ensures left { (q : K) → value_at K.cmp self.new q
            ≡ (if is_eq (K.cmp key.now q) then None else value_at K.cmp self.old q) }
    {
        let index = self.lines.line_of(key.spread());
        if index >= self.lists.len() {
            return None;
        }
        let taken = take(&mut self.lists[index], &mut self.others, key);
        self.keys = self.keys.saturating_sub(usize::from(taken.is_some()));
        taken
    }
}

/// The value at a key in its line.
fn value_in<'a, K: Sharded, V>(lists: &'a [Shard<K, V>], lines: &Lines, key: &K) -> Option<&'a V>
    ensures { option_copied result
        ≡ value_at K.cmp (items_at lists.now (line_of lines.now (K.spread key.now))) key.now }
{
    lists.get(lines.line_of(key.spread()))?.get(key)
}

/// Puts a value at a key where it stands, else into its line, or into the ordered map where that is
/// full.
fn put<K: Sharded, V>(
    list: &mut Shard<K, V>,
    others: &mut BTreeMap<K, V>,
    key: K,
    value: V,
) -> Result<Option<V>, AllocFailed<(K, V)>>
    requires { IsSound K.cmp list.old others.old.entries }
    ensures displaced { IfOk result (λ displaced. displaced
        ≡ value_with K.cmp list.old others.old.entries key) }
    ensures ok { OnOk result (Changes K.cmp list.old others.old.entries
        list.new others.new.entries key (Some value)) }
    ensures handed_back { IfErr result (λ e. e.value ≡ (key, value)) }
    ensures err { OnErr result ((list.new ≡ list.old)
        × (others.new.entries ≡ others.old.entries)) }
    ensures present { IsSome (value_with K.cmp list.old others.old.entries key) → IsOk result }
{
    if let Some(place) = list.find(&key) {
        return Ok(Some(list.replace(place, value)));
    }
    if list.len() >= MOST || others.contains_key(&key) {
        return others.insert(key, value);
    }
    list.push(key, value)?;
    Ok(None)
}

/// Takes the value at a key out of its line or out of the ordered map.
fn take<K: Sharded, V>(list: &mut Shard<K, V>, others: &mut BTreeMap<K, V>, key: &K) -> Option<V>
    requires { IsSound K.cmp list.old others.old.entries }
    ensures taken { result ≡ value_with K.cmp list.old others.old.entries key.now }
    ensures left { Changes K.cmp list.old others.old.entries
        list.new others.new.entries key.now None }
{
    match list.find(key) {
        Some(place) => Some(list.take(place)),
        None => others.remove(key),
    }
}

/// Splits a line: its keys that lead to the last line move there. `AllocError` where there is no
/// memory for it: all stand where they stood.
fn split<K: Sharded, V>(
    lists: &mut Vec<Shard<K, V>>,
    from: usize,
    lines: &Lines,
    alloc: Global,
) -> Result<(), AllocError>
    requires other { from + 1 < lines.now.count }
    requires empty { items_at lists.old.items (lines.now.count - 1) ≡ [] }
    ensures ok { OnOk result (IsSplit (λ key. is_last lines.now (K.spread key))
        from (lines.now.count - 1) lists.old.items lists.new.items) }
    ensures err { OnErr result ((index : ℕ) → items_at lists.new.items index
        ≡ items_at lists.old.items index) }
    ensures kept { length lists.old.items ≤ length lists.new.items }
{
    let last = lines.count() - 1;
    make_lists(lists, lines.count(), alloc)?;
    let (low, high) = lists.split_at_mut(last);
    low[from].part(&mut high[0], lines)
}

/// Makes so many lines, or leaves more. `AllocError` where there is no memory for them: there are
/// some more, maybe.
fn make_lists<K: Sharded, V>(
    lists: &mut Vec<Shard<K, V>>,
    count: usize,
    alloc: Global,
) -> Result<(), AllocError>
    ensures all { OnOk result (count ≤ length lists.new.items) }
    ensures kept { length lists.old.items ≤ length lists.new.items }
    ensures same { joined lists.new.items ≡ joined lists.old.items }
    ensures each { (index : ℕ) → items_at lists.new.items index
        ≡ items_at lists.old.items index }
    ensures present { count ≤ length lists.old.items → IsOk result }
{
    while lists.len() < count {
        lists.reserve(1)?;
        lists.push_reserved(Shard::new(alloc));
    }
    Ok(())
}
