//! One line of a map.

ghost use Rattle.std.specs.Prelude.{◌≡◌, ◌<◌, ◌≤◌, ◌+◌, ℕ, [], ◌∷◌, ◌++◌, Some, OnOk, OnErr, IfErr, IfSome};
ghost use Rattle.std.specs.Prelude.{length, map, option_map, slice_get, slice_index_or, slice_set};
ghost use Rattle.std.specs.Prelude.{IsPermutation, vec_len, vec_capacity};
ghost use Rattle.std.specs.List.{position};
ghost use Rattle.std.specs.Option.{option_copied};
ghost use Rattle.std.specs.BTreeMap.{is_at};
ghost use Rattle.ox_shards.specs.Lines.{is_last};
ghost use Rattle.ox_shards.specs.Shards.{Entries, value_at, going, staying};

use crate::keys::Sharded;
use crate::lines::Lines;
use smallvec::SmallVec;
use std::alloc::{AllocError, AllocFailed, Global};
use std::marker::Model;
use std::mem;

/// So many tags stand in the line itself.
const INSIDE: usize = 6;

/// Keys with their values. The tags of the keys stand in front, so that a look-up reads four bytes
/// of each key, and the whole of those keys alone whose tag is the same. The tags of up to six
/// keys stand in the line itself, so that a look-up that finds no such tag reads nothing else. A
/// line that has had more keys keeps its tags in memory of their own.
#[derive(Drop)]
pub(crate) struct Shard<K: Sharded, V> {
    tags: SmallVec<u32, INSIDE>,
    entries: Vec<(K, V)>,
}

impl<K: Sharded, V> Model for Shard<K, V> {
    ghost Value = { Entries K V };

    ghost view = { λ s. s.entries.items };

    ghost invariant = { λ s. s.tags.items ≡ map (λ entry. K.tag entry.0) s.entries.items };
}

impl<K: Sharded, V> Shard<K, V> {
    /// No keys. It takes no memory.
    pub(crate) fn new(alloc: Global) -> Shard<K, V>
        ensures { result ≡ [] }
    {
        Shard {
            tags: SmallVec::new(alloc),
            entries: Vec::new(alloc),
        }
    }

    /// How many keys there are.
    pub(crate) fn len(&self) -> usize
        ensures { result ≡ length self.now }
    {
        self.entries.len()
    }

    /// Reads the first tag, or answers 0 where there is none.
    pub(crate) fn glance(&self) -> u32 {
        match self.tags.first() {
            Some(tag) => *tag,
            None => 0,
        }
    }

    /// The first entry whose tag is that of a key. No keys are compared.
    pub(crate) fn candidate(&self, key: &K) -> Option<&(K, V)> {
        let tag = key.tag();
        for (other, entry) in self.tags.iter().zip(&self.entries) {
            if *other == tag {
                return Some(entry);
            }
        }
        None
    }

    /// Where a key stands.
    pub(crate) fn find(&self, key: &K) -> Option<usize>
        ensures { result ≡ position (λ entry. is_at (K.cmp key.now) entry.0) self.now }
    {
        place_in(&self.tags, &self.entries, key)
    }

    /// The value at a key.
    pub(crate) fn get(&self, key: &K) -> Option<&V>
        ensures { option_copied result ≡ value_at K.cmp self.now key.now }
    {
        match self.find(key) {
            Some(place) => Some(&self.entries[place].1),
            None => None,
        }
    }

    /// Puts a value at the key that stands at a place, and answers the one that it displaces.
    pub(crate) fn replace(&mut self, place: usize, value: V) -> V
        requires { place < length self.old }
        ensures displaced { (d : K × V) → result ≡ (slice_index_or self.old place d).1 }
        ensures replaced { (d : K × V) → self.new
            ≡ slice_set self.old place ((slice_index_or self.old place d).0, value) }
    {
        mem::replace(&mut self.entries[place].1, value)
    }

    /// Puts a key with its value behind the others. Where there is no memory, both are handed back,
    /// and nothing has changed.
    pub(crate) fn push(&mut self, key: K, value: V) -> Result<(), AllocFailed<(K, V)>>
        ensures ok { OnOk result (self.new ≡ self.old ++ (key, value) ∷ []) }
        ensures handed_back { IfErr result (λ e. e.value ≡ (key, value)) }
        ensures err { OnErr result (self.new ≡ self.old) }
    {
        if reserve_one(&mut self.entries).is_err() || self.tags.push(key.tag()).is_err() {
            return Err(AllocFailed {
                value: (key, value),
            });
        }
        self.entries.push_reserved((key, value));
        Ok(())
    }

    /// Takes the key that stands at a place out, and answers its value. The last one comes to its
    /// place.
    pub(crate) fn take(&mut self, place: usize) -> V
        requires { place < length self.old }
        ensures taken { (d : K × V) → result ≡ (slice_index_or self.old place d).1 }
        ensures left { (d : K × V) → IsPermutation self.old
            (slice_index_or self.old place d ∷ self.new) }
    {
        self.tags.swap_remove(place);
        self.entries.swap_remove(place).1
    }

    /// Moves the entries whose keys lead to the last line there. `AllocError` where there is no
    /// memory for them: both lines are as they were.
    pub(crate) fn part(&mut self, last: &mut Shard<K, V>, lines: &Lines) -> Result<(), AllocError>
        requires { last.old ≡ [] }
        ensures stay { OnOk result
            (self.new ≡ staying (λ key. is_last lines.now (K.spread key)) self.old) }
        ensures go { OnOk result
            (last.new ≡ going (λ key. is_last lines.now (K.spread key)) self.old) }
        ensures err { OnErr result ((self.new ≡ self.old) × (last.new ≡ [])) }
    {
        let most = self.tags.len();
        last.tags.reserve_exact(most)?;
        last.entries.reserve_exact(most)?;
        deal(&mut self.entries, &mut last.entries, lines);
        write_tags(&mut self.tags, &self.entries);
        write_tags(&mut last.tags, &last.entries);
        self.entries.shrink_to_fit();
        last.entries.shrink_to_fit();
        Ok(())
    }
}

/// Moves the entries whose keys lead to the last line behind its own, where there is room for them.
fn deal<K: Sharded, V>(from: &mut Vec<(K, V)>, last: &mut Vec<(K, V)>, lines: &Lines)
    requires { vec_len last.old + vec_len from.old ≤ vec_capacity last.old }
    ensures stay { from.new.items
        ≡ staying (λ key. is_last lines.now (K.spread key)) from.old.items }
    ensures go { last.new.items
        ≡ last.old.items ++ going (λ key. is_last lines.now (K.spread key)) from.old.items }
    ensures both { vec_len from.new + vec_len last.new ≡ vec_len from.old + vec_len last.old }
{
    let mut place = 0;
    while place < from.len() {
        if lines.is_last(from[place].0.spread()) {
            last.push_reserved(from.remove(place));
        } else {
            place += 1;
        }
    }
}

/// Writes the tags of keys, in order, where there is room for them.
fn write_tags<K: Sharded, V>(tags: &mut SmallVec<u32, INSIDE>, entries: &[(K, V)])
    requires { length entries.now ≤ tags.old.capacity }
    ensures { tags.new.items ≡ map (λ entry. K.tag entry.0) entries.now }
{
    tags.clear();
    for entry in entries {
        tags.push_reserved(entry.0.tag());
    }
}

/// Makes room for one more entry. A first one takes room for itself alone, since shards are many,
/// and most have few. `AllocError` where there is no memory for it.
fn reserve_one<T>(entries: &mut Vec<T>) -> Result<(), AllocError>
    ensures items { entries.new.items ≡ entries.old.items }
    ensures ok { OnOk result (vec_len entries.new < vec_capacity entries.new) }
    ensures first { OnOk result (vec_capacity entries.old ≡ 0 → vec_capacity entries.new ≡ 1) }
{
    if entries.is_empty() {
        entries.reserve_exact(1)
    } else {
        entries.reserve(1)
    }
}

/// Where a key stands among keys that have these tags.
fn place_in<K: Sharded, V>(tags: &[u32], entries: &[(K, V)], key: &K) -> Option<usize>
    requires { tags.now ≡ map (λ entry. K.tag entry.0) entries.now }
    ensures { result ≡ position (λ entry. is_at (K.cmp key.now) entry.0) entries.now }
{
    let tag = key.tag();
    for (place, other) in tags.iter().enumerate() {
        if *other == tag && *key == entries[place].0 {
            return Some(place);
        }
    }
    None
}
