//! A map with a mark.

ghost use Rattle.std.specs.Prelude.{◌≡◌, IsSome, IsTrue, None, OnOk, OnErr, IfOk, All};
ghost use Rattle.std.specs.Prelude.{if◌then◌else◌, Some, true, false, map};
ghost use Rattle.std.specs.List.{dedup, list_any};
ghost use Rattle.std.specs.List.Sorted.{IsSorted, IsStable, IsStrictlySortedBy};
ghost use Rattle.std.specs.Map.{keys_of, lookup};
ghost use Rattle.std.specs.Ordering.{eq_by_cmp, is_eq};
ghost use Rattle.std.specs.Option.{option_copied, option_map, IfSome, IsSomeAnd};
ghost use Rattle.std.specs.BTreeMap.{is_at};
ghost use Rattle.ox_marked.specs.Marked.{Logged, content_in, mark_in, is_changed};
ghost use Rattle.ox_marked.specs.Marked.{standing, before_in, AreLogged};
ghost use Rattle.ox_shards.specs.Shards.{value_at};

use ox_bytes::Memory;
use ox_shards::{Sharded, Shards};
use std::alloc::Global;
use std::marker::Model;

/// The entries of so many changes are read ahead at a time.
const BATCH: usize = 64;

/// A map that goes back to a mark. Values change in place, and what stood where something was put
/// since the mark is kept, so that to go back takes no memory: the entry of a key at which nothing
/// stands any more isn't taken away before the next mark.
#[derive(Drop)]
pub struct Marked<K: Sharded, V> {
    alloc: Global,
    /// A value at each key, or `None` where it was taken out since the mark.
    entries: Shards<K, Option<V>>,
    /// What stood at each key at which something was put since the mark, the oldest first.
    log: Vec<(K, Option<V>)>,
    /// At how many keys there is an entry and no value. Where it is 0 no such entry is looked for.
    gone: usize,
    /// Whether one of them was made where there was no entry, so that no change tells it.
    blank: bool,
    marked: bool,
    /// What was read ahead, added up. It says nothing, and is there so that no reading is left out.
    sum: u32,
}

impl<K: Sharded, V> Model for Marked<K, V> {
    ghost Value = { Logged K V };

    ghost view = { λ m. record {
      entries = m.entries;
      log = m.log.items;
      marked = m.marked;
    } };

    ghost invariant = { λ m. AreLogged K.cmp m.log.items m.entries };
}

impl<K: Sharded, V> Marked<K, V> {
    /// No values, and no mark. It takes no memory until a key is put.
    pub fn new(alloc: Global) -> Marked<K, V>
        ensures content { (q : K) → content_in K.cmp result q ≡ None }
        ensures mark { mark_in K.cmp result ≡ None }
        ensures changed { (q : K) → is_changed K.cmp result q ≡ false }
    {
        Marked {
            alloc,
            entries: Shards::new(alloc),
            log: Vec::new(alloc),
            gone: 0,
            blank: false,
            marked: false,
            sum: 0,
        }
    }

    /// The value at a key. It costs one look-up.
    pub fn get(&self, key: &K) -> Option<&V>
        ensures { option_copied result ≡ content_in K.cmp self.now key.now }
    {
        match self.entries.get(key) {
            Some(value) => value.as_ref(),
            None => None,
        }
    }

    /// Reads a little of what leads to a key's entry, so that the processor fetches it. It is a
    /// hint, and what it answers says nothing.
    pub fn glance(&self, key: &K) -> u32 {
        self.entries.glance(key)
    }

    /// Reads a little of the entry that may be that of a key, which waits for what `glance` reads.
    /// It is a hint, and what it answers says nothing.
    pub fn glance_entry(&self, key: &K) -> u32 {
        self.entries.glance_entry(key)
    }

    /// Whether the entry that may be that of a key has a value, for which a little of the entry and
    /// of the value is read. It waits for what `glance` reads. It is a hint: the entry may be that
    /// of another key.
    pub fn glance_value(&self, key: &K) -> bool {
        glance_value(&self.entries, key)
    }

    /// Puts a value at a key, or takes the value there out. `Memory` where there is none for it:
    /// nothing has changed then. It costs one look-up.
    pub fn put(&mut self, key: K, value: Option<V>) -> Result<(), Memory>
    where
        V: Drop,
        ensures content { OnOk result ((q : K) → content_in K.cmp self.new q
            ≡ (if is_eq (K.cmp key q) then value else content_in K.cmp self.old q)) }
        ensures changed { OnOk result ((q : K) → is_changed K.cmp self.new q
            ≡ (if is_eq (K.cmp key q) then true else is_changed K.cmp self.old q)) }
        ensures mark { mark_in K.cmp self.new ≡ mark_in K.cmp self.old }
        ensures err { OnErr result (self.new ≡ self.old) }
    {
        self.log.reserve(1)?;
        let goes = value.is_none();
        let stood = self.entries.insert(key, value)?;
        self.gone = count_after(self.gone, goes, is_empty(&stood));
        self.blank |= goes & stood.is_none();
        self.log.push_reserved((key, stood.flatten()));
        Ok(())
    }

    /// Sets the mark at the map as it is, in place of an earlier one. It takes no memory. Where a
    /// value was taken out since the earlier mark it costs a look-up or two for each change before
    /// which a value stood, or for each change at all where a key without an entry was put to
    /// nothing; else it costs nothing.
    pub fn begin(&mut self)
    where
        V: Drop,
        ensures content { (q : K) → content_in K.cmp self.new q ≡ content_in K.cmp self.old q }
        ensures mark { IsSomeAnd (mark_in K.cmp self.new)
            (λ at. (q : K) → at q ≡ content_in K.cmp self.new q) }
        ensures changed { (q : K) → is_changed K.cmp self.new q ≡ false }
    {
        if self.gone > 0 {
            let read = sweep_all(&mut self.entries, &self.log, self.blank);
            self.sum = self.sum.wrapping_add(read);
            self.gone = 0;
            self.blank = false;
        }
        self.log.clear();
        self.marked = true;
    }

    /// Puts back what stood since the mark: the map has again what it had at the mark, which is
    /// spent. It takes no memory.
    pub fn cancel(&mut self)
    where
        V: Drop,
        requires { IsSome (mark_in K.cmp self.old) }
        ensures content { IfSome (mark_in K.cmp self.old)
            (λ at. (q : K) → content_in K.cmp self.new q ≡ at q) }
        ensures mark { mark_in K.cmp self.new ≡ None }
        ensures changed { (q : K) → is_changed K.cmp self.new q ≡ false }
    {
        self.restore();
        self.marked = false;
    }

    /// Puts back what stood since the mark, as `cancel` does, but the mark stays.
    pub fn restore(&mut self)
    where
        V: Drop,
        requires { IsSome (mark_in K.cmp self.old) }
        ensures content { IfSome (mark_in K.cmp self.old)
            (λ at. (q : K) → content_in K.cmp self.new q ≡ at q) }
        ensures mark { mark_in K.cmp self.new ≡ mark_in K.cmp self.old }
        ensures changed { (q : K) → is_changed K.cmp self.new q ≡ false }
    {
        put_back(&mut self.entries, &mut self.log);
        let read = sweep_all(&mut self.entries, &self.log, true);
        self.sum = self.sum.wrapping_add(read);
        self.gone = 0;
        self.blank = false;
        self.log.clear();
    }

    /// The keys that were put since the mark, in order, whether or not their values differ from
    /// those at the mark, each with the value that there was at the mark. `Memory` where there is
    /// none for them.
    pub fn changed(&self) -> Result<Vec<(K, Option<&V>)>, Memory>
        ensures rising { IfOk result (λ changes. IsStrictlySortedBy K.cmp (keys_of changes.items)) }
        ensures put { IfOk result (λ changes. (q : K)
            → list_any (λ key. is_eq (K.cmp q key)) (keys_of changes.items)
            ≡ is_changed K.cmp self.now q) }
        ensures before { IfOk result (λ changes. IfSome (mark_in K.cmp self.now)
            (λ at. All (λ change. option_copied change.1 ≡ at change.0) changes.items)) }
        ensures others { IfSome (mark_in K.cmp self.now) (λ at. (q : K)
            → is_changed K.cmp self.now q ≡ false → content_in K.cmp self.now q ≡ at q) }
    {
        oldest(self.alloc, &self.log)
    }
}

/// How many entries have no value after one came without one, or one without one went.
fn count_after(gone: usize, comes: bool, went: bool) -> usize {
    gone.wrapping_add(usize::from(comes))
        .wrapping_sub(usize::from(went))
}

/// Whether there is an entry without a value.
fn is_empty<V>(entry: &Option<Option<V>>) -> bool {
    match entry {
        Some(value) => value.is_none(),
        None => false,
    }
}

/// Puts back what stood before some changes, the newest first. It takes no memory.
fn put_back<K: Sharded, V: Drop>(entries: &mut Shards<K, Option<V>>, log: &mut [(K, Option<V>)])
    requires { AreLogged K.cmp log.old entries.old }
    ensures { (q : K) → standing K.cmp entries.new q
        ≡ before_in K.cmp log.old (standing K.cmp entries.old) q }
{
    let mut left = log.len();
    while left > 0 {
        left -= 1;
        let (key, value) = &mut log[left];
        set(entries, *key, value.take());
    }
}

/// Puts a value, or none, in the place of what stands at a key. It takes no memory.
fn set<K: Sharded, V: Drop>(entries: &mut Shards<K, Option<V>>, key: K, value: Option<V>)
    requires { IsSome (value_at K.cmp entries.old key) }
    ensures { (q : K) → value_at K.cmp entries.new q
        ≡ (if is_eq (K.cmp key q) then Some value else value_at K.cmp entries.old q) }
{
    // only a key that isn't there could lack memory
    let _stood = entries.insert(key, value);
}

/// Takes the entries without a value away, of those that changed, and answers what it read ahead,
/// added up. Without `all` it looks at those changes alone before which a value stood.
fn sweep_all<K: Sharded, V: Drop>(
    entries: &mut Shards<K, Option<V>>,
    log: &[(K, Option<V>)],
    all: bool,
) -> u32
    ensures { (q : K) → standing K.cmp entries.new q ≡ standing K.cmp entries.old q }
{
    let mut sum = 0u32;
    for changes in log.chunks(BATCH) {
        sum = sum.wrapping_add(read_ahead(entries, changes, all));
        sweep(entries, changes, all);
    }
    sum
}

/// Reads what leads to the entries of some changes, and then a little of these entries, so that the
/// processor fetches them side by side.
fn read_ahead<K: Sharded, V>(
    entries: &Shards<K, Option<V>>,
    changes: &[(K, Option<V>)],
    all: bool,
) -> u32 {
    let mut sum = 0u32;
    for (key, stood) in changes {
        if all || stood.is_some() {
            sum = sum.wrapping_add(entries.glance(key));
        }
    }
    for (key, stood) in changes {
        if all || stood.is_some() {
            sum = sum.wrapping_add(u32::from(glance_value(entries, key)));
        }
    }
    sum
}

/// Whether the entry that may be that of a key has a value. A little of its key is read too.
fn glance_value<K: Sharded, V>(entries: &Shards<K, Option<V>>, key: &K) -> bool {
    match entries.candidate(key) {
        Some((other, value)) => other.tag() == key.tag() && value.is_some(),
        None => false,
    }
}

/// Takes the entries without a value away, of some that changed.
fn sweep<K: Sharded, V: Drop>(
    entries: &mut Shards<K, Option<V>>,
    changes: &[(K, Option<V>)],
    all: bool,
)
    ensures { (q : K) → standing K.cmp entries.new q ≡ standing K.cmp entries.old q }
{
    for (key, stood) in changes {
        if all || stood.is_some() {
            take_empty(entries, key);
        }
    }
}

/// Takes the entry at a key away, if there is one and it has no value.
fn take_empty<K: Sharded, V: Drop>(entries: &mut Shards<K, Option<V>>, key: &K)
    ensures { (q : K) → standing K.cmp entries.new q ≡ standing K.cmp entries.old q }
{
    if is_gone(entries, key) {
        entries.remove(key);
    }
}

/// Whether a key has an entry, and no value.
fn is_gone<K: Sharded, V>(entries: &Shards<K, Option<V>>, key: &K) -> bool
    ensures { IsTrue result → standing K.cmp entries.now key.now ≡ None }
{
    match entries.get(key) {
        Some(value) => value.is_none(),
        None => false,
    }
}

/// What the oldest change at each key says, by rising key.
fn oldest<'a, K: Sharded, V>(
    alloc: Global,
    log: &'a [(K, Option<V>)],
) -> Result<Vec<(K, Option<&'a V>)>, Memory>
    ensures values { IfOk result (λ changes. (q : K)
        → option_map option_copied (lookup (is_at (K.cmp q)) changes.items)
        ≡ lookup (is_at (K.cmp q)) log.now) }
    ensures ordered { IfOk result (λ changes. IsStrictlySortedBy K.cmp (keys_of changes.items)) }
{
    let mut changes = shown(alloc, log)?;
    sort(&mut changes)?;
    keep_first(&mut changes);
    Ok(changes)
}

/// Each key with what its change says, in the changes' order.
fn shown<'a, K: Sharded, V>(
    alloc: Global,
    log: &'a [(K, Option<V>)],
) -> Result<Vec<(K, Option<&'a V>)>, Memory>
    ensures { IfOk result (λ changes.
        map (λ change. (change.0, option_copied change.1)) changes.items ≡ log.now) }
{
    let mut changes = Vec::with_capacity(alloc, log.len())?;
    for (key, value) in log {
        changes.push_reserved((*key, value.as_ref()));
    }
    Ok(changes)
}

/// Sorts these by key. Those of one key keep their order.
fn sort<K: Sharded, V>(changes: &mut Vec<(K, Option<&V>)>) -> Result<(), Memory>
    ensures sorted { OnOk result (IsSorted (λ a b. K.cmp a.0 b.0) changes.new.items) }
    ensures stable { OnOk result
        (IsStable (λ a b. K.cmp a.0 b.0) changes.old.items changes.new.items) }
{
    Ok(changes.sort_by(|a, b| a.0.cmp(&b.0))?)
}

/// Keeps the first of those that stand side by side and have one key.
fn keep_first<K: Sharded, V>(changes: &mut Vec<(K, Option<&V>)>)
    ensures { changes.new.items ≡ dedup (λ a b. eq_by_cmp K.cmp a.0 b.0) changes.old.items }
{
    changes.dedup_by(|later, kept| have_one(later, kept));
}

/// Whether two have one key.
fn have_one<K: Sharded, V>(a: &(K, Option<&V>), b: &(K, Option<&V>)) -> bool
    ensures { result ≡ eq_by_cmp K.cmp a.now.0 b.now.0 }
{
    a.0.cmp(&b.0).is_eq()
}
