//! The places of slots, by outpoint.

ghost use Rattle.std.specs.Prelude.{◌≡◌, ◌≢◌, ◌⊎◌, ◌++◌, ◌∷◌, [], ℕ, Some, None, IfSome, IfNone, IfOk, OnOk, OnErr};
ghost use Rattle.std.specs.Prelude.{true, false, if◌then◌else◌, count_by, length};
ghost use Rattle.std.specs.BTreeMap.{is_at};
ghost use Rattle.ox_rules.specs.Outputs.{outpoint_cmp};
ghost use Rattle.ox_block.specs.declared.block.OutPoint.{OutPoint};
ghost use Rattle.ox_block.specs.Keys.{outpoint_tag};
ghost use Rattle.ox_shards.specs.Lines.{is_last, line_of};
ghost use Rattle.ox_outputs.specs.Lists.{items_at, is_in, led_to, AreMade};
ghost use Rattle.ox_outputs.specs.Slots.{outpoint_at};

use crate::entry::Entry;
use crate::held::{Held, is_slot_of};
use ox_block::OutPoint;
use ox_rules::Memory;
use ox_shards::{Lines, Sharded};
use std::alloc::{AllocError, Global};
use std::collections::BTreeMap;

/// A line is split where there are so many places, or more, for each.
const FILL: usize = 64;

/// So many places stand in one list at most.
const MOST: usize = 256;

/// A list takes memory for so many more places, and gives it back where more are free.
const STEP: usize = 2;

/// Places with a part of their outpoints.
type List = Vec<Entry>;

/// The places of slots, in lists by the tags of their outpoints. The outpoints stand in the slots
/// alone: a look-up goes through the tags of one list, and to the slot whose tag is the same. With
/// every 64th place one list is split in two, so that lists keep some 64 however many places there
/// are. By its tag alone an entry goes or stays, so that a split reads no slot. Where there is no
/// memory for it, it is left out, and the next place that is added tries again.
///
/// Ids are hashes, so the lists are of about one length. Whoever makes transactions can choose ids
/// that fill one list, and that no split parts; when it has 256 places, those of further outpoints
/// stand in an ordered map. So a look-up costs no more than a list and one in that map, whatever
/// the ids.
#[derive(Drop)]
pub(crate) struct Places {
    alloc: Global,
    lines: Lines,
    /// None until the first place is added, and then one for each line.
    lists: Vec<List>,
    /// How many places were added and not taken out, by which lines are split.
    count: usize,
    others: BTreeMap<OutPoint, u32>,
    ghost made: { AreMade lists.items lines },
}

impl Places {
    ghost use Rattle.ox_outputs.specs.Places.{list_at, other_at, HasPlace};

    /// No places. It takes no memory until one is added.
    pub(crate) fn new(alloc: Global) -> Places
        ensures { (at : OutPoint) (place : ℕ) → HasPlace result at place → ⊥ }
    {
        Places {
            alloc,
            lines: Lines::one(),
            lists: Vec::new(alloc),
            count: 0,
            others: BTreeMap::new(alloc),
        }
    }

    /// The list in which an outpoint's place stands, if it stands in a list.
    fn list_of(&self, at: &OutPoint) -> &[Entry]
        ensures { result.now ≡ list_at self.now at.now }
    {
        match self.lists.get(self.lines.line_of(u64::from(at.tag()))) {
            Some(list) => list.as_slice(),
            None => &[],
        }
    }

    /// Reads a part of the list in which an outpoint's place would stand.
    pub(crate) fn glance(&self, at: &OutPoint) -> u32 {
        let list = self.list_of(at);
        match (list.first(), list.last()) {
            (Some(first), Some(last)) => first.tag.wrapping_add(last.tag),
            _ => 0,
        }
    }

    /// The first place, if any, that may be that of an outpoint's slot, which isn't looked at.
    pub(crate) fn candidate(&self, at: &OutPoint) -> Option<u32> {
        let tag = at.tag();
        for entry in self.list_of(at) {
            if entry.tag == tag {
                return Some(entry.place);
            }
        }
        None
    }

    /// The place of the slot of an outpoint. It has to be among these, if there is such a slot.
    pub(crate) fn find(&self, held: &Held, at: &OutPoint) -> Option<u32>
        requires others { (place : ℕ) → other_at self.now at.now ≡ Some place
            → outpoint_at held.now.slots place ≡ Some at.now }
        requires among { (place : ℕ) → outpoint_at held.now.slots place ≡ Some at.now
            → HasPlace self.now at.now place }
        ensures some { IfSome result (λ place. outpoint_at held.now.slots place ≡ Some at.now) }
        ensures none { IfNone result
            ((place : ℕ) → outpoint_at held.now.slots place ≢ Some at.now) }
    {
        match place_in(self.list_of(at), held, at) {
            Some(place) => Some(place),
            None => self.others.get(at).copied(),
        }
    }

    /// Adds the place of the slot of an outpoint. `Memory` where there is none for it: all is as
    /// before.
    pub(crate) fn add(&mut self, at: OutPoint, place: u32) -> Result<(), Memory>
        ensures added { OnOk result (HasPlace self.new at place) }
        ensures before { (q : OutPoint) (p : ℕ) → HasPlace self.old q p → q ≢ at
            → HasPlace self.new q p }
        ensures others { (q : OutPoint) (p : ℕ) → other_at self.new q ≡ Some p
            → (other_at self.old q ≡ Some p) ⊎ ((q ≡ at) × (p ≡ place)) }
        ensures err { OnErr result ((q : OutPoint) → (list_at self.new q ≡ list_at self.old q)
            × (other_at self.new q ≡ other_at self.old q)) }
    {
        make_first(&mut self.lists, &self.lines, self.alloc)?;
        let tag = at.tag();
        let list = &mut self.lists[self.lines.line_of(u64::from(tag))];
        if list.len() < MOST {
            push(list, Entry { tag, place })?;
            self.count = self.count.saturating_add(1);
            self.grow();
        } else {
            self.others.insert(at, place)?;
            self.count = self.count.saturating_add(1);
        }
        Ok(())
    }

    /// Splits a line where there are many places for the lines. Where there is no memory for it,
    /// all stays as it is.
    fn grow(&mut self)
        requires { length self.old.lists.items ≡ self.old.lines.count }
        ensures kept { (q : OutPoint) (p : ℕ) → HasPlace self.old q p → HasPlace self.new q p }
        ensures others { (q : OutPoint) → other_at self.new q ≡ other_at self.old q }
    {
        if self.count / FILL >= self.lines.count() {
            let _split = split(&mut self.lists, &mut self.lines, self.alloc);
        }
    }

    /// Takes the place of the slot of an outpoint out.
    pub(crate) fn remove(&mut self, at: &OutPoint, place: u32)
        ensures gone { HasPlace self.new at.now place → ⊥ }
        ensures left { (q : OutPoint) (p : ℕ) → HasPlace self.old q p → q ≢ at.now → p ≢ place
            → HasPlace self.new q p }
        ensures others { (q : OutPoint) → other_at self.new q
            ≡ (if is_at (outpoint_cmp at.now) q then None else other_at self.old q) }
    {
        take_out(
            &mut self.lists,
            self.lines.line_of(u64::from(at.tag())),
            place,
        );
        self.count = self.count.saturating_sub(1);
        self.others.remove(at);
    }
}

/// The place, of these, of the slot of an outpoint.
fn place_in(list: &[Entry], held: &Held, at: &OutPoint) -> Option<u32>
    ensures some { IfSome result (λ place. outpoint_at held.now.slots place ≡ Some at.now) }
    ensures none { IfNone result ((place : ℕ) → is_in list.now (outpoint_tag at.now) place ≡ true
        → outpoint_at held.now.slots place ≢ Some at.now) }
{
    let tag = at.tag();
    for entry in list {
        if entry.tag == tag && is_slot_of(held, entry.place, at) {
            return Some(entry.place);
        }
    }
    None
}

/// Makes the list of the one line, if there is none. `AllocError` where there is no memory for it.
fn make_first(lists: &mut Vec<List>, lines: &Lines, alloc: Global) -> Result<(), AllocError>
    requires made { AreMade lists.old.items lines.now }
    ensures made { AreMade lists.new.items lines.now }
    ensures all { OnOk result (length lists.new.items ≡ lines.now.count) }
    ensures same { (index : ℕ) → items_at lists.new.items index
        ≡ items_at lists.old.items index }
{
    if lists.is_empty() {
        lists.reserve(1)?;
        lists.push_reserved(Vec::new(alloc));
    }
    Ok(())
}

/// Puts an entry behind the others. `AllocError` where there is no memory for it: none is lost.
fn push(list: &mut List, entry: Entry) -> Result<(), AllocError>
    ensures ok { OnOk result (list.new.items ≡ list.old.items ++ entry ∷ []) }
    ensures err { OnErr result (list.new.items ≡ list.old.items) }
{
    if list.len() == list.capacity() {
        list.reserve_exact(STEP)?;
    }
    list.push_reserved(entry);
    Ok(())
}

/// Splits a line: the entries whose tags lead to a new one move there. `AllocError` where there is
/// no memory for it: all stand where they stood.
fn split(lists: &mut Vec<List>, lines: &mut Lines, alloc: Global) -> Result<(), AllocError>
    requires { length lists.old.items ≡ lines.old.count }
    ensures made { length lists.new.items ≡ lines.new.count }
    ensures led { (tag place : ℕ) → is_in (led_to lists.old.items lines.old tag) tag place ≡ true
        → is_in (led_to lists.new.items lines.new tag) tag place ≡ true }
{
    if let Some((more, from)) = lines.more() {
        lists.reserve(1)?;
        let last = going(&lists[from], &more, alloc)?;
        drop_going(&mut lists[from], &more);
        lists.push_reserved(last);
        *lines = more;
    }
    Ok(())
}

/// The entries whose tags lead to the last line. Memory is taken for just so many, since more that
/// is given back leaves holes between lists. `AllocError` where there is none.
fn going(list: &[Entry], lines: &Lines, alloc: Global) -> Result<List, AllocError>
    ensures { IfOk result (λ last. (tag place : ℕ) → is_last lines.now tag ≡ true
        → is_in list.now tag place ≡ true → is_in last.items tag place ≡ true) }
{
    let mut last = Vec::new(alloc);
    last.reserve_exact(count_going(list, lines))?;
    for entry in list {
        if lines.is_last(u64::from(entry.tag)) {
            last.push(*entry)?;
        }
    }
    Ok(last)
}

/// How many entries' tags lead to the last line.
fn count_going(list: &[Entry], lines: &Lines) -> usize
    ensures { result ≡ count_by (λ entry. is_last lines.now entry.tag) list.now }
{
    list.iter()
        .filter(|entry| lines.is_last(u64::from(entry.tag)))
        .count()
}

/// Drops the entries whose tags lead to the last line.
fn drop_going(list: &mut List, lines: &Lines)
    ensures { (tag place : ℕ) → is_last lines.now tag ≡ false
        → is_in list.new.items tag place ≡ is_in list.old.items tag place }
{
    let mut left = list.len();
    while left > 0 {
        left -= 1;
        if lines.is_last(u64::from(list[left].tag)) {
            list.swap_remove(left);
        }
    }
    list.shrink_to_fit();
}

/// Takes a place out of the list with this index, if there is one.
fn take_out(lists: &mut Vec<List>, index: usize, place: u32)
    ensures gone { (tag : ℕ) → is_in (items_at lists.new.items index) tag place ≡ false }
    ensures left { (tag other : ℕ) → other ≢ place
        → is_in (items_at lists.new.items index) tag other
        ≡ is_in (items_at lists.old.items index) tag other }
    ensures others { (other : ℕ) → other ≢ index
        → items_at lists.new.items other ≡ items_at lists.old.items other }
    ensures len { length lists.new.items ≡ length lists.old.items }
{
    if let Some(list) = lists.get_mut(index) {
        drop_entries(list, place);
    }
}

/// Drops the entries of a place. The order of a list says nothing, so the last entry comes to where
/// one went.
fn drop_entries(list: &mut List, place: u32)
    ensures gone { (tag : ℕ) → is_in list.new.items tag place ≡ false }
    ensures left { (tag other : ℕ) → other ≢ place
        → is_in list.new.items tag other ≡ is_in list.old.items tag other }
{
    let mut left = list.len();
    while left > 0 {
        left -= 1;
        if list[left].place == place {
            list.swap_remove(left);
        }
    }
    if list.capacity() - list.len() > STEP {
        list.shrink_to_fit();
    }
}
