//! What outputs hold, with a mark.

ghost use Rattle.std.specs.Prelude.{◌≡◌, ◌≢◌, ◌+◌, ◌^◌, ◌<◌, ◌↔◌, ◌++◌, ℕ};
ghost use Rattle.std.specs.Prelude.{◌≤◌, length, [], IsTrue, IsSome, None, OnOk, OnErr, IfOk};
ghost use Rattle.std.specs.FinMap as map;
ghost use Rattle.std.specs.Option.{option_copied, option_map, IfSome};
ghost use Rattle.ox_rules.specs.Differences.{Differ};
ghost use Rattle.ox_rules.specs.Transfer.{as_list};
ghost use Rattle.std.specs.List.Sorted.{IsStrictlySortedBy};
ghost use Rattle.ox_runestone.specs.declared.stone.RuneId.{RuneId};
ghost use Rattle.ox_allocation.specs.Balances.{amount_in, id_cmp, ids_of};
ghost use Rattle.ox_ledger.specs.Runes.{balances_at, brought_by, joined_with, with_balances};
ghost use Rattle.ox_ledger.specs.Shown.{held_in, held_then};
ghost use Rattle.ox_ledger.specs.Steps.{HoldAmounts};

use crate::ahead::{count_now, count_then};
use ox_allocation::{Balances, Pool};
use ox_block::{OutPoint, TxIn, Txid};
use ox_bytes::{List, Memory};
use ox_marked::Marked;
use ox_runestone::RuneId;
use std::alloc::Global;

/// What so many changed outputs held and hold is read ahead at a time.
const BATCH: usize = 32;

/// The runes of an output that is made.
pub type Placement = (OutPoint, Balances);

/// The runes of outputs by outpoint; of one without runes there is nothing.
pub(crate) type Holders = Marked<OutPoint, Balances>;

/// What an output holds.
pub(crate) fn balances_at<'a>(holders: &'a Holders, at: &OutPoint) -> &'a [(RuneId, u128)]
    ensures { result.now ≡ balances_at (held_in holders.now) at.now }
{
    match holders.get(at) {
        Some(balances) => balances.as_slice(),
        None => &[],
    }
}

/// How much of a rune there is in balances, by rising ids.
pub(crate) fn amount_in(balances: &[(RuneId, u128)], id: RuneId) -> u128
    ensures { result ≡ amount_in balances.now id }
{
    for (other, amount) in balances {
        if *other == id {
            return *amount;
        }
    }
    0
}

/// Takes away what an output holds. `Memory` where there is none to keep it until the next mark:
/// nothing has changed then.
pub(crate) fn empty(holders: &mut Holders, at: &OutPoint) -> Result<(), Memory>
    ensures ok { OnOk result (held_in holders.new ≡ map.remove (held_in holders.old) at.now) }
    ensures mark { held_then holders.new ≡ held_then holders.old }
    ensures err { OnErr result (holders.new ≡ holders.old) }
{
    holders.put(*at, None)
}

/// Gives an output these runes in place of what it holds. `Memory` where there is none for them:
/// nothing has changed then.
pub(crate) fn fill(holders: &mut Holders, at: OutPoint, balances: Balances) -> Result<(), Memory>
    ensures ok { OnOk result
        (held_in holders.new ≡ with_balances (held_in holders.old) at balances) }
    ensures mark { held_then holders.new ≡ held_then holders.old }
    ensures err { OnErr result (holders.new ≡ holders.old) }
{
    if balances.is_empty() {
        return empty(holders, &at);
    }
    holders.put(at, Some(balances))
}

/// Gives an output that holds nothing these runes. `Memory` where there is none for them: nothing
/// has changed then.
pub(crate) fn fill_free(
    holders: &mut Holders,
    at: OutPoint,
    balances: Balances,
) -> Result<(), Memory>
    requires { map.get (held_in holders.old) at ≡ None }
    ensures ok { OnOk result
        (held_in holders.new ≡ with_balances (held_in holders.old) at balances) }
    ensures mark { held_then holders.new ≡ held_then holders.old }
    ensures err { OnErr result (holders.new ≡ holders.old) }
{
    if balances.is_empty() {
        return Ok(());
    }
    holders.put(at, Some(balances))
}

/// Adds balances to a pool.
pub(crate) fn join(pool: &mut Pool, balances: &[(RuneId, u128)]) -> Result<(), Memory>
    requires fits { (id : RuneId) → amount_in pool.old id + amount_in balances.now id < 2 ^ 128 }
    requires proper { IsStrictlySortedBy id_cmp (ids_of balances.now) }
    ensures { OnOk result (pool.new ≡ joined_with pool.old balances.now) }
{
    for (id, amount) in balances {
        pool.add(*id, *amount)?;
    }
    Ok(())
}

/// Takes what an output holds into a pool.
fn bring(holders: &mut Holders, at: &OutPoint, pool: &mut Pool) -> Result<(), Memory>
    requires fits { (id : RuneId) → amount_in pool.old id
        + amount_in (balances_at (held_in holders.old) at.now) id < 2 ^ 128 }
    requires proper { IsStrictlySortedBy id_cmp
        (ids_of (balances_at (held_in holders.old) at.now)) }
    ensures pool { OnOk result
        (pool.new ≡ joined_with pool.old (balances_at (held_in holders.old) at.now)) }
    ensures left { OnOk result (held_in holders.new ≡ map.remove (held_in holders.old) at.now) }
    ensures mark { held_then holders.new ≡ held_then holders.old }
{
    let Some(balances) = holders.get(at) else {
        return Ok(());
    };
    join(pool, balances.as_slice())?;
    empty(holders, at)
}

/// Takes what the inputs' outputs hold into a pool.
pub(crate) fn gather(alloc: Global, holders: &mut Holders, inputs: &[TxIn]) -> Result<Pool, Memory>
    requires fits { HoldAmounts (held_in holders.old) }
    ensures ok { IfOk result (λ pool. record { pool = pool; bal = held_in holders.new }
        ≡ brought_by inputs.now (held_in holders.old) []) }
    ensures mark { held_then holders.new ≡ held_then holders.old }
{
    let mut pool = Pool::new(alloc);
    for input in inputs {
        bring(holders, &input.from, &mut pool)?;
    }
    Ok(pool)
}

/// Whether nothing stands at the first so many outpoints of a transaction: a look-up for each, up
/// to the first at which something stands.
pub(crate) fn are_free(holders: &Holders, txid: Txid, count: u32) -> bool
    ensures { IsTrue result ↔ ((index : ℕ) → index < count
        → map.get (held_in holders.now) (record { txid = txid; index = index }) ≡ None) }
{
    for index in 0..count {
        if holders.get(&OutPoint { txid, index }).is_some() {
            return false;
        }
    }
    true
}

/// The balances of outputs that are gone since a mark, and those that came.
#[derive(Drop)]
pub(crate) struct Exchange {
    pub(crate) gone: List<Placement>,
    pub(crate) came: List<Placement>,
}

/// Whether two outputs hold the same.
fn is_same(one: Option<&Balances>, other: Option<&Balances>) -> bool
    ensures { IsTrue result ↔ (option_copied one.entry ≡ option_copied other.entry) }
{
    match (one, other) {
        (Some(one), Some(other)) => one.as_slice() == other.as_slice(),
        (None, None) => true,
        _ => false,
    }
}

/// Appends what an output holds, once more, if it holds anything.
fn push_copy(
    alloc: Global,
    list: &mut Vec<Placement>,
    at: OutPoint,
    balances: Option<&Balances>,
) -> Result<(), Memory>
    ensures { OnOk result (list.new.items ≡ list.old.items
        ++ as_list (option_map (λ b. (at, b)) (option_copied balances.entry))) }
{
    if let Some(balances) = balances {
        list.push((at, balances.copy(alloc)?))?;
    }
    Ok(())
}

/// Appends what an output holds, if another state has not the same there.
fn push_gone(
    alloc: Global,
    list: &mut Vec<Placement>,
    at: OutPoint,
    balances: Option<&Balances>,
    other: Option<&Balances>,
) -> Result<(), Memory>
    ensures differs { option_copied balances.entry ≢ option_copied other.entry
        → OnOk result (list.new.items ≡ list.old.items
        ++ as_list (option_map (λ b. (at, b)) (option_copied balances.entry))) }
    ensures same { option_copied balances.entry ≡ option_copied other.entry
        → OnOk result (list.new.items ≡ list.old.items) }
{
    if is_same(balances, other) {
        return Ok(());
    }
    push_copy(alloc, list, at, balances)
}

/// What differs between what outputs held at the mark and what they hold, by rising outpoint.
pub(crate) fn changed(alloc: Global, holders: &Holders) -> Result<Exchange, Memory>
    requires { IsSome (held_then holders.now) }
    ensures { IfOk result (λ exchange. IfSome (held_then holders.now) (λ then.
        Differ then (held_in holders.now)
        (record { gone = exchange.gone; came = exchange.came }))) }
{
    let mut gone = Vec::new(alloc);
    let mut came = Vec::new(alloc);
    let changes = holders.changed()?;
    for (place, change) in changes.iter().enumerate() {
        make_room(holders, &changes, place, &mut gone, &mut came)?;
        let (at, then) = *change;
        let now = holders.get(&at);
        push_gone(alloc, &mut gone, at, then, now)?;
        push_gone(alloc, &mut came, at, now, then)?;
    }
    Ok(Exchange {
        gone: List::from_vec(gone),
        came: List::from_vec(came),
    })
}

/// At the first of each batch of changes it takes room for what will be gone and what will have
/// come by them, about, for which what outputs held and hold is read ahead.
fn make_room(
    holders: &Holders,
    changes: &[(OutPoint, Option<&Balances>)],
    place: usize,
    gone: &mut Vec<Placement>,
    came: &mut Vec<Placement>,
) -> Result<(), Memory>
    requires { place ≤ length changes.now }
    ensures gone { gone.new.items ≡ gone.old.items }
    ensures came { came.new.items ≡ came.old.items }
{
    if place % BATCH == 0 {
        let left = &changes[place..];
        let batch = &left[..left.len().min(BATCH)];
        gone.reserve(count_then(batch))?;
        came.reserve(count_now(holders, batch))?;
    }
    Ok(())
}
