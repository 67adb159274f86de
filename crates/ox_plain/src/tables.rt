//! Tables by outpoint, and what differs between two of them.

ghost use Rattle.std.specs.Prelude.{◌≡◌, Bool, IsTrue, Option, is_some, IfOk, OnOk};
ghost use Rattle.std.specs.Option.{option_copied};
ghost use Rattle.std.specs.List.{list_all};
ghost use Rattle.std.specs.FinMap as map;
ghost use Rattle.ox_rules.specs.Differences.{with_rows, without_rows};
ghost use Rattle.ox_rules.specs.Outputs.{outpoint_cmp};
ghost use Rattle.ox_plain.specs.Ends.{difference_ends, gave_way, stands};
ghost use Rattle.ox_plain.specs.Tables.{is_behind, table_of};

use crate::row::Row;
use ox_block::OutPoint;
use ox_bytes::Memory;
use std::alloc::Global;
use std::cmp::Ordering;
use std::collections::BTreeMap;

/// Whether a difference ends in a table: these rows are gone since, and those came.
pub(crate) fn difference_ends<X: Row>(
    table: &BTreeMap<OutPoint, X>,
    gone: &[(OutPoint, X)],
    came: &[(OutPoint, X)],
) -> bool
    ensures { result ≡ difference_ends X.same (table_of table.now.entries)
        (record { gone = gone.now; came = came.now }) }
{
    rise(gone) && rise(came) && all_stand(table, came) && all_gave_way(table, came, gone)
}

/// Whether the outpoints of rows rise.
fn rise<X>(rows: &[(OutPoint, X)]) -> bool
    ensures { result ≡ map.is_sorted outpoint_cmp rows.now }
{
    let mut last = None;
    for (at, _) in rows {
        if !is_behind(last, at) {
            return false;
        }
        last = Some(*at);
    }
    true
}

/// Whether an outpoint is behind the last one, if there is one.
fn is_behind(last: Option<OutPoint>, at: &OutPoint) -> bool
    ensures { result ≡ is_behind outpoint_cmp last at.now }
{
    match last {
        None => true,
        Some(last) => last.cmp(at).is_lt(),
    }
}

/// Whether each of these rows stands in a table as it is.
fn all_stand<X: Row>(table: &BTreeMap<OutPoint, X>, rows: &[(OutPoint, X)]) -> bool
    ensures { result ≡ list_all
        (λ row. stands X.same (map.get (table_of table.now.entries) row.0) row.1) rows.now }
{
    for (at, row) in rows {
        if !stands(row_at(table, at), row) {
            return false;
        }
    }
    true
}

/// Whether a row is the one that stands.
fn stands<X: Row>(stood: Option<&X>, row: &X) -> bool
    ensures { result ≡ stands X.same (option_copied stood.entry) row.now }
{
    match stood {
        Some(stood) => stood.is_same(row),
        None => false,
    }
}

/// Whether each of these rows gave way, where those came.
fn all_gave_way<X: Row>(
    table: &BTreeMap<OutPoint, X>,
    came: &[(OutPoint, X)],
    rows: &[(OutPoint, X)],
) -> bool
    requires { IsTrue (map.is_sorted outpoint_cmp came.now) }
    ensures { result ≡ list_all
        (λ row. gave_way X.same (map.get (table_of table.now.entries) row.0)
        (map.find outpoint_cmp row.0 came.now) row.1) rows.now }
{
    for (at, row) in rows {
        if !gave_way(row_at(table, at), came, at, row) {
            return false;
        }
    }
    true
}

/// Whether a row gave way to what stands, where those came: nothing stands, or another row that
/// came.
fn gave_way<X: Row>(stood: Option<&X>, came: &[(OutPoint, X)], at: &OutPoint, row: &X) -> bool
    requires { IsTrue (map.is_sorted outpoint_cmp came.now) }
    ensures { result ≡ gave_way X.same (option_copied stood.entry)
        (map.find outpoint_cmp at.now came.now) row.now }
{
    match stood {
        Some(stood) => !stood.is_same(row) && has_row(came, at),
        None => true,
    }
}

/// Whether rows, by rising outpoint, have one at this outpoint. It costs a logarithm.
pub fn has_row<X>(rows: &[(OutPoint, X)], at: &OutPoint) -> bool
    requires { IsTrue (map.is_sorted outpoint_cmp rows.now) }
    ensures { result ≡ is_some (map.find outpoint_cmp at.now rows.now) }
{
    let mut left = rows;
    while !left.is_empty() {
        let (front, back) = left.split_at(left.len() / 2);
        let Some((row, rest)) = back.split_first() else {
            return false;
        };
        match row.0.cmp(at) {
            Ordering::Less => left = rest,
            Ordering::Equal => return true,
            Ordering::Greater => left = front,
        }
    }
    false
}

/// The row at an outpoint, if there is one.
fn row_at<'a, X>(table: &'a BTreeMap<OutPoint, X>, at: &OutPoint) -> Option<&'a X>
    ensures { option_copied result ≡ map.get (table_of table.now.entries) at.now }
{
    table.get(at)
}

/// Goes to the other end of a difference: takes the rows that are gone there out of a table, and
/// puts those in that came there, once more. After `Memory` a part of that may be done.
pub(crate) fn exchange<X: Row>(
    alloc: Global,
    table: &mut BTreeMap<OutPoint, X>,
    gone: &[(OutPoint, X)],
    came: &[(OutPoint, X)],
) -> Result<(), Memory>
    ensures { OnOk result (table_of table.new.entries
        ≡ with_rows (without_rows (table_of table.old.entries) gone.now) came.now) }
{
    take_all(table, gone);
    put_all(alloc, table, came)
}

/// Takes the rows at the outpoints of these out of a table.
fn take_all<X: Drop>(table: &mut BTreeMap<OutPoint, X>, rows: &[(OutPoint, X)])
    ensures { table_of table.new.entries ≡ without_rows (table_of table.old.entries) rows.now }
{
    for (at, _) in rows.iter().rev() {
        take(table, at);
    }
}

/// Takes the row at an outpoint out of a table, if there is one.
fn take<X: Drop>(table: &mut BTreeMap<OutPoint, X>, at: &OutPoint)
    ensures { table_of table.new.entries ≡ map.remove (table_of table.old.entries) at.now }
{
    table.remove(at);
}

/// Puts these rows into a table once more. After `Memory` some of them may be there.
fn put_all<X: Row>(
    alloc: Global,
    table: &mut BTreeMap<OutPoint, X>,
    rows: &[(OutPoint, X)],
) -> Result<(), Memory>
    ensures { OnOk result
        (table_of table.new.entries ≡ with_rows (table_of table.old.entries) rows.now) }
{
    for (at, row) in rows.iter().rev() {
        put(table, *at, row.again(alloc)?)?;
    }
    Ok(())
}

/// Puts a row at an outpoint, in place of the one there, if there is one.
fn put<X: Drop>(table: &mut BTreeMap<OutPoint, X>, at: OutPoint, row: X) -> Result<(), Memory>
    ensures { OnOk result
        (table_of table.new.entries ≡ map.insert (table_of table.old.entries) at row) }
{
    table.insert(at, row)?;
    Ok(())
}

/// The same table once more. `Memory` where there is none for it.
pub(crate) fn copy_table<X: Row>(
    alloc: Global,
    table: &BTreeMap<OutPoint, X>,
) -> Result<BTreeMap<OutPoint, X>, Memory>
    ensures { IfOk result (λ copy. copy.entries ≡ table.now.entries) }
{
    let mut copy = BTreeMap::new(alloc);
    for (at, row) in table.iter() {
        copy.insert(*at, row.again(alloc)?)?;
    }
    Ok(copy)
}
