//! Lists that are compared, cut and made longer at their ends.

ghost use Rattle.std.specs.Prelude.{◌≡◌, ◌==◌, ◌-◌, ◌++◌, length, take, IfOk, OnOk};
ghost use Rattle.std.specs.Bool.{OnFalse, OnTrue};
ghost use Rattle.std.specs.List.{ends_with};
ghost use Rattle.std.specs.Cmp.Lexicographic.{pointwise};

use crate::row::{Row, are_same};
use ox_bytes::{List, Memory};
use ox_range::Ranges;
use std::alloc::Global;
use std::mem;

/// Whether rows end with these.
pub(crate) fn ends_with<X: Row>(rows: &[X], tail: &[X]) -> bool
    ensures { result ≡ ends_with X.same rows.now tail.now }
{
    if rows.len() < tail.len() {
        return false;
    }
    are_equal(tail, &rows[rows.len() - tail.len()..])
}

/// Whether as many rows are each the same.
fn are_equal<X: Row>(rows: &[X], others: &[X]) -> bool
    requires { length rows.now ≡ length others.now }
    ensures { result ≡ pointwise X.same rows.now others.now }
{
    for place in 0..rows.len() {
        if !rows[place].is_same(&others[place]) {
            return false;
        }
    }
    true
}

/// Keeps the first so many values of a list.
pub(crate) fn cut<T: Drop>(alloc: Global, list: &mut List<T>, count: usize)
    ensures { list.new ≡ take count list.old }
{
    let mut items = mem::replace(list, List::new(alloc)).into_vec();
    items.truncate(count);
    *list = List::from_vec(items);
}

/// Puts these values behind a list. After `Memory` some of them may be there.
pub(crate) fn push_all<T: Copy + Drop>(list: &mut List<T>, tail: &[T]) -> Result<(), Memory>
    ensures { OnOk result (list.new ≡ list.old ++ tail.now) }
{
    for value in tail {
        list.push(*value)?;
    }
    Ok(())
}

/// Puts these rows once more behind a list. After `Memory` some of them may be there.
pub(crate) fn push_again<X: Row>(
    alloc: Global,
    list: &mut List<X>,
    tail: &[X],
) -> Result<(), Memory>
    ensures { OnOk result (list.new ≡ list.old ++ tail.now) }
{
    for row in tail {
        list.push(row.again(alloc)?)?;
    }
    Ok(())
}

/// Cuts these satoshis off others that end with them, and answers whether they do. It costs by the
/// runs of what is cut. `Memory` where there is none left: what stands then isn't said.
pub(crate) fn cut_sats(sats: &mut Ranges, tail: &Ranges) -> Result<bool, Memory>
    ensures told { IfOk result (λ ends. ends ≡ ends_with ◌==◌ sats.old tail.now) }
    ensures cut { IfOk result (λ ends. OnTrue ends
        (sats.new ≡ take (length sats.old - length tail.now) sats.old)) }
    ensures stays { IfOk result (λ ends. OnFalse ends (sats.new ≡ sats.old)) }
{
    let rest = sats.split_off(sats.len().saturating_sub(tail.len()))?;
    if are_same(tail, &rest) {
        return Ok(true);
    }
    sats.join(&rest)?;
    Ok(false)
}

/// Puts these satoshis behind others. `Memory` where there is none for them, and where they would
/// be more than a `u64` counts.
pub(crate) fn push_sats(sats: &mut Ranges, tail: &Ranges) -> Result<(), Memory>
    ensures { OnOk result (sats.new ≡ sats.old ++ tail.now) }
{
    if sats.len().checked_add(tail.len()).is_none() {
        return Err(Memory);
    }
    sats.join(tail)
}
