//! The rows by rising outpoint.

ghost use Rattle.std.specs.Prelude.{◌≡◌, ◌==◌, All, IfOk, length, map, slice_get};
ghost use Rattle.std.specs.Option.{option_map};
ghost use Rattle.std.specs.FinMap.{entries};
ghost use Rattle.ox_outputs.specs.Fronts.{fronted_cmp};
ghost use Rattle.ox_outputs.specs.InOrder.{IsFilled, StandApart, entries_in, entry_of};
ghost use Rattle.ox_outputs.specs.Slots.{outpoint_at, rows_of};

use crate::fronted::Fronted;
use crate::held::{Held, count, end, filled_in, outpoint_in};
use ox_block::OutPoint;
use ox_rules::{Memory, OutRow};
use std::alloc::Global;
use std::cmp::Ordering;
use std::marker::Model;

/// The rows by rising outpoint: the places of their slots in that order. Contracts see the list of
/// the rows, with their outpoints.
#[derive(Drop)]
pub struct InOrder<'a> {
    held: &'a Held,
    places: Vec<Fronted>,
}

impl<'a> Model for InOrder<'a> {
    ghost use Rattle.std.specs.Prelude.{All, List, map};
    ghost use Rattle.ox_block.specs.declared.block.OutPoint.{OutPoint};
    ghost use Rattle.ox_rules.specs.declared.rows.OutRow.{OutRow};
    ghost use Rattle.ox_outputs.specs.InOrder.{IsFilled, entry_of};

    ghost Value = { List (OutPoint × OutRow) };

    ghost view = { λ order. map (entry_of order.held.now.slots) order.places.items };

    ghost invariant = { λ order. All (IsFilled order.held.now.slots) order.places.items };
}

impl<'a> InOrder<'a> {
    /// How many rows there are.
    pub fn len(&self) -> usize
        ensures { result ≡ length self.now }
    {
        self.places.len()
    }

    /// Whether there are none.
    pub fn is_empty(&self) -> bool
        ensures { result ≡ (length self.now == 0) }
    {
        self.places.is_empty()
    }

    /// The row with so many before it, and its outpoint; `None` exactly where there are no more.
    pub fn get(&self, n: usize) -> Option<(&'a OutPoint, &'a OutRow)>
        ensures { option_map (λ e. (e.0.now, e.1.now)) result ≡ slice_get self.now n }
    {
        let cell = filled_in(self.held, self.places.get(n)?.place)?;
        Some((cell.at, cell.row))
    }
}

/// The rows in these slots, by rising outpoint. `Memory` where there is none for the order.
pub(crate) fn in_order(alloc: Global, held: &Held) -> Result<InOrder<'_>, Memory>
    requires { StandApart held.now.slots }
    ensures { IfOk result (λ order. order ≡ entries (rows_of held.now.slots)) }
{
    let mut places = filled(alloc, held)?;
    places.sort_unstable_by(|a, b| order_of(held, a, b));
    Ok(InOrder { held, places })
}

/// The places of those of these slots that hold rows.
fn filled(alloc: Global, held: &Held) -> Result<Vec<Fronted>, Memory>
    ensures entries { IfOk result (λ places.
        map (entry_of held.now.slots) places.items ≡ entries_in held.now.slots) }
    ensures fronts { IfOk result (λ places. All (IsFilled held.now.slots) places.items) }
{
    let mut places = Vec::new(alloc);
    places.reserve_exact(count(held))?;
    for place in 0..end(held) {
        if let Some(cell) = filled_in(held, place) {
            places.push(Fronted::new(cell.at, place))?;
        }
    }
    Ok(places)
}

/// The order of two slots, by their places: by the fronts of their outpoints, and by the outpoints
/// where these are equal.
fn order_of(held: &Held, a: &Fronted, b: &Fronted) -> Ordering
    ensures { result ≡ fronted_cmp (outpoint_at held.now.slots) a.now b.now }
{
    if a.front == b.front {
        outpoint_in(held, a.place).cmp(&outpoint_in(held, b.place))
    } else {
        a.front.cmp(&b.front)
    }
}
