//! The row that comes next by rising outpoint.

ghost use Rattle.std.specs.Prelude.{◌≡◌, Some};
ghost use Rattle.std.specs.Option.{option_map};
ghost use Rattle.std.specs.FinMap.{entries};
ghost use Rattle.ox_outputs.specs.InOrder.{StandApart};
ghost use Rattle.ox_outputs.specs.Next.{earlier, is_past, nearer, next_of};
ghost use Rattle.ox_outputs.specs.Slots.{rows_of};

use crate::held::{Held, end, filled_in};
use ox_block::OutPoint;
use ox_rules::OutRow;

/// A row with its outpoint.
type Entry<'a> = (&'a OutPoint, &'a OutRow);

/// The first row in these slots by rising outpoint, or the first past an outpoint. It looks at all
/// slots.
pub(crate) fn next_in(held: &Held, past: Option<OutPoint>) -> Option<Entry<'_>>
    requires { StandApart held.now.slots }
    ensures { option_map (λ e. (e.0.now, e.1.now)) result
        ≡ next_of past (entries (rows_of held.now.slots)) }
{
    let mut best = None;
    for place in 0..end(held) {
        if let Some(slot) = filled_in(held, place) {
            best = nearer_of(past, best, (slot.at, slot.row));
        }
    }
    best
}

/// The next row as far as is known, when one more row is known.
fn nearer_of<'a>(
    past: Option<OutPoint>,
    best: Option<Entry<'a>>,
    row: Entry<'a>,
) -> Option<Entry<'a>>
    ensures { option_map (λ e. (e.0.now, e.1.now)) result
        ≡ nearer past (option_map (λ e. (e.0.now, e.1.now)) best.entry)
        row.entry.0.now (Some row.entry.1.now) }
{
    if is_past(past, row.0) {
        Some(earlier_of(best, row))
    } else {
        best
    }
}

/// Whether an outpoint comes behind another one, where there is another one.
fn is_past(past: Option<OutPoint>, at: &OutPoint) -> bool
    ensures { result ≡ is_past past at.now }
{
    match past {
        Some(past) => past.cmp(at).is_lt(),
        None => true,
    }
}

/// The one of two rows that comes first, where there is another one.
fn earlier_of<'a>(best: Option<Entry<'a>>, row: Entry<'a>) -> Entry<'a>
    ensures { option_map (λ e. (e.0.now, e.1.now)) (Some result)
        ≡ earlier (option_map (λ e. (e.0.now, e.1.now)) best.entry)
        (row.entry.0.now, row.entry.1.now) }
{
    match best {
        Some(best) if !row.0.cmp(best.0).is_lt() => best,
        _ => row,
    }
}
