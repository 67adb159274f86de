//! Where a satoshi was.

ghost use Rattle.std.specs.Prelude.{◌≡◌, IsTrue};
ghost use Rattle.std.specs.FinMap as finite;
ghost use Rattle.std.specs.List.{AllByRecursion};
ghost use Rattle.ox_rules.specs.Outputs.{outpoint_cmp};
ghost use Rattle.ox_rules.specs.Where.{place_among};
ghost use Rattle.ox_model.specs.Change.{outputs_changed};
ghost use Rattle.ox_asof.specs.Places.{is_old, place_before, place_by};
ghost use Rattle.ox_asof.specs.Said.{AreRising};

use crate::said::row_at;
use crate::undone::Undone;
use ox_block::OutPoint;
use ox_model::{Change, OutRow, Place};

/// The place of a satoshi in the first of these outputs that holds it. It costs by their runs.
fn place_among(outputs: &[(OutPoint, OutRow)], sat: u64) -> Option<Place>
    ensures { result ≡ place_among outputs.now sat }
{
    for (at, row) in outputs {
        match row.sats.place_of(sat) {
            Some(offset) => {
                return Some(Place::Out {
                    outpoint: *at,
                    offset,
                });
            }
            None => (),
        }
    }
    None
}

/// Whether a place is no new one: its output didn't come in this change, and its satoshi wasn't
/// lost in it, where so many were lost before.
fn is_old(change: &Change, lost: u64, place: &Place) -> bool
    requires { IsTrue (finite.is_sorted outpoint_cmp change.now.came) }
    ensures { result ≡ is_old change.now lost place.now }
{
    match place {
        Place::Out { outpoint, .. } => row_at(change.came.as_slice(), outpoint).is_none(),
        Place::Lost { offset } => *offset < lost,
    }
}

/// Where a satoshi was before a change, by where it is after it. It is looked for among the outputs
/// that are gone only where its place is a new one.
fn place_before(change: &Change, lost: u64, sat: u64, place: Option<Place>) -> Option<Place>
    requires { IsTrue (finite.is_sorted outpoint_cmp change.now.came) }
    ensures { result ≡ place_before change.now lost sat place }
{
    let place = place?;
    if is_old(change, lost, &place) {
        Some(place)
    } else {
        place_among(change.gone.as_slice(), sat)
    }
}

/// Where a satoshi was before undone changes, by where it is, and how many satoshis are lost now.
pub(crate) fn place_by(
    undone: &Undone<'_>,
    lost: u64,
    sat: u64,
    place: Option<Place>,
) -> Option<Place>
    requires { AllByRecursion (λ change. AreRising (outputs_changed change)) undone.now }
    ensures { result ≡ place_by undone.now lost sat place }
{
    let mut fewer = lost;
    let mut found = place;
    for newest in 0..undone.len() {
        let change = undone.at(newest);
        fewer = fewer.saturating_sub(change.lost.len());
        found = place_before(change, fewer, sat, found);
    }
    found
}
