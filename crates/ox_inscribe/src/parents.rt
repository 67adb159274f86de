//! The rows that an inscription names and bears upon.

ghost use Rattle.std.specs.Prelude.{◌≡◌, ◌≤◌, ◌&&◌, true, not, filter, length, take, IfOk};
ghost use Rattle.std.specs.Prelude.{OnOk, if◌then◌else◌};
ghost use Rattle.std.specs.BTreeSet.{contains};
ghost use Rattle.std.specs.Ordering.{is_eq};
ghost use Rattle.ox_envelope.specs.declared.id.InsId.{InsId};
ghost use Rattle.ox_inscribe.specs.Reveal.{bears, each_once, stands_among};
ghost use Rattle.ox_inscribe.specs.Shelved.{id_cmp};

use crate::rows::Rows;
use ox_bytes::Memory;
use ox_envelope::{Ids, InsId};
use ox_range_index::RangeIndex;
use std::alloc::Global;
use std::collections::BTreeSet;

/// Whether the first of so many rows that has an id is on one of these satoshis.
fn stands_among(joined: &RangeIndex<'_>, rows: &Rows, count: u32, id: &InsId) -> bool
    requires { count ≤ length rows.now.rows }
    ensures { result ≡ stands_among joined.now (take count rows.now.rows) id.now }
{
    let Some(number) = rows.find(id) else {
        return false
    };
    if number >= count {
        return false;
    }
    match rows.row(number).sat {
        Some(sat) => joined.contains(sat),
        None => false,
    }
}

/// Whether an id wasn't met before and stands among so many rows, as above. It is met now.
fn is_parent(
    joined: &RangeIndex<'_>,
    rows: &Rows,
    count: u32,
    met: &mut BTreeSet<InsId>,
    id: InsId,
) -> Result<bool, Memory>
    requires { count ≤ length rows.now.rows }
    ensures parent { IfOk result (λ is_parent. is_parent ≡ (not (contains id_cmp met.old id)
        && stands_among joined.now (take count rows.now.rows) id)) }
    ensures met { OnOk result ((other : InsId) → contains id_cmp met.new other
        ≡ (if is_eq (id_cmp id other) then true else contains id_cmp met.old other)) }
{
    if !met.insert(id)? {
        return Ok(false);
    }
    Ok(stands_among(joined, rows, count, &id))
}

/// Of the ids that are named, each once, those whose first row among so many is on one of these
/// satoshis.
pub(crate) fn parents_among(
    alloc: Global,
    joined: &RangeIndex<'_>,
    rows: &Rows,
    count: u32,
    named: &[InsId],
) -> Result<Ids, Memory>
    requires { count ≤ length rows.now.rows }
    ensures { IfOk result (λ parents. parents
        ≡ filter (stands_among joined.now (take count rows.now.rows)) (each_once named.now)) }
{
    let mut met = BTreeSet::new(alloc);
    let mut parents = Ids::new(alloc);
    for id in named {
        if is_parent(joined, rows, count, &mut met, *id)? {
            parents.push(*id)?;
        }
    }
    Ok(parents)
}

/// Whether a row is on this satoshi.
pub(crate) fn bears(rows: &Rows, sat: Option<u64>) -> bool
    ensures { result ≡ bears rows.now.rows sat }
{
    match sat {
        Some(sat) => !rows.on(sat).is_empty(),
        None => false,
    }
}
