//! How much there was of each list of an index.

ghost use Rattle.std.specs.Prelude.{◌≡◌, ◌-◌};
ghost use Rattle.ox_asof.specs.Past.{lengths_before, lengths_by, lengths_of};

use crate::undone::Undone;
use ox_model::{Change, View};

/// How much there is of each list of an index.
#[derive(Clone, Copy, PartialEq, Eq)]
pub(crate) struct Lengths {
    pub(crate) blocks: u32,
    pub(crate) lost: u64,
    pub(crate) inscriptions: u32,
    pub(crate) runes: u32,
}

/// How much there is of them now.
fn lengths_of<V: View>(view: &V) -> Lengths
    ensures { result ≡ lengths_of (V.index view.now) }
{
    Lengths {
        blocks: view.blocks(),
        lost: view.lost(),
        inscriptions: view.inscriptions(),
        runes: view.runes(),
    }
}

/// So many less, or none.
fn without(count: u32, fewer: usize) -> u32
    ensures { result ≡ count - fewer }
{
    (count as usize).saturating_sub(fewer) as u32
}

/// How much there was of them before a change.
fn lengths_before(change: &Change, lengths: Lengths) -> Lengths
    ensures { result ≡ lengths_before change.now lengths }
{
    Lengths {
        blocks: lengths.blocks.saturating_sub(1),
        lost: lengths.lost.saturating_sub(change.lost.len()),
        inscriptions: without(lengths.inscriptions, change.inscriptions.len()),
        runes: without(lengths.runes, change.runes.appended.len()),
    }
}

/// How much there was of them before undone changes.
pub(crate) fn lengths_by<V: View>(view: &V, undone: &Undone<'_>) -> Lengths
    ensures { result ≡ lengths_by undone.now (lengths_of (V.index view.now)) }
{
    let mut lengths = lengths_of(view);
    for newest in 0..undone.len() {
        lengths = lengths_before(undone.at(newest), lengths);
    }
    lengths
}
