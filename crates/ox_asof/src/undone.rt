//! The changes that are undone.

ghost use Rattle.std.specs.Prelude.{◌≡◌, ◌<◌, ◌≤◌, Some, length, slice_get, take};

use ox_index::Changes;
use ox_model::Change;
use std::marker::Model;

/// The newest of the changes that are kept, so many, to be undone. Contracts see the list of them,
/// the newest first.
#[derive(Drop)]
pub(crate) struct Undone<'a> {
    changes: &'a Changes,
    back: usize,
}

impl<'a> Model for Undone<'a> {
    ghost use Rattle.std.specs.Prelude.{List, ◌≤◌, length, take};
    ghost use Rattle.ox_model.specs.declared.change.Change.{Change as IndexChange};

    ghost Value = { List IndexChange };

    ghost view = { λ u. take u.back u.changes.now.kept };

    ghost invariant = { λ u. u.back ≤ length u.changes.now.kept };
}

impl<'a> Undone<'a> {
    /// So many of these changes.
    pub(crate) fn of(changes: &'a Changes, back: usize) -> Undone<'a>
        requires { back ≤ length changes.now.kept }
        ensures { result ≡ take back changes.now.kept }
    {
        Undone { changes, back }
    }

    /// How many there are.
    pub(crate) fn len(&self) -> usize
        ensures { result ≡ length self.now }
    {
        self.back
    }

    /// The change at a place, from 0 on, which is the newest.
    pub(crate) fn at(&self, place: usize) -> &'a Change
        requires { place < length self.now }
        ensures { slice_get self.now place ≡ Some result.now }
    {
        let Some(change) = self.changes.get(place) else {
            unreachable!();
        };
        change
    }
}
