//! A view of an older index.

ghost use Rattle.std.specs.Prelude.{◌≡◌, ◌≤◌, IfOk, false, length, take, true};
ghost use Rattle.std.specs.BTreeMap as maps;
ghost use Rattle.std.specs.Ordering.{nat_cmp};
ghost use Rattle.std.proofs.Props.{props};
ghost use Rattle.ox_model.specs.Ends.{AllEnd};
ghost use Rattle.ox_model.specs.Index.{Index};
ghost use Rattle.ox_model.specs.Sound.{IsSound};
ghost use Rattle.ox_model.proofs.Ended.{AllEnd-prop};
ghost use Rattle.ox_asof.specs.Past.{AreRecounted, counted_by, lengths_of};
ghost use Rattle.ox_asof.specs.Shown.{shown};
ghost use Rattle.ox_asof.specs.Undone.{undone_by};

use crate::amounts::{held_of, rune_audit};
use crate::cut::{number_below, numbers_below};
use crate::lengths::{Lengths, lengths_by};
use crate::places::place_by;
use crate::recounted::{Rows, recounted};
use crate::said::{Said, oldest_said};
use crate::told::balance_before;
use crate::undone::Undone;
use ox_block::OutPoint;
use ox_bytes::{List, Memory};
use ox_index::Changes;
use ox_model::{Audit, InsId, InsRow, OutRow, Place, RuneId, RuneRow, View};
use ox_sat::{Profile, first};
use std::alloc::Global;

/// A view of an index before its newest blocks, over a view of it as it stands and the changes of
/// these blocks. It takes memory for the runes alone of which something was counted since, and none
/// where it shows the index without its runes.
pub struct Past<'a, V: View> {
    alloc: Global,
    view: &'a V,
    undone: Undone<'a>,
    lengths: Lengths,
    /// Whether it shows the runes.
    has_runes: bool,
    /// The runes of which something was counted since, as they were.
    rows: Rows,
    ghost end: { AllEnd (V.chain view.now) (V.index view.now) undone } by { AllEnd-prop _ _ _ },
    ghost sound: { IsSound (V.chain view.now)
        (shown has_runes (undone_by (V.index view.now) undone)) } by { Prim.hlevel props },
    ghost counted: { lengths ≡ lengths_of (shown has_runes
        (undone_by (V.index view.now) undone)) },
    ghost recounted: { AreRecounted (V.index view.now).runes lengths.runes (counted_by undone)
        (maps.get nat_cmp rows) },
}

/// By hand, so that whoever drops a view makes one call, and proves nothing of its fields.
impl<'a, V: View> Drop for Past<'a, V> {
    fn drop(self) {
        let Past {
            alloc: _alloc,
            view: _view,
            undone: _undone,
            lengths: _lengths,
            has_runes: _has_runes,
            rows: _rows,
        } = self;
    }
}

/// A view of an index before so many of its newest blocks, whose changes these are. It costs by the
/// changes' counts of runes. `Memory` where there is none for the runes that are counted otherwise.
pub fn past_of<'a, V: View>(
    alloc: Global,
    view: &'a V,
    changes: &'a Changes,
    back: usize,
) -> Result<Past<'a, V>, Memory>
    requires end { AllEnd (V.chain view.now) (V.index view.now) changes.now.kept }
    requires kept { back ≤ length changes.now.kept }
    ensures chain { IfOk result (λ past. V.chain past.view.now ≡ V.chain view.now) }
    ensures index { IfOk result (λ past. undone_by (V.index past.view.now) past.undone
        ≡ undone_by (V.index view.now) (take back changes.now.kept)) }
    ensures runes { IfOk result (λ past. past.has_runes ≡ true) }
{
    let undone = Undone::of(changes, back);
    let lengths = lengths_by(view, &undone);
    let rows = recounted(alloc, view, lengths.runes, &undone)?;
    Ok(Past {
        alloc,
        view,
        undone,
        lengths,
        has_runes: true,
        rows,
    })
}

/// The same without the runes, for replies that tell of none. It takes no memory.
pub(crate) fn past_without_runes<'a, V: View>(
    alloc: Global,
    view: &'a V,
    changes: &'a Changes,
    back: usize,
) -> Past<'a, V>
    requires end { AllEnd (V.chain view.now) (V.index view.now) changes.now.kept }
    requires kept { back ≤ length changes.now.kept }
    ensures chain { V.chain result.view.now ≡ V.chain view.now }
    ensures index { undone_by (V.index result.view.now) result.undone
        ≡ undone_by (V.index view.now) (take back changes.now.kept) }
    ensures runes { result.has_runes ≡ false }
{
    let undone = Undone::of(changes, back);
    let lengths = Lengths {
        runes: 0,
        ..lengths_by(view, &undone)
    };
    Past {
        alloc,
        view,
        undone,
        lengths,
        has_runes: false,
        rows: Rows::new(alloc),
    }
}

impl<'a, V: View> View for Past<'a, V> {
    ghost chain = { λ past. V.chain past.view.now };

    ghost index = { λ past. shown past.has_runes
        (undone_by (V.index past.view.now) past.undone) };

    fn profile(&self) -> &Profile {
        self.view.profile()
    }

    fn blocks(&self) -> u32 {
        self.lengths.blocks
    }

    fn hash_of(&self, height: u32) -> Option<&[u8; 32]> {
        if height < self.lengths.blocks {
            self.view.hash_of(height)
        } else {
            None
        }
    }

    fn output(&self, at: &OutPoint) -> Option<&OutRow> {
        match oldest_said(&self.undone, at) {
            Said::Stood(row) => Some(row),
            Said::Gone => None,
            Said::Nothing => self.view.output(at),
        }
    }

    fn lost(&self) -> u64 {
        self.lengths.lost
    }

    fn locate(&self, sat: u64) -> Option<Place> {
        let place = self.view.locate(sat);
        place_by(&self.undone, self.view.lost(), sat, place)
    }

    fn inscriptions(&self) -> u32 {
        self.lengths.inscriptions
    }

    fn inscription(&self, n: u32) -> &InsRow {
        self.view.inscription(n)
    }

    fn number(&self, n: u32) -> i64 {
        self.view.number(n)
    }

    fn find(&self, id: &InsId) -> Option<u32> {
        number_below(self.view.find(id), self.lengths.inscriptions)
    }

    fn on(&self, sat: u64) -> &[u32] {
        numbers_below(self.view.on(sat), self.lengths.inscriptions)
    }

    fn next_on(&self, sat: u64) -> Option<(u64, &[u32])> {
        let mut from = sat;
        while let Some((found, all)) = self.view.next_on(from) {
            let numbers = numbers_below(all, self.lengths.inscriptions);
            if !numbers.is_empty() {
                return Some((found, numbers));
            }
            from = found + 1;
        }
        None
    }

    fn children(&self, of: u32) -> &[u32] {
        numbers_below(self.view.children(of), self.lengths.inscriptions)
    }

    fn balance(&self, at: &OutPoint) -> &[(RuneId, u128)] {
        if !self.has_runes {
            return &[];
        }
        balance_before(self.view, &self.undone, at)
    }

    fn runes(&self) -> u32 {
        self.lengths.runes
    }

    fn rune(&self, n: u32) -> &RuneRow {
        match self.rows.get(&n) {
            Some(row) => row,
            None => self.view.rune(n),
        }
    }

    fn by_name(&self, name: u128) -> Option<u32> {
        number_below(self.view.by_name(name), self.lengths.runes)
    }

    fn by_id(&self, id: RuneId) -> Option<u32> {
        number_below(self.view.by_id(id), self.lengths.runes)
    }

    fn held(&self, n: u32) -> u128 {
        held_of(self.rune(n))
    }

    fn audit(&self) -> Result<Audit, Memory> {
        let claimable = first(self.profile(), u64::from(self.lengths.blocks));
        let mut runes = List::new(self.alloc);
        for n in 0..self.lengths.runes {
            runes.push(rune_audit(self.rune(n)))?;
        }
        Ok(Audit {
            claimable,
            lost: self.lengths.lost,
            outputs: claimable - self.lengths.lost,
            runes,
        })
    }

    ghost known = { λ past. V.known past.view.now };

    ghost sound = { λ past. past.sound };
}
