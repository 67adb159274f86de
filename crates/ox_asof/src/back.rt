//! How many blocks back a block is.

ghost use Rattle.std.specs.Prelude.{◌≡◌, ◌≢◌, Some};
ghost use Rattle.std.specs.Option.{IfNone, IfSome};
ghost use Rattle.std.specs.Bool.{OnFalse, OnTrue};
ghost use Rattle.ox_asof.specs.Back.{IsBack, IsNoneBack, tip_back};

use ox_model::View;

/// Whether a block with this hash has exactly so many blocks above it.
fn is_back<V: View>(view: &V, back: usize, hash: &[u8; 32]) -> bool
    ensures yes { OnTrue result (tip_back (V.index view.now).hashes back ≡ Some hash.now) }
    ensures no { OnFalse result (tip_back (V.index view.now).hashes back ≢ Some hash.now) }
{
    let blocks = view.blocks() as usize;
    if back >= blocks {
        return false;
    }
    match view.hash_of((blocks - back - 1) as u32) {
        Some(newest) => newest == hash,
        None => false,
    }
}

/// The least number of blocks, of at most so many, without which a block with this hash is the
/// newest; `None` exactly where there is none.
pub fn back_to<V: View>(view: &V, kept: u16, hash: &[u8; 32]) -> Option<usize>
    ensures some { IfSome result (IsBack (V.index view.now).hashes kept hash.now) }
    ensures none { IfNone result (IsNoneBack (V.index view.now).hashes kept hash.now) }
{
    for back in 0..usize::from(kept) + 1 {
        if is_back(view, back, hash) {
            return Some(back);
        }
    }
    None
}
