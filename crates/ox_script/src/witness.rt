//! The tapscript among a witness's items.

ghost use Rattle.std.specs.Prelude.{◌≡◌, ℕ, ◌+◌, List, [], ◌∷◌, ◌++◌, length};
ghost use Rattle.ox_script.specs.Witness.{count_without_annex, item_at, tapscript, tapscript_place};

/// How many of so many items are left without the annex.
#[inline(always)]
fn count_without_annex(items: usize, last: &[u8]) -> usize
    ensures { result ≡ count_without_annex items last.now }
{
    if items >= 2 && last.first() == Some(&0x50) {
        items - 1
    } else {
        items
    }
}

/// The place of the tapscript among a witness's items, counted from 0, by the number of items and
/// the last of them. Of two items or more, a last one that begins with 0x50 is the annex, and left
/// out. Of two or more that are left, the last is the control block, and the one before it the
/// tapscript (BIP 341, "Script validation rules"). `None` where fewer are left: without an item,
/// `last` says nothing.
pub fn tapscript_place(items: usize, last: &[u8]) -> Option<usize>
    ensures place { result ≡ tapscript_place items last.now }

    // the same of each witness of so many items that ends with this one
    ensures script { (before : List (List ℕ)) → length before + 1 ≡ items
        → tapscript (before ++ last.now ∷ []) ≡ item_at (before ++ last.now ∷ []) result }
{
    count_without_annex(items, last).checked_sub(2)
}
