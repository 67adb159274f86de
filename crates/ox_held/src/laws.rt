//! Laws of what an address holds.

ghost use Rattle.std.specs.Prelude.{◌≡◌, ℕ, List, Some, None, false, filter, length, map, true};
ghost use Rattle.std.specs.FinMap.{values};
ghost use Rattle.std.specs.List.{filter_map};
ghost use Rattle.std.specs.List.Sorted.{IsStrictlySortedBy};
ghost use Rattle.serde_json.specs.Written.{has_float};
ghost use Rattle.ox_sat.specs.declared.profiles.Profile.{Profile};
ghost use Rattle.ox_rules.specs.Outputs.{Outputs, outpoint_cmp};
ghost use Rattle.ox_runestone.specs.declared.stone.RuneId.{RuneId};
ghost use Rattle.ox_allocation.specs.Balances.{AreBalances, amount_in};
ghost use Rattle.ox_ledger.specs.Balanced.{amount_held};
ghost use Rattle.ox_ledger.specs.Runes.{balances_at};
ghost use Rattle.ox_holders.specs.Outputs.{is_locked_by, outputs_with};
ghost use Rattle.ox_model.specs.Index.{Index};
ghost use Rattle.ox_model.specs.Sound.{IsSound};
ghost use Rattle.ox_routes.specs.Table.{route_and_part};
ghost use Rattle.ox_http.specs.declared.Request.{Request};
ghost use Rattle.ox_replies.specs.Content.{FitsHead};
ghost use Rattle.ox_replies.specs.Keys.{keys_rise};
ghost use Rattle.ox_replies.specs.Runes.{balance_among};
ghost use Rattle.ox_held.specs.Held.{held_by, rows_at};
ghost use Rattle.ox_held.specs.Paths.{address_part};
ghost use Rattle.ox_held.specs.Replies.{address_reply};
ghost use Rattle.ox_held.specs.Trees.{address_tree};

/// The outpoints of the outputs with a script rise, so that none counts twice, and at each the
/// output with that script is found.
pub fn outputs_are_found()
    ensures rising { (script : List ℕ) (outs : Outputs)
        → IsStrictlySortedBy outpoint_cmp (outputs_with script outs) }
    ensures rows { (script : List ℕ) (outs : Outputs)
        → rows_at outs (outputs_with script outs) ≡ filter (is_locked_by script) (values outs) }
{}

/// What a script holds of runes in a sound index is what its outputs hold together: ids rise, no
/// amount is 0, and each is the sum of the outputs' amounts. None is left out of the list.
pub fn runes_are_joined()
    ensures lawful { (index : Index) (script : List ℕ)
        → AreBalances (held_by index script).runes }
    ensures sums { (p : Profile) (index : Index) (script : List ℕ) (id : RuneId)
        → IsSound p index → amount_in (held_by index script).runes id
        ≡ amount_held (map (balances_at index.bal) (outputs_with script index.outs)) id }
    ensures told { (p : Profile) (index : Index) (script : List ℕ) → IsSound p index
        → length (filter_map (balance_among index.runes) (held_by index script).runes)
        ≡ length (held_by index script).runes }
{}

/// The keys of each object in the tree of an address rise by their bytes, so that none stands
/// twice, and it has no float, so that its compact text is exact.
pub fn address_trees_are_exact()
    ensures keys { (index : Index) (hrp script : List ℕ)
        → keys_rise (address_tree index hrp script) ≡ true }
    ensures floats { (index : Index) (hrp script : List ℕ)
        → has_float (address_tree index hrp script) ≡ false }
{}

/// A path with a part that stands for an address takes no route of the table, so that it doesn't
/// matter which is asked first.
pub fn addresses_take_no_route()
    ensures { (path part : List ℕ) → address_part path ≡ Some part → route_and_part path ≡ None }
{}

/// Every reply to what an address holds closes the link where the request does, and fits its head:
/// its kind is one printable ASCII text (RFC 9110, section 5.5).
pub fn address_replies_are_told()
    ensures close { (p : Profile) (index : Index) (request : Request) (part : List ℕ)
        → (address_reply p index request part).close ≡ request.close }
    ensures head { (p : Profile) (index : Index) (request : Request) (part : List ℕ)
        → FitsHead (address_reply p index request part) }
{}
