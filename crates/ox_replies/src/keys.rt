//! The order of the keys in replies.

ghost use Rattle.std.specs.Prelude.{◌≡◌, ℕ, List, Some, true};
ghost use Rattle.serde_json.specs.Data.{Data};
ghost use Rattle.ox_routes.specs.declared.route.Route.{Route};
ghost use Rattle.ox_replies.specs.Ask.{tree_at};
ghost use Rattle.ox_replies.specs.Keys.{keys_rise};
ghost use Rattle.ox_replies.specs.Asked.{Asked};
ghost use Rattle.ox_replies.specs.Errors.{error_tree};

/// The keys of each object in the tree of a reply rise by their bytes, so that none stands twice;
/// and so do those of an error.
pub fn trees_have_rising_keys()
    ensures trees { (asked : Asked) (route : Route) (part : List ℕ) (tree : Data)
        → tree_at asked route part ≡ Some tree → keys_rise tree ≡ true }
    ensures errors { (status : ℕ) → keys_rise (error_tree status) ≡ true }
{}
