//! Laws of reads as of a block.

ghost use Rattle.std.specs.Prelude.{◌≡◌, ◌+◌, ◌<◌, IsTrue, List, ℕ, None, Some, length, slice_get};
ghost use Rattle.std.specs.Prelude.{take};
ghost use Rattle.hex.specs.Hex.{IsBytes};
ghost use Rattle.ox_http.specs.declared.Method.TheVariants.{Get, Post};
ghost use Rattle.ox_http.specs.declared.Request.{Request};
ghost use Rattle.ox_routes.specs.declared.route.Route.{Route};
ghost use Rattle.ox_routes.specs.Table.{route_and_part, row_of};
ghost use Rattle.ox_rules.specs.Text.{hash_text};
ghost use Rattle.ox_model.specs.Ends.{older_by};
ghost use Rattle.ox_model.specs.Index.{Index};
ghost use Rattle.ox_model.specs.declared.change.Change.{Change};
ghost use Rattle.ox_replies.specs.Ask.{reply_of};
ghost use Rattle.ox_replies.specs.Status.{tip};
ghost use Rattle.ox_asof.specs.AskedKept.{AskedKept};
ghost use Rattle.ox_asof.specs.Paths.{hash_in, path_and_hash, path_at};
ghost use Rattle.ox_asof.specs.Reply.{get_of, is_query, reply_at};
ghost use Rattle.ox_asof.specs.Undone.{undone_by};

/// A hash is read from its text and from nothing else.
pub fn hashes_are_read()
    ensures written { (hash : List ℕ) → length hash ≡ 32 → IsBytes hash
        → hash_in (hash_text hash) ≡ Some hash }
    ensures read { (text hash : List ℕ) → hash_in text ≡ Some hash → text ≡ hash_text hash }
    ensures within { (text hash : List ℕ) → hash_in text ≡ Some hash → length hash ≡ 32 }
{}

/// A path and a hash are had from what is written of both, and from nothing else. So of two hashes
/// the last one is cut off.
pub fn paths_are_cut()
    ensures written { (path hash : List ℕ) → length hash ≡ 32 → IsBytes hash
        → path_and_hash (path_at path hash) ≡ Some (path, hash) }
    ensures read { (whole path hash : List ℕ) → path_and_hash whole ≡ Some (path, hash)
        → whole ≡ path_at path hash }
{}

/// A path that is a command's names no block.
pub fn commands_name_no_block()
    ensures { (path : List ℕ) (route : Route) (part : List ℕ)
        → route_and_part path ≡ Some (route, part) → (row_of route).method ≡ Post
        → path_and_hash path ≡ None }
{}

/// The older indexes of a chain are had by undoing its newest change, its newest two, and so on.
pub fn older_indexes_are_undone()
    ensures { (index : Index) (changes : List Change) (j : ℕ) → j < length changes
        → slice_get (older_by index changes) j ≡ Some (undone_by index (take (j + 1) changes)) }
{}

/// As of the newest block a GET is answered as it is without that block in its path.
pub fn the_newest_block_is_the_index()
    ensures { (kept : AskedKept) (request : Request) (path hash : List ℕ)
        → path_and_hash request.path ≡ Some (path, hash)
        → tip kept.first.index.hashes ≡ Some hash → IsTrue (is_query path)
        → request.method ≡ Get
        → reply_at kept request ≡ reply_of kept.first (get_of path request.close) }
{}
