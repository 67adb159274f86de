//! Laws of what is written in paths and replies.

ghost use Rattle.std.specs.Prelude.{◌≡◌, ◌≢◌, ◌<◌, ◌≤◌, ◌^◌, ℕ, List, ◌∷◌, ◌++◌, length};
ghost use Rattle.std.specs.Prelude.{None, Some, codes, decimal, false, slice_get};
ghost use Rattle.std.specs.List.{filter_map};
ghost use Rattle.hex.specs.Hex.{IsBytes};
ghost use Rattle.serde_json.specs.Data.{Data};
ghost use Rattle.serde_json.specs.Written.{has_float};
ghost use Rattle.ox_name.specs.Name.{name_of};
ghost use Rattle.ox_name.specs.Spaced.{bullet, spaced_name};
ghost use Rattle.ox_block.specs.declared.block.OutPoint.{OutPoint};
ghost use Rattle.ox_envelope.specs.Id.{id_text};
ghost use Rattle.ox_envelope.specs.declared.id.InsId.{InsId};
ghost use Rattle.ox_http.specs.declared.Request.{Request};
ghost use Rattle.ox_routes.specs.declared.route.Route.{Route};
ghost use Rattle.ox_runestone.specs.declared.stone.RuneId.{RuneId};
ghost use Rattle.ox_inscribe.specs.Inscriptions.{find, next_on};
ghost use Rattle.ox_inscribe.specs.declared.row.InsRow.{InsRow};
ghost use Rattle.ox_etching.specs.declared.row.RuneRow.{RuneRow};
ghost use Rattle.ox_ledger.specs.Runes.{balances_at};
ghost use Rattle.ox_model.specs.Index.{Index};
ghost use Rattle.ox_model.specs.Sound.{IsSound};
ghost use Rattle.ox_model.specs.Where.{where_is};
ghost use Rattle.ox_sat.specs.declared.profiles.Profile.{Profile};
ghost use Rattle.ox_sat.specs.Heights.{first_at};
ghost use Rattle.ox_replies.specs.Asked.{Asked};
ghost use Rattle.ox_rules.specs.Text.{outpoint_text};
ghost use Rattle.ox_replies.specs.Ask.{reply_of, tree_at};
ghost use Rattle.ox_replies.specs.Content.{FitsHead};
ghost use Rattle.ox_replies.specs.Named.{inscription_named, rune_id_in, rune_id_text, rune_named};
ghost use Rattle.ox_replies.specs.Named.{without_escapes};
ghost use Rattle.ox_replies.specs.Pages.{ArePages};
ghost use Rattle.ox_replies.specs.Runes.{balance_among};
ghost use Rattle.ox_replies.specs.Texts.{number_in, outpoint_in};
ghost use Rattle.ox_replies.specs.Walk.{on_between, walk_of};

/// A number of 64 bits is read from its decimal digits and from nothing else.
pub fn numbers_are_read()
    ensures written { (n : ℕ) → n < 2 ^ 64 → number_in (decimal n) ≡ Some n }
    ensures read { (text : List ℕ) (n : ℕ) → number_in text ≡ Some n → text ≡ decimal n }
    ensures within { (text : List ℕ) (n : ℕ) → number_in text ≡ Some n → n < 2 ^ 64 }
{}

/// An outpoint is read from its text and from nothing else.
pub fn outpoints_are_read()
    ensures written { (at : OutPoint) → length at.txid.0 ≡ 32 → IsBytes at.txid.0
        → at.index < 2 ^ 32 → outpoint_in (outpoint_text at) ≡ Some at }
    ensures read { (text : List ℕ) (at : OutPoint) → outpoint_in text ≡ Some at
        → text ≡ outpoint_text at }
    ensures within { (text : List ℕ) (at : OutPoint) → outpoint_in text ≡ Some at
        → (length at.txid.0 ≡ 32) × (at.index < 2 ^ 32) }
{}

/// The first inscription with an id is named by that id's text.
pub fn inscriptions_are_named()
    ensures { (rows : List InsRow) (id : InsId) → length id.txid ≡ 32 → IsBytes id.txid
        → id.index < 2 ^ 32 → inscription_named rows (id_text id) ≡ find rows id }
{}

/// The inscriptions on consecutive satoshis are those on the next that bears some, and those on the
/// satoshis behind it: a walk over them passes by all others.
pub fn inscriptions_are_walked()
    ensures { (rows : List InsRow) (first end : ℕ)
        → on_between rows first end ≡ walk_of rows end (next_on rows first) }
{}

/// A rune's id is read from its text and from nothing else.
pub fn rune_ids_are_read()
    ensures written { (id : RuneId) → id.block < 2 ^ 64 → id.tx < 2 ^ 32
        → rune_id_in (rune_id_text id) ≡ Some id }
    ensures read { (text : List ℕ) (id : RuneId) → rune_id_in text ≡ Some id
        → text ≡ rune_id_text id }
    ensures within { (text : List ℕ) (id : RuneId) → rune_id_in text ≡ Some id
        → (id.block < 2 ^ 64) × (id.tx < 2 ^ 32) }
{}

/// Each rune of a sound index is named by its id and by its name, wherever spacers stand in that.
pub fn runes_are_named()
    ensures id { (p : Profile) (index : Index) (n : ℕ) (row : RuneRow) → IsSound p index
        → slice_get index.runes n ≡ Some row → row.id.block < 2 ^ 64 → row.id.tx < 2 ^ 32
        → rune_named index.runes (rune_id_text row.id) ≡ Some n }
    ensures name { (p : Profile) (index : Index) (n : ℕ) (row : RuneRow) (spacers : ℕ)
        → IsSound p index → slice_get index.runes n ≡ Some row → row.name < 2 ^ 128
        → rune_named index.runes (spaced_name spacers (name_of row.name)) ≡ Some n }
{}

/// In a rune's name `%E2%80%A2` is U+2022, and no byte but `%` begins an escape.
pub fn escapes_are_spacers()
    ensures escape { (text : List ℕ)
        → without_escapes (codes "%E2%80%A2" ++ text) ≡ bullet ++ without_escapes text }
    ensures other { (c : ℕ) (text : List ℕ) → c ≢ 37
        → without_escapes (c ∷ text) ≡ c ∷ without_escapes text }
{}

/// No balance of a sound index is left out of its output's list: each is of a rune that is there.
pub fn balances_are_told()
    ensures { (p : Profile) (index : Index) (at : OutPoint) → IsSound p index
        → length (filter_map (balance_among index.runes) (balances_at index.bal at))
        ≡ length (balances_at index.bal at) }
{}

/// Pages leave no inscription and no rune out.
pub fn pages_hold_all()
    ensures inscriptions { (rows : List InsRow) → ArePages rows }
    ensures runes { (rows : List RuneRow) → ArePages rows }
{}

/// No tree of a reply has a float, so that its compact text is exact.
pub fn trees_have_no_floats()
    ensures { (asked : Asked) (route : Route) (part : List ℕ) (tree : Data)
        → tree_at asked route part ≡ Some tree → has_float tree ≡ false }
{}

/// Every reply closes the link where the request does.
pub fn replies_close_as_asked()
    ensures { (asked : Asked) (request : Request)
        → (reply_of asked request).close ≡ request.close }
{}

/// Every reply fits its head: its kind and its encoding are one printable ASCII text each, whatever
/// an inscription says, so that neither ends the line that it stands on (RFC 9110, section 5.5).
pub fn replies_fit_their_heads()
    ensures { (asked : Asked) (request : Request) → FitsHead (reply_of asked request) }
{}

/// A satoshi that no block of a sound index mints is nowhere, so that its place is told as null.
pub fn unminted_satoshis_are_nowhere()
    ensures { (p : Profile) (index : Index) (sat : ℕ) → IsSound p index
        → first_at p (length index.hashes) ≤ sat → where_is index sat ≡ None }
{}
