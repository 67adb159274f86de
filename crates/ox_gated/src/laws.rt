//! Laws of which file is current, of how files are laid out, of where their records end, and of
//! what a changed byte makes of them.

ghost use Rattle.std.specs.Prelude.{◌≡◌, ◌≢◌, ◌↔◌, ◌⊎◌, ◌<◌, ◌^◌, ℕ, List, [], ◌∷◌, ◌++◌, length};
ghost use Rattle.std.specs.Prelude.{All, IsTrue, Ok, Some, set, slice_index};
ghost use Rattle.ox_outside.specs.Files.{Files, file_of, with_file};
ghost use Rattle.ox_outside.specs.declared.site.Which.{Which};
ghost use Rattle.ox_gated.specs.Changed.{Collide, IsNoGate, StandForNothing};
ghost use Rattle.ox_gated.specs.Layout.{head_bytes, head_of, is_lawful, layout_of};
ghost use Rattle.ox_gated.specs.Pick.{choice_of, Picked};
ghost use Rattle.ox_gated.specs.Reading.{Found, is_present, reading};
ghost use Rattle.ox_gated.specs.Spelled.{EndsCut};
ghost use Rattle.ox_gated.specs.declared.head.Head.{Head};
ghost use Rattle.ox_gated.specs.declared.head.Opening.{Opening};

/// A file is current exactly where it is open and has a head, and the other one is closed, with a
/// byte at the least, or open with a head of lesser generation.
pub fn current_files_are_chosen()
    ensures { (files : Files) (file : Which) (opening : Opening)
        → (choice_of files.a files.b ≡ Ok (file, opening)) ↔ Picked files file opening }
{}

/// Records without a closed gate behind them, cut at any place, read as those that are whole; the
/// first gate that is missing, or whose record is cut, stands right behind these.
pub fn cut_records_end_at_their_gate()
    ensures { (version generation place n : ℕ) (payloads : List (List ℕ))
        → All (λ payload. length payload < (layout_of version).payload_limit) payloads
        → EndsCut (layout_of version) generation place n payloads }
{}

/// What is spelled is read, whatever follows it.
pub fn layouts_read_back()
    // The payload of a record, at its place and in a file of its generation.
    ensures records { (version generation place : ℕ) (payload rest : List ℕ)
        → let layout = layout_of version in length payload < layout.payload_limit
        → layout.payload_at generation place (layout.record_bytes generation place payload ++ rest)
        ≡ Ok (payload, rest) }
    // The head of a file, with the length of its body; and the sums are right.
    ensures heads { (head : Head) (gate : ℕ) (body rest : List ℕ) → IsTrue (is_lawful head)
        → head.depth < 2 ^ 16 → head.generation < 2 ^ 64 → length body < 2 ^ 64
        → let front = gate ∷ head_bytes head body in
        (head_of (front ++ rest) ≡ Some (record { head = head; size = length body }))
        × (length front ≡ (layout_of head.version).body_at)
        × IsTrue ((layout_of head.version).is_body front body) }
{}

/// Of files that stand for something, and whose current one has version 3, a byte of that one
/// changes which is no gate and stands before its last gate. Then they stand for nothing; or
/// something is summed in the changed file that is different from something summed before, with
/// the same SHA-256.
///
/// Of gates there is no such law. One that changes to another byte than 0 reads alike, and one that
/// is 0 ends the records, or closes the file: as a crash might have left it.
pub fn changed_bytes_are_found()
    ensures { (files : Files) (found : Found) → reading is_present files ≡ Ok found
        → found.head.version ≡ 3 → (at byte : ℕ) → IsNoGate found at
        → let old = file_of files found.file in let new = set old at byte in
        byte ≢ slice_index old at
        → StandForNothing (with_file files found.file new) ⊎ Collide old new }
{}
