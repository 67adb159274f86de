//! Laws of what the bytes of a link ask.

ghost use Rattle.std.specs.Prelude.{◌≡◌, ◌≤◌, ◌++◌, ℕ, List, [], length, Some, if◌then◌else◌};
ghost use Rattle.httparse.specs.Grammar.{ReadsRequest, RequestHead};
ghost use Rattle.ox_http.specs.First.{first_of, more};
ghost use Rattle.ox_http.specs.Head.{Head, IsHead, head_of, most_fields, seen};
ghost use Rattle.ox_http.specs.Talk.{has_ended, left, talk};

/// Bytes are a head exactly where the grammar of `httparse` reads one from them, with nothing
/// behind it and at most 64 fields; and the head has that method, target, version, and those names
/// and values.
pub fn heads_are_the_grammars()
    ensures read { (bytes : List ℕ) (head : RequestHead) → ReadsRequest bytes head []
        → length head.fields ≤ most_fields → head_of bytes ≡ Some (seen head) }
    ensures spelled { (bytes : List ℕ) (head : Head) → head_of bytes ≡ Some head
        → IsHead bytes head }
{}

/// A stream that begins with a whole request or with a fault begins so whatever follows.
pub fn what_is_said_stays()
    ensures { (bytes later : List ℕ) → (first_of bytes ≡ more → ⊥)
        → first_of (bytes ++ later) ≡ first_of bytes }
{}

/// The talk of a stream that goes on is the talk of its front, where that has ended; and else goes
/// on with the talk of what the front leaves and what follows.
pub fn talks_go_on()
    ensures { (bytes later : List ℕ) → talk (bytes ++ later)
        ≡ (if has_ended (talk bytes) then talk bytes
        else talk bytes ++ talk (left bytes ++ later)) }
{}
