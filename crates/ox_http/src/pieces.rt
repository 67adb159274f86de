//! A stream and the bytes of its requests.

ghost use Rattle.std.specs.Prelude.{ℕ, List};
ghost use Rattle.ox_http.specs.Pieces.{IsCut};

/// A stream is the bytes of its requests, in the order of its talk, and then what the talk leaves.
/// The bytes of a request are one whole request, all of them, and that one. What is left begins
/// with the fault that the talk ends with; and else, unless a request closes, with too few bytes to
/// say: so no request is left out.
pub fn streams_are_their_requests()
    ensures { (bytes : List ℕ) → (pieces : List (List ℕ)) × IsCut bytes pieces }
{}
