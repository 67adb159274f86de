//! Streams whose talk is computed.

ghost use Rattle.std.specs.Prelude.{◌≡◌, ◌∷◌, [], codes, false, true};
ghost use Rattle.ox_http.specs.Rows.{status_twice, status_asked, closing_then_status};
ghost use Rattle.ox_http.specs.Talk.{talk, left, asks};

/// Two requests in one stream are asked in order, and nothing is left of it.
pub fn requests_come_in_order()
    ensures asked { talk status_twice ≡ asks (status_asked false) ∷ asks (status_asked false) ∷ [] }
    ensures whole { left status_twice ≡ [] }
{}

/// A request that closes is the last, whatever stands behind it.
pub fn a_closing_request_is_the_last()
    ensures asked { talk closing_then_status ≡ asks (status_asked true) ∷ [] }
    ensures rest { left closing_then_status ≡ codes "GET /status HTTP/1.1\r\n\r\n" }
{}
