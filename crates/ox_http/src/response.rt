//! Written replies, as the grammar of `httparse` reads them (RFC 9112, section 4).

ghost use Rattle.std.specs.Prelude.{◌≡◌, ℕ, List};
ghost use Rattle.httparse.specs.Grammar.{ReadsResponse, ResponseHead};
ghost use Rattle.ox_http.specs.declared.Reply.{Reply};
ghost use Rattle.ox_http.specs.Response.{Heads, IsPrintable};
ghost use Rattle.ox_http.specs.Written.{written};

/// What is written of a reply is, by the grammar of `httparse`, one response head of HTTP/1.1, with
/// the reply's status, phrase and fields, and then as many bytes as its `Content-Length` tells,
/// which are the body; and it is so in no other way. It is said of a reply whose status has a
/// phrase, and whose kind and encoding are printable.
pub fn replies_are_responses()
    ensures read { (reply : Reply) → IsPrintable reply
        → (head : ResponseHead) × ReadsResponse (written reply) head reply.body
        × Heads head reply }
    ensures only { (reply : Reply) (head : ResponseHead) (rest : List ℕ) → IsPrintable reply
        → ReadsResponse (written reply) head rest → (rest ≡ reply.body) × Heads head reply }
{}
