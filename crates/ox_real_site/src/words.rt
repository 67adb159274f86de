//! Which words of the command line are the addresses of the two doors.

ghost use Rattle.std.specs.Prelude.{◌≡◌, ◌++◌, Some, IfSome, drop, slice_get, take};

use ox_bytes::Bytes;

/// Where the two doors of a server listen, as the command line says it.
#[derive(Drop)]
pub struct Addresses {
    /// The door of everybody.
    pub public: Bytes,
    /// The door of commands.
    pub operator: Bytes,
}

/// Takes the addresses out of the words of `serve`: they stand behind folder, `serve` and turns,
/// the public one first. `None` of other words.
pub fn addresses_in(words: &mut Vec<Bytes>) -> Option<Addresses>
    ensures which { IfSome result (λ found. (slice_get words.old.items 3 ≡ Some found.public)
        × (slice_get words.old.items 4 ≡ Some found.operator)) }
    ensures others { IfSome result (λ found.
        words.new.items ≡ take 3 words.old.items ++ drop 5 words.old.items) }
{
    if words.len() < 5 || words[1].as_slice() != b"serve".as_slice() {
        return None;
    }
    let operator = words.remove(4);
    let public = words.remove(3);
    Some(Addresses { public, operator })
}
