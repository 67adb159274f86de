//! The marks of an inscription: each is the worth of a bit (Ordinal Theory Handbook,
//! "Inscriptions", "Fields").

ghost use Rattle.std.specs.Prelude.{◌≡◌, ◌≤◌};
ghost use Rattle.ox_envelope.specs.Mark.{bit};

/// An unknown even tag, or a second pointer.
pub const EVEN: u16 = 1;

/// A tag other than parent and metadata that has two values.
pub const REPEATED: u16 = 2;

/// A last tag without a value.
pub const INCOMPLETE: u16 = 4;

/// Another input than the transaction's first.
pub const INPUT: u16 = 8;

/// Not the first envelope of its input.
pub const OFFSET: u16 = 16;

/// A pointer.
pub const POINTER: u16 = 32;

/// A push by OP_1NEGATE or OP_1 to OP_16.
pub const PUSHNUM: u16 = 64;

/// A satoshi that bore an inscription before.
pub const REINSCRIPTION: u16 = 128;

/// A mark, if it is set, and else 0.
pub fn bit(set: bool, mark: u16) -> u16
    ensures is { result ≡ bit set mark }
    ensures most { result ≤ mark }
{
    if set { mark } else { 0 }
}
