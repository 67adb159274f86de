//! What takes bytes, piece by piece.

ghost use Rattle.std.specs.Prelude.{ℕ, List, ◌++◌, IfErr, OnOk};

use ox_bytes::{Bytes, Memory};

/// What takes bytes, one piece behind the other, into a world: the site of a file, or `()` where it
/// keeps them itself. Who hands it pieces knows of neither.
pub trait Sink<W> {
    /// Why a piece wasn't taken.
    type Fault;

    /// It has taken these bytes.
    ghost holds: { Self → W → List ℕ → Type 0 };

    /// Any number of calls, of which none failed.
    ghost went: { Self → W → Self → W → Type 0 };

    /// The same, and a last one that failed.
    ghost ended: { Self → W → Self.Fault → Self → W → Type 0 };

    /// Takes a piece, behind those that it has.
    fn take(&mut self, world: &mut W, piece: &[u8]) -> Result<(), Self::Fault>
        requires { (bytes : List ℕ) × holds self.old world.old bytes }
        ensures holds { (bytes : List ℕ) → holds self.old world.old bytes
            → OnOk result (holds self.new world.new (bytes ++ piece.now)) }
        ensures went { OnOk result (went self.old world.old self.new world.new) }
        ensures ended { IfErr result (λ fault.
            ended self.old world.old fault self.new world.new) };

    /// Before the first call.
    ghost no_call: { (k : Self) (w : W) (bytes : List ℕ) → holds k w bytes → went k w k w };

    /// Calls, and more of them.
    ghost then_went: { (k l m : Self) (w x y : W) → went k w l x → went l x m y → went k w m y };

    /// Calls, and more of them of which the last failed.
    ghost then_ended: { (k l m : Self) (w x y : W) (fault : Self.Fault) → went k w l x
        → ended l x fault m y → ended k w fault m y };
}

impl Sink<()> for Bytes {
    ghost use Rattle.std.specs.Prelude.{◌≡◌};

    type Fault = Memory;

    ghost holds = { λ k w bytes. k ≡ bytes };

    ghost went = { λ k w l x. Unit {0} };

    ghost ended = { λ k w fault l x. Unit {0} };

    fn take(&mut self, _world: &mut (), piece: &[u8]) -> Result<(), Memory> {
        self.append(piece)
    }

    ghost no_call = { λ k w bytes so. tt };

    ghost then_went = { λ k l m w x y first next. tt };

    ghost then_ended = { λ k l m w x y fault first next. tt };
}
