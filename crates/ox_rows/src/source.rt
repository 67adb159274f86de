//! What bytes come of, piece by piece.

ghost use Rattle.std.specs.Prelude.{ℕ, List, ◌<◌, ◌≤◌, IsTrue, IfOk, IfErr, OnOk};
ghost use Rattle.ox_rows.specs.Coming.{ComesOn};

use ox_bytes::Bytes;

/// What bytes come of, one piece behind the other, out of a world: the site of a file, or `()`
/// where it has them itself. Who asks for pieces knows of neither.
pub trait Source<W> {
    /// Why a piece didn't come.
    type Fault;

    /// These bytes are still to come. Where nothing is told of the world, none may be so.
    ghost comes: { Self → W → List ℕ → Type 0 };

    /// It may be asked for more.
    ghost ready: { Self → W → Type 0 };

    /// A number that falls with each piece, such as how many bytes are still to come.
    ghost left: { Self → ℕ };

    /// Any number of calls, of which none failed.
    ghost went: { Self → W → Self → W → Type 0 };

    /// The same, and a last one that failed.
    ghost ended: { Self → W → Self.Fault → Self → W → Type 0 };

    /// Puts what comes next behind the window; `false` once nothing is left. Unless it failed it
    /// may be asked again.
    fn more(&mut self, world: &mut W, window: &mut Bytes) -> Result<bool, Self::Fault>
        requires ready { ready self.old world.old }
        ensures comes { (rest : List ℕ) → comes self.old world.old rest → IfOk result (λ came.
            ComesOn (comes self.new world.new) window.old rest came window.new) }
        ensures falls { IfOk result (λ came. IsTrue came → left self.new < left self.old) }
        ensures stays { IfOk result (λ came. left self.new ≤ left self.old) }
        ensures ready { OnOk result (ready self.new world.new) }
        ensures went { OnOk result (went self.old world.old self.new world.new) }
        ensures ended { IfErr result (λ fault.
            ended self.old world.old fault self.new world.new) };

    /// Before the first call.
    ghost no_call: { (s : Self) (w : W) → went s w s w };

    /// Calls, and more of them.
    ghost then_went: { (s t u : Self) (w v x : W) → went s w t v → went t v u x → went s w u x };

    /// Calls, and more of them of which the last failed.
    ghost then_ended: { (s t u : Self) (w v x : W) (fault : Self.Fault) → went s w t v
        → ended t v fault u x → ended s w fault u x };
}
