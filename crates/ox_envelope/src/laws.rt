//! What holds of every envelope.

ghost use Rattle.std.specs.Prelude.{ℕ, List};
ghost use Rattle.ox_envelope.specs.Spelling.{AreSpelled};

/// An envelope's pushes are tags and values in turn, and then nothing, a lone tag, or an empty push
/// and the body (Ordinal Theory Handbook, "Inscriptions", "Fields").
pub fn fields_spell_the_pushes()
    ensures { (pushes : List (List ℕ)) → AreSpelled pushes }
{}
