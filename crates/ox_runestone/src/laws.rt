//! What holds of runestones whatever a script says.

ghost use Rattle.std.specs.Prelude.{◌≡◌, ◌↔◌, ℕ, List, Some};
ghost use Rattle.ox_runestone.specs.Artifact.{artifact_of};
ghost use Rattle.ox_runestone.specs.Causes.{AreIntegers, HasCause, HasSmallSupply, IsCenotaph};
ghost use Rattle.ox_runestone.specs.Payload.{integers_of};

/// A script is a cenotaph exactly where one of the specification's causes holds (Runes
/// specification, "Cenotaphs").
pub fn cenotaphs_have_causes(script: &[u8], outputs: u32)
    ensures cause { IsCenotaph (artifact_of script.now outputs) → HasCause script.now outputs }
    ensures only { HasCause script.now outputs → IsCenotaph (artifact_of script.now outputs) }
{}

/// What a runestone etches, premine and all mints together, is an amount of 128 bits, whatever
/// bytes the script has: more makes a cenotaph.
pub fn supplies_are_amounts()
    ensures { (script : List ℕ) (outputs : ℕ) → HasSmallSupply (artifact_of script outputs) }
{}

/// The integers of a payload are the only ones into whose varints it can be split.
pub fn integers_are_the_split(payload: &[u8])
    ensures { (integers : List ℕ) →
        ((integers_of payload.now ≡ Some integers) ↔ AreIntegers payload.now integers) }
{}
