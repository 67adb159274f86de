//! What the test of an index says, and what a change leaves that keeps the rules.

ghost use Rattle.std.specs.Prelude.{◌↔◌, IsTrue};
ghost use Rattle.ox_sat.specs.declared.profiles.Profile.{Profile};
ghost use Rattle.ox_model.specs.Change.{redone};
ghost use Rattle.ox_model.specs.Index.{Index};
ghost use Rattle.ox_model.specs.Sound.{IsSound};
ghost use Rattle.ox_model.specs.declared.change.Change.{Change};
ghost use Rattle.ox_plain.specs.Ends.{begins_in};
ghost use Rattle.ox_sound.specs.Keeps.{Keeps};
ghost use Rattle.ox_sound.specs.Sound.{sound};

/// The test `sound` passes exactly the indexes that are sound.
pub fn test_is_exact()
    ensures { (p : Profile) (index : Index) → IsTrue (sound p index) ↔ IsSound p index }
{}

/// A change that begins in a sound index and keeps the rules of `Keeps` leaves a sound one. The
/// rules look at the change, and at what it touches.
pub fn kept_rules_leave_sound_indexes()
    ensures { (p : Profile) (before : Index) (change : Change)
        → IsSound p before → IsTrue (begins_in before change) → Keeps p before change
        → IsSound p (redone before change) }
{}
