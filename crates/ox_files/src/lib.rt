//! What the two files of a store stand for, and what a crash leaves of runs over them: definitions,
//! and their laws; the profile that a head names, and the bytes that payloads begin with.
#![tactic(auto)]

ghost use Rattle.std.specs.Prelude.{◌≡◌, ◌↔◌, IsTrue, List, ◌∷◌, All, Ok};
ghost use Rattle.ox_outside.specs.Files.{Files};
ghost use Rattle.ox_sat.specs.declared.profiles.Profile.{Profile};
ghost use Rattle.ox_model.specs.Ends.{AllEnd};
ghost use Rattle.ox_model.specs.Index.{Index};
ghost use Rattle.ox_model.specs.Machine.{Machine, stack_of};
ghost use Rattle.ox_model.specs.Sound.{IsSound};
ghost use Rattle.ox_model.specs.Stack.{Stack};
ghost use Rattle.ox_model.specs.declared.change.Change.{Change};
ghost use Rattle.ox_files.specs.Body.{leads_down};
ghost use Rattle.ox_files.specs.Runs.{LastOf, Run, RunInTurn};
ghost use Rattle.ox_files.specs.Stands.{stands};

mod head;
mod laws;
mod payload;

pub use head::profile_of_head;
pub use laws::{moments_come_in_turn, old_stores_follow_chains};
pub use payload::{CONNECT, DISCONNECT};

/// Of a stack that files stand for each index is sound: the newest, and each of the older ones.
pub fn stores_are_sound()
    ensures { (files : Files) (stack : Stack) → stands files ≡ Ok stack
        → All (IsSound stack.profile) (stack.index ∷ stack.older) }
{}

/// The test `leads_down` passes exactly where the index is sound, and each change, the newest
/// first, ends where those before it are undone and leaves a sound index there.
pub fn changes_lead_down()
    ensures { (p : Profile) (index : Index) (changes : List Change)
        → IsTrue (leads_down p index changes) ↔ (IsSound p index × AllEnd p index changes) }
{}

/// Any number of runs over the same files, each of which opens what the one before it left and
/// stops at whatever moment: the last files stand for the chain that the lines which each run kept,
/// one run after the other, chose.
pub fn runs_follow_chains()
    ensures { (machine : Machine) (files : Files) (runs : List Run)
        → stands files ≡ Ok (stack_of machine) → RunInTurn files runs → LastOf machine files runs }
{}
