//! Laws of runs one after the other, and of the files that they find.

ghost use Rattle.std.specs.Prelude.{◌≡◌, ℕ, List, All, Some, Ok, Err};
ghost use Rattle.ox_outside.specs.Files.{Files};
ghost use Rattle.ox_model.specs.Machine.{Machine, stack_of};
ghost use Rattle.ox_model.specs.Stack.{Stack};
ghost use Rattle.ox_files.specs.OldStands.{IllFormed, old_stands};
ghost use Rattle.ox_files.specs.Runs.{Run};
ghost use Rattle.ox_files.specs.Stands.{Misfit, stands};
ghost use Rattle.ox_follow.specs.World.{Event, IsIn, Stood, after, begun};
ghost use Rattle.ox_pieces.specs.Stood.{rules_of, stood_in};
ghost use Rattle.ox_app.specs.AnyRuns.{AnyInTurn, AnyRun, LastOfAny};
ghost use Rattle.ox_app.specs.Follow.{FollowInTurn, HearsSent, StandsWithLeader};

/// Any number of runs of any subcommands over the same files, each of which opens what the one
/// before it left and stops at whatever moment: it was fed, it served links, it grew the store, or
/// it spared the files. The last files stand for the machine to which the lines and commands lead
/// that each run kept, one run after the other.
pub fn all_runs_follow_chains()
    ensures { (machine : Machine) (files : Files) (runs : List AnyRun)
        → stands files ≡ Ok (stack_of machine) → AnyInTurn files runs
        → LastOfAny machine files runs }
{}

/// Any number of runs of `follow` over the same files, each of which opens what the one before it
/// left, hears frames of one leader and stops at whatever moment; frames may be lost, come twice
/// and come late, and the leader goes on meanwhile. Where the first files stand where the leader
/// once stood, so do the last: at the same position, for the same stack.
pub fn followers_keep_to_leaders()
    ensures { (generation : ℕ) (body : List ℕ) (stack : Stack) (events : List Event)
        → (rules_of stack).spells body ≡ Some stack
        → let world = after (rules_of stack) (begun generation body stack) events in
        (files : Files) (first : Stood Stack) (runs : List Run)
        → stood_in files ≡ Some first → IsIn first world.history
        → All (HearsSent world) runs → FollowInTurn files runs
        → StandsWithLeader world files runs }
{}

/// Files that stand for a stack stand for none at version 1. So `migrate` spares them, by what
/// `run` promises of files that stand for no old store.
pub fn stores_have_one_version()
    ensures { (files : Files) (stack : Stack) → stands files ≡ Ok stack
        → (misfit : Misfit) × (old_stands files ≡ Err (IllFormed misfit)) }
{}
