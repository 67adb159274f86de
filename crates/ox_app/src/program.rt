//! The program.

ghost use Rattle.std.specs.Prelude.{◌≡◌, ◌≢◌, ◌⊎◌, ℕ, List, IsTrue};
ghost use Rattle.ox_follow.specs.World.{Stood};
ghost use Rattle.ox_model.specs.Machine.{Machine, stack_of};
ghost use Rattle.ox_model.specs.Stack.{Stack};
ghost use Rattle.ox_files.specs.OldStands.{OldFault};
ghost use Rattle.ox_files.specs.Stands.{Misfit};
ghost use Rattle.ox_sat.specs.declared.profiles.ProfileName.{ProfileName};
ghost use Rattle.ox_store.specs.Make.{no_files};
ghost use Rattle.ox_app.specs.Drill.{RunsDrill, told_line};
ghost use Rattle.ox_app.specs.Headline.{AddsNoImage, StandsFor, StandsForNone, SurvivesCrash};
ghost use Rattle.ox_app.specs.Follow.{SurvivesFollowing};
ghost use Rattle.ox_app.specs.Init.{not_empty_line};
ghost use Rattle.ox_app.specs.Migrate.{IsMigrated, IsUnmigrated, MigratesFirst, SaysNoOldStore};
ghost use Rattle.ox_app.specs.Migrate.{SaysOldCommand, StandsForNoOld, StandsForOld};
ghost use Rattle.ox_app.specs.Migrate.{migrated_line};
ghost use Rattle.ox_app.specs.Promises.{Applies, Folds, Follows, GrowsStore, Inits, Leads};
ghost use Rattle.ox_app.specs.Promises.{Queries, Serves, Unopened};
ghost use Rattle.ox_outside.specs.Runs.{Calls};
ghost use Rattle.ox_app.specs.Serve.{DoorFails};
ghost use Rattle.ox_app.specs.Show.{DiskFails, EndsAtFault, HearFails, Says};
ghost use Rattle.ox_app.specs.Show.{ShowFails, ShowsText, usage_line};
ghost use Rattle.ox_app.specs.Status.{IsDone, IsDrillStatus, IsMigrateStatus, IsRefusal};
ghost use Rattle.ox_app.specs.Subcommands.{IsDepth, IsDrillLength, IsOpening, IsReading};
ghost use Rattle.ox_app.specs.Subcommands.{IsTurns, IsUnknown, apply_words, drill_words};
ghost use Rattle.ox_app.specs.Subcommands.{fold_words, follow_words, grow_words, init_words};
ghost use Rattle.ox_app.specs.Subcommands.{lead_words, migrate_words, query_words, serve_words};
ghost use Rattle.ox_app.specs.Talks.{StandsThere};
ghost use Rattle.ox_app.specs.Unopened.{SaysNotStore};
ghost use Rattle.ox_app.specs.declared.status.Status.TheVariants as ends;

use crate::apply::apply;
use crate::drill::drill;
use crate::fold::fold;
use crate::follow::follow;
use crate::grow::grow;
use crate::init::init;
use crate::lead::lead;
use crate::migrate::migrate;
use crate::query::query;
use crate::serve::serve;
use crate::show::say;
use crate::status::Status;
use crate::stop::status;
use crate::subcommand::{Subcommand, subcommand_of};
use ox_bytes::Bytes;
use ox_outside::Site;
use ox_sat::profile_of;
use std::alloc::Global;

/// Runs the program: channel 0 is its input and output, its files are the site's, and the result
/// says how it ended.
///
/// | Words | What is done |
/// |---|---|
/// | `init <profile> <depth>` | Makes two empty files a store without a block, of whose blocks at |
/// | | most `depth` may be kept, from 1 to 1,000, and shows `ok empty`. |
/// | `apply` | Opens the store and carries out the commands of channel 0: each line is answered |
/// | | by one, once its record is on the disk. |
/// | `query <path>` | Opens the store and shows the body of the reply to a GET of that path, with |
/// | | nothing added. |
/// | `serve <turns>` | Opens the store, makes so many turns of a server, and shows what it |
/// | | counted: `requests <n> hits <m>`. From 1 to 18,446,744,073,709,551,615 turns. |
/// | `fold <profile>` | As `apply`, from no block on and without files. |
/// | `drill <n>` | Makes two empty files a regtest store that keeps up to 100 blocks, connects n |
/// | | made blocks, takes the newest ten back, or all where there are fewer, connects them |
/// | | again, and shows what the index then counts. From 1 to 100,000 blocks. |
/// | `migrate` | Makes a store of version 1 one of version 2, by the present rules, and shows |
/// | | how many commands were carried out: `ok <commands>`. |
/// | `grow` | Makes a store of version 2 one of version 3, and shows `ok grown`. |
/// | `lead` | Opens the store and answers each Have of channel 0 by a frame: the record behind |
/// | | that position, the whole current file, or a Level where there is nothing. |
/// | `follow` | Opens the store, shows a Have of where it stands, takes the bases and steps of |
/// | | channel 0 that come next, and shows a Have behind each frame. |
///
/// The profile is `mainnet`, `regtest` or `lab`, and a number has decimal digits with no sign and
/// no leading zero.
///
/// | Status | Comes | Shown |
/// |---|---|---|
/// | `Done` | where channel 0 was read to its end and each line answered, the line or body was | |
/// | | shown, or all turns were made and what was counted was shown; in `lead`, where | |
/// | | channel 0 ended behind a frame that was answered, or at once; in `follow`, exactly | |
/// | | where a Level of the follower's own position was heard | |
/// | `Usage` | exactly where the words are no subcommand | `usage` |
/// | `NotEmpty` | of `init` and `drill`, exactly where a file isn't empty | `not empty` |
/// | `NotStore` | exactly where the files are no store; in `migrate`, none | `not a store`, the |
/// | | of version 1, and in `grow`, none of version 2, that another | file's letter and the |
/// | | file can follow | place of the first test that fails; in `lead` and `follow`, nothing |
/// | `DiskFault` | only where a call on a file failed in this run | nothing further |
/// | `HearFault` | only where hearing on channel 0 failed in this run | nothing further |
/// | `ShowFault` | only where showing on channel 0 failed in this run | nothing further |
/// | `DoorFault` | of `serve`, only where a call on a door failed in this run | nothing further |
/// | `Memory` | where there is no memory | nothing further |
/// | `TooMuch` | exactly where 4,611,686,018,427,387,904 bytes were heard and channel 0 | nothing |
/// | | hasn't ended | further |
/// | `OldCommand` | of `migrate`, exactly where the present rules refuse a command | `old`, its |
/// | | | number from 0, and the line of refusal |
/// | `BadFrame` | of `lead` and `follow`, exactly where no frame begins as what was heard does, | |
/// | | channel 0 ended within one, or one was heard that this side doesn't take: by `lead` | |
/// | | none but a Have, by `follow` a Have, or a base or step that is next and doesn't fit | |
/// | `Ahead` | of `lead`, exactly where a Have above the store's position was heard | |
/// | `EndedEarly` | of `follow`, exactly where channel 0 ended behind a whole frame or at once, | |
/// | | without a Level of the store's position | |
///
/// From `DiskFault` to `TooMuch` a status ends the run at once. A link's fault ends that link
/// alone, and in `serve` a command that runs out of memory is answered 503 and changes nothing;
/// `Memory` comes before the first turn. If showing the line of `Usage`, `NotEmpty`, `NotStore` or
/// `OldCommand` fails, the status stays. In `apply`, `Memory` leaves the line at which memory ran
/// out undone; in `migrate` it comes before the first write, and in `grow` the files stand for what
/// they stood for.
pub fn run<S: Site>(alloc: Global, words: &[Bytes], site: &mut S) -> Status
    // ---- `fold`

    // Each line is answered in order, by fresh indexing.
    ensures folds { (name : ProfileName) → words.now ≡ fold_words name
        → Folds S.Site name result site.old site.new }

    // ---- `apply`

    // Likewise from the machine on for whose stack the files stand, or from any stack.
    ensures applies { words.now ≡ apply_words → Applies S.Site result site.old site.new }
    // Whatever the feed and at whatever moment the run stops: the files give the index of the first
    // lines, which are all whose moment is in the log or all but one; each of whose answer a byte
    // was shown is among them, and what was shown is a front of their answers.
    ensures survives { words.now ≡ apply_words → (machine : Machine)
        → StandsFor S.Site site.old (stack_of machine)
        → SurvivesCrash S.Site machine site.old site.new }

    // ---- `init`

    // Two empty files are made a store, and others are refused.
    ensures inits { (name : ProfileName) (depth : ℕ) → IsDepth depth
        → words.now ≡ init_words name depth
        → Inits S.Site name depth result site.old site.new }
    ensures not_empty { result ≡ ends.NotEmpty → Says S.Site not_empty_line site.old site.new }
    ensures only_files { IsTrue (S.told site.old) → result ≡ ends.NotEmpty
        → S.seen site.old ≢ no_files }

    // ---- `drill`

    // The line is shown, by the index to which all commands lead, and nothing is heard.
    ensures drills { (n : ℕ) → IsDrillLength n → words.now ≡ drill_words n
        → result ≢ ends.NotEmpty
        → ShowsText S.Site (told_line n) result site.old site.new }
    // From the making on the commands are carried out in turn, and no byte of the line is shown
    // before the last. Files that aren't both empty are refused and spared.
    ensures drill_survives { IsTrue (S.told site.old)
        → (n : ℕ) → IsDrillLength n → words.now ≡ drill_words n
        → RunsDrill S.Site n result site.old site.new }
    ensures drill_status { (n : ℕ) → IsDrillLength n → words.now ≡ drill_words n
        → IsDrillStatus result }
    ensures drill_completes { IsTrue (S.told site.old)
        → (n : ℕ) → IsDrillLength n → words.now ≡ drill_words n
        → S.seen site.old ≡ no_files
        → ¬ DiskFails S.Site site.old site.new → ¬ ShowFails S.Site site.old site.new
        → IsDone result }

    // ---- `migrate`

    // On files that stand for a stack at version 1, by so many commands: their number is shown, and
    // nothing is heard.
    ensures migrates { words.now ≡ migrate_words → (stack : Stack) (commands : ℕ)
        → StandsForOld S.Site site.old stack commands
        → (result ≢ ends.NotStore) × (result ≢ ends.OldCommand)
        × ShowsText S.Site (migrated_line commands) result site.old site.new }
    ensures migrated { words.now ≡ migrate_words → (stack : Stack) (commands : ℕ)
        → StandsForOld S.Site site.old stack commands
        → (result ≡ ends.Done) ⊎ (result ≡ ends.ShowFault) → IsMigrated S.Site stack site.new }
    // Whenever the run stops, the files stand for that stack, at version 1 or at version 2; and at
    // version 2 before a byte of the line is shown.
    ensures migrate_survives { words.now ≡ migrate_words → (stack : Stack) (commands : ℕ)
        → StandsForOld S.Site site.old stack commands
        → MigratesFirst S.Site stack commands site.old site.new }
    // On files that stand for none at version 1: what is wrong with them is shown, and nothing
    // else; and they are spared.
    ensures unmigrated { words.now ≡ migrate_words → (fault : OldFault Misfit)
        → StandsForNoOld S.Site site.old fault
        → IsUnmigrated fault result }
    ensures migrate_unsaid { words.now ≡ migrate_words → (fault : OldFault Misfit)
        → StandsForNoOld S.Site site.old fault
        → result ≢ ends.NotStore → result ≢ ends.OldCommand → S.log site.new ≡ S.log site.old }
    ensures migrates_nothing { words.now ≡ migrate_words → (fault : OldFault Misfit)
        → StandsForNoOld S.Site site.old fault
        → AddsNoImage S.Site site.old site.new }
    ensures no_old_store { words.now ≡ migrate_words → result ≡ ends.NotStore
        → SaysNoOldStore S.Site site.old site.new }
    ensures old_command { result ≡ ends.OldCommand → SaysOldCommand S.Site site.old site.new }
    // Memory runs out before the first write, or not at all.
    ensures migrate_memory { words.now ≡ migrate_words → result ≡ ends.Memory
        → AddsNoImage S.Site site.old site.new }
    ensures migrate_status { words.now ≡ migrate_words → IsMigrateStatus result }
    ensures migrate_completes { words.now ≡ migrate_words → (stack : Stack) (commands : ℕ)
        → StandsForOld S.Site site.old stack commands
        → ¬ DiskFails S.Site site.old site.new → ¬ ShowFails S.Site site.old site.new
        → IsDone result }

    // ---- `grow`

    // The line is shown once the files are of version 3, and stand for what they stood for.
    ensures grows { words.now ≡ grow_words → GrowsStore S.Site result site.old site.new }

    // ---- `query`

    // The body of the reply is shown, by the stack for which the files stand.
    ensures queries { (path : List ℕ) → words.now ≡ query_words path
        → Queries S.Site path result site.old site.new }

    // ---- `serve`

    // Each link is shown a front of its answers; all turns are made and counted, unless a fault
    // ends them; and whenever the run stops, the files stand for where the commands led.
    ensures serves { (turns : ℕ) → IsTurns turns → words.now ≡ serve_words turns
        → Serves S.Site turns result site.old site.new }
    ensures door_fault { result ≡ ends.DoorFault → DoorFails S.Site site.old site.new }

    // ---- `lead` and `follow`

    // Each Have is answered by a frame, of what the store has behind it.
    ensures leads { words.now ≡ lead_words → Leads S.Site result site.old site.new }
    // A Have is shown of where the store stands, and one behind each frame.
    ensures follows { words.now ≡ follow_words → Follows S.Site result site.old site.new }
    // Whatever the frames and at whatever moment the run stops: the files stand where the first
    // frames lead, at each place of whose Have a byte was shown, or past it.
    ensures follow_survives { words.now ≡ follow_words → (mine : Stood Stack)
        → StandsThere S.Site site.old mine
        → SurvivesFollowing S.Site mine site.old site.new }

    // ---- words that open a store, on files that stand for no stack

    // The first test that fails is shown, and nothing else; and the files are spared.
    ensures unopened { IsOpening words.now → (misfit : Misfit)
        → StandsForNone S.Site site.old misfit
        → Unopened S.Site result site.old site.new }
    ensures not_store { words.now ≢ migrate_words → words.now ≢ grow_words
        → words.now ≢ lead_words → words.now ≢ follow_words → result ≡ ends.NotStore
        → SaysNotStore S.Site site.old site.new }

    // ---- any words

    // Of other words the usage line is shown, or a front of it where a showing failed.
    ensures usage { IsUnknown words.now → Says S.Site usage_line site.old site.new }
    ensures usage_status { IsUnknown words.now → result ≡ ends.Usage }
    // At no moment does a run that only reads, or that shows a line of refusal, add to the files
    // that a crash leaves.
    ensures no_image { IsReading words.now ⊎ IsRefusal result
        → AddsNoImage S.Site site.old site.new }
    ensures disk_fault { result ≡ ends.DiskFault → DiskFails S.Site site.old site.new }
    ensures hear_fault { result ≡ ends.HearFault → HearFails S.Site site.old site.new }
    ensures show_fault { result ≡ ends.ShowFault → ShowFails S.Site site.old site.new }
    // A call fails at most once in a run, which ends with it; the status says which kind it was.
    ensures stops { EndsAtFault result (S.counts site.old) (S.counts site.new) }
    ensures calls { Calls S.Site site.old site.new }
{
    match subcommand_of(words) {
        Subcommand::Fold(name) => status(fold(alloc, &profile_of(name), site)),
        Subcommand::Init(name, depth) => init(alloc, site, name, depth),
        Subcommand::Apply => apply(alloc, site),
        Subcommand::Query(path) => query(alloc, site, path),
        Subcommand::Serve(turns) => serve(alloc, site, turns),
        Subcommand::Drill(n) => drill(alloc, site, n),
        Subcommand::Migrate => migrate(alloc, site),
        Subcommand::Lead => lead(alloc, site),
        Subcommand::Follow => follow(alloc, site),
        Subcommand::Grow => grow(alloc, site),
        Subcommand::Unknown => {
            say(site, b"usage\n");
            Status::Usage
        }
    }
}
