//! The making of a store.

ghost use Rattle.std.specs.Prelude.{◌≡◌, ◌≢◌, ◌⊎◌, IsTrue};
ghost use Rattle.ox_store.specs.Make.{no_files};
ghost use Rattle.ox_app.specs.Headline.{AddsNoImage};
ghost use Rattle.ox_app.specs.Init.{IsMade, MakesFirst, made_line, not_empty_line};
ghost use Rattle.ox_outside.specs.Runs.{Calls};
ghost use Rattle.ox_app.specs.Show.{DiskFails, EndsAtFault, Says, ShowFails, ShowsText};
ghost use Rattle.ox_app.specs.Status.{IsInitStatus, IsSparing};
ghost use Rattle.ox_app.specs.Subcommands.{IsDepth};
ghost use Rattle.ox_app.specs.declared.status.Status.TheVariants as ends;

use crate::show::{say, tell};
use crate::status::Status;
use ox_gated::Halt;
use ox_outside::Site;
use ox_rules::empty_line;
use ox_sat::ProfileName;
use ox_store::{MakeFault, Store};
use std::alloc::Global;

/// Makes a store without a block and says so.
pub fn init<S: Site>(alloc: Global, site: &mut S, name: ProfileName, depth: u16) -> Status
    requires { IsDepth depth }
    ensures shows { result ≢ ends.NotEmpty → ShowsText S.Site made_line result site.old site.new }
    ensures not_empty { result ≡ ends.NotEmpty → Says S.Site not_empty_line site.old site.new }
    ensures only_empty { IsTrue (S.told site.old) → result ≡ ends.NotEmpty
        → S.seen site.old ≢ no_files }
    ensures refuses { IsTrue (S.told site.old) → S.seen site.old ≢ no_files → IsSparing result }
    ensures spares { IsTrue (S.told site.old) → S.seen site.old ≢ no_files
        → AddsNoImage S.Site site.old site.new }
    ensures made { IsTrue (S.told site.old) → (result ≡ ends.Done) ⊎ (result ≡ ends.ShowFault)
        → IsMade S.Site name depth site.new }
    ensures made_before { IsTrue (S.told site.old) → result ≢ ends.NotEmpty
        → MakesFirst S.Site name depth site.old site.new }
    ensures looks { (result ≡ ends.NotEmpty) ⊎ (result ≡ ends.Memory)
        → AddsNoImage S.Site site.old site.new }
    ensures status { IsInitStatus result }
    ensures show_fault { result ≡ ends.ShowFault → ShowFails S.Site site.old site.new }
    ensures disk_fault { result ≡ ends.DiskFault → DiskFails S.Site site.old site.new }
    ensures stops { EndsAtFault result (S.counts site.old) (S.counts site.new) }
    ensures calls { Calls S.Site site.old site.new }
{
    match Store::make(alloc, site, name, depth) {
        Ok(_store) => tell(site, empty_line()),
        Err(MakeFault::NotEmpty) => {
            say(site, b"not empty\n");
            Status::NotEmpty
        }
        Err(MakeFault::Halt(Halt::Disk)) => Status::DiskFault,
        Err(MakeFault::Halt(Halt::Memory)) => Status::Memory,
    }
}
