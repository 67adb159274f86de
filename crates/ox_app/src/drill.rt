//! A drill over two files.

ghost use Rattle.std.specs.Prelude.{◌≡◌, ◌≢◌, IsTrue};
ghost use Rattle.ox_outside.specs.Runs.{Calls};
ghost use Rattle.ox_store.specs.Make.{no_files};
ghost use Rattle.ox_app.specs.Drill.{RunsDrill, told_line};
ghost use Rattle.ox_app.specs.Headline.{AddsNoImage};
ghost use Rattle.ox_app.specs.Init.{not_empty_line};
ghost use Rattle.ox_app.specs.Show.{DiskFails, EndsAtFault, Says, ShowFails, ShowsText};
ghost use Rattle.ox_app.specs.Status.{IsDrillStatus};
ghost use Rattle.ox_app.specs.declared.status.Status.TheVariants as ends;

use crate::show::{say, tell};
use crate::status::Status;
use ox_drill::drill_store;
use ox_gated::Halt;
use ox_outside::Site;
use ox_store::MakeFault;
use std::alloc::Global;

/// Makes a store, carries out the commands of a drill of n blocks, and shows its line.
pub fn drill<S: Site>(alloc: Global, site: &mut S, n: u32) -> Status
    ensures shows { result ≢ ends.NotEmpty
        → ShowsText S.Site (told_line n) result site.old site.new }
    ensures runs { IsTrue (S.told site.old) → RunsDrill S.Site n result site.old site.new }
    ensures not_empty { result ≡ ends.NotEmpty → Says S.Site not_empty_line site.old site.new }
    ensures only_files { IsTrue (S.told site.old) → result ≡ ends.NotEmpty
        → S.seen site.old ≢ no_files }
    ensures looks { result ≡ ends.NotEmpty → AddsNoImage S.Site site.old site.new }
    ensures status { IsDrillStatus result }
    ensures show_fault { result ≡ ends.ShowFault → ShowFails S.Site site.old site.new }
    ensures disk_fault { result ≡ ends.DiskFault → DiskFails S.Site site.old site.new }
    ensures stops { EndsAtFault result (S.counts site.old) (S.counts site.new) }
    ensures calls { Calls S.Site site.old site.new }
{
    match drill_store(alloc, site, n) {
        Ok(line) => tell(site, line.as_slice()),
        Err(MakeFault::NotEmpty) => {
            say(site, b"not empty\n");
            Status::NotEmpty
        }
        Err(MakeFault::Halt(Halt::Disk)) => Status::DiskFault,
        Err(MakeFault::Halt(Halt::Memory)) => Status::Memory,
    }
}
