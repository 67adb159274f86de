//! The growing of a store of version 2.

ghost use Rattle.std.specs.Prelude.{◌≡◌};
ghost use Rattle.ox_outside.specs.Runs.{Calls};
ghost use Rattle.ox_app.specs.Headline.{AddsNoImage};
ghost use Rattle.ox_app.specs.Promises.{GrowsStore};
ghost use Rattle.ox_app.specs.Show.{DiskFails, EndsAtFault, ShowFails};
ghost use Rattle.ox_app.specs.declared.status.Status.TheVariants as ends;

use crate::show::tell;
use crate::status::Status;
use crate::unopened::explain;
use ox_gated::Halt;
use ox_outside::Site;
use ox_store::{OpenFault, Store};
use std::alloc::Global;

/// Makes a store of version 2 one of version 3, and says so. Where memory runs out, be it before
/// the first write or later, the files stand for what they stood for.
pub fn grow<S: Site>(alloc: Global, site: &mut S) -> Status
    ensures grows { GrowsStore S.Site result site.old site.new }
    ensures looks { result ≡ ends.NotStore → AddsNoImage S.Site site.old site.new }
    ensures disk_fault { result ≡ ends.DiskFault → DiskFails S.Site site.old site.new }
    ensures show_fault { result ≡ ends.ShowFault → ShowFails S.Site site.old site.new }
    ensures stops { EndsAtFault result (S.counts site.old) (S.counts site.new) }
    ensures calls { Calls S.Site site.old site.new }
{
    match Store::grow(alloc, site) {
        Ok(_store) => tell(site, b"ok grown\n"),
        Err(OpenFault::NotStore { file, at }) => {
            explain(alloc, OpenFault::NotStore { file, at }, site)
        }
        Err(OpenFault::Halt(Halt::Disk)) => Status::DiskFault,
        Err(OpenFault::Halt(Halt::Memory)) => Status::Memory,
    }
}
