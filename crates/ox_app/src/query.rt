//! A query of a store.

ghost use Rattle.std.specs.Prelude.{◌≡◌, ◌≢◌, Ok, Err, IsTrue, IfOk};
ghost use Rattle.ox_model.specs.Stack.{Stack};
ghost use Rattle.ox_files.specs.Stands.{Misfit, stands};
ghost use Rattle.ox_app.specs.Headline.{AddsNoImage};
ghost use Rattle.ox_outside.specs.Runs.{Calls};
ghost use Rattle.ox_app.specs.Query.{query_body};
ghost use Rattle.ox_app.specs.Show.{DiskFails, EndsAtFault, ShowFails, ShowsText};
ghost use Rattle.ox_app.specs.Status.{IsQueryStatus, IsUnopened};
ghost use Rattle.ox_app.specs.Unopened.{SaysNotStore};
ghost use Rattle.ox_app.specs.declared.status.Status.TheVariants as ends;

use crate::show::show_all;
use crate::status::Status;
use crate::unopened::explain;
use ox_asof::get_of;
use ox_bytes::{Bytes, Memory};
use ox_desk::{HeldStore, reply_to};
use ox_outside::{Failed, Site};
use ox_routes::Routes;
use ox_store::Store;
use std::alloc::Global;

/// The body of the reply of a store to a query of a path.
#[tactic(auto, unfolding(crate::specs::Query::query_body))]
fn body_of(alloc: Global, path: &[u8], store: Store) -> Result<Bytes, Memory>
    ensures { IfOk result (λ body. body ≡ query_body path.now store.stack) }
{
    let request = get_of(alloc, path, false)?;
    let routes = Routes::new(alloc)?;
    let store = HeldStore::new(store);
    Ok(reply_to(alloc, &routes, &store, &request)?.body)
}

/// Opens the store and shows the body of the reply to a query of this path.
pub fn query<S: Site>(alloc: Global, site: &mut S, path: &[u8]) -> Status
    // On files that stand for a stack.
    ensures shows { IsTrue (S.told site.old) → (stack : Stack) → stands (S.seen site.old) ≡ Ok stack
        → (result ≢ ends.NotStore)
        × ShowsText S.Site (query_body path.now stack) result site.old site.new }
    // On files that stand for none.
    ensures unopened { IsTrue (S.told site.old) → (misfit : Misfit)
        → stands (S.seen site.old) ≡ Err misfit
        → IsUnopened result }
    ensures unsaid { IsTrue (S.told site.old) → (misfit : Misfit)
        → stands (S.seen site.old) ≡ Err misfit
        → result ≢ ends.NotStore → S.log site.new ≡ S.log site.old }
    ensures not_store { result ≡ ends.NotStore → SaysNotStore S.Site site.old site.new }

    ensures looks { AddsNoImage S.Site site.old site.new }
    ensures status { IsQueryStatus result }
    ensures show_fault { result ≡ ends.ShowFault → ShowFails S.Site site.old site.new }
    ensures disk_fault { result ≡ ends.DiskFault → DiskFails S.Site site.old site.new }
    ensures stops { EndsAtFault result (S.counts site.old) (S.counts site.new) }
    ensures calls { Calls S.Site site.old site.new }
{
    match Store::open(alloc, site) {
        Ok(store) => match body_of(alloc, path, store) {
            Ok(body) => match show_all(site, body.as_slice()) {
                Ok(()) => Status::Done,
                Err(Failed) => Status::ShowFault,
            },
            Err(_) => Status::Memory,
        },
        Err(fault) => explain(alloc, fault, site),
    }
}
