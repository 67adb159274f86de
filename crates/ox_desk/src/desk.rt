//! The desk of a server: a store, and the replies that are kept of it.

ghost use Rattle.std.specs.Prelude.{◌≡◌, ◌≢◌, ◌+◌, ◌<◌, ◌≤◌, Err, IsTrue};
ghost use Rattle.std.specs.Prelude.{IfOk, OnOk, OnErr, IsErrOf};
ghost use Rattle.ox_outside.specs.Counts.{Rose, StopsAtFault, greatest};
ghost use Rattle.ox_outside.specs.Runs.{LeavesOnly};
ghost use Rattle.ox_http.specs.declared.Method.TheVariants as methods;
ghost use Rattle.ox_turns.specs.declared.handler.DeskFault.TheVariants as faults;
ghost use Rattle.ox_links.specs.Counted.{no_tally};
ghost use Rattle.ox_cache.specs.Kept.{none_kept};
ghost use Rattle.ox_gated.specs.Writes.{OnlyWrites};
ghost use Rattle.ox_desk.specs.Desk.{tally_of};

use crate::carry::{Carried, carry_command};
use crate::command::command_of;
use crate::held::HeldStore;
use crate::told::{Step, look_up, tell};
use ox_bytes::{Bytes, Memory};
use ox_cache::Cache;
use ox_feed::Command;
use ox_gated::DiskFault;
use ox_http::{Method, Request};
use ox_outside::Site;
use ox_routes::Routes;
use ox_store::Store;
use ox_turns::{Desk, DeskFault, Made};
use std::alloc::Global;
use std::marker::Model;
use std::num::NonZeroUsize;

/// How many replies are kept.
const REPLIES_KEPT: usize = 64;

/// What a server over a store answers from. Contracts see the store's stack and tail, the commands
/// that were accepted since it was opened, the requests that were answered, and the replies that
/// are kept.
pub struct StoreDesk {
    alloc: Global,
    /// A fault of the disk takes it.
    store: Option<HeldStore>,
    routes: Routes,
    cache: Cache,
    requests: u64,
}

/// By hand, so that whoever drops a desk makes one call, and proves nothing of its fields.
impl Drop for StoreDesk {
    fn drop(self) {
        let StoreDesk {
            alloc: _alloc,
            store: _store,
            routes: _routes,
            cache: _cache,
            requests: _requests,
        } = self;
    }
}

impl Model for StoreDesk {
    ghost use Rattle.std.specs.Prelude.{◌≡◌, IsTrue};
    ghost use Rattle.std.specs.Coded.{codes};
    ghost use Rattle.std.specs.FinMap as map;
    ghost use Rattle.ox_desk.specs.Desk.{DeskContents, IsSound, contents_in};

    ghost Value = { DeskContents };

    ghost coded = { Prim.hlevel (codes, map.code) };

    ghost view = { λ d. contents_in d.store d.requests d.cache };

    ghost invariant = { λ d.
        let desk = contents_in d.store d.requests d.cache in IsTrue desk.is_open → IsSound desk };
}

/// A cache for as many replies, which keeps none yet. `Memory` where there is none for its table.
fn empty_cache(alloc: Global) -> Result<Cache, Memory>
    ensures { IfOk result (λ cache. cache ≡ none_kept 64) }
{
    let room = NonZeroUsize::new(REPLIES_KEPT).unwrap_or(NonZeroUsize::MIN);
    Cache::new(alloc, room)
}

impl StoreDesk {
    ghost use Rattle.ox_desk.specs.Desk.{CarriesOut, IsSound, Rests, Steps, Tells, stack_behind};
    ghost use Rattle.ox_desk.specs.PutBack.{desk_behind, desk_by, made_by};
    ghost use Rattle.ox_store.specs.Ready.{StandsForEither};

    /// A desk over a store that has carried out no command since it was opened. It has answered
    /// nothing and keeps no reply. `Memory` where there is none for its routes and its cache.
    pub fn new(alloc: Global, store: Store) -> Result<StoreDesk, Memory>
        requires fresh { store.commands ≡ 0 }
        ensures stack { IfOk result (λ desk. desk.stack ≡ store.stack) }
        ensures tail { IfOk result (λ desk. desk.tail ≡ store.tail) }
        ensures is_open { IfOk result (λ desk. IsTrue desk.is_open) }
        ensures fresh { IfOk result (λ desk. (desk.commands ≡ 0) × (desk.requests ≡ 0)
            × (tally_of desk.cache ≡ no_tally)) }
    {
        let cache = empty_cache(alloc)?;
        let routes = Routes::new(alloc)?;
        Ok(StoreDesk {
            alloc,
            store: Some(HeldStore::new(store)),
            routes,
            cache,
            requests: 0,
        })
    }

    /// Answers a GET, from the replies that are kept. `Memory` where there is none for it.
    fn look_up(&mut self, request: &Request) -> Result<Bytes, Memory>
        requires get { request.now.method ≡ methods.Get }
        requires is_open { IsTrue self.old.is_open }
        requires room { self.old.requests < greatest }
        ensures ok { IfOk result (λ bytes. Tells self.old request.now bytes self.new) }
        ensures err { OnErr result (self.new ≡ self.old) }
    {
        let Some(store) = &mut self.store else {
            unreachable!();
        };
        store.hold(self.alloc, request)?;
        let bytes = look_up(self.alloc, &self.routes, store, &mut self.cache, request)?;
        self.requests += 1;
        Ok(bytes)
    }

    /// Answers a request that is no GET, and no command. `Memory` where there is none for it.
    fn tell(&mut self, request: &Request) -> Result<Bytes, Memory>
        requires no_get { request.now.method ≢ methods.Get }
        requires is_open { IsTrue self.old.is_open }
        requires room { self.old.requests < greatest }
        ensures ok { IfOk result (λ bytes. Tells self.old request.now bytes self.new) }
        ensures err { OnErr result (self.new ≡ self.old) }
    {
        let Some(store) = &self.store else {
            unreachable!();
        };
        let bytes = tell(self.alloc, &self.routes, store, request)?;
        self.requests += 1;
        Ok(bytes)
    }

    /// Answers a request that carries out nothing, or gives its command. `Memory` where there is
    /// none for it.
    fn step(&mut self, request: &Request, operator: bool) -> Result<Step, Memory>
        requires is_open { IsTrue self.old.is_open }
        requires room { self.old.requests < greatest }
        ensures ok { IfOk result (λ step. Steps self.old request.now operator step self.new) }
        ensures err { OnErr result (self.new ≡ self.old) }
    {
        if let Method::Get = request.method {
            return Ok(Step::Told(self.look_up(request)?));
        }
        match command_of(self.alloc, &self.routes, request, operator)? {
            Some(command) => Ok(Step::Carries(command)),
            None => Ok(Step::Told(self.tell(request)?)),
        }
    }

    /// Carries out a command, and makes the reply. A fault of the disk takes the store; where there
    /// is no memory for the command or the reply nothing has changed.
    fn carry_out<S: Site>(
        &mut self,
        site: &mut S,
        command: &Command,
        close: bool,
    ) -> Result<Made, DeskFault>
        requires rests { Rests S.Site self.old site.old }
        requires room { self.old.requests < greatest }
        ensures ok { IfOk result (λ made. CarriesOut self.old command.now close made self.new) }
        ensures memory { IsErrOf result DeskFault.Memory → self.new ≡ self.old }
        ensures rests { result ≢ Err DeskFault.DiskFault → Rests S.Site self.new site.new }
        ensures asked { self.new.requests ≤ self.old.requests + 1 }
        ensures any_moment { IsTrue (S.told site.old) → LeavesOnly S.Site site.old site.new (λ r.
            StandsForEither self.old.stack (stack_behind self.old.stack command.now) r.files) }
        ensures failed { IsErrOf result DeskFault.DiskFault
            → Rose (S.counts site.old).disk (S.counts site.new).disk }
        ensures counted { StopsAtFault (result ≡ Err faults.DiskFault) ⊥ ⊥
            (S.counts site.old) (S.counts site.new) }
        ensures writes { OnlyWrites S.Site site.old site.new }
    {
        let Some(store) = self.store.take() else {
            unreachable!();
        };
        let carried = carry_command(self.alloc, store, command, close, site);
        self.put_back(carried, close)
    }

    /// Puts the store back that a command left, and makes the reply. A request that is answered is
    /// counted. After a fault of the disk there is no store to put back.
    fn put_back(
        &mut self,
        carried: Result<Carried, DiskFault>,
        close: bool,
    ) -> Result<Made, DeskFault>
        requires room { self.old.requests < greatest }
        requires sound { IfOk carried (λ left. IsSound (desk_behind left self.old)) }
        ensures made { result ≡ made_by carried close }
        ensures desk { self.new ≡ desk_by carried self.old }
    {
        let Ok(Carried { store, told }) = carried else {
            return Err(DeskFault::DiskFault);
        };
        self.store = Some(store);
        let Some(bytes) = told else {
            return Err(DeskFault::Memory);
        };
        self.requests += 1;
        Ok(Made { bytes, close })
    }

    /// How many requests were answered.
    pub fn requests(&self) -> u64
        ensures { result ≡ self.now.requests }
    {
        self.requests
    }

    /// How many of them were GETs whose reply was kept.
    pub fn hits(&self) -> u64
        ensures { result ≡ self.now.cache.hits }
    {
        self.cache.hits()
    }
}

impl<S: Site> Desk<S> for StoreDesk {
    ghost use Rattle.std.specs.Prelude.{◌≡◌, Ok};
    ghost use Rattle.ox_feed.specs.declared.command.Command.{Command as Carried};
    ghost use Rattle.ox_model.specs.Stack.{Stack};
    ghost use Rattle.ox_files.specs.Stands.{stands as standing};
    ghost use Rattle.ox_desk.specs.Servers.{server_on};
    ghost use Rattle.ox_desk.specs.Desk.{Moved, Rests, Same};
    ghost use Rattle.ox_desk.specs.DeskLaws as laws;

    ghost State = { Stack };

    ghost Command = { Carried };

    ghost server = { server_on };

    ghost stands = { λ files stack. standing files ≡ Ok stack };

    ghost state = { λ desk. desk.stack };

    ghost asked = { λ desk. desk.requests };

    ghost rests = { Rests S.Site };

    ghost moved = { Moved };

    ghost same = { Same };

    fn ask(&mut self, site: &mut S, request: &Request, operator: bool) -> Result<Made, DeskFault> {
        match self.step(request, operator) {
            Ok(Step::Told(bytes)) => Ok(Made {
                bytes,
                close: request.close,
            }),
            Ok(Step::Carries(command)) => self.carry_out(site, &command, request.close),
            Err(Memory) => Err(DeskFault::Memory),
        }
    }

    ghost http = { laws.serves_http };

    ghost rests_stays = { laws.rests_on _ };

    ghost rests_stands = { laws.leaves_standing _ };
}
