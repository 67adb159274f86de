//! A store, and which outputs each script has.

ghost use Rattle.std.specs.Prelude.{◌≡◌, IfOk, List, Some, ℕ};
ghost use Rattle.ox_holders.specs.Keys.{StandFor};
ghost use Rattle.ox_holders.specs.Outputs.{outputs_with};
ghost use Rattle.ox_model.specs.Index.{Index};
ghost use Rattle.ox_store.specs.Ready.{Moves};
ghost use Rattle.ox_desk.specs.Held.{AreHoldersOf, script_asked};

use crate::addresses::{part_named, script_asked};
use ox_block::OutPoint;
use ox_bytes::{List, Memory};
use ox_holders::Holders;
use ox_http::{Method, Request};
use ox_model::View;
use ox_store::{Moving, Store};
use std::alloc::Global;
use std::marker::Model;

/// A store, and which outputs each script has, once that was asked. Contracts see the store alone.
pub struct HeldStore {
    store: Store,
    /// They take memory by the number of outputs.
    holders: Option<Holders>,
}

/// By hand, so that whoever drops it makes one call, and proves nothing of its fields.
impl Drop for HeldStore {
    fn drop(self) {
        let HeldStore {
            store: _store,
            holders: _holders,
        } = self;
    }
}

impl Model for HeldStore {
    ghost use Rattle.std.specs.Coded.{codes};
    ghost use Rattle.std.specs.FinMap as map;
    ghost use Rattle.ox_store.specs.Store.{StoreContents};
    ghost use Rattle.ox_desk.specs.Held.{AreHoldersOf};

    ghost Value = { StoreContents };

    ghost coded = { Prim.hlevel (codes, map.code) };

    ghost view = { λ held. held.store };

    ghost invariant = { λ held. AreHoldersOf held.store.stack.index held.holders };
}

impl HeldStore {
    /// A store of which no address was asked.
    pub fn new(store: Store) -> HeldStore
        ensures { result ≡ store }
    {
        HeldStore {
            store,
            holders: None,
        }
    }

    /// A store with these holders.
    pub(crate) fn of(store: Store, holders: Option<Holders>) -> HeldStore
        requires { AreHoldersOf store.stack.index holders }
        ensures { result ≡ store }
    {
        HeldStore { store, holders }
    }

    /// The store, and the holders if there are any.
    pub(crate) fn into_parts(self) -> (Store, Option<Holders>)
        ensures store { result.0 ≡ self }
        ensures holders { AreHoldersOf self.stack.index result.1 }
    {
        let HeldStore { store, holders } = self;
        (store, holders)
    }

    /// The store.
    pub(crate) fn store(&self) -> &Store
        ensures { result.now ≡ self.now }
    {
        &self.store
    }

    /// Has holders where a request asks for them, so that this reply and later ones cost by what
    /// they tell. `Memory` where there is none for them: all is as before then.
    pub(crate) fn hold(&mut self, alloc: Global, request: &Request) -> Result<(), Memory>
        ensures { self.new ≡ self.old }
    {
        if self.holders.is_none() && self.asks_holders(request) {
            self.holders = Some(holders_of(alloc, &self.store)?);
        }
        Ok(())
    }

    /// Whether a request is a GET of a path that names an address of the chain, and no block.
    fn asks_holders(&self, request: &Request) -> bool {
        match part_named(request.path.as_slice()) {
            Some(part) => {
                script_asked(self.store.live().profile(), request.method, part).is_some()
            }
            None => false,
        }
    }

    /// The outpoints of the outputs with a script, by rising outpoint, of which a part of a path
    /// stands for the address; none where the method isn't GET, or it is no segwit address of the
    /// chain. Where there are no holders they are made for this alone. `Memory` where there is none
    /// for either.
    pub(crate) fn outputs(
        &self,
        alloc: Global,
        method: Method,
        part: &[u8],
    ) -> Result<List<OutPoint>, Memory>
        ensures { IfOk result (λ found. (script : List ℕ)
            → script_asked self.now.stack.profile method part.now ≡ Some script
            → found ≡ outputs_with script self.now.stack.index.outs) }
    {
        let Some(script) = script_asked(self.store.live().profile(), method, part) else {
            return Ok(List::new(alloc));
        };
        match &self.holders {
            Some(holders) => holders.outputs(script.as_slice()),
            None => holders_of(alloc, &self.store)?.outputs(script.as_slice()),
        }
    }
}

/// The holders of a store's index. `Memory` where there is none for them, or for the order of the
/// outputs.
fn holders_of(alloc: Global, store: &Store) -> Result<Holders, Memory>
    ensures { IfOk result (λ holders. StandFor holders store.now.stack.index.outs) }
{
    let rows = store.live().in_order()?;
    Holders::of(alloc, &rows)
}

/// The holders behind a command, by those before it and what it changes. `None` where there were
/// none, and where there is no memory for the step.
pub(crate) fn holders_behind(holders: Option<Holders>, moving: Moving<'_>) -> Option<Holders>
    ensures { (before after : Index) → Moves before after moving.entry
        → AreHoldersOf before holders → AreHoldersOf after result }
{
    step(holders?, moving).ok()
}

/// The holders of the index behind a command, by those of the index before it and what it changes.
/// `Memory` where there is none for them: they are gone then.
fn step(holders: Holders, moving: Moving<'_>) -> Result<Holders, Memory>
    ensures { (before after : Index) → Moves before after moving.entry
        → StandFor holders before.outs → IfOk result (λ behind. StandFor behind after.outs) }
{
    match moving {
        Moving::On(change) => holders.step(change.gone.as_slice(), change.came.as_slice()),
        Moving::Back(change) => holders.step(change.came.as_slice(), change.gone.as_slice()),
    }
}
