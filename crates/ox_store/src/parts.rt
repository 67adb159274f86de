//! The opening of a file of version 3, in pieces.

ghost use Rattle.std.specs.Prelude.{◌≡◌, ◌≤◌, IsTrue, IfOk, IfErr, IsErrOf};
ghost use Rattle.ox_outside.specs.Counts.{Rose, StopsAtFault};
ghost use Rattle.ox_outside.specs.Runs.{OnlyLooks};
ghost use Rattle.ox_gated.specs.Parts.{AreParts, is_intact_in, tail_at};
ghost use Rattle.ox_gated.specs.Tail.{IsSettled};
ghost use Rattle.ox_gated.specs.declared.fault.Halt.TheVariants as halts;
ghost use Rattle.ox_store.specs.Parts.{NamesSoFar, NamesStack, StandsByAll, StandsSoFar};
ghost use Rattle.ox_store.specs.Parts.{StandsUpTo, halt_in_body};
ghost use Rattle.ox_store.specs.Promises.{MayRead, OpenPromises, StepPromises};
ghost use Rattle.ox_store.specs.declared.fault.OpenFault.TheVariants as opens;

use crate::fault::OpenFault;
use crate::pieces::Pieces;
use crate::store::Store;
use ox_checkpoint::{BodyFault, Standing, stand_after};
use ox_files::profile_of_head;
use ox_gated::{Halt, Parts, Walker};
use ox_outside::Site;
use std::alloc::Global;

/// What a file stands for by its body and the records up to a gate, and that gate.
#[derive(Drop)]
pub(crate) struct Stood {
    pub(crate) standing: Standing,
    pub(crate) walker: Walker,
}

/// What a file stands for after a step from gate to gate.
#[derive(Drop)]
pub(crate) enum Step {
    /// There was a record.
    On(Stood),
    /// The gate is closed: there is none.
    All(Stood),
}

/// The store of two files whose current one has version 3. The body is read in pieces of at most so
/// many bytes, once for its sum and once for its rows, and each record is judged as it is read; the
/// index in memory is made behind the last one.
pub(crate) fn store_in_parts<S: Site>(
    alloc: Global,
    parts: Parts,
    most: usize,
    site: &mut S,
) -> Result<Store, OpenFault>
    requires may { MayRead S.Site parts most site.old }
    requires settled { IsSettled S.Site site.old }
    ensures { OpenPromises S.Site result site.old site.new }
{
    let body = stand_on_body(alloc, parts, most, site)?;
    let all = stand_on_records(alloc, body, site)?;
    store_at_end(alloc, all)
}

/// The store of what a file stands for by all of its records. `Memory` where there is none for its
/// index in memory.
fn store_at_end(alloc: Global, all: Stood) -> Result<Store, OpenFault>
    requires { NamesStack all }
    ensures stack { IfOk result (λ store. store.stack ≡ all.standing) }
    ensures tail { IfOk result (λ store. store.tail ≡ tail_at all.walker) }
    ensures fresh { IfOk result (λ store. store.commands ≡ 0) }
    ensures memory { IfErr result (λ fault. fault ≡ opens.Halt halts.Memory) }
{
    let Stood { standing, walker } = all;
    match standing.into_chain(alloc) {
        Ok(chain) => Ok(Store {
            alloc,
            chain,
            tail: walker.tail(),
            commands: 0,
        }),
        Err(_) => Err(OpenFault::Halt(Halt::Memory)),
    }
}

/// What a file stands for by its body. First its sum is tested, over bytes that aren't kept; then
/// its rows are read.
fn stand_on_body<S: Site>(
    alloc: Global,
    parts: Parts,
    most: usize,
    site: &mut S,
) -> Result<Stood, OpenFault>
    requires may { MayRead S.Site parts most site.old }
    ensures { StepPromises S.Site (StandsUpTo (S.seen site.old)) NamesStack result
        site.old site.new }
{
    if !is_intact(alloc, &parts, most, site)? {
        let head = parts.head();
        return Err(OpenFault::NotStore {
            file: parts.file(),
            at: head.body_at(),
        });
    }
    stand_on_rows(alloc, parts, most, site)
}

/// Whether the body is as its sum says. `Memory` where there is none for a piece of it.
fn is_intact<S: Site>(alloc: Global, parts: &Parts, most: usize, site: &mut S) -> Result<bool, Halt>
    requires most { 1 ≤ most }
    requires parts { IsTrue (S.told site.old) → AreParts parts.now (S.seen site.old) }
    ensures intact { IsTrue (S.told site.old)
        → IfOk result (λ intact. intact ≡ is_intact_in parts.now (S.seen site.old)) }
    ensures failed { IsErrOf result Halt.Disk
        → Rose (S.counts site.old).disk (S.counts site.new).disk }
    ensures counted { StopsAtFault (IsErrOf result Halt.Disk) ⊥ ⊥
        (S.counts site.old) (S.counts site.new) }
    ensures looks { OnlyLooks S.Site site.old site.new }
{
    let mut room = Vec::from_elem(alloc, 0, most)?;
    let intact = parts.is_intact(site, &mut room)?;
    Ok(intact)
}

/// What a file stands for by its body, whose sum was tested.
fn stand_on_rows<S: Site>(
    alloc: Global,
    parts: Parts,
    most: usize,
    site: &mut S,
) -> Result<Stood, OpenFault>
    requires may { MayRead S.Site parts most site.old }
    requires intact { IsTrue (S.told site.old) → IsTrue (is_intact_in parts (S.seen site.old)) }
    ensures { StepPromises S.Site (StandsUpTo (S.seen site.old)) NamesStack result
        site.old site.new }
{
    let file = parts.file();
    let head = parts.head();
    let mut pieces = Pieces { parts, most };
    match Standing::of_rows(alloc, profile_of_head(&head), head.depth, &mut pieces, site) {
        Ok(Some(standing)) => Ok(Stood {
            standing,
            walker: pieces.parts.behind(),
        }),
        Ok(None) => Err(OpenFault::NotStore {
            file,
            at: head.body_at(),
        }),
        Err(fault) => Err(OpenFault::Halt(halt_of(fault))),
    }
}

/// Why a body wasn't read.
fn halt_of(fault: BodyFault<Halt>) -> Halt
    ensures { result ≡ halt_in_body fault }
{
    match fault {
        BodyFault::Memory => Halt::Memory,
        BodyFault::Source(halt) => halt,
    }
}

/// What a file stands for by all of its records, from what it stands for up to a gate.
fn stand_on_records<S: Site>(alloc: Global, body: Stood, site: &mut S) -> Result<Stood, OpenFault>
    requires stood { IsTrue (S.told site.old) → StandsUpTo (S.seen site.old) body }
    requires names { NamesStack body }
    ensures { StepPromises S.Site (StandsByAll S.Site site.new) NamesStack result
        site.old site.new }
{
    let mut stood = body;
    for _ in 0..u64::MAX {
        match next_step(alloc, stood, site)? {
            Step::On(next) => stood = next,
            Step::All(all) => return Ok(all),
        }
    }
    // No file has so many gates.
    Err(OpenFault::Halt(Halt::Memory))
}

/// What a file stands for at the next gate, where there is a record before it: that is judged, once
/// its sum was tested.
fn next_step<S: Site>(alloc: Global, stood: Stood, site: &mut S) -> Result<Step, OpenFault>
    requires stood { IsTrue (S.told site.old) → StandsUpTo (S.seen site.old) stood }
    requires names { NamesStack stood }
    ensures { StepPromises S.Site (StandsSoFar S.Site site.new) NamesSoFar result
        site.old site.new }
{
    let Stood {
        standing,
        mut walker,
    } = stood;
    let file = walker.file();
    match walker.next(site) {
        Ok(Some(record)) => match stand_after(alloc, standing, &record) {
            Ok(standing) => Ok(Step::On(Stood { standing, walker })),
            Err(unjudged) => Err(OpenFault::in_file(file, unjudged)),
        },
        Ok(None) => Ok(Step::All(Stood { standing, walker })),
        Err(fault) => Err(OpenFault::of(alloc, fault)),
    }
}
