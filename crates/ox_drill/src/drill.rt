//! A drill over a store.

ghost use Rattle.std.specs.Prelude.{◌≡◌, ◌≢◌, ◌<◌, ◌^◌, IsTrue, IfOk, IsErrOf, OnOk};
ghost use Rattle.ox_outside.specs.Counts.{Rose, StopsAtFault};
ghost use Rattle.ox_outside.specs.Runs.{OnlyLooks};
ghost use Rattle.ox_gated.specs.Writes.{OnlyWrites};
ghost use Rattle.ox_gated.specs.declared.fault.Halt.TheVariants as halts;
ghost use Rattle.ox_store.specs.Make.{no_files};
ghost use Rattle.ox_store.specs.declared.fault.MakeFault.TheVariants as makes;
ghost use Rattle.ox_drill.specs.Chain.{drill_commands};
ghost use Rattle.ox_drill.specs.Drill.{Carries, DrillsInTurn, InStep, IsDrilled, Makes};
ghost use Rattle.ox_drill.specs.Drill.{StopsOnDisk, drill_stack};
ghost use Rattle.ox_drill.specs.Line.{drill_line};

use crate::blocks::first_behind;
use crate::carry::{connect_blocks, disconnect_blocks};
use crate::line::line_of;
use ox_bytes::{Bytes, Memory};
use ox_gated::Halt;
use ox_outside::Site;
use ox_sat::ProfileName;
use ox_store::{MakeFault, Store};
use std::alloc::Global;

/// How many blocks the store of a drill may keep.
const DEPTH: u16 = 100;

/// How many of the newest blocks are taken back at most.
const NEWEST: u32 = 10;

/// Makes the store of a drill.
fn make_store<S: Site>(alloc: Global, site: &mut S) -> Result<Store, MakeFault>
    ensures { Makes S.Site result site.old site.new }
{
    Store::make(alloc, site, ProfileName::Regtest, DEPTH)
}

/// Carries out the commands of a drill of n blocks. The newest blocks are made again from what they
/// stand behind, so no bytes are kept for it.
fn carry_all<S: Site>(alloc: Global, store: Store, n: u32, site: &mut S) -> Result<Store, Halt>
    requires in_step { IsTrue (S.told site.old) → InStep S.Site store site.old }
    requires few { store.commands ≡ 0 }
    ensures carries { Carries S.Site store (drill_commands n) result site.old site.new }
    ensures stops { StopsOnDisk S.Site result site.old site.new }
{
    let newest = n.min(NEWEST);
    let mut behind = first_behind();
    let store = connect_blocks(alloc, store, &mut behind, n - newest, site)?;
    let mut again = behind;
    let store = connect_blocks(alloc, store, &mut behind, newest, site)?;
    let store = disconnect_blocks(store, newest, site)?;
    connect_blocks(alloc, store, &mut again, newest, site)
}

/// Makes two empty files a regtest store that keeps up to a hundred blocks, connects n made blocks,
/// takes up to ten of the newest back, connects these again, and gives the line of the index then.
/// At `Ok` all of it is on the disk: each crash then leaves that store. From the store's making on,
/// a crash at any moment leaves what the first so many commands lead to. No event of a channel is
/// logged.
///
/// `NotEmpty` exactly where a file's length isn't 0, and nothing is written then. `Halt` with
/// `Disk` only where a call on a file failed, and with `Memory` where there is none for the store,
/// a block, a command or the line, and where a sum of the line passes 128 bits.
pub fn drill_store<S: Site>(alloc: Global, site: &mut S, n: u32) -> Result<Bytes, MakeFault>
    ensures line { IfOk result (λ line. line ≡ drill_line n (drill_stack n).index) }
    ensures drilled { IsTrue (S.told site.old) → OnOk result (IsDrilled S.Site n site.new) }
    ensures in_turn { IsTrue (S.told site.old)
        → DrillsInTurn S.Site n result site.old site.new }
    ensures empty { IsTrue (S.told site.old) → OnOk result (S.seen site.old ≡ no_files) }
    ensures not_empty { IsTrue (S.told site.old) → IsErrOf result MakeFault.NotEmpty
        → S.seen site.old ≢ no_files }
    ensures spared { IsTrue (S.told site.old) → S.seen site.old ≢ no_files
        → OnlyLooks S.Site site.old site.new }
    ensures wrote_nothing { IsErrOf result MakeFault.NotEmpty
        → OnlyLooks S.Site site.old site.new }
    ensures failed { IsErrOf result (makes.Halt halts.Disk)
        → Rose (S.counts site.old).disk (S.counts site.new).disk }
    ensures counted { StopsAtFault (IsErrOf result (makes.Halt halts.Disk)) ⊥ ⊥
        (S.counts site.old) (S.counts site.new) }
    ensures writes { OnlyWrites S.Site site.old site.new }
{
    let store = make_store(alloc, site)?;
    let store = carry_all(alloc, store, n, site)?;
    match line_of(alloc, n, store.live()) {
        Ok(line) => Ok(line),
        Err(Memory) => Err(MakeFault::Halt(Halt::Memory)),
    }
}
