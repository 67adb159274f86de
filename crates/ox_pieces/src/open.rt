//! The opening of two files, as plain data.

ghost use Rattle.std.specs.Prelude.{◌≡◌, Ok, Result, IsTrue, IfOk, IfErr, IsErrOf};
ghost use Rattle.ox_outside.specs.Counts.{Rose, StopsAtFault};
ghost use Rattle.ox_outside.specs.Runs.{OnlyLooks};
ghost use Rattle.ox_gated.specs.Layout.{is_lawful};
ghost use Rattle.ox_gated.specs.Opened.{found_of};
ghost use Rattle.ox_gated.specs.Tail.{Holds, IsSettled};
ghost use Rattle.ox_gated.specs.declared.fault.Halt.TheVariants as halts;
ghost use Rattle.ox_files.specs.Stands.{stack_in, stack_in_file};
ghost use Rattle.ox_store.specs.Fault.{IsMisfit};
ghost use Rattle.ox_store.specs.declared.fault.OpenFault.TheVariants as opens;
ghost use Rattle.ox_pieces.specs.Stood.{led_reading, led_stands};

use ox_checkpoint::{Standing, stand};
use ox_gated::{Opened, Tail};
use ox_outside::Site;
use ox_store::OpenFault;
use std::alloc::Global;

/// What was read of two files, and what it stands for.
#[derive(Drop)]
pub(crate) struct Current {
    pub(crate) opened: Opened,
    pub(crate) standing: Standing,
}

/// Opens two files of version 2 and tests what they hold: see `Follower::open`.
pub(crate) fn open_files<S: Site>(alloc: Global, site: &mut S) -> Result<Current, OpenFault>
    ensures found { IsTrue (S.told site.old)
        → IfOk result (λ c. led_reading (S.seen site.old) ≡ Ok (found_of c.opened)) }
    ensures stack { IfOk result (λ c.
        stack_in_file c.opened.head c.opened.body c.opened.records ≡ Ok c.standing) }
    ensures head { IfOk result (λ c.
        (c.opened.tail.head ≡ c.opened.head) × (c.opened.head.version ≡ 2)) }
    ensures lawful { IfOk result (λ c. IsTrue (is_lawful c.opened.head)) }
    ensures holds { IsTrue (S.told site.old)
        → IfOk result (λ c. Holds S.Site c.opened.tail site.new) }
    ensures not_store { IsTrue (S.told site.old)
        → IfErr result (IsMisfit (led_stands (S.seen site.old))) }
    ensures failed { IsErrOf result (opens.Halt halts.Disk)
        → Rose (S.counts site.old).disk (S.counts site.new).disk }
    ensures counted { StopsAtFault (IsErrOf result (opens.Halt halts.Disk)) ⊥ ⊥
        (S.counts site.old) (S.counts site.new) }
    ensures settled { ¬ IsErrOf result (opens.Halt halts.Disk) → IsSettled S.Site site.new }
    ensures looks { OnlyLooks S.Site site.old site.new }
{
    match Tail::open(alloc, site) {
        Ok(opened) => judged(alloc, opened),
        Err(fault) => Err(OpenFault::of(alloc, fault)),
    }
}

/// What files that were read stand for.
fn judged(alloc: Global, opened: Opened) -> Result<Current, OpenFault>
    requires { IsTrue (is_lawful opened.head) }
    ensures opened { IfOk result (λ c. c.opened ≡ opened) }
    ensures stack { IfOk result (λ c.
        stack_in_file opened.head opened.body opened.records ≡ Ok c.standing) }
    ensures misfit { IfErr result (IsMisfit (stack_in (Ok (found_of opened)))) }
    ensures not_disk { IsErrOf result (opens.Halt halts.Disk) → ⊥ }
{
    match stand(alloc, &opened.head, &opened.body, &opened.records) {
        Ok(standing) => Ok(Current { opened, standing }),
        Err(unjudged) => Err(OpenFault::in_file(opened.file, unjudged)),
    }
}
