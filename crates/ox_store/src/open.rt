//! The opening of two files.

ghost use Rattle.std.specs.Prelude.{◌≡◌, ◌≤◌, Ok, IsTrue, IfOk, IfErr, IsErrOf};
ghost use Rattle.ox_gated.specs.Layout.{is_lawful};
ghost use Rattle.ox_gated.specs.Opened.{found_of};
ghost use Rattle.ox_gated.specs.Reading.{is_present};
ghost use Rattle.ox_gated.specs.declared.fault.Halt.TheVariants as halts;
ghost use Rattle.ox_files.specs.Stands.{stack_in};
ghost use Rattle.ox_store.specs.Fault.{IsMisfit};
ghost use Rattle.ox_store.specs.Promises.{OpenPromises};
ghost use Rattle.ox_store.specs.declared.fault.OpenFault.TheVariants as opens;

use crate::fault::OpenFault;
use crate::parts::store_in_parts;
use crate::store::Store;
use ox_checkpoint::restore;
use ox_gated::{Begun, Opened, Tail};
use ox_outside::Site;
use std::alloc::Global;

/// How many bytes of a body are read at once.
const PIECE: usize = 0x10_0000;

impl Store {
    /// Opens two files of version 2 or 3: reads the checkpoint, and makes the changes of the
    /// records again. It begins with a sync (`fsync`) of both files, and changes nothing: at no
    /// moment does a crash leave anything that it didn't leave before.
    ///
    /// Of version 2 all that the files hold is read at once. Of version 3 the body is read twice,
    /// in pieces of 1 MiB, for its sum and for its rows, and then record after record; so beside
    /// what it makes it takes a piece, and the longest row or record.
    ///
    /// `NotStore` exactly where the files stand for nothing, with the file and the place of the
    /// first test that fails. `Halt` with `Disk` only where a call on a file failed, and with
    /// `Memory` where there is none for what the files hold.
    pub fn open<S: Site>(alloc: Global, site: &mut S) -> Result<Store, OpenFault>
        ensures { OpenPromises S.Site result site.old site.new }
    {
        Store::open_in_pieces(alloc, site, PIECE)
    }

    /// The same, where a body of version 3 is read in pieces of at most so many bytes.
    pub fn open_in_pieces<S: Site>(
        alloc: Global,
        site: &mut S,
        most: usize,
    ) -> Result<Store, OpenFault>
        requires { 1 ≤ most }
        ensures { OpenPromises S.Site result site.old site.new }
    {
        match Tail::begin(alloc, site) {
            Ok(Begun::Whole(opened)) => store_of(alloc, opened),
            Ok(Begun::Parts(parts)) => store_in_parts(alloc, parts, most, site),
            Err(fault) => Err(OpenFault::of(alloc, fault)),
        }
    }
}

/// The store of files that were read.
pub(crate) fn store_of(alloc: Global, opened: Opened) -> Result<Store, OpenFault>
    requires head { (opened.tail.head ≡ opened.head)
        × IsTrue (is_present opened.head.version) }
    requires lawful { IsTrue (is_lawful opened.head) }
    ensures stack { IfOk result (λ store. stack_in (Ok (found_of opened)) ≡ Ok store.stack) }
    ensures fresh { IfOk result (λ store. store.commands ≡ 0) }
    ensures tail { IfOk result (λ store. store.tail ≡ opened.tail) }
    ensures misfit { IfErr result (IsMisfit (stack_in (Ok (found_of opened)))) }
    ensures not_disk { IsErrOf result (opens.Halt halts.Disk) → ⊥ }
{
    let Opened {
        tail,
        file,
        head,
        body,
        records,
    } = opened;
    match restore(alloc, &head, body, &records) {
        Ok(chain) => Ok(Store {
            alloc,
            chain,
            tail,
            commands: 0,
        }),
        Err(unjudged) => Err(OpenFault::in_file(file, unjudged)),
    }
}
