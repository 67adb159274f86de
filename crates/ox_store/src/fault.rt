//! Why a store isn't made, opened or grown, and why a command isn't prepared.

ghost use Rattle.std.specs.Prelude.{◌≡◌};
ghost use Rattle.ox_gated.specs.declared.fault.Halt.TheVariants as halts;
ghost use Rattle.ox_store.specs.declared.fault.OpenFault.TheVariants as opens;

use crate::store::Store;
use ox_checkpoint::{Unjudged, earliest};
use ox_gated::{DiskFault, GateFault, Halt};
use ox_model::Refusal;
use ox_outside::Which;
use ox_rules::Why;
use std::alloc::Global;

/// Why no store was made, or what it was made for isn't done.
#[derive(Clone, Copy, Debug, PartialEq, Eq)]
pub enum MakeFault {
    /// A file's length isn't 0. Nothing was written.
    NotEmpty,
    /// A call on a file failed, or there was no memory. Nothing was written where there was none
    /// for the store itself.
    Halt(Halt),
}

impl From<Halt> for MakeFault {
    ghost use Rattle.ox_store.specs.declared.fault.MakeFault.TheVariants as makes;

    ghost from_gives = { λ halt e. e ≡ makes.Halt halt };

    fn from(halt: Halt) -> MakeFault {
        MakeFault::Halt(halt)
    }
}

/// Why no store was opened, or made one of version 3.
#[derive(Clone, Copy, Debug, PartialEq, Eq)]
pub enum OpenFault {
    /// The files are no store, or none of version 2 which another file can follow.
    NotStore {
        /// The file in which the first test fails.
        file: Which,
        /// The place in the file that this test is of.
        at: u64,
    },
    /// A call on a file failed, or there was no memory for what the files hold.
    Halt(Halt),
}

impl From<Halt> for OpenFault {
    ghost from_gives = { λ halt e. e ≡ opens.Halt halt };

    fn from(halt: Halt) -> OpenFault {
        OpenFault::Halt(halt)
    }
}

impl From<DiskFault> for OpenFault {
    ghost from_gives = { λ _ e. e ≡ opens.Halt halts.Disk };

    fn from(_fault: DiskFault) -> OpenFault {
        OpenFault::Halt(Halt::Disk)
    }
}

impl OpenFault {
    ghost use Rattle.std.specs.Prelude.{Result};
    ghost use Rattle.ox_gated.specs.Opened.{IsBehindLawful, IsFault};
    ghost use Rattle.ox_gated.specs.Reading.{Found, Fault};
    ghost use Rattle.ox_files.specs.Stands.{stack_in};
    ghost use Rattle.ox_store.specs.Fault.{IsMisfit, fault_in};

    /// Why two files are no store whose reading ended with this fault. Where a gate or a record is
    /// cut the body and the records before it are tested first, so that the place is that of the
    /// first test that fails. `Halt` with `Disk` exactly where the fault is one of the disk, and
    /// with `Memory` where it is one of memory, and where there is none for this test.
    pub fn of(alloc: Global, fault: GateFault) -> OpenFault
        requires { IsBehindLawful fault }
        ensures misfit { (reading : Result Found Fault) → IsFault reading fault
            → IsMisfit (stack_in reading) result }
        ensures disk { result ≡ opens.Halt halts.Disk → fault ≡ GateFault.Halt halts.Disk }
        ensures disk_alone { fault ≡ GateFault.Halt halts.Disk → result ≡ opens.Halt halts.Disk }
    {
        match fault {
            GateFault::NotStore { file, at, before } => {
                OpenFault::in_file(file, earliest(alloc, before, at))
            }
            GateFault::Halt(halt) => OpenFault::Halt(halt),
        }
    }

    /// Why two files are no store of which this one was read, and what stands in it gave nothing:
    /// `NotStore` with the place of the first test that fails, or `Halt` with `Memory`.
    pub fn in_file(file: Which, unjudged: Unjudged) -> OpenFault
        ensures { result ≡ fault_in file unjudged }
    {
        match unjudged {
            Unjudged::At(at) => OpenFault::NotStore { file, at },
            Unjudged::Memory => OpenFault::Halt(Halt::Memory),
        }
    }
}

/// Why a store isn't migrated.
#[derive(Clone, Copy, Debug, PartialEq, Eq)]
pub enum MigrateFault {
    /// The files are no store of version 1 which another file can follow.
    NotStore {
        /// The file in which the first test fails.
        file: Which,
        /// The place in the file that this test is of.
        at: u64,
    },
    /// The present rules refuse a command of the store.
    Old {
        /// Its number, from 0.
        command: u64,
        /// Why it is refused.
        refusal: Refusal,
    },
    /// A call on a file failed, or there was no memory for the store.
    Halt(Halt),
}

/// The store, which is as before, and why the command isn't prepared.
#[derive(Drop)]
pub struct Kept {
    /// The store as before the command.
    pub store: Store,
    /// The cause.
    pub why: Why,
}
