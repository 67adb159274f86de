//! What can be wrong with two files that are opened.

ghost use Rattle.std.specs.Prelude.{◌≡◌};
ghost use Rattle.ox_gated.specs.declared.fault.GateFault.TheVariants as gates;
ghost use Rattle.ox_gated.specs.declared.fault.Halt.TheVariants as halts;

use crate::head::Head;
use crate::records::Records;
use ox_bytes::{Bytes, Memory};
use ox_outside::{Failed, Which};
use std::alloc::AllocError;
use std::fmt;

/// What stands before a fault that lies behind the body.
#[derive(Drop)]
pub struct Before {
    pub head: Head,
    pub body: Bytes,
    pub records: Records,
}

/// By hand: it shows none of what it holds.
impl fmt::Debug for Before {
    fn fmt<W: fmt::Write>(&self, f: &mut fmt::Formatter<W>) -> fmt::Result {
        f.write_str("Before")
    }
}

/// Why two files weren't opened.
#[derive(Debug, Drop)]
pub enum GateFault {
    /// The files are no store: the file and the place of the first test that fails, and what stands
    /// before it where the body is there.
    NotStore {
        file: Which,
        at: u64,
        before: Option<Before>,
    },
    /// A call on a file failed, or there was no memory for what the files hold.
    Halt(Halt),
}

impl From<Halt> for GateFault {
    ghost from_gives = { λ halt e. e ≡ gates.Halt halt };

    fn from(halt: Halt) -> GateFault {
        GateFault::Halt(halt)
    }
}

/// Why a call ends before its work is done.
#[derive(Clone, Copy, Debug, PartialEq, Eq)]
pub enum Halt {
    /// A call on a file failed.
    Disk,
    /// There was no memory.
    Memory,
}

impl From<Failed> for Halt {
    ghost from_gives = { λ _ e. e ≡ halts.Disk };

    fn from(_failed: Failed) -> Halt {
        Halt::Disk
    }
}

impl From<Memory> for Halt {
    ghost from_gives = { λ _ e. e ≡ halts.Memory };

    fn from(_memory: Memory) -> Halt {
        Halt::Memory
    }
}

impl From<AllocError> for Halt {
    ghost from_gives = { λ _ e. e ≡ halts.Memory };

    fn from(_e: AllocError) -> Halt {
        Halt::Memory
    }
}
