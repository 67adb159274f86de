//! Why a block isn't connected or taken back, and why a command isn't carried out.

ghost use Rattle.std.specs.Prelude.{◌≡◌};
ghost use Rattle.ox_rules.specs.Why.{of_block};
ghost use Rattle.ox_rules.specs.declared.why.Why.TheVariants as whys;

use crate::refusal::Refusal;
use ox_block::BlockFault;
use std::alloc::{AllocError, AllocFailed};

/// Why a command isn't carried out. It is one thing for all that a command passes through, so that
/// none has to turn another's fault into its own.
#[derive(Clone, Copy, Debug, PartialEq, Eq)]
pub enum Why {
    /// It is refused.
    Refused(Refusal),
    /// There is no memory for it.
    Memory,
}

impl From<BlockFault> for Why {
    ghost from_gives = { λ fault why. why ≡ of_block fault };

    fn from(fault: BlockFault) -> Why {
        match fault {
            BlockFault::Malformed { at } => Why::Refused(Refusal::Malformed { at }),
            BlockFault::Memory => Why::Memory,
        }
    }
}

impl From<ox_bytes::Memory> for Why {
    ghost from_gives = { λ _ why. why ≡ whys.Memory };

    fn from(_memory: ox_bytes::Memory) -> Why {
        Why::Memory
    }
}

impl From<AllocError> for Why {
    ghost from_gives = { λ _ why. why ≡ whys.Memory };

    fn from(_error: AllocError) -> Why {
        Why::Memory
    }
}

impl<T: Drop> From<AllocFailed<T>> for Why {
    ghost from_gives = { λ _ why. why ≡ whys.Memory };

    fn from(_failed: AllocFailed<T>) -> Why {
        Why::Memory
    }
}
