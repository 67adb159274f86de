//! Why a field can't be read.

ghost use Rattle.std.specs.Prelude.{◌≡◌};
ghost use Rattle.ox_bytes.specs.declared.fault.ReadError.TheVariants.{Memory, Fault};

use std::alloc::{AllocError, AllocFailed};

/// A field is at fault: the first one, from left to right. Its place is reported from the end, so
/// that no reader has to know what stands before it.
#[derive(Clone, Copy, Debug, PartialEq, Eq)]
pub struct FieldFault {
    /// How many bytes are left where the field begins.
    pub left: usize,
}

/// Why a value that is kept can't be read.
#[derive(Clone, Copy, Debug, PartialEq, Eq)]
pub enum ReadError {
    /// There was no memory for the value.
    Memory,
    /// A field is at fault, the first one from left to right.
    Fault(FieldFault),
}

impl From<FieldFault> for ReadError {
    ghost from_gives = { λ fault e. e ≡ Fault fault };

    fn from(fault: FieldFault) -> ReadError {
        ReadError::Fault(fault)
    }
}

impl From<AllocError> for ReadError {
    ghost from_gives = { λ _ e. e ≡ Memory };

    fn from(_e: AllocError) -> ReadError {
        ReadError::Memory
    }
}

impl<T: Drop> From<AllocFailed<T>> for ReadError {
    ghost from_gives = { λ _ e. e ≡ Memory };

    fn from(_e: AllocFailed<T>) -> ReadError {
        ReadError::Memory
    }
}

impl From<crate::memory::Memory> for ReadError {
    ghost from_gives = { λ _ e. e ≡ Memory };

    fn from(_e: crate::memory::Memory) -> ReadError {
        ReadError::Memory
    }
}
