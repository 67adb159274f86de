//! Why no rows can be read.

ghost use Rattle.std.specs.Prelude.{◌≡◌};

/// Why bytes can't be read as rows.
#[derive(Clone, Copy, Debug, PartialEq, Eq)]
pub enum RowsFault {
    /// There was no memory for them.
    Memory,
    /// The bytes begin with no rows.
    NotRows {
        /// The place of the first byte of the field that doesn't fit.
        at: usize,
    },
}
