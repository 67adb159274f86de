//! Why no block is read.

/// Why bytes give no block.
#[derive(Clone, Copy, Debug, PartialEq, Eq)]
pub enum BlockFault {
    /// The bytes are no block: `at` is the first byte of the first field, in the order of reading,
    /// that is cut, not in its shortest form or against a rule. It is 4,000,000 where there are
    /// more bytes than that.
    Malformed {
        /// How many bytes stand before the fault.
        at: usize,
    },
    /// There was no memory for the block.
    Memory,
}
