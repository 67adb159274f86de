//! How many blocks of a chain are kept.

/// How many blocks may be kept to be taken back at most, and how many are.
#[derive(Clone, Copy, PartialEq, Eq)]
pub struct About {
    /// From 1 to 1,000.
    pub depth: u16,
    /// Up to `depth`.
    pub kept: u16,
}
