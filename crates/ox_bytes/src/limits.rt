//! Limits of Bitcoin that several crates need.

/// The most bytes of a block, since its weight is at most so much, and no less than its bytes (BIP
/// 141).
pub const BLOCK_LIMIT: usize = 4_000_000;
