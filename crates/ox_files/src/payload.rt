//! The first bytes of payloads, the same at both versions.

/// The first byte of a payload that adds a block: its change stands behind it, at version 1 its
/// bytes.
pub const CONNECT: u8 = 1;

/// The payload where the newest block is taken back.
pub const DISCONNECT: u8 = 0;
