//! Bytes, and the fields of Bitcoin's serialization: numbers of 4 and 8 bytes, low byte first, and
//! compact sizes, read and written.
#![tactic(auto)]

mod bytes;
mod compact;
mod cursor;
mod fault;
mod fields;
mod limits;
mod list;
mod memory;
mod room;
mod writers;

pub use bytes::Bytes;
pub use compact::CompactFault;
pub use cursor::{Cursor, Short};
pub use fault::{FieldFault, ReadError};
pub use fields::{compact_field, run_field, string_field, u32le_field, u64le_field};
pub use limits::BLOCK_LIMIT;
pub use list::List;
pub use memory::Memory;
pub use room::Room;
pub use writers::{put_compact, put_u32le, put_u64le};
