//! What has happened at a site, one thing at a time.

use ox_bytes::Bytes;
use ox_outside::{Doorway, Which};

/// One thing that happened: a write or a sync of a file, or an event of a channel.
#[derive(Drop)]
pub enum Step {
    /// These bytes were written into the file at this place.
    Wrote { file: Which, at: u64, bytes: Bytes },
    /// A write of so many bytes at this place failed. A read gives what it gave before.
    Tore { file: Which, at: u64, length: u64 },
    Synced { file: Which },
    Opened { channel: u32, door: Doorway },
    Heard { channel: u32, bytes: Bytes },
    Ended { channel: u32 },
    Showed { channel: u32, bytes: Bytes },
    Broke { channel: u32 },
    GaveUp { channel: u32 },
    Shut { channel: u32 },
}
