//! Frames, and where a store stands.

/// Where a store stands: the generation of its current file, and how many records that file has.
/// Positions are ordered by their generation and then by their place.
#[derive(Clone, Copy, PartialEq, Eq)]
pub struct Position {
    pub generation: u64,
    pub place: u64,
}

/// What goes between a leader and a follower. It borrows what is long: a base may have 4 GB, and
/// neither who reads it nor who shows it needs a copy.
#[derive(Clone, Copy)]
pub enum Frame<'a> {
    /// A whole current file: the body of its checkpoint, and the profile and the depth of its head.
    /// Its place is 0.
    Base {
        at: Position,
        profile: u8,
        depth: u16,
        body: &'a [u8],
    },
    /// The payload of the record that stands behind a position.
    Step {
        at: Position,
        payload: &'a [u8],
    },
    /// A follower stands there.
    Have {
        at: Position,
    },
    /// The leader stands there too: it has nothing behind this position.
    Level {
        at: Position,
    },
}
