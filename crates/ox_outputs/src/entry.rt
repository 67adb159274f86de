//! An entry of a list of places.

/// The place of a slot, with a part of its outpoint, by which it is told apart from nearly all
/// others of its list.
#[derive(Clone, Copy, Default)]
pub(crate) struct Entry {
    pub(crate) tag: u32,
    pub(crate) place: u32,
}
