//! Places of outpoints, to be sorted by the outpoints.

ghost use Rattle.std.specs.Prelude.{◌≡◌, ◌≤◌, length};
ghost use Rattle.ox_outputs.specs.Fronts.{AreBytes, IsFront, front_of};

use ox_block::OutPoint;

/// A place of an outpoint, with the first eight bytes of its transaction's id as one number, of
/// which the first byte is the highest. Nearly all outpoints are told apart by these, so that a
/// sort hardly looks at an outpoint.
#[derive(Clone, Copy)]
pub(crate) struct Fronted {
    pub(crate) front: u64,
    pub(crate) place: usize,
}

impl Fronted {
    /// A place of this outpoint.
    pub(crate) fn new(at: &OutPoint, place: usize) -> Fronted
        ensures front { IsFront result.front at.now }
        ensures place { result.place ≡ place }
    {
        Fronted {
            front: front(&at.txid.0),
            place,
        }
    }
}

/// The first eight bytes of an id as one number, the first byte the highest.
pub(crate) fn front(id: &[u8]) -> u64
    requires { 8 ≤ length id.now }
    ensures number { result ≡ front_of id.now }
    ensures bytes { AreBytes id.now }
{
    u64::from_be_bytes([id[0], id[1], id[2], id[3], id[4], id[5], id[6], id[7]])
}
