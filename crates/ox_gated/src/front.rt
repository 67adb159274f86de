//! What stands between the first gate and the body of a file.

ghost use Rattle.std.specs.Prelude.{◌≡◌, ◌++◌, ◌∷◌};
ghost use Rattle.std.specs.Int.{w16, w64, to_le_bytes};
ghost use Rattle.sha2.specs.Sha256.{sha256};
ghost use Rattle.ox_gated.specs.Layout.{head_front};

use crate::head::Head;
use sha2::{Digest, Sha256};

/// Before a body of so many bytes with this sum, in a file of version 3: the head, the body's
/// length, its sum, and the sum of these.
pub fn summed_front(head: &Head, size: u64, body_sum: &[u8; 32]) -> [u8; 89]
    ensures { let message = head_front head.now size ++ body_sum.now in
        result ≡ message ++ sha256 message }
{
    let message = head_message(head, size, body_sum);
    let sum = Sha256::digest(&message[..]);
    let mut front = [0; 89];
    front[..57].copy_from_slice(&message);
    front[57..].copy_from_slice(&sum);
    front
}

/// What the sum of the head is of.
fn head_message(head: &Head, size: u64, body_sum: &[u8; 32]) -> [u8; 57]
    ensures { result ≡ head_front head.now size ++ body_sum.now }
{
    let mut message = [0; 57];
    message[..25].copy_from_slice(&plain_front(head, size));
    message[25..].copy_from_slice(body_sum);
    message
}

/// Before a body of so many bytes, without sums: the head, and the body's length.
#[tactic(auto, unfolding(crate::specs::Layout::layout_of))]
pub fn plain_front(head: &Head, size: u64) -> [u8; 25]
    ensures { result ≡ head_front head.now size }
{
    if head.is_summed() {
        lettered_front(b'3', head, size)
    } else {
        lettered_front(b'x', head, size)
    }
}

/// The same, where this is the last of the five letters.
fn lettered_front(last: u8, head: &Head, size: u64) -> [u8; 25]
    ensures { result
        ≡ 111 ∷ 120 ∷ 105 ∷ 100 ∷ last ∷ head.now.version ∷ head.now.profile
        ∷ to_le_bytes w16 head.now.depth ++ to_le_bytes w64 head.now.generation
        ++ to_le_bytes w64 size }
{
    let depth = head.depth.to_le_bytes();
    let generation = head.generation.to_le_bytes();
    let size = size.to_le_bytes();
    [
        b'o',
        b'x',
        b'i',
        b'd',
        last,
        head.version,
        head.profile,
        depth[0],
        depth[1],
        generation[0],
        generation[1],
        generation[2],
        generation[3],
        generation[4],
        generation[5],
        generation[6],
        generation[7],
        size[0],
        size[1],
        size[2],
        size[3],
        size[4],
        size[5],
        size[6],
        size[7],
    ]
}
