//! Frames written: what stands before a body or a payload, which is then shown from where it lies.

ghost use Rattle.std.specs.Prelude.{◌≡◌, ◌+◌, ◌++◌, ◌∷◌, List, ℕ, length};
ghost use Rattle.std.specs.Int.{w64, to_le_bytes};
ghost use Rattle.ox_follow.specs.Frame.{Base, Step, Have, Level, position_bytes, spelled};

use crate::frame::Position;

/// What stands before a base's body of `size` bytes: with the body behind, it is the base.
pub fn base_front(at: Position, profile: u8, depth: u16, size: u32) -> [u8; 28]
    ensures { (body : List ℕ) → length body ≡ size
        → result ++ body ≡ spelled (Base at profile depth body) }
{
    let s = (u64::from(size) + 20).to_le_bytes();
    let g = at.generation.to_le_bytes();
    let p = at.place.to_le_bytes();
    let d = depth.to_le_bytes();
    [
        s[0], s[1], s[2], s[3], s[4], s[5], s[6], s[7], 1, g[0], g[1], g[2], g[3], g[4], g[5],
        g[6], g[7], p[0], p[1], p[2], p[3], p[4], p[5], p[6], p[7], profile, d[0], d[1],
    ]
}

/// What stands before a step's payload of `size` bytes: with the payload behind, it is the step.
pub fn step_front(at: Position, size: u32) -> [u8; 25]
    ensures { (payload : List ℕ) → length payload ≡ size
        → result ++ payload ≡ spelled (Step at payload) }
{
    short_front(2, at, size)
}

/// A Have of this position.
pub fn have_front(at: Position) -> [u8; 25]
    ensures { result ≡ spelled (Have at) }
{
    short_front(3, at, 0)
}

/// A Level of this position.
pub fn level_front(at: Position) -> [u8; 25]
    ensures { result ≡ spelled (Level at) }
{
    short_front(4, at, 0)
}

/// The length of what follows, the kind and the position, before a rest of `size` bytes.
fn short_front(kind: u8, at: Position, size: u32) -> [u8; 25]
    ensures { result ≡ to_le_bytes w64 (size + 17) ++ kind ∷ position_bytes at }
{
    let s = (u64::from(size) + 17).to_le_bytes();
    let g = at.generation.to_le_bytes();
    let p = at.place.to_le_bytes();
    [
        s[0], s[1], s[2], s[3], s[4], s[5], s[6], s[7], kind, g[0], g[1], g[2], g[3], g[4], g[5],
        g[6], g[7], p[0], p[1], p[2], p[3], p[4], p[5], p[6], p[7],
    ]
}
