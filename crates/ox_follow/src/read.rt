//! Frames read.

ghost use Rattle.std.specs.Prelude.{◌≡◌, true};
ghost use Rattle.std.specs.Option.{option_map};
ghost use Rattle.std.specs.Int.{w16, w64};
ghost use Rattle.ox_bytes.specs.Reading.{Gives, number_at};
ghost use Rattle.ox_follow.specs.Frame.{plain};
ghost use Rattle.ox_follow.specs.Front.{ReadsFront, front_of, is_length, is_length_of, place_at};
ghost use Rattle.ox_follow.specs.Front.{is_bad_place, has_bad_place, base_at, frame_behind};
ghost use Rattle.ox_follow.specs.Front.{frame_by, by_kind, by_size};

use crate::frame::{Frame, Position};
use ox_bytes::{FieldFault, run_field, u64le_field};

/// No frame begins so: its length or kind breaks the form, or a base's place isn't 0.
#[derive(Clone, Copy, Debug, PartialEq, Eq)]
pub struct BadFrame;

/// A kind and a position: the least that stands behind a length.
const SHORTEST: u64 = 17;

/// The same of a base: a profile and a depth stand there too.
const SHORTEST_BASE: u64 = 20;

/// A body and a payload have fewer bytes than these.
const BODY_LIMIT: u64 = 0x1_0000_0000;

/// The frame at the front of some bytes, and how many of them it takes, whatever follows it. `None`
/// where these are the first bytes of a frame and not all of it. It looks at no byte of a body or a
/// payload, and takes no memory.
///
/// `BadFrame` comes exactly where a length or a kind that stands there is none, or a base's place,
/// once it stands there, isn't 0.
pub fn read_frame(bytes: &[u8]) -> Result<Option<(Frame<'_>, usize)>, BadFrame>
    ensures { ReadsFront result (front_of bytes.now) }
{
    match u64le_field(bytes) {
        Err(_) => Ok(None),
        Ok((size, rest)) => read_sized(size, rest),
    }
}

/// The same behind its length.
fn read_sized(size: u64, rest: &[u8]) -> Result<Option<(Frame<'_>, usize)>, BadFrame>
    ensures { ReadsFront result (by_size size rest.now) }
{
    if !is_length(size) {
        return Err(BadFrame);
    }
    match rest.split_first() {
        None => Ok(None),
        Some((kind, behind)) => read_kind(size, *kind, behind),
    }
}

/// The same behind its kind.
fn read_kind(size: u64, kind: u8, behind: &[u8]) -> Result<Option<(Frame<'_>, usize)>, BadFrame>
    requires { is_length size ≡ true }
    ensures { ReadsFront result (by_kind size kind behind.now) }
{
    if !is_length_of(kind, size) || has_bad_place(kind, behind) {
        return Err(BadFrame);
    }
    match run_field(behind, size - 1) {
        Err(_) => Ok(None),
        Ok((inside, _)) => match frame_in(kind, inside) {
            Some(frame) => Ok(Some((frame, size as usize + 8))),
            None => Err(BadFrame),
        },
    }
}

/// Whether a frame may have this length.
fn is_length(size: u64) -> bool
    ensures { result ≡ is_length size }
{
    SHORTEST <= size && size < SHORTEST_BASE + BODY_LIMIT
}

/// Whether a frame of this kind may have this length.
fn is_length_of(kind: u8, size: u64) -> bool
    ensures { result ≡ is_length_of kind size }
{
    match kind {
        1 => SHORTEST_BASE <= size,
        2 => size < SHORTEST + BODY_LIMIT,
        3 | 4 => size == SHORTEST,
        _ => false,
    }
}

/// Whether this is a base whose place stands there and isn't 0.
fn has_bad_place(kind: u8, behind: &[u8]) -> bool
    ensures { result ≡ has_bad_place kind behind.now }
{
    kind == 1 && is_bad_place(behind)
}

/// Whether a place stands there behind a generation, and isn't 0.
fn is_bad_place(behind: &[u8]) -> bool
    ensures { result ≡ is_bad_place (place_at behind.now) }
{
    match u64le_field(behind) {
        Err(_) => false,
        Ok((_, rest)) => match u64le_field(rest) {
            Err(_) => false,
            Ok((place, _)) => place != 0,
        },
    }
}

/// A frame of this kind, by all that stands behind its kind.
fn frame_in(kind: u8, inside: &[u8]) -> Option<Frame<'_>>
    ensures { option_map plain result ≡ frame_by kind (number_at w64 inside.now) }
{
    let (generation, rest) = u64le_field(inside).ok()?;
    let (place, rest) = u64le_field(rest).ok()?;
    frame_at(kind, Position { generation, place }, rest)
}

/// A frame of this kind and position, by all that stands behind these.
fn frame_at(kind: u8, at: Position, rest: &[u8]) -> Option<Frame<'_>>
    ensures { option_map plain result ≡ frame_behind kind at rest.now }
{
    match kind {
        1 => base_at(at, rest),
        2 => Some(Frame::Step { at, payload: rest }),
        3 => Some(Frame::Have { at }),
        _ => Some(Frame::Level { at }),
    }
}

/// A base of this position.
fn base_at(at: Position, rest: &[u8]) -> Option<Frame<'_>>
    ensures { option_map plain result ≡ base_at at rest.now }
{
    let (profile, behind) = rest.split_first()?;
    let (depth, body) = u16le_field(behind).ok()?;
    Some(Frame::Base {
        at,
        profile: *profile,
        depth,
        body,
    })
}

/// A number of 2 bytes, and what stands behind it.
#[tactic(auto, unfolding(ox_bytes::specs::Reading::number_at))]
fn u16le_field(bytes: &[u8]) -> Result<(u16, &[u8]), FieldFault>
    ensures { Gives (λ x. (x.0, x.1.now)) result (number_at w16 bytes.now) }
{
    if bytes.len() < 2 {
        return Err(FieldFault { left: bytes.len() });
    }
    let (front, rest) = bytes.split_at(2);
    Ok((u16::from_le_bytes([front[0], front[1]]), rest))
}
