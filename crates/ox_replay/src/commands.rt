//! Commands as their records have them.

ghost use Rattle.std.specs.Prelude.{◌≡◌, Some, None, MatchOption};
ghost use Rattle.ox_files.specs.OldStands.{command_in};
ghost use Rattle.ox_replay.specs.Replay.{command_of};

use ox_files::{CONNECT, DISCONNECT};

/// A command as its record has it.
#[derive(Clone, Copy)]
pub(crate) enum Recorded<'a> {
    /// The connect of the block that has these bytes.
    Connect(&'a [u8]),
    /// A disconnect.
    Disconnect,
}

/// The command of a record's payload, if it has one.
pub(crate) fn command_in(payload: &[u8]) -> Option<Recorded<'_>>
    ensures { MatchOption result (command_in payload.now ≡ None)
        (λ r. command_in payload.now ≡ Some (command_of r)) }
{
    match payload {
        [CONNECT, block @ ..] => Some(Recorded::Connect(block)),
        [DISCONNECT] => Some(Recorded::Disconnect),
        _ => None,
    }
}
