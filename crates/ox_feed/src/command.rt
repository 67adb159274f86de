//! The commands of a feed.

ghost use Rattle.std.specs.Prelude.{◌≡◌, Some, None, IfOk, IsErrOf};
ghost use Rattle.ox_feed.specs.Command.{command_of as spelled, connect_in as connect_spelled};

use crate::digits::decode;
use ox_bytes::Bytes;
use std::alloc::{AllocError, Global};

/// A command of a feed.
#[derive(Drop)]
pub enum Command {
    /// Connect the block that has these bytes.
    Connect(Bytes),
    /// Disconnect the newest block.
    Disconnect,
}

/// Why a line gave no command.
#[derive(Clone, Copy, Debug, PartialEq, Eq)]
pub enum SyntaxFault {
    /// The line isn't a command.
    Syntax,
    /// There is no memory for the command's bytes.
    Memory,
}

impl From<AllocError> for SyntaxFault {
    ghost use Rattle.ox_feed.specs.declared.command.SyntaxFault.TheVariants.{Memory};

    ghost from_gives = { λ _ fault. fault ≡ Memory };

    fn from(_e: AllocError) -> SyntaxFault {
        SyntaxFault::Memory
    }
}

/// The connect that a line is.
fn connect_in(alloc: Global, line: &[u8]) -> Result<Command, SyntaxFault>
    ensures found { IfOk result (λ command. connect_spelled line.now ≡ Some command) }
    ensures syntax { IsErrOf result SyntaxFault.Syntax → connect_spelled line.now ≡ None }
{
    let Some(digits) = line.strip_prefix(b"connect ") else {
        return Err(SyntaxFault::Syntax);
    };
    match decode(alloc, digits)? {
        Some(bytes) => Ok(Command::Connect(Bytes::from_vec(bytes))),
        None => Err(SyntaxFault::Syntax),
    }
}

/// The command that a line is: `disconnect`; or `connect`, one space, and an even number of hex
/// digits of either case, none of them allowed. The digits are decoded once, into the bytes of the
/// command.
///
/// `Syntax` only where the line is no command, and a line that is none gives no command. `Memory`
/// where there is none for the bytes.
#[tactic(auto, unfolding(crate::specs::Command::command_of))]
pub fn command_of(alloc: Global, line: &[u8]) -> Result<Command, SyntaxFault>
    ensures found { IfOk result (λ command. spelled line.now ≡ Some command) }
    ensures syntax { IsErrOf result SyntaxFault.Syntax → spelled line.now ≡ None }
{
    if line == b"disconnect".as_slice() {
        return Ok(Command::Disconnect);
    }
    connect_in(alloc, line)
}
