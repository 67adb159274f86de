//! What a line of a feed asks for.

ghost use Rattle.std.specs.Prelude.{IfOk};
ghost use Rattle.ox_app.specs.Fold.{AsksFor};

use ox_bytes::Memory;
use ox_feed::{Command, Line, SyntaxFault, command_of};
use ox_model::Refusal;
use std::alloc::Global;

/// The command that a line asks for, or why it is refused whatever the index is; `None` at the end
/// of the feed. The line's own bytes are given back. `Memory` where there is none for the command.
pub fn asked_by(alloc: Global, line: Line) -> Result<Option<Result<Command, Refusal>>, Memory>
    ensures { IfOk result (λ asked. AsksFor line asked) }
{
    match line {
        Line::Text(text) => match command_of(alloc, text.as_slice()) {
            Ok(command) => Ok(Some(Ok(command))),
            Err(SyntaxFault::Syntax) => Ok(Some(Err(Refusal::Syntax))),
            Err(SyntaxFault::Memory) => Err(Memory),
        },
        Line::Long => Ok(Some(Err(Refusal::TooLong))),
        Line::End => Ok(None),
    }
}
