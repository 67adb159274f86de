//! One line of a feed, carried out in memory and answered.

ghost use Rattle.std.specs.Prelude.{◌≡◌, IfOk};
ghost use Rattle.ox_index.specs.Chain.{stack_in};
ghost use Rattle.ox_app.specs.Fold.{AnswersLine, IsAnswer, Obeys};

use crate::line::asked_by;
use ox_bytes::{Bytes, Memory};
use ox_feed::{Command, Line};
use ox_index::Chain;
use ox_rules::Why;
use std::alloc::Global;

/// Carries out a command.
fn obey(chain: &mut Chain, command: &Command) -> Result<(), Why>
    ensures { Obeys (stack_in chain.old) command.now result (stack_in chain.new) }
{
    match command {
        Command::Connect(block) => chain.connect(block.as_slice()),
        Command::Disconnect => match chain.disconnect() {
            Ok(_) => Ok(()),
            Err(why) => Err(why),
        },
    }
}

/// The line that says how a command went.
fn answer_to(alloc: Global, outcome: Result<(), Why>, chain: &Chain) -> Result<Bytes, Memory>
    ensures { IfOk result (λ line. IsAnswer outcome (stack_in chain.now) line) }
{
    match outcome {
        Ok(()) => chain.live().line(),
        Err(Why::Refused(refusal)) => refusal.line(alloc),
        Err(Why::Memory) => Err(Memory),
    }
}

/// Carries out a line and answers it; `None` at the end of the feed. The line's own bytes are given
/// back before its command is carried out. After `Memory` the command may have been carried out,
/// without an answer.
pub fn answer(alloc: Global, chain: &mut Chain, line: Line) -> Result<Option<Bytes>, Memory>
    ensures { IfOk result (λ answer.
        AnswersLine line (stack_in chain.old) answer (stack_in chain.new)) }
{
    match asked_by(alloc, line)? {
        Some(Ok(command)) => {
            let outcome = obey(chain, &command);
            Ok(Some(answer_to(alloc, outcome, chain)?))
        }
        Some(Err(refusal)) => Ok(Some(refusal.line(alloc)?)),
        None => Ok(None),
    }
}
