//! What is known of a drill's commands before any is carried out.

ghost use Rattle.std.specs.Prelude.{◌≡◌, ℕ, ◌≤◌, List};
ghost use Rattle.ox_outside.specs.Crash.{Remains};
ghost use Rattle.ox_feed.specs.declared.command.Command.{Command};
ghost use Rattle.ox_model.specs.Machine.{stack_of};
ghost use Rattle.ox_model.specs.Replies.{after_commands, after_commands_on};
ghost use Rattle.ox_model.specs.Stack.{Stack};
ghost use Rattle.ox_drill.specs.Chain.{AllAccepted, drill_commands, drill_start, drilled};
ghost use Rattle.ox_drill.specs.InTurn.{FallsByOne, InOrder, InTurn};

use ox_outside::Site;

/// Each command of a drill is accepted by the machine that has no block: every made block links to
/// the one before, has its root and commits to its witnesses, spends what stands unspent, and
/// claims no more than it mints. So the machine has all blocks then, and keeps up to a hundred; and
/// its stack is that of this chain.
pub fn drills_are_accepted()
    ensures accepted { (n : ℕ) → n ≤ 4000000000
        → AllAccepted drill_start (drill_commands n) (drilled n) }
    ensures machine { (n : ℕ) → n ≤ 4000000000
        → after_commands drill_start (drill_commands n) ≡ drilled n }
    ensures stack { (n : ℕ) → n ≤ 4000000000
        → after_commands_on (stack_of drill_start) (drill_commands n) ≡ stack_of (drilled n) }
{}

/// Commands that are carried out in turn: of two crashes at a moment and at a later one, both leave
/// files that stand for the stack after the first so many commands, and the later one for at most
/// one command fewer, which is the one in hand.
pub fn commands_come_in_turn<S: Site>()
    ensures { (stack : Stack) (commands : List Command) (old new : S)
        (turns : InTurn S.Site stack commands old new) (first later : Remains)
        → InOrder S.Site stack commands old new turns first later
        → FallsByOne stack commands first.files later.files }
{}
