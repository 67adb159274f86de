//! Laws of what a server replies.

ghost use Rattle.std.specs.Prelude.{◌≡◌, ◌+◌, ◌≤◌, ◌++◌, Bool, List, ℕ, None, Some, codes, false};
ghost use Rattle.std.specs.Prelude.{length, slice_get, true};
ghost use Rattle.ox_outside.specs.Event.{Event};
ghost use Rattle.ox_http.specs.declared.Request.{Request};
ghost use Rattle.ox_links.specs.Alike.{SameRun};
ghost use Rattle.ox_links.specs.Answered.{TalkGoesOn};
ghost use Rattle.ox_links.specs.Quiet.{Speaks};
ghost use Rattle.ox_links.specs.Serving.{served_by};
ghost use Rattle.ox_rules.specs.Text.{refusal_line};
ghost use Rattle.ox_rules.specs.declared.refusal.Refusal.{Refusal};
ghost use Rattle.ox_model.specs.Machine.{Machine, stack_of};
ghost use Rattle.ox_model.specs.Stack.{Stack};
ghost use Rattle.ox_asof.specs.AskedKept.{all_asked};
ghost use Rattle.ox_desk.specs.Asked.{asked_in, now_in, without_last};
ghost use Rattle.ox_desk.specs.Commands.{command_of};
ghost use Rattle.ox_desk.specs.Replies.{refusal_text};
ghost use Rattle.ox_desk.specs.Servers.{HasStack, server_of, server_on};
ghost use Rattle.ox_desk.specs.Whole.{IsOneReply};

use ox_links::{Likeness, like_servers_serve_alike};

/// The text of a refusal is what its line tells between `refused ` and the line feed.
pub fn refusals_are_told_alike()
    ensures { (refusal : Refusal)
        → refusal_line refusal ≡ codes "refused " ++ refusal_text refusal ++ codes "\n" }
{}

/// Every reply is one head and as many bytes as it tells, and closes the link where the request
/// does.
pub fn replies_are_whole()
    ensures { (stack : Stack) (operator : Bool) (request : Request)
        → IsOneReply request.close (server_on.reply stack operator request) }
{}

/// What is asked as of a kept block, the newest first, is asked of the machine without its last
/// blocks: so many of them, and as many fewer are kept.
pub fn kept_blocks_are_asked_of()
    ensures many { (machine : Machine) → length (all_asked (asked_in machine)) ≡ machine.kept + 1 }
    ensures each { (machine : Machine) (j : ℕ) → j ≤ machine.kept
        → slice_get (all_asked (asked_in machine)) j ≡ Some (now_in (without_last machine j)) }
{}

/// A reply that isn't a command's is the same on either door.
pub fn doors_answer_alike()
    ensures { (stack : Stack) (request : Request) → command_of true request ≡ None
        → server_on.reply stack true request ≡ server_on.reply stack false request }
{}

/// A machine and the stack that it has.
struct Stacked;

impl Likeness for Stacked {
    ghost use Rattle.ox_feed.specs.declared.command.Command.{Command as Carries};
    ghost use Rattle.ox_model.specs.Machine.{Machine};
    ghost use Rattle.ox_model.specs.Stack.{Stack};
    ghost use Rattle.ox_desk.specs.Servers.{HasStack};

    ghost One = { Machine };

    ghost Other = { Stack };

    ghost Command = { Carries };

    ghost stands_for = { HasStack };
}

/// What a machine serves, each reply by fresh indexing of the blocks that it has then, is what its
/// stack serves: each log has the same answers, and leads to a machine that has the stack it leads
/// to.
pub fn machines_serve_as_their_stacks()
    ensures { (machine : Machine) (log : List Event)
        → SameRun HasStack (served_by server_of machine log)
        (served_by server_on (stack_of machine) log) }
{
    like_servers_serve_alike::<Stacked>()
}

/// No reply is empty, an empty stream asks nothing, and what a stream says stays whatever follows.
pub fn nothing_is_left_unsaid()
    ensures speaks { Speaks server_on }
    ensures stays { TalkGoesOn server_on.talk }
{}
