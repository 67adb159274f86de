//! Laws of what a log says that a server answered, whatever the states and the commands.

ghost use Rattle.std.specs.Prelude.{◌≡◌, ◌⊎◌, ◌==◌, ◌++◌, ◌∷◌, [], ℕ, false, length, IsTrue};
ghost use Rattle.std.specs.Prelude.{List, None, Option};
ghost use Rattle.ox_outside.specs.Event.{Event, channel_of, heard_bytes};
ghost use Rattle.ox_links.specs.Alike.{SameRun, SameServer, accepted_before, events_of, replies_to};
ghost use Rattle.ox_links.specs.Answered.{AllInTurn, AreTo, NeverFall, TalkGoesOn};
ghost use Rattle.ox_links.specs.GoesOn.{AddsOne, GoesOnWithout};
ghost use Rattle.ox_links.specs.Link.{Answer, all_shown, answers_to, asked_now};
ghost use Rattle.ox_links.specs.Quiet.{Speaks};
ghost use Rattle.ox_links.specs.Serving.{Server, Serving, accepted_in, after_event, commands_in};
ghost use Rattle.ox_links.specs.Serving.{serve_on, served_by, state_after};
ghost use Rattle.ox_outside.specs.Shown.{IsFrontOf};
ghost use Rattle.ox_links.specs.Turned.{AreTurns, Turn, logged_by};

/// States of one server that stand for those of another with the same commands. It has ghost
/// members alone, since no clause can speak of every relation between two types.
pub trait Likeness {
    ghost One: { Type 0 };

    ghost Other: { Type 0 };

    ghost Command: { Type 0 };

    ghost stands_for: { One → Other → Type 0 };
}

/// A log that goes on, but not by giving up what was just asked, goes on from the run of its front:
/// it keeps all answers and adds behind them.
pub fn logs_go_on<X, C>()
    ensures joined { (server : Server X C) (run : Serving X C) (log more : List Event)
        → GoesOnWithout more
        → serve_on server run (log ++ more) ≡ serve_on server (serve_on server run log) more }
    ensures kept { (server : Server X C) (run : Serving X C) (log more : List Event)
        → GoesOnWithout more
        → IsFrontOf (serve_on server run log).answers (serve_on server run (log ++ more)).answers }
{}

/// An event brings one answer at most, and that to its own link. Where no reply is empty, a link
/// whose answers are all shown asks nothing: what was asked is answered.
pub fn events_bring_one_answer<X, C>()
    ensures one { (server : Server X C) (run : Serving X C) (event : Event) (rest : List Event)
        → AddsOne (channel_of event) run.answers (after_event server run event rest).answers }
    ensures quiet { (server : Server X C) (first : X) → Speaks server
        → (log : List Event) (channel : ℕ)
        → IsTrue (all_shown channel log (served_by server first log).answers)
        → asked_now server.talk channel log (served_by server first log).answers ≡ None }
{}

/// The state is where the commands of the answers lead, and where those of them that were accepted
/// lead alone; they are counted.
pub fn commands_lead_to_the_state<X, C>()
    ensures all { (server : Server X C) (first : X) (log : List Event)
        → (served_by server first log).state
        ≡ state_after server first (commands_in (served_by server first log).answers) }
    ensures accepted { (server : Server X C) (first : X) (log : List Event)
        → (served_by server first log).state
        ≡ state_after server first (accepted_in (served_by server first log).answers) }
    ensures counted { (server : Server X C) (first : X) (log : List Event)
        → (served_by server first log).commands
        ≡ length (commands_in (served_by server first log).answers) }
    ensures accepted_counted { (server : Server X C) (first : X) (log : List Event)
        → (served_by server first log).accepted
        ≡ length (accepted_in (served_by server first log).answers) }
{}

/// Another link's event leaves a link's answers as they are.
pub fn links_are_apart<X, C>()
    ensures { (server : Server X C) (channel : ℕ) (run : Serving X C) (event : Event)
        (rest : List Event) → (channel_of event == channel) ≡ false
        → answers_to channel (after_event server run event rest).answers
        ≡ answers_to channel run.answers }
{}

/// Each answer to a link is to the next message of its talk, or the 503 of a link that gave up. It
/// is by the state after the commands before it, whose number never falls along a link.
pub fn answers_are_in_turn<X, C>()
    ensures each { (server : Server X C) (first : X) (log : List Event)
        → AllInTurn server first log (served_by server first log).answers }
    ensures to_talk { (server : Server X C) (first : X) → TalkGoesOn server.talk
        → (log : List Event) (channel : ℕ)
        → AreTo (answers_to channel (served_by server first log).answers)
        (server.talk (heard_bytes channel log)) }
    ensures never_fall { (server : Server X C) (first : X) (log : List Event) (channel : ℕ)
        → NeverFall (answers_to channel (served_by server first log).answers) }
{}

/// Turns that follow one another may be joined, and no link begins them by giving up, so that their
/// log goes on.
pub fn turns_go_on<X, C>()
    ensures joined { (server : Server X C) (first : X) (past : List Event)
        (start middle end : ℕ) (one two : List Turn) → AreTurns server first past start one middle
        → AreTurns server first (past ++ logged_by one) middle two end
        → AreTurns server first past start (one ++ two) end }
    ensures on { (server : Server X C) (first : X) (past : List Event) (start end : ℕ)
        (turns : List Turn) → AreTurns server first past start turns end
        → GoesOnWithout (logged_by turns) }
{}

/// The commands that were accepted before each answer decide what a link is replied: two logs with
/// the same events of a link, and the same commands before its answers, give it the same replies.
pub fn commands_decide_replies<X, C>()
    ensures { (server : Server X C) (first : X) (channel : ℕ) (one two : List Event)
        → events_of channel one ≡ events_of channel two
        → accepted_before channel (served_by server first one).answers
        ≡ accepted_before channel (served_by server first two).answers
        → replies_to channel (served_by server first one).answers
        ≡ replies_to channel (served_by server first two).answers }
{}

/// Where the states of one server stand for those of another, and both reply and turn alike, so do
/// their runs: each log has the same answers.
pub fn like_servers_serve_alike<L: Likeness>()
    ensures { (one : Server L.One L.Command) (two : Server L.Other L.Command)
        → SameServer L.stands_for one two → (x : L.One) (y : L.Other) → L.stands_for x y
        → (log : List Event) → SameRun L.stands_for (served_by one x log) (served_by two y log) }
{}
