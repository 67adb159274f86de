//! Why a reply may be kept.

ghost use Rattle.std.specs.Prelude.{◌≡◌, Bool, List, ℕ};
ghost use Rattle.std.specs.List.{Contains};
ghost use Rattle.ox_outside.specs.Event.{Event};
ghost use Rattle.ox_feed.specs.declared.command.Command.{Command};
ghost use Rattle.ox_links.specs.Link.{Answer};
ghost use Rattle.ox_links.specs.Serving.{served_by};
ghost use Rattle.ox_model.specs.Stack.{Stack};
ghost use Rattle.ox_desk.specs.Hits.{IsToGetOf};
ghost use Rattle.ox_desk.specs.Servers.{server_on};

/// Two answers of a log to GETs of one path, with as many accepted commands before them, with which
/// both links end or neither does, are the same bytes.
pub fn hits_are_the_same_reply()
    ensures { (first : Stack) (log : List Event) (path : List ℕ) (accepted : ℕ) (close : Bool)
        (one two : Answer Command) → Contains (served_by server_on first log).answers one
        → Contains (served_by server_on first log).answers two → IsToGetOf path accepted close one
        → IsToGetOf path accepted close two → one.reply ≡ two.reply }
{}
