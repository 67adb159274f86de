//! Where a server begins.

ghost use Rattle.std.specs.Prelude.{List, [], None, replicate};
ghost use Rattle.ox_outside.specs.Event.{Event};
ghost use Rattle.ox_links.specs.Serving.{Server};
ghost use Rattle.ox_turns.specs.Follows.{Follows};

/// Slots without a link follow each log, from where it stands: nothing was logged since, and the
/// state is what it is.
pub fn empty_slots_follow<X, C>()
    ensures { (server : Server X C) (log : List Event) (state : X)
        → Follows server (record { log = log; state = state }) [] (replicate 32 None) state }
{}
