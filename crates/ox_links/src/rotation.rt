//! A law of the rotation.

ghost use Rattle.std.specs.Prelude.{◌≡◌, ◌≤◌, [], ℕ, List, Option, length, map, slice_get, take};
ghost use Rattle.ox_outside.specs.Event.{Event};
ghost use Rattle.ox_links.specs.Rotation.{Who, next_turn, slots_in};
ghost use Rattle.ox_links.specs.Round.{SlotsStay, round_from};
ghost use Rattle.ox_links.specs.Serving.{Server};
ghost use Rattle.ox_links.specs.Turned.{AreTurns, Turn};

/// The most links at once, at both doors together: a server has a slot for each.
pub const LINKS: usize = 32;

/// The next turn is that of the first place that isn't passed over, from where it is looked for on
/// and round. While the slots stay, as many turns as there are such places, or fewer, give each
/// once, in that order.
pub fn each_has_its_turn<X, C>()
    ensures first { (place : ℕ) (slots : List (Option ℕ))
        → next_turn place slots ≡ slice_get (round_from place slots) 0 }
    ensures each { (server : Server X C) (first : X) (past : List Event) (place end : ℕ)
        (turns : List Turn) → AreTurns server first past place turns end → SlotsStay past turns
        → length turns ≤ length (round_from place (slots_in past))
        → map (λ (t : Turn). t.who) turns ≡ map (λ (on : ℕ × Who). on.1)
        (take (length turns) (round_from place (slots_in past))) }
{}
