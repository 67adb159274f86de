//! What a log of links says that a server answered.
#![tactic(auto)]

mod hits;
mod laws;
mod rotation;

pub use hits::hits_have_an_earlier_answer;
pub use laws::{
    Likeness, answers_are_in_turn, commands_decide_replies, commands_lead_to_the_state,
    events_bring_one_answer, like_servers_serve_alike, links_are_apart, logs_go_on, turns_go_on,
};
pub use rotation::{LINKS, each_has_its_turn};
