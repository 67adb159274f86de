//! The top call of the program.
#![tactic(auto)]

mod answer;
mod apply;
mod carry;
mod drill;
mod fold;
mod follow;
mod grow;
mod init;
mod laws;
mod lead;
mod line;
mod migrate;
mod program;
mod query;
mod serve;
mod server;
mod show;
mod status;
mod stop;
mod subcommand;
mod talk;
mod unopened;

pub use laws::{all_runs_follow_chains, followers_keep_to_leaders, stores_have_one_version};
pub use program::run;
pub use status::Status;
