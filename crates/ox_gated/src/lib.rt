//! A write-ahead journal in two files that survives a crash at any moment: heads, gates, and the
//! tail behind which the next record comes.
#![tactic(auto)]

mod fault;
mod filling;
mod framed;
mod front;
mod head;
mod laws;
mod layout;
mod open;
mod other_file;
mod parts;
mod pick;
mod records;
mod sink;
mod tail;
mod two_pieces;
mod walker;
mod writes;

pub use fault::{Before, GateFault, Halt};
pub use filling::Filling;
pub use framed::{Checkpoint, Framed, checkpoint_of, frame, frame_parts};
pub use head::Head;
pub use laws::{
    changed_bytes_are_found, current_files_are_chosen, cut_records_end_at_their_gate,
    layouts_read_back,
};
pub use layout::BODY_AT;
pub use open::Opened;
pub use other_file::{Closed, Filled};
pub use parts::{Begun, Parts};
pub use records::{Record, Records};
pub use sink::Sink;
pub use tail::{DiskFault, Tail};
pub use walker::Walker;
