//! An index and a change as bytes, and back.
#![tactic(auto)]

mod balances;
mod change;
mod counts;
mod fault;
mod ids;
mod index;
mod index_from;
mod inscriptions;
mod laws;
mod lists;
mod lists_from;
mod next;
mod outputs;
mod put;
mod readable;
mod rising;
mod runes;
mod sats;
mod source;
mod tables;
mod window;
mod writable;

pub use change::{put_change, read_change, write_change};
pub use fault::RowsFault;
pub use index::{put_index, read_index, write_index};
pub use index_from::read_index_from;
pub use laws::{longer_fronts_read_alike, satoshis_have_one_spelling, what_fits_keeps_to_the_form};
pub use lists::list_of;
pub use lists_from::list_from;
pub use next::{NextFault, is_at_end, next_row};
pub use put::{put_count, put_list, put_optional, put_text};
pub use readable::{Readable, optional_of, text_of};
pub use rising::rising_of;
pub use sats::{put_sats, sats_of};
pub use source::Source;
pub use window::Window;
pub use writable::Writable;
