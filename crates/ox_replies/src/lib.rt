//! What each request is replied.
#![tactic(auto)]

mod keys;
mod laws;
mod places;

pub use keys::trees_have_rising_keys;
pub use laws::{
    balances_are_told, escapes_are_spacers, inscriptions_are_named, inscriptions_are_walked,
    numbers_are_read, outpoints_are_read, pages_hold_all, replies_close_as_asked,
    replies_fit_their_heads, rune_ids_are_read, runes_are_named, trees_have_no_floats,
    unminted_satoshis_are_nowhere,
};
pub use places::outputs_and_inscriptions_agree;
