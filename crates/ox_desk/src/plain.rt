//! What replies to commands tell is written in JSON as it is. Nothing here does anything: each call
//! says so of its values.

ghost use Rattle.std.specs.Prelude.{decimal};
ghost use Rattle.ox_rules.specs.Text.{hash_text};
ghost use Rattle.ox_desk.specs.Plain.{IsPlain};
ghost use Rattle.ox_desk.specs.Replies.{refusal_text};

use ox_block::OutPoint;
use ox_model::Refusal;

/// A number's digits need no escape.
pub(crate) fn number_is_plain(_number: u64)
    ensures { IsPlain (decimal _number) }
{}

/// Nor do a hash's.
pub(crate) fn hash_is_plain(_hash: &[u8])
    ensures { IsPlain (hash_text _hash.now) }
{}

/// Nor do those of two.
fn hashes_are_plain(have: &[u8; 32], want: &[u8; 32])
    ensures { IsPlain (hash_text have.now) × IsPlain (hash_text want.now) }
{
    hash_is_plain(have);
    hash_is_plain(want);
}

/// Nor does what an outpoint has.
fn outpoint_is_plain(at: &OutPoint)
    ensures { IsPlain (hash_text at.now.txid.0) × IsPlain (decimal at.now.index) }
{
    hash_is_plain(&at.txid.0);
    number_is_plain(u64::from(at.index));
}

/// Nor does what a refusal tells.
pub(crate) fn refusal_is_plain(refusal: &Refusal)
    ensures { IsPlain (refusal_text refusal.now) }
{
    match refusal {
        Refusal::Malformed { at } => number_is_plain(*at as u64),
        Refusal::ChainEnd { height } => number_is_plain(*height),
        Refusal::Unlinked { have, want } => hashes_are_plain(have, want),
        Refusal::BadRoot { have, want } => hashes_are_plain(have, want),
        Refusal::Coinbase { tx } => number_is_plain(u64::from(*tx)),
        Refusal::UnknownOutput { tx, input, at } => {
            number_is_plain(u64::from(*tx));
            number_is_plain(u64::from(*input));
            outpoint_is_plain(at);
        }
        Refusal::Overspend {
            tx,
            inputs,
            outputs,
        } => {
            number_is_plain(u64::from(*tx));
            number_is_plain(*inputs);
            number_is_plain(*outputs);
        }
        Refusal::Overclaim { claimable, claimed } => {
            number_is_plain(*claimable);
            number_is_plain(*claimed);
        }
        Refusal::TooLong => {}
        Refusal::Syntax => {}
        Refusal::BadWitness => {}
        Refusal::Depth => {}
    }
}
