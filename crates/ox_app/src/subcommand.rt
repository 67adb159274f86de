//! The subcommands.

ghost use Rattle.std.specs.Prelude.{◌≡◌, ◌≢◌, ℕ, IfSome, IfNone, decimal};
ghost use Rattle.ox_app.specs.Subcommands.{IsSubcommand, IsUpTo};

use ox_bytes::Bytes;
use ox_sat::{ProfileName, read_number};

/// What a run is asked for.
#[derive(Clone, Copy)]
pub enum Subcommand<'a> {
    /// A run over a feed, without files.
    Fold(ProfileName),
    /// The making of a store of this depth.
    Init(ProfileName, u16),
    /// A run over a feed and a store.
    Apply,
    /// A query of a path.
    Query(&'a [u8]),
    /// So many turns of a server.
    Serve(u64),
    /// A drill of so many blocks.
    Drill(u32),
    /// The migration of a store of version 1.
    Migrate,
    /// A store that hands out its pieces.
    Lead,
    /// A store that takes those of another one.
    Follow,
    /// The growing of a store of version 2.
    Grow,
    /// The words are no subcommand.
    Unknown,
}

/// The greatest depth of a store.
const DEPTH_LIMIT: u64 = 1000;

/// The most blocks of a drill.
const DRILL_LIMIT: u64 = 100_000;

/// The number from 1 to this one that a text writes.
fn read_up_to(text: &str, most: u64) -> Option<u64>
    ensures found { IfSome result (λ n. IsUpTo most n × (text.now ≡ decimal n)) }
    ensures only { IfNone result ((n : ℕ) → IsUpTo most n → text.now ≢ decimal n) }
{
    match read_number(text) {
        Some(number) if 1 <= number && number <= most => Some(number),
        _ => None,
    }
}

/// The number from 1 to this one that a word writes: decimal digits with no sign and no leading
/// zero.
fn number_in(word: &[u8], most: u64) -> Option<u64>
    ensures found { IfSome result (λ n. IsUpTo most n × (word.now ≡ decimal n)) }
    ensures only { IfNone result ((n : ℕ) → IsUpTo most n → word.now ≢ decimal n) }
{
    match str::from_utf8(word) {
        Ok(text) => read_up_to(text, most),
        Err(_) => None,
    }
}

/// The subcommand that words are.
pub fn subcommand_of(words: &[Bytes]) -> Subcommand<'_>
    ensures { IsSubcommand words.now result }
{
    match words {
        [first] if first.as_slice() == b"apply".as_slice() => Subcommand::Apply,
        [first] if first.as_slice() == b"migrate".as_slice() => Subcommand::Migrate,
        [first] if first.as_slice() == b"lead".as_slice() => Subcommand::Lead,
        [first] if first.as_slice() == b"follow".as_slice() => Subcommand::Follow,
        [first] if first.as_slice() == b"grow".as_slice() => Subcommand::Grow,
        [first, path] if first.as_slice() == b"query".as_slice() => Subcommand::Query(
            path.as_slice(),
        ),
        [first, profile] if first.as_slice() == b"fold".as_slice() => match ProfileName::of_word(
            profile.as_slice(),
        ) {
            Some(name) => Subcommand::Fold(name),
            None => Subcommand::Unknown,
        },
        [first, turns] if first.as_slice() == b"serve".as_slice() => match number_in(
            turns.as_slice(),
            u64::MAX,
        ) {
            Some(turns) => Subcommand::Serve(turns),
            None => Subcommand::Unknown,
        },
        [first, length] if first.as_slice() == b"drill".as_slice() => match number_in(
            length.as_slice(),
            DRILL_LIMIT,
        ) {
            Some(n) => Subcommand::Drill(n as u32),
            None => Subcommand::Unknown,
        },
        [first, profile, depth] if first.as_slice() == b"init".as_slice() => {
            match (
                ProfileName::of_word(profile.as_slice()),
                number_in(depth.as_slice(), DEPTH_LIMIT),
            ) {
                (Some(name), Some(depth)) => Subcommand::Init(name, depth as u16),
                _ => Subcommand::Unknown,
            }
        }
        _ => Subcommand::Unknown,
    }
}
