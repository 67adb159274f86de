//! The words of a row. Where one can't be read, or there is no memory for what it says, nothing is
//! made of it.

ghost use Rattle.std.specs.Prelude.{◌≤◌, IfSome};

use ox_bytes::Bytes;
use ox_feed::Command;
use ox_memsite::Said;
use ox_outside::{Doorway, Which};
use ox_sat::ProfileName;
use ox_short_site::Portion;
use std::alloc::Global;

/// What is said of a row that can't be read, or for which there is no memory.
pub const NO_ROW: &str = "no row, or no memory";

/// The number that a word is.
pub fn number_of(word: &str) -> Option<u64> {
    word.parse().ok()
}

/// The byte that a word's number is.
pub fn byte_of(word: &str) -> Option<u8> {
    word.parse().ok()
}

/// How many bytes a word's number is, if there are some.
pub fn size_of(word: &str) -> Option<usize>
    ensures { IfSome result (λ size. 1 ≤ size) }
{
    let size: usize = word.parse().ok()?;
    if size == 0 {
        return None;
    }
    Some(size)
}

/// The depth that a word's number is.
pub fn depth_of(word: &str) -> Option<u16>
    ensures { IfSome result (λ depth. (1 ≤ depth) × (depth ≤ 1000)) }
{
    let depth: u16 = word.parse().ok()?;
    if depth == 0 || depth > 1000 {
        return None;
    }
    Some(depth)
}

/// The profile that a word names.
pub fn profile_of(word: &str) -> Option<ProfileName> {
    ProfileName::of_word(word.as_bytes())
}

/// The door that a word names.
pub fn door_of(word: &str) -> Option<Doorway> {
    match word {
        "public" => Some(Doorway::Public),
        "operator" => Some(Doorway::Operator),
        _ => None,
    }
}

/// The file that a word names.
pub fn file_of(word: &str) -> Option<Which> {
    match word {
        "A" => Some(Which::A),
        "B" => Some(Which::B),
        _ => None,
    }
}

/// The portion that a word names.
pub fn portion_of(word: &str) -> Option<Portion> {
    match word {
        "byte" => Some(Portion::OneByte),
        "half" => Some(Portion::Half),
        _ => None,
    }
}

/// The bytes that a word's hex digits spell.
pub fn bytes_of(alloc: Global, word: &str) -> Option<Vec<u8>> {
    hex::decode(alloc, word).ok()
}

/// Appends a part: what hex digits spell, as often as the number before `*` says, or once.
fn append_part(alloc: Global, bytes: &mut Vec<u8>, word: &str) -> Option<()> {
    let (times, digits) = word.split_once('*').unwrap_or(("1", word));
    let part = bytes_of(alloc, digits)?;
    for _ in 0..number_of(times)? {
        bytes.extend_from_slice(&part).ok()?;
    }
    Some(())
}

/// The bytes of parts.
pub fn parts_of(alloc: Global, words: &[&str]) -> Option<Vec<u8>> {
    let mut bytes = Vec::new(alloc);
    for word in words {
        append_part(alloc, &mut bytes, *word)?;
    }
    Some(bytes)
}

/// The bytes of a run's word: what hex digits behind `=` spell, or its own.
fn run_word_of(alloc: Global, word: &str) -> Option<Bytes> {
    match word.strip_prefix('=') {
        Some(digits) => Some(Bytes::from_vec(bytes_of(alloc, digits)?)),
        None => Bytes::copy(alloc, word.as_bytes()).ok(),
    }
}

/// The words of a run.
pub fn run_words_of(alloc: Global, row: &[&str]) -> Option<Vec<Bytes>> {
    let mut words = Vec::new(alloc);
    for word in row {
        words.push(run_word_of(alloc, *word)?).ok()?;
    }
    Some(words)
}

/// The bytes of parts between `+`.
fn joined(alloc: Global, word: &str) -> Option<Bytes> {
    let parts: Vec<&str> = word.split('+').collect(alloc).ok()?;
    Some(Bytes::from_vec(parts_of(alloc, parts.as_slice())?))
}

/// The command that a word is.
fn command_of(alloc: Global, word: &str) -> Option<Command> {
    match word.strip_prefix("+") {
        Some(block) => Some(Command::Connect(joined(alloc, block)?)),
        None => Some(Command::Disconnect),
    }
}

/// The commands that words are.
pub fn commands_of(alloc: Global, words: &[&str]) -> Option<Vec<Command>> {
    let mut commands = Vec::new(alloc);
    for word in words {
        commands.push(command_of(alloc, *word)?).ok()?;
    }
    Some(commands)
}

/// Appends bytes of which each is heard alone.
fn append_alone(alloc: Global, said: &mut Vec<Said>, bytes: &[u8]) -> Option<()> {
    for byte in bytes {
        said.push(Said::Bytes(Bytes::copy(alloc, &[*byte]).ok()?))
            .ok()?;
    }
    Some(())
}

/// Appends what a word says.
fn append(alloc: Global, said: &mut Vec<Said>, word: &str) -> Option<()> {
    match word {
        "." => said.push(Said::NotYet).ok(),
        "$" => said.push(Said::End).ok(),
        _ => match word.strip_prefix(',') {
            Some(digits) => append_alone(alloc, said, &bytes_of(alloc, digits)?),
            None => said.push(Said::Bytes(joined(alloc, word)?)).ok(),
        },
    }
}

/// What a link says by these words.
pub fn script_of(alloc: Global, words: &[&str]) -> Option<Vec<Said>> {
    let mut said = Vec::new(alloc);
    for word in words {
        append(alloc, &mut said, word)?;
    }
    Some(said)
}
