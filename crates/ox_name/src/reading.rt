//! The reading of a name.

ghost use Rattle.std.specs.Prelude.{◌≡◌, ◌↔◌, ◌^◌, ◌<◌, ◌∷◌, ◌≤◌, length, true, false, None, Some};
ghost use Rattle.std.specs.Prelude.{IfOk, IsErr, MatchOption, nat_lt, if◌then◌else◌};
ghost use Rattle.ox_name.specs.Name.{IsLetter, number_with};
ghost use Rattle.ox_name.specs.Texts.{BeginsWithNone, dotted_text};
ghost use Rattle.ox_name.specs.Spaced.{name_in, ReadsBack};

/// What a text names.
#[derive(Clone, Copy, Debug, PartialEq, Eq)]
pub struct Named {
    /// The name's number.
    pub name: u128,
    /// The spacers: bit i for the gap behind the letter at place i, counted from 0.
    pub spacers: u32,
}

/// The text is no name.
#[derive(Clone, Copy, Debug, PartialEq, Eq)]
pub struct NotName;

/// Reads a name: letters A to Z, and U+2022 or `.` singly between two of them.
///
/// Answers `NotName` exactly where the text is anything else: empty, with another character, with a
/// spacer at an end or two in a row, or with a number above the greatest of 128 bits.
pub fn read_name(text: &[u8]) -> Result<Named, NotName>
    ensures found { IfOk result (λ name. name_in text.now ≡ Some name) }
    ensures none { IsErr result ↔ (name_in text.now ≡ None) }
{
    let Some((first, mut rest)) = letter_at(text) else {
        return Err(NotName);
    };
    let mut name = (first - b'A') as u128;
    let mut spacers = 0;
    let mut place: u32 = 0;
    while !rest.is_empty() {
        let (spaced, behind) = spacer_at(rest);
        let Some((letter, behind)) = letter_at(behind) else {
            return Err(NotName);
        };
        let Some(longer) = with_letter(name, letter) else {
            return Err(NotName);
        };
        name = longer;
        spacers += gap_bit(spaced, place);
        place += 1;
        rest = behind;
    }
    Ok(Named { name, spacers })
}

/// The law of `write_spaced` and `read_name`: a written name reads back as its number, with its
/// spacers.
pub fn reads_back()
    ensures { ReadsBack }
{}

/// The letter in front, and what follows it.
fn letter_at(text: &[u8]) -> Option<(u8, &[u8])>
    ensures { MatchOption result (BeginsWithNone IsLetter text.now)
        (λ found. IsLetter found.0 × (text.now ≡ found.0 ∷ found.1.now)) }
{
    match text {
        [letter @ b'A'..=b'Z', rest @ ..] => Some((*letter, rest)),
        _ => None,
    }
}

/// Whether a spacer is in front, and what follows it.
fn spacer_at(text: &[u8]) -> (bool, &[u8])
    ensures spacer { result.0 ≡ true → dotted_text text.now ≡ 46 ∷ dotted_text result.1.now }
    ensures none { result.0 ≡ false →
        (result.1.now ≡ text.now) × BeginsWithNone (λ c. c ≡ 46) (dotted_text text.now) }
    ensures shorter { length result.1.now ≤ length text.now }
{
    match text {
        [b'.', rest @ ..] => (true, rest),
        [0xe2, 0x80, 0xa2, rest @ ..] => (true, rest),
        _ => (false, text),
    }
}

/// The number of a name with one letter more behind it, if it has 128 bits.
fn with_letter(name: u128, letter: u8) -> Option<u128>
    requires { IsLetter letter }
    ensures { result ≡ (if nat_lt (number_with name letter) (2 ^ 128)
        then Some (number_with name letter) else None) }
{
    let longer = name.checked_add(1)?.checked_mul(26)?;
    longer.checked_add((letter - b'A') as u128)
}

/// The bit of a gap with a spacer.
fn gap_bit(spaced: bool, place: u32) -> u32
    requires { place < 32 }
    ensures { result ≡ (if spaced then 2 ^ place else 0) }
{
    if spaced { 1 << place } else { 0 }
}
