//! Spacers between letters.

ghost use Rattle.std.specs.Prelude.{◌≡◌, ◌≤◌, ◌+◌, ◌++◌, [], ◌∷◌, ◌%◌, ◌==◌, ◌&&◌, length, take};
ghost use Rattle.std.specs.Prelude.{drop, if◌then◌else◌};
ghost use Rattle.ox_name.specs.Name.{name_of};
ghost use Rattle.ox_name.specs.Spaced.{spaced_name, bullet};

use crate::letters::write_name;

/// Puts a letter at `len`, and a spacer behind it where one is wanted. Answers the place behind
/// them.
fn put_letter(into: &mut [u8; 112], len: usize, letter: u8, spaced: bool) -> usize
    requires { len + 4 ≤ 112 }
    ensures place { result ≡ len + (if spaced then 4 else 1) }
    ensures written { into.new ≡
        take len into.old ++ letter ∷ (if spaced then bullet else []) ++ drop result into.old }
{
    into[len] = letter;
    if spaced {
        into[len + 1] = 0xe2;
        into[len + 2] = 0x80;
        into[len + 3] = 0xa2;
        len + 4
    } else {
        len + 1
    }
}

/// Whether a spacer stands behind the first of the letters that are left, if another letter follows
/// it.
fn has_spacer(gaps: u32, followed: bool) -> bool
    ensures { result ≡ (followed && (gaps % 2 == 1)) }
{
    followed && gaps % 2 == 1
}

/// Writes the name of the number `name` with its spacers to the front of `into`, and answers how
/// many bytes that took. U+2022 stands behind the letter at place i, counted from 0, where bit i of
/// `spacers` is set; bits past the last gap between two letters are ignored. The bytes behind stay.
pub fn write_spaced(name: u128, spacers: u32, into: &mut [u8; 112]) -> usize
    ensures length { result ≡ length (spaced_name spacers (name_of name)) }
    ensures written { into.new ≡ spaced_name spacers (name_of name) ++ drop result into.old }
    ensures fits { result ≤ 112 }
{
    let mut letters = [0; 28];
    let count = write_name(name, &mut letters);
    let mut gaps = spacers;
    let mut len = 0;
    for place in 0..count {
        let spaced = has_spacer(gaps, place + 1 < count);
        len = put_letter(into, len, letters[place], spaced);
        gaps /= 2;
    }
    len
}
