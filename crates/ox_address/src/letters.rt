//! The 32 letters of an address, and their numbers.

ghost use Rattle.std.specs.Prelude.{◌≡◌, ◌<◌, ◌≤◌, MatchOption, Contains};
ghost use Rattle.ox_address.specs.Address.{letter_of};
ghost use Rattle.ox_address.specs.Passes.{small, value_of};

/// The letters of the symbols 0 to 31.
const LETTERS: [u8; 32] = *b"qpzry9x8gf2tvdw0s3jn54khce6mua7l";

/// The symbol of each letter, and 32 where there is none.
const SYMBOLS: [u8; 128] = [
    32, 32, 32, 32, 32, 32, 32, 32, 32, 32, 32, 32, 32, 32, 32, 32, 32, 32, 32, 32, 32, 32, 32, 32,
    32, 32, 32, 32, 32, 32, 32, 32, 32, 32, 32, 32, 32, 32, 32, 32, 32, 32, 32, 32, 32, 32, 32, 32,
    15, 32, 10, 17, 21, 20, 26, 30, 7, 5, 32, 32, 32, 32, 32, 32, 32, 32, 32, 32, 32, 32, 32, 32,
    32, 32, 32, 32, 32, 32, 32, 32, 32, 32, 32, 32, 32, 32, 32, 32, 32, 32, 32, 32, 32, 32, 32, 32,
    32, 29, 32, 24, 13, 25, 9, 8, 23, 32, 18, 22, 31, 27, 19, 32, 1, 0, 3, 16, 11, 28, 12, 14, 6,
    4, 2, 32, 32, 32, 32, 32,
];

/// The letter of a symbol.
#[inline(always)]
pub(crate) fn letter_at(symbol: u8) -> u8
    requires { symbol < 32 }
    ensures { result ≡ letter_of symbol }
{
    LETTERS[symbol as usize]
}

/// A byte as it is where the text is lower-case, and where it is of capitals with a capital made
/// lower-case and with 0 for a lower-case letter.
#[inline(always)]
pub(crate) fn lowered(byte: u8, is_capital: bool) -> u8
    ensures { result ≡ small is_capital byte }
{
    if !is_capital {
        return byte;
    }
    match byte {
        b'A'..=b'Z' => byte + 32,
        b'a'..=b'z' => 0,
        _ => byte,
    }
}

/// The symbol that a byte of the text stands for, if it is a letter of one.
#[inline(always)]
pub(crate) fn symbol_at(byte: u8, is_capital: bool) -> Option<u8>
    ensures { MatchOption result (32 ≤ value_of is_capital byte)
        (λ symbol. (symbol < 32) × (symbol ≡ value_of is_capital byte)) }
{
    let letter = lowered(byte, is_capital);
    if letter >= 128 {
        return None;
    }
    let symbol = SYMBOLS[letter as usize];
    if symbol < 32 { Some(symbol) } else { None }
}
