//! Hex digits, decoded by a table, without a branch for each: the text of blocks is most of a feed.

ghost use Rattle.std.specs.Prelude.{◌≡◌, ◌*◌, ℕ, length, Ok, IfOk, IsErr, MatchOption, true, false};
ghost use Rattle.hex.specs.Hex.{decode_of, decode_pairs, pair_value};
ghost use Rattle.ox_feed.specs.Digits.{digit_or_none};

use std::alloc::{AllocError, Global};

/// The value of each byte as a digit, of either case; 255 where it is none.
static VALUES: [u8; 256] = [
    255, 255, 255, 255, 255, 255, 255, 255, 255, 255, 255, 255, 255, 255, 255, 255, 255, 255, 255,
    255, 255, 255, 255, 255, 255, 255, 255, 255, 255, 255, 255, 255, 255, 255, 255, 255, 255, 255,
    255, 255, 255, 255, 255, 255, 255, 255, 255, 255, 0, 1, 2, 3, 4, 5, 6, 7, 8, 9, 255, 255, 255,
    255, 255, 255, 255, 10, 11, 12, 13, 14, 15, 255, 255, 255, 255, 255, 255, 255, 255, 255, 255,
    255, 255, 255, 255, 255, 255, 255, 255, 255, 255, 255, 255, 255, 255, 255, 255, 10, 11, 12, 13,
    14, 15, 255, 255, 255, 255, 255, 255, 255, 255, 255, 255, 255, 255, 255, 255, 255, 255, 255,
    255, 255, 255, 255, 255, 255, 255, 255, 255, 255, 255, 255, 255, 255, 255, 255, 255, 255, 255,
    255, 255, 255, 255, 255, 255, 255, 255, 255, 255, 255, 255, 255, 255, 255, 255, 255, 255, 255,
    255, 255, 255, 255, 255, 255, 255, 255, 255, 255, 255, 255, 255, 255, 255, 255, 255, 255, 255,
    255, 255, 255, 255, 255, 255, 255, 255, 255, 255, 255, 255, 255, 255, 255, 255, 255, 255, 255,
    255, 255, 255, 255, 255, 255, 255, 255, 255, 255, 255, 255, 255, 255, 255, 255, 255, 255, 255,
    255, 255, 255, 255, 255, 255, 255, 255, 255, 255, 255, 255, 255, 255, 255, 255, 255, 255, 255,
    255, 255, 255, 255, 255, 255, 255, 255, 255, 255, 255, 255, 255, 255, 255, 255, 255, 255, 255,
    255, 255, 255,
];

/// The value of a digit, below 16; or 255.
#[inline(always)]
fn digit(c: u8) -> u8
    ensures { result ≡ digit_or_none c }
{
    VALUES[c as usize]
}

/// The byte of two digits, and whether both are digits.
#[inline(always)]
fn byte_of(high: u8, low: u8) -> (u8, bool)
    ensures good { result.1 ≡ true → (i : ℕ) → pair_value high low i ≡ Ok result.0 }
    ensures bad { result.1 ≡ false → (i : ℕ) → IsErr (pair_value high low i) }
{
    let high = digit(high);
    let low = digit(low);
    let byte = high.wrapping_mul(16).wrapping_add(low);
    (byte, high < 16 && low < 16)
}

/// Decodes pairs of digits into the bytes. Whether all are digits.
fn decode_into(digits: &[u8], bytes: &mut [u8]) -> bool
    requires { length digits.now ≡ 2 * length bytes.old }
    ensures good { result ≡ true → decode_pairs 0 digits.now ≡ Ok bytes.new }
    ensures bad { result ≡ false → IsErr (decode_pairs 0 digits.now) }
{
    let mut all = true;
    for i in 0..bytes.len() {
        let (byte, good) = byte_of(digits[2 * i], digits[2 * i + 1]);
        bytes[i] = byte;
        all = all && good;
    }
    all
}

/// The bytes of an even number of digits, of either case; `None` where there is an odd number, or
/// another byte.
pub fn decode(alloc: Global, digits: &[u8]) -> Result<Option<Vec<u8>>, AllocError>
    ensures { IfOk result (λ found.
        MatchOption found (IsErr (decode_of digits.now))
        (λ bytes. decode_of digits.now ≡ Ok bytes.items)) }
{
    if digits.len() % 2 != 0 {
        return Ok(None);
    }
    let mut bytes = vec![in alloc; 0u8; digits.len() / 2]?;
    if decode_into(digits, bytes.as_mut_slice()) {
        Ok(Some(bytes))
    } else {
        Ok(None)
    }
}
