//! The reading of an address.

ghost use Rattle.std.specs.Prelude.{◌≡◌, ℕ, ◌+◌, ◌*◌, ◌^◌, ◌<◌, ◌≤◌, ◌↔◌, ◌∷◌, [], ◌++◌, List};
ghost use Rattle.std.specs.Prelude.{length, map, take, drop, fold, All, IsTrue, MatchOption};
ghost use Rattle.std.specs.Prelude.{MatchResult, IfOk, Ok, slice_index};
ghost use Rattle.ox_address.specs.Checksum.{step, wanted, polynomial, expanded};
ghost use Rattle.ox_address.specs.Address.{IsHrp, IsAddress, IsProgram, IsCapital};
ghost use Rattle.ox_address.specs.Passes.{Unpacks, Took, AreSymbols, values_of, small, opcode_of};
ghost use Rattle.ox_address.specs.Passes.{Reads, ReadsLetters, NoScript, NoScriptBehind};

use crate::bits::Bits;
use crate::checksum::{polynomial_of, wanted_of, with_value};
use crate::letters::{lowered, symbol_at};

/// The text is no segwit address of this human-readable part.
#[derive(Clone, Copy, Debug, PartialEq, Eq)]
pub struct NotAddress;

/// A program as far as it is read: where the script ends, the bits that wait for more, and the
/// polynomial.
#[derive(Clone, Copy)]
struct Pass {
    len: usize,
    bits: Bits,
    sum: u32,
}

/// The opcode that pushes a version.
fn opcode_at(version: u8) -> u8
    requires { version < 32 }
    ensures { result ≡ opcode_of version }
{
    if version == 0 { 0 } else { version + 0x50 }
}

/// Whether a program of so many bytes may stand behind the opcode.
fn is_program(opcode: u8, size: usize) -> bool
    ensures { IsTrue result ↔ IsProgram opcode size }
{
    if opcode == 0 {
        size == 20 || size == 32
    } else {
        0x51 <= opcode && opcode <= 0x60 && 2 <= size && size <= 40
    }
}

/// Takes one symbol more, and writes the byte that it fills.
#[inline(always)]
fn take_symbol(script: &mut [u8; 42], len: &mut usize, bits: &mut Bits, symbol: u8)
    requires room { len.old < 42 }
    requires within { bits.old.value < 2 ^ bits.old.count }
    requires few { bits.old.count < 8 }
    requires symbol { symbol < 32 }
    ensures few { bits.new.count < 8 }
    ensures within { bits.new.value < 2 ^ bits.new.count }
    ensures unpacks { (head before : List ℕ) (whole total : ℕ) →
        Unpacks head before script.old len.old whole total bits.old.value bits.old.count →
        Unpacks head before script.new len.new (whole * 32 + symbol) (total + 5) bits.new.value
        bits.new.count }
{
    let more = bits.with(5, symbol);
    *bits = more;
    if bits.count >= 8 {
        let byte = bits.take_front(8);
        script[*len] = byte;
        *len += 1;
    }
}

/// Takes the letters of a program, and writes its bytes behind the first two of `script`.
fn take_groups(
    script: &mut [u8; 42],
    mut sum: u32,
    letters: &[u8],
    is_capital: bool,
) -> Option<Pass>
    requires bounded { sum < 2 ^ 30 }
    requires short { length letters.now ≤ 64 }
    ensures { MatchOption result (¬ AreSymbols is_capital letters.now) (λ pass.
        Took is_capital letters.now sum script.old script.new pass.len pass.bits.value
        pass.bits.count pass.sum) }
{
    let mut len = 2;
    let mut bits = Bits::none();
    for letter in letters {
        let symbol = symbol_at(*letter, is_capital)?;
        sum = with_value(sum, symbol);
        take_symbol(script, &mut len, &mut bits, symbol);
    }
    Some(Pass { len, bits, sum })
}

/// The polynomial with the symbols of these letters more.
fn with_letters(mut sum: u32, letters: &[u8], is_capital: bool) -> Option<u32>
    requires { sum < 2 ^ 30 }
    ensures { MatchOption result (¬ AreSymbols is_capital letters.now) (λ all.
        AreSymbols is_capital letters.now
        × (all ≡ fold step sum (values_of is_capital letters.now))) }
{
    for letter in letters {
        sum = with_value(sum, symbol_at(*letter, is_capital)?);
    }
    Some(sum)
}

/// Whether the polynomial is that of an address, and the bits that wait are fewer than five zeros.
fn is_whole(sum: u32, version: u8, bits: Bits) -> bool
    ensures { IsTrue result
        ↔ ((sum ≡ wanted version) × (bits.value ≡ 0) × (bits.count < 5)) }
{
    sum == wanted_of(version) && bits.value == 0 && bits.count < 5
}

/// Reads the letters behind the digit 1, where `sum` is the polynomial of what stands before them.
fn read_letters(sum: u32, letters: &[u8], is_capital: bool, script: &mut [u8; 42]) -> Option<usize>
    requires bounded { sum < 2 ^ 30 }
    requires long { 11 ≤ length letters.now }
    requires short { length letters.now ≤ 71 }
    ensures { (hrp : List ℕ) → All (λ c. c < 256) hrp → sum ≡ polynomial (expanded hrp) →
        MatchOption result (NoScriptBehind is_capital hrp letters.now) (λ len.
        ReadsLetters is_capital hrp letters.now script.old script.new len) }
{
    let (data, check) = letters.split_at(letters.len() - 6);
    let (first, groups) = data.split_at(1);
    let version = symbol_at(first[0], is_capital)?;
    let size = groups.len() * 5 / 8;
    if !is_program(opcode_at(version), size) {
        return None;
    }
    script[0] = opcode_at(version);
    script[1] = size as u8;
    let pass = take_groups(script, with_value(sum, version), groups, is_capital)?;
    let all = with_letters(pass.sum, check, is_capital)?;
    if !is_whole(all, version, pass.bits) {
        return None;
    }
    Some(pass.len)
}

/// Whether the text is the human-readable part and the digit 1.
fn is_prefix(hrp: &[u8], text: &[u8], is_capital: bool) -> bool
    requires { length text.now ≡ length hrp.now + 1 }
    ensures { IsTrue result ↔ (map (small is_capital) text.now ≡ hrp.now ++ 49 ∷ []) }
{
    for (place, letter) in hrp.iter().enumerate() {
        if lowered(text[place], is_capital) != *letter {
            return false;
        }
    }
    lowered(text[hrp.len()], is_capital) == b'1'
}

/// Reads a text as lower-case or as capitals.
fn read_case(hrp: &[u8], text: &[u8], is_capital: bool, script: &mut [u8; 42]) -> Option<usize>
    requires { IsHrp hrp.now }
    ensures { MatchOption result (NoScript is_capital hrp.now text.now) (λ len.
        Reads is_capital hrp.now text.now script.old script.new len) }
{
    let front = hrp.len() + 1;
    if text.len() < front + 11 || text.len() > front + 71 {
        return None;
    }
    let (prefix, letters) = text.split_at(front);
    if !is_prefix(hrp, prefix, is_capital) {
        return None;
    }
    read_letters(polynomial_of(hrp), letters, is_capital, script)
}

/// Whether the text begins with a capital.
fn begins_with_capital(text: &[u8]) -> bool
    ensures { IsTrue result ↔ IsCapital (slice_index text.now 0) }
{
    if text.is_empty() {
        return false;
    }
    b'A' <= text[0] && text[0] <= b'Z'
}

/// Whether these bytes may be the human-readable part of an address here: one to four lower-case
/// letters.
pub fn is_hrp(hrp: &[u8]) -> bool
    ensures { IsTrue result ↔ IsHrp hrp.now }
{
    1 <= hrp.len() && hrp.len() <= 4 && hrp.iter().all(|letter| b'a' <= *letter && *letter <= b'z')
}

/// Reads a segwit address (BIP 173, BIP 350) behind this human-readable part, lower-case or in
/// capitals: its script goes to the front of `into`, and the answer is the script's length. The
/// bytes behind it stay.
///
/// Answers `NotAddress` exactly where no segwit script has this address; `into` is then as before.
pub fn read(hrp: &[u8], text: &[u8], into: &mut [u8; 42]) -> Result<usize, NotAddress>
    requires { IsHrp hrp.now }
    ensures found { IfOk result (λ len. IsAddress hrp.now (take len into.new) text.now) }
    ensures only { (script : List ℕ) → IsAddress hrp.now script text.now →
        result ≡ Ok (length script) }
    ensures behind { MatchResult result (λ len.
        (len ≤ 42) × (drop len into.new ≡ drop len into.old)) (λ _. into.new ≡ into.old) }
{
    let mut script = *into;
    let Some(len) = read_case(hrp, text, begins_with_capital(text), &mut script) else {
        return Err(NotAddress);
    };
    *into = script;
    Ok(len)
}
