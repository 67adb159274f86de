//! The writing of an address.

ghost use Rattle.std.specs.Prelude.{◌≡◌, ℕ, ◌+◌, ◌-◌, ◌*◌, ◌^◌, ◌<◌, ◌≤◌, ◌∷◌, [], ◌++◌, List};
ghost use Rattle.std.specs.Prelude.{length, take, drop, slice_index, fold, replicate, bit_xor};
ghost use Rattle.std.specs.Prelude.{MatchOption, IfSome};
ghost use Rattle.ox_address.specs.Digits.{number, digits};
ghost use Rattle.ox_address.specs.Address.{IsHrp, IsSegwit, address_of, version_of, groups};
ghost use Rattle.ox_address.specs.Address.{symbols_of};
ghost use Rattle.ox_address.specs.Checksum.{step, wanted, checksum};
ghost use Rattle.ox_address.specs.Passes.{Wrote, Packs, SumIs, StandsIn};

use crate::bits::Bits;
use crate::checksum::{polynomial_of, wanted_of, with_value};
use crate::letters::letter_at;

/// An address as far as it is written: its length, and the polynomial of its values.
#[derive(Clone, Copy)]
struct Text {
    len: usize,
    sum: u32,
}

/// The version of a segwit script.
fn version_in(script: &[u8]) -> Option<u8>
    ensures { MatchOption result (¬ IsSegwit script.now) (λ version.
        IsSegwit script.now × (version ≡ version_of (slice_index script.now 0))) }
{
    let [opcode, size, program @ ..] = script else {
        return None;
    };
    if *size as usize != program.len() {
        return None;
    }
    match (*opcode, *size) {
        (0, 20 | 32) => Some(0),
        (0x51..=0x60, 2..=40) => Some(*opcode - 0x50),
        _ => None,
    }
}

/// Writes a human-readable part and the digit 1.
fn put_hrp(hrp: &[u8], into: &mut [u8; 90]) -> Text
    requires { length hrp.now ≤ 4 }
    ensures len { result.len ≡ length hrp.now + 1 }
    ensures wrote { Wrote hrp.now [] into.old into.new result.len }
    ensures sum { SumIs hrp.now [] result.sum }
    ensures bounded { result.sum < 2 ^ 30 }
{
    for (place, letter) in hrp.iter().enumerate() {
        into[place] = *letter;
    }
    into[hrp.len()] = b'1';
    Text {
        len: hrp.len() + 1,
        sum: polynomial_of(hrp),
    }
}

/// Writes the letter of one symbol more.
#[inline(always)]
fn put_letter(into: &mut [u8; 90], len: usize, symbol: u8)
    requires room { len < 90 }
    requires symbol { symbol < 32 }
    ensures { (hrp symbols before : List ℕ) →
        Wrote hrp symbols before into.old len →
        Wrote hrp (symbols ++ symbol ∷ []) before into.new (len + 1) }
{
    into[len] = letter_at(symbol);
}

/// Writes one symbol more, which the polynomial takes in.
#[inline(always)]
fn put(into: &mut [u8; 90], text: &mut Text, symbol: u8)
    requires room { text.old.len < 90 }
    requires bounded { text.old.sum < 2 ^ 30 }
    requires symbol { symbol < 32 }
    ensures len { text.new.len ≡ text.old.len + 1 }
    ensures bounded { text.new.sum < 2 ^ 30 }
    ensures wrote { (hrp symbols before : List ℕ) →
        Wrote hrp symbols before into.old text.old.len →
        Wrote hrp (symbols ++ symbol ∷ []) before into.new text.new.len }
    ensures sum { (hrp symbols : List ℕ) →
        SumIs hrp symbols text.old.sum → SumIs hrp (symbols ++ symbol ∷ []) text.new.sum }
{
    put_letter(into, text.len, symbol);
    text.len += 1;
    text.sum = with_value(text.sum, symbol);
}

/// Writes the first five of the bits that wait, if there are so many.
#[inline(always)]
fn put_group(into: &mut [u8; 90], text: &mut Text, bits: &mut Bits)
    requires room { text.old.len < 90 }
    requires bounded { text.old.sum < 2 ^ 30 }
    requires within { bits.old.value < 2 ^ bits.old.count }
    requires few { bits.old.count ≤ 12 }
    ensures len { text.new.len ≤ text.old.len + 1 }
    ensures bounded { text.new.sum < 2 ^ 30 }
    ensures within { bits.new.value < 2 ^ bits.new.count }
    ensures fewer { 5 ≤ bits.old.count → bits.new.count ≡ bits.old.count - 5 }
    ensures same { bits.old.count < 5 → bits.new.count ≡ bits.old.count }
    ensures packs { (hrp front before : List ℕ) (whole total : ℕ) →
        Packs hrp front before into.old text.old.len text.old.sum whole total
        bits.old.value bits.old.count →
        Packs hrp front before into.new text.new.len text.new.sum whole total
        bits.new.value bits.new.count }
{
    if bits.count >= 5 {
        let group = bits.take_front(5);
        put(into, text, group);
    }
}

/// Writes the groups that one byte more of the program fills.
#[inline(always)]
fn put_byte(into: &mut [u8; 90], text: &mut Text, bits: &mut Bits, byte: u8)
    requires room { text.old.len < 89 }
    requires bounded { text.old.sum < 2 ^ 30 }
    requires within { bits.old.value < 2 ^ bits.old.count }
    requires few { bits.old.count < 5 }
    ensures len { text.new.len ≤ text.old.len + 2 }
    ensures bounded { text.new.sum < 2 ^ 30 }
    ensures within { bits.new.value < 2 ^ bits.new.count }
    ensures few { bits.new.count < 5 }
    ensures packs { (hrp front before : List ℕ) (whole total : ℕ) →
        Packs hrp front before into.old text.old.len text.old.sum whole total
        bits.old.value bits.old.count →
        Packs hrp front before into.new text.new.len text.new.sum (whole * 256 + byte)
        (total + 8) bits.new.value bits.new.count }
{
    let more = bits.with(8, byte);
    *bits = more;
    put_group(into, text, bits);
    put_group(into, text, bits);
}

/// Writes a last group of the bits that wait and zeros, if there are bits.
fn put_last(into: &mut [u8; 90], text: &mut Text, bits: Bits)
    requires room { text.old.len < 90 }
    requires bounded { text.old.sum < 2 ^ 30 }
    requires within { bits.value < 2 ^ bits.count }
    requires few { bits.count < 5 }
    ensures bounded { text.new.sum < 2 ^ 30 }
    ensures wrote { (hrp front before bytes : List ℕ) →
        Packs hrp front before into.old text.old.len text.old.sum (number 256 bytes)
        (8 * length bytes) bits.value bits.count →
        StandsIn hrp (front ++ groups bytes) before into.new text.new.len text.new.sum }
{
    if bits.count > 0 {
        let mut full = bits.with(5 - bits.count, 0);
        put_group(into, text, &mut full);
    }
}

/// Writes the groups of a program.
fn put_program(into: &mut [u8; 90], text: &mut Text, program: &[u8])
    requires room { text.old.len ≤ 6 }
    requires bounded { text.old.sum < 2 ^ 30 }
    requires short { length program.now ≤ 40 }
    ensures bounded { text.new.sum < 2 ^ 30 }
    ensures wrote { (hrp front before : List ℕ) →
        StandsIn hrp front before into.old text.old.len text.old.sum →
        StandsIn hrp (front ++ groups program.now) before into.new text.new.len text.new.sum }
{
    let mut bits = Bits::none();
    for byte in program {
        put_byte(into, text, &mut bits, *byte);
    }
    put_last(into, text, bits);
}

/// The number that the six symbols of the checksum spell, behind values of this polynomial.
fn checksum_after(mut sum: u32, version: u8) -> u32
    requires { sum < 2 ^ 30 }
    ensures value { result ≡ bit_xor (fold step sum (replicate 6 0)) (wanted version) }
    ensures bounded { result < 2 ^ 30 }
{
    for _place in 0..6u8 {
        sum = with_value(sum, 0);
    }
    sum ^ wanted_of(version)
}

/// Writes the six letters of a number, and answers where they end.
fn put_six(into: &mut [u8; 90], len: usize, number: u32) -> usize
    requires room { len ≤ 84 }
    requires bounded { number < 2 ^ 30 }
    ensures { (hrp symbols before : List ℕ) →
        Wrote hrp symbols before into.old len →
        Wrote hrp (symbols ++ digits 32 6 number) before into.new result }
{
    for place in 0..6u32 {
        let symbol = ((number >> (25 - 5 * place)) % 32) as u8;
        put_letter(into, len + place as usize, symbol);
    }
    len + 6
}

/// Writes the address of a segwit script of this version, and answers its length.
fn write_segwit(hrp: &[u8], version: u8, script: &[u8], into: &mut [u8; 90]) -> usize
    requires hrp { IsHrp hrp.now }
    requires segwit { IsSegwit script.now }
    requires version { version ≡ version_of (slice_index script.now 0) }
    ensures { Wrote hrp.now
        (symbols_of script.now ++ checksum hrp.now (symbols_of script.now)) into.old into.new
        result }
{
    let (_, program) = script.split_at(2);
    let mut text = put_hrp(hrp, into);
    put(into, &mut text, version);
    put_program(into, &mut text, program);
    let number = checksum_after(text.sum, version);
    put_six(into, text.len, number)
}

/// Writes the address of a segwit script (BIP 141, "Witness program"), lower-case, to the front of
/// `into`, and answers its length. The bytes behind it stay.
///
/// Answers nothing exactly where the script is no segwit script; `into` is then as before.
pub fn write(hrp: &[u8], script: &[u8], into: &mut [u8; 90]) -> Option<usize>
    requires { IsHrp hrp.now }
    ensures exact { MatchOption result (¬ IsSegwit script.now) (λ len.
        IsSegwit script.now × (take len into.new ≡ address_of hrp.now script.now)) }
    ensures length { IfSome result (λ len. len ≡ length (address_of hrp.now script.now)) }
    ensures behind { MatchOption result (into.new ≡ into.old) (λ len.
        drop len into.new ≡ drop len into.old) }
{
    let version = version_in(script)?;
    Some(write_segwit(hrp, version, script, into))
}
