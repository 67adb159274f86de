//! The three spellings of a satoshi.

ghost use Rattle.std.specs.Prelude.{◌≡◌, ◌≢◌, ℕ, ◌+◌, ◌^◌, ◌<◌, ◌≤◌, ◌↔◌, ◌⊎◌, List, ◌∷◌, ◌++◌};
ghost use Rattle.std.specs.Prelude.{length, slice_index, All, IsTrue, IfSome, IfNone, IfOk, OnErr};
ghost use Rattle.std.specs.Prelude.{decimal};
ghost use Rattle.ox_sat.specs.Profiles.{IsProfile};
ghost use Rattle.ox_sat.specs.Heights.{subsidy_at, first_at};
ghost use Rattle.ox_sat.specs.Names.{IsLetter, letters_value, name_of, IsNameOf};
ghost use Rattle.ox_sat.specs.Spellings.{IsPlain, IsNumberOf, IsDecimalOf, Spells, sat_in};
ghost use Rattle.std.specs.Result.{result_ok};

use crate::heights::{first, subsidy};
use crate::profiles::Profile;

/// The text is none of a satoshi's three spellings.
#[derive(Clone, Copy, Debug, PartialEq, Eq)]
pub struct NotSat;

/// Whether digits with this beginning have neither a sign nor a leading zero, `0` aside.
fn begins_plainly(text: &[u8]) -> bool
    ensures { IsTrue result ↔ IsPlain text.now }
{
    match text.first() {
        Some(b'+') => false,
        Some(b'0') => text.len() == 1,
        _ => true,
    }
}

/// The number that this text writes: decimal digits with no sign and no leading zero, `0` aside.
/// `None` exactly where the text writes none below 18,446,744,073,709,551,616.
pub fn read_number(text: &str) -> Option<u64>
    ensures reads { IfSome result (λ n. text.now ≡ decimal n) }
    ensures small { IfSome result (λ n. n < 2 ^ 64) }
    ensures none { IfNone result ((n : ℕ) → n < 2 ^ 64 → text.now ≢ decimal n) }
{
    if !begins_plainly(text.as_bytes()) {
        return None;
    }
    text.parse().ok()
}

/// The number that these letters write, where nothing but letters a to z is among them.
fn read_letters(text: &[u8]) -> Option<u64>
    requires { length text.now ≤ 11 }
    ensures reads { IfSome result (λ x. letters_value text.now ≡ x) }
    ensures letters { IfSome result (λ _. All IsLetter text.now) }
    ensures none { IfNone result (¬ All IsLetter text.now) }
{
    let mut value = 0;
    for letter in text {
        if !letter.is_ascii_lowercase() {
            return None;
        }
        value = 26 * value + u64::from(*letter - b'a') + 1;
    }
    Some(value)
}

/// The satoshi of this name.
fn read_name(p: &Profile, text: &[u8]) -> Option<u64>
    requires { IsProfile p.now }
    ensures reads { IfSome result (λ sat. IsNameOf p.now sat text.now) }
    ensures none { IfNone result ((sat : ℕ) → ¬ IsNameOf p.now sat text.now) }
{
    if text.is_empty() || text.len() > 11 {
        return None;
    }
    let value = read_letters(text)?;
    p.supply.checked_sub(value)
}

/// The satoshi at this place of the block of this height.
fn read_decimal(p: &Profile, height: &str, offset: &str) -> Option<u64>
    requires { IsProfile p.now }
    ensures reads { IfSome result (λ sat. IsDecimalOf p.now sat (height.now ++ 46 ∷ offset.now)) }
    ensures none { IfNone result ((h o : ℕ) →
        o < subsidy_at p.now h → height.now ≡ decimal h → offset.now ≢ decimal o) }
{
    let height = read_number(height)?;
    let offset = read_number(offset)?;
    if offset < subsidy(p, height) {
        Some(first(p, height) + offset)
    } else {
        None
    }
}

/// The satoshi of this number or this name.
fn read_undivided(p: &Profile, text: &str) -> Option<u64>
    requires { IsProfile p.now }
    ensures reads { IfSome result (λ sat.
        IsNumberOf p.now sat text.now ⊎ IsNameOf p.now sat text.now) }
    ensures number { IfNone result ((sat : ℕ) → ¬ IsNumberOf p.now sat text.now) }
    ensures name { IfNone result ((sat : ℕ) → ¬ IsNameOf p.now sat text.now) }
{
    match read_number(text) {
        Some(sat) if sat < p.supply => Some(sat),
        _ => read_name(p, text.as_bytes()),
    }
}

/// The satoshi that this text spells, if any.
fn spelled(p: &Profile, text: &str) -> Option<u64>
    requires { IsProfile p.now }
    ensures reads { IfSome result (λ sat. Spells p.now sat text.now) }
    ensures none { IfNone result ((sat : ℕ) → ¬ Spells p.now sat text.now) }
{
    match text.split_once('.') {
        Some((height, offset)) => read_decimal(p, height, offset),
        None => read_undivided(p, text),
    }
}

/// The satoshi that this text spells: by its number, as `2099994106992659`; by its decimal, the
/// height and the place in that block, as `3891094.16797`; or by its name, as `satoshi`.
///
/// Numbers are decimal digits with no sign and no leading zero, `0` aside. `NotSat` comes exactly
/// where the text is none of the three: also for a number from the supply on, a place that the
/// block of that height doesn't mint, and a name of twelve letters or of a number above the supply.
pub fn read_sat(p: &Profile, text: &str) -> Result<u64, NotSat>
    requires { IsProfile p.now }
    ensures value { result_ok result ≡ sat_in p.now text.now }
    ensures ok { IfOk result (λ sat. Spells p.now sat text.now) }
    ensures minted { IfOk result (λ sat. sat < p.now.supply) }
    ensures err { OnErr result ((sat : ℕ) → ¬ Spells p.now sat text.now) }
{
    spelled(p, text).ok_or(NotSat)
}

/// What is written reads as what was meant: a satoshi's number, its decimal and the name that
/// `write_name` writes spell it, and no text spells two satoshis.
pub fn spellings_read_back(p: &Profile)
    requires { IsProfile p.now }
    ensures number { (sat : ℕ) → sat < p.now.supply → Spells p.now sat (decimal sat) }
    ensures decimal { (height offset : ℕ) → offset < subsidy_at p.now height →
        Spells p.now (first_at p.now height + offset) (decimal height ++ 46 ∷ decimal offset) }
    ensures name { (sat : ℕ) → sat < p.now.supply → Spells p.now sat (name_of p.now sat) }
    ensures one { (text : List ℕ) (a b : ℕ) →
        Spells p.now a text → Spells p.now b text → a ≡ b }
{
    let _supply = p.supply;
}
