//! What is read from a part of a path.

ghost use Rattle.std.specs.Prelude.{◌≡◌, ◌≢◌, ◌<◌, ℕ, List, length, ◌∷◌, ◌++◌};
ghost use Rattle.std.specs.Prelude.{IfSome, IfNone, ◌&&◌, nat_le};
ghost use Rattle.std.specs.List.{list_any};
ghost use Rattle.hex.specs.Hex.{IsBytes};
ghost use Rattle.ox_rules.specs.Text.{hash_text};
ghost use Rattle.ox_replies.specs.Texts.{number_in, outpoint_in};
ghost use Rattle.ox_query.specs.Sides.{Sides};
ghost use Rattle.ox_sat.specs.Profiles.{IsProfile};
ghost use Rattle.ox_sat.specs.Spellings.{sat_in};

use ox_block::{OutPoint, Txid};
use ox_sat::{Profile, read_number, read_sat};

/// The number of 64 bits that a part spells, if any.
pub(crate) fn number(part: &[u8]) -> Option<u64>
    ensures { result ≡ number_in part.now }
{
    let Ok(text) = str::from_utf8(part) else {
        return None;
    };
    read_number(text)
}

/// The satoshi that a part spells, if any.
pub(crate) fn satoshi(p: &Profile, part: &[u8]) -> Option<u64>
    requires known { IsProfile p.now }
    ensures exact { result ≡ sat_in p.now part.now }
    ensures minted { IfSome result (λ sat. sat < p.now.supply) }
{
    let Ok(text) = str::from_utf8(part) else {
        return None;
    };
    read_sat(p, text).ok()
}

/// Whether there is a capital letter among these bytes.
fn has_capitals(bytes: &[u8]) -> bool
    ensures { result ≡ list_any (λ c. nat_le 65 c && nat_le c 90) bytes.now }
{
    bytes.iter().any(|byte| byte.is_ascii_uppercase())
}

/// The hash that is printed as these digits, if any: 64 of them in lower case, its last byte first.
/// Capital letters would be decoded too, but no hash is printed with them.
pub fn hash(digits: &[u8]) -> Option<[u8; 32]>
    ensures read { IfSome result (λ hash. digits.now ≡ hash_text hash) }
    ensures long { IfSome result (λ hash. length hash ≡ 32) }
    ensures bytes { IfSome result (λ hash. IsBytes hash) }
    ensures none { IfNone result ((hash : List ℕ) → length hash ≡ 32 → IsBytes hash
        → digits.now ≢ hash_text hash) }
{
    if has_capitals(digits) {
        return None;
    }
    let mut hash = [0; 32];
    let Ok(()) = hex::decode_to_slice(digits, &mut hash) else {
        return None;
    };
    hash.reverse();
    Some(hash)
}

/// What stands on both sides of the colon behind 64 bytes, if there is one.
fn sides(part: &[u8]) -> Option<(&[u8], &[u8])>
    ensures cut { IfSome result (λ x. Sides part.now x.0.now x.1.now) }
    ensures none { IfNone result ((digits rest : List ℕ) → length digits ≡ 64
        → part.now ≢ digits ++ 58 ∷ rest) }
{
    match part.get(64) {
        Some(b':') => Some((&part[..64], &part[65..])),
        _ => None,
    }
}

/// The outpoint that a part spells, if any: its transaction's id as it is printed, a colon, and
/// its index.
pub fn outpoint(part: &[u8]) -> Option<OutPoint>
    ensures { result ≡ outpoint_in part.now }
{
    let (digits, rest) = sides(part)?;
    let txid = Txid(hash(digits)?);
    let index = u32::try_from(number(rest)?).ok()?;
    Some(OutPoint { txid, index })
}
