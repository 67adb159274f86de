//! How satoshis and outpoints are written in replies.

ghost use Rattle.std.specs.Prelude.{◌≡◌, ◌+◌, ◌<◌, ◌≤◌, ◌++◌, decimal, length};
ghost use Rattle.serde_json.specs.Data.{string};
ghost use Rattle.ox_replies.specs.Texts.{decimal_text, degree_text, rarity_text};
ghost use Rattle.ox_query.specs.Written.{Adds, tokens_of};
ghost use Rattle.ox_rules.specs.Text.{outpoint_text};
ghost use Rattle.ox_sat.specs.Names.{name_of};
ghost use Rattle.ox_sat.specs.Profiles.{IsProfile};

use crate::bodies::Body;
use crate::values::text_of;
use arrayvec::ArrayString;
use itoa::Buffer;
use ox_block::OutPoint;
use ox_rules::hash_digits;
use ox_sat::{Degree, Profile, Rarity, first, height_of};

/// A satoshi's height and its place in that block, with a point between.
fn decimal_text(p: &Profile, sat: u64) -> ArrayString<41>
    requires known { IsProfile p.now }
    requires minted { sat < p.now.supply }
    ensures { result.bytes ≡ decimal_text p.now sat }
{
    let height = height_of(p, sat);
    let mut text = ArrayString::new();
    text.push_str(Buffer::new().format(height));
    text.push_str(".");
    text.push_str(Buffer::new().format(sat - first(p, height)));
    text
}

/// Writes a satoshi's height and its place in that block, with a point between.
pub(crate) fn write_decimal(out: &mut Body, p: &Profile, sat: u64)
    requires known { IsProfile p.now }
    requires minted { sat < p.now.supply }
    ensures { Adds out.old out.new (tokens_of (string (decimal_text p.now sat))) }
{
    out.string(decimal_text(p, sat).as_str());
}

/// Puts a number and the mark behind it.
fn push_part(text: &mut ArrayString<91>, number: u64, mark: &str)
    requires { length text.old.bytes + 20 + length mark.now ≤ 91 }
    ensures bytes { text.new.bytes ≡ text.old.bytes ++ decimal number ++ mark.now }
    ensures len { length text.new.bytes ≤ length text.old.bytes + 20 + length mark.now }
{
    text.push_str(Buffer::new().format(number));
    text.push_str(mark);
}

/// A degree as the Ordinal Theory Handbook writes it: hour°minute′second″third‴.
fn degree_text(degree: &Degree) -> ArrayString<91>
    ensures { result.bytes ≡ degree_text degree.now }
{
    let mut text = ArrayString::new();
    push_part(&mut text, degree.hour, "°");
    push_part(&mut text, degree.minute, "′");
    push_part(&mut text, degree.second, "″");
    push_part(&mut text, degree.third, "‴");
    text
}

/// Writes a degree as the Ordinal Theory Handbook does.
pub(crate) fn write_degree(out: &mut Body, degree: &Degree)
    ensures { Adds out.old out.new (tokens_of (string (degree_text degree.now))) }
{
    out.string(degree_text(degree).as_str());
}

/// The word of a rarity.
pub(crate) fn rarity_word(rarity: Rarity) -> &'static str
    ensures { result.now ≡ rarity_text rarity }
{
    match rarity {
        Rarity::Common => "common",
        Rarity::Uncommon => "uncommon",
        Rarity::Rare => "rare",
        Rarity::Epic => "epic",
        Rarity::Legendary => "legendary",
        Rarity::Mythic => "mythic",
    }
}

/// Writes a satoshi's name.
pub(crate) fn write_sat_name(out: &mut Body, p: &Profile, sat: u64)
    requires known { IsProfile p.now }
    requires minted { sat < p.now.supply }
    ensures { Adds out.old out.new (tokens_of (string (name_of p.now sat))) }
{
    let mut letters = [0; 11];
    let len = ox_sat::write_name(p, sat, &mut letters);
    out.string(text_of(&letters[..len]));
}

/// An outpoint as it is printed.
#[tactic(auto, unfolding(ox_rules::specs::Text::outpoint_text))]
fn outpoint_text(at: &OutPoint) -> ArrayString<75>
    ensures { result.bytes ≡ outpoint_text at.now }
{
    let mut text = ArrayString::new();
    text.push_str(text_of(&hash_digits(&at.txid.0)));
    text.push_str(":");
    text.push_str(Buffer::new().format(at.index));
    text
}

/// Writes an outpoint as it is printed.
pub(crate) fn write_outpoint(out: &mut Body, at: &OutPoint)
    ensures { Adds out.old out.new (tokens_of (string (outpoint_text at.now))) }
{
    out.string(outpoint_text(at).as_str());
}
