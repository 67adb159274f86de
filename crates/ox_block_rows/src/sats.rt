//! Profiles, heights and satoshis.

ghost use Rattle.ox_sat.specs.Profiles.{IsProfile};

use crate::print::{FILLED, Page, print_text_in, put, put_line};
use ox_sat::{
    Profile, ProfileName, degree_of, first, height_of, profile_of, rarity_of, read_sat, subsidy,
    write_name,
};

/// The profile that a word names: by its word and its byte, by the byte, and by its numbers.
pub fn print_profile(page: &mut Page, word: &str) {
    let Some(name) = ProfileName::of_word(word.as_bytes()) else {
        return page.say("no profile");
    };
    let byte = name.byte();
    put_line!(page;
        "{} {byte} {:?} {:?}",
        name.word(),
        ProfileName::of_byte(byte),
        profile_of(name)
    )
}

/// How many satoshis a height mints, and the first of them.
fn print_height(page: &mut Page, p: &Profile, height: u64)
    requires { IsProfile p.now }
{
    page.count("", subsidy(p, height) as u128);
    page.count_line(" from ", first(p, height) as u128)
}

/// The satoshi that a text spells: its number, its height, its degree, its rarity and its name.
fn print_sat(page: &mut Page, p: &Profile, text: &str)
    requires { IsProfile p.now }
{
    let Ok(sat) = read_sat(p, text) else {
        return page.say("no satoshi");
    };
    let degree = degree_of(p, sat);
    let rarity = rarity_of(&degree);
    put!(page; "{sat} of {}, {degree:?}, {rarity:?}, ", height_of(p, sat));
    let mut room = [FILLED; 11];
    let len = write_name(p, sat, &mut room);
    print_text_in(page, &room, len)
}

/// Prints what a profile's word and a text behind it say of a height, or of a satoshi.
pub fn print_minted(page: &mut Page, word: &str, text: &str) {
    let (name, text) = text.split_once(' ').unwrap_or((text, ""));
    let Some(name) = ProfileName::of_word(name.as_bytes()) else {
        return page.say("no profile");
    };
    let p = profile_of(name);
    if word == "sat" {
        return print_sat(page, &p, text);
    }
    print_height(page, &p, text.parse().unwrap_or(0))
}
