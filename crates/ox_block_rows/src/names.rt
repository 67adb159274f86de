//! Names of runes, and amounts.

use crate::fields::{long, print_varint, short};
use crate::print::{FILLED, Page, print_bytes_in, print_text_in, put_line};
use ox_name::{
    commitment, is_reserved, minimum, read_name, reserved_name, write_amount, write_name,
    write_spaced,
};

/// The name of this number, whether it is reserved, and the commitment to it.
fn print_name(page: &mut Page, name: u128) {
    let mut letters = [FILLED; 28];
    let len = write_name(name, &mut letters);
    print_text_in(page, &letters, len);
    let mut bytes = [FILLED; 16];
    let len = commitment(name, &mut bytes);
    page.flag("  reserved: ", is_reserved(name));
    page.put(", commitment ");
    print_bytes_in(page, &bytes, len)
}

/// The name of this number with spacers.
fn print_spaced(page: &mut Page, name: u128, spacers: u32) {
    let mut room = [FILLED; 112];
    let len = write_spaced(name, spacers, &mut room);
    print_text_in(page, &room, len)
}

/// An amount with so many decimals, at most 38.
fn print_amount(page: &mut Page, amount: u128, decimals: u128) {
    let mut room = [FILLED; 41];
    let len = write_amount(amount, decimals.min(38) as u8, &mut room);
    print_text_in(page, &room, len)
}

/// What bytes read as a name.
pub fn print_named(page: &mut Page, bytes: &[u8]) {
    put_line!(page; "{:?}", read_name(bytes))
}

/// Prints what a word and numbers say.
pub fn print_numbers(page: &mut Page, word: &str, numbers: [u128; 3]) {
    let [first, second, third] = numbers;
    match word {
        "varint" => print_varint(page, first),
        "name" => print_name(page, first),
        "spaced" => print_spaced(page, first, short(second)),
        "least" => page.count_line("", minimum(long(first), long(second), long(third))),
        "kept" => page.count_line("", reserved_name(short(first), short(second))),
        "amount" => print_amount(page, first, second),
        _ => page.say("no row"),
    }
}
