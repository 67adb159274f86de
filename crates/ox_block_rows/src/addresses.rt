//! What scripts are written as and texts are read as, behind a human-readable part.

ghost use Rattle.ox_address.specs.Address.{IsHrp};

use crate::print::{FILLED, NO_ROW, Page, is_untouched, print_hex};
use crate::spell::{bytes_of, four_of};
use ox_address::{is_hrp, read, write};
use std::alloc::Global;

/// The address of a script.
fn print_written(page: &mut Page, hrp: &[u8], script: &[u8])
    requires { IsHrp hrp.now }
{
    let mut room = [FILLED; 90];
    let Some(len) = write(hrp, script, &mut room) else {
        return page.flag_line("no segwit script, untouched: ", is_untouched(&room));
    };
    let (front, behind) = room.split_at(len.min(90));
    page.put(str::from_utf8(front).unwrap_or("no text"));
    page.count(" ", len as u128);
    page.flag_line(", untouched: ", is_untouched(behind))
}

/// The script of a text.
fn print_read(page: &mut Page, hrp: &[u8], text: &[u8])
    requires { IsHrp hrp.now }
{
    let mut room = [FILLED; 42];
    let Ok(len) = read(hrp, text, &mut room) else {
        return page.flag_line("no address, untouched: ", is_untouched(&room));
    };
    let (script, behind) = room.split_at(len.min(42));
    print_hex(page, script);
    page.count(" ", len as u128);
    page.flag_line(", untouched: ", is_untouched(behind))
}

/// Whether a text is read as some script.
fn is_address(hrp: &[u8], text: &[u8]) -> bool
    requires { IsHrp hrp.now }
{
    let mut room = [FILLED; 42];
    read(hrp, text, &mut room).is_ok()
}

/// Each text with another byte at this place that is an address. Answers how many aren't.
fn print_others(page: &mut Page, hrp: &[u8], text: &mut Vec<u8>, place: usize, byte: u8) -> u32
    requires { IsHrp hrp.now }
{
    let mut refused: u32 = 0;
    for other in 0..=255u8 {
        if let Some(at) = text.get_mut(place) {
            *at = other;
        }
        if !is_address(hrp, text) {
            refused = refused.saturating_add(1);
        } else if other != byte {
            page.count("  ", place as u128);
            page.count_line(" ", other as u128);
        }
    }
    if let Some(at) = text.get_mut(place) {
        *at = byte;
    }
    refused
}

/// Each text with one byte changed that is an address, and how many aren't.
fn print_changes(page: &mut Page, hrp: &[u8], text: &mut Vec<u8>)
    requires { IsHrp hrp.now }
{
    let mut refused: u32 = 0;
    for place in 0..text.len() {
        let byte = text.get(place).copied().unwrap_or(0);
        refused = refused.saturating_add(print_others(page, hrp, text, place, byte));
    }
    page.count("", refused as u128);
    page.say(" refused")
}

/// Each text with two neighbours exchanged that is an address, and how many aren't.
fn print_swaps(page: &mut Page, hrp: &[u8], text: &mut Vec<u8>)
    requires { IsHrp hrp.now }
{
    let mut refused: u32 = 0;
    for place in 1..text.len() {
        if place >= text.len() {
            break;
        }
        text.swap(place - 1, place);
        if is_address(hrp, text) {
            page.count_line("  ", place as u128);
        } else {
            refused = refused.saturating_add(1);
        }
        if place < text.len() {
            text.swap(place - 1, place);
        }
    }
    page.count("", refused as u128);
    page.say(" refused")
}

/// Writes a script, and reads its address where that is asked: a byte of what came out.
fn once(hrp: &[u8], script: &[u8], is_read: bool) -> u8
    requires { IsHrp hrp.now }
{
    let mut text = [0; 90];
    let Some(len) = write(hrp, script, &mut text) else {
        return 0;
    };
    let (front, _) = text.split_at(len.min(90));
    if !is_read {
        return front.last().copied().unwrap_or(0);
    }
    let mut room = [0; 42];
    match read(hrp, front, &mut room) {
        Ok(size) => room.get(size.wrapping_sub(1)).copied().unwrap_or(0),
        Err(_) => 0,
    }
}

/// The sum over so many turns, each with another last byte of the script.
fn sum_of(hrp: &[u8], script: &mut Vec<u8>, times: u32, is_read: bool) -> u32
    requires { IsHrp hrp.now }
{
    let mut sum: u32 = 0;
    for turn in 0..times {
        if let Some(last) = script.last_mut() {
            *last = (turn % 256) as u8;
        }
        sum = sum.wrapping_add(once(hrp, script, is_read) as u32);
    }
    sum
}

/// Prints what is asked of some bytes.
fn run(page: &mut Page, word: &str, hrp: &[u8], bytes: &mut Vec<u8>)
    requires { IsHrp hrp.now }
{
    match word {
        "write" => print_written(page, hrp, bytes),
        "read" => print_read(page, hrp, bytes),
        "changes" => print_changes(page, hrp, bytes),
        _ => print_swaps(page, hrp, bytes),
    }
}

/// The same of the bytes that hex digits spell.
fn run_digits(page: &mut Page, alloc: Global, word: &str, hrp: &[u8], digits: &str)
    requires { IsHrp hrp.now }
{
    match bytes_of(alloc, digits) {
        Some(mut bytes) => run(page, word, hrp, &mut bytes),
        None => page.say(NO_ROW),
    }
}

/// Prints what a human-readable part and the bytes behind it say.
pub fn print_address(page: &mut Page, alloc: Global, word: &str, text: &str) {
    let (hrp, digits) = text.split_once(' ').unwrap_or((text, "-"));
    let hrp = hrp.as_bytes();
    if is_hrp(hrp) {
        run_digits(page, alloc, word, hrp, digits)
    } else {
        page.say("no human-readable part")
    }
}

/// The sum of a row: its work, its human-readable part, its script, and how often.
fn repeated(alloc: Global, text: &str) -> Option<u32> {
    let (work, hrp, digits, times) = four_of(text)?;
    let hrp = hrp.as_bytes();
    if !is_hrp(hrp) {
        return None;
    }
    let mut script = bytes_of(alloc, digits)?;
    let times = times.parse().unwrap_or(0);
    Some(sum_of(hrp, &mut script, times, work == "both"))
}

/// Prints the sum of a row.
pub fn print_repeated(page: &mut Page, alloc: Global, text: &str) {
    match repeated(alloc, text) {
        Some(sum) => page.count_line("", sum as u128),
        None => page.say(NO_ROW),
    }
}
