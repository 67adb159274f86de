//! Streams of requests, and what they begin with.

use crate::print::{NO_ROW, Page, print_hex};
use crate::spell::append;
use ox_http::{Method, Parsed, Request, request_of};
use std::alloc::Global;

/// Of more bytes than these the number alone is printed.
const MOST_SHOWN: usize = 200;

/// Appends what a part spells: hex digits, or how many times the same; `-` spells nothing.
fn append_part(alloc: Global, bytes: &mut Vec<u8>, word: &str) -> Option<()> {
    let (times, digits) = word.split_once('*').unwrap_or(("1", word));
    append(alloc, bytes, times.parse().unwrap_or(0), digits)
}

/// The stream of parts, which stand behind one another with this between them. `None` also where
/// there is no memory for it.
pub fn stream_of(alloc: Global, parts: &str, between: char) -> Option<Vec<u8>> {
    let mut stream = Vec::new(alloc);
    for part in parts.split(between) {
        append_part(alloc, &mut stream, part)?;
    }
    Some(stream)
}

/// Bytes in hex digits, or how many they are.
pub fn print_some(page: &mut Page, bytes: &[u8]) {
    if bytes.len() > MOST_SHOWN {
        page.count("(", bytes.len() as u128);
        return page.put(" bytes)");
    }
    print_hex(page, bytes)
}

/// The same in a line.
pub fn print_some_line(page: &mut Page, bytes: &[u8]) {
    print_some(page, bytes);
    page.say("")
}

fn word_of(method: Method) -> &'static str {
    match method {
        Method::Get => "GET ",
        Method::Post => "POST ",
        Method::Other => "other ",
    }
}

/// A request: its method, path and body, and whether it closes.
pub fn print_request(page: &mut Page, request: &Request) {
    page.put(word_of(request.method));
    print_some(page, request.path.as_slice());
    page.put(" body ");
    print_some(page, request.body.as_slice());
    page.say(if request.close { " close" } else { "" })
}

/// What a stream begins with.
fn print_first(page: &mut Page, parsed: &Parsed) {
    match parsed {
        Parsed::Whole { request, .. } => print_request(page, request),
        Parsed::More => page.say("more"),
        Parsed::Bad(status) => page.count_line("fault ", *status as u128),
    }
}

/// How many bytes a message has, if another may stand behind it.
fn used_by(parsed: &Parsed) -> Option<usize> {
    match parsed {
        Parsed::Whole { request, used } if !request.close => Some(*used),
        _ => None,
    }
}

/// A message, or how many bytes are left. Answers how many bytes a message has, if another may
/// stand behind it.
fn print_message(page: &mut Page, rest: &[u8], parsed: &Parsed) -> Option<usize> {
    match parsed {
        Parsed::More => page.count_line("left ", rest.len() as u128),
        _ => print_first(page, parsed),
    }
    used_by(parsed)
}

/// The message in front, as `print_message` prints it.
fn print_next(page: &mut Page, alloc: Global, rest: &[u8]) -> Option<usize> {
    match request_of(alloc, rest) {
        Ok(parsed) => print_message(page, rest, &parsed),
        Err(_) => {
            page.say(NO_ROW);
            None
        }
    }
}

/// The messages of a stream.
pub fn print_talk(page: &mut Page, alloc: Global, stream: &[u8]) {
    let mut at: usize = 0;
    for _ in 0..=stream.len() {
        match print_next(page, alloc, stream.get(at..).unwrap_or_default()) {
            Some(used) => at = at.saturating_add(used),
            None => break,
        }
    }
}

/// What a stream says in front: nothing yet, a fault (0), or a request of so many bytes. `None`
/// also where there is no memory for it.
pub fn length_in_front(alloc: Global, stream: &[u8]) -> Option<usize> {
    match request_of(alloc, stream) {
        Ok(Parsed::Whole { used, .. }) => Some(used),
        Ok(Parsed::Bad(_)) => Some(0),
        _ => None,
    }
}

/// What a front says, where it does for the first time, and whether it stays so behind what was
/// found. Answers what is found then.
fn print_front(
    page: &mut Page,
    alloc: Global,
    front: &[u8],
    found: Option<usize>,
    whole: Option<usize>,
) -> Option<usize> {
    let now = length_in_front(alloc, front);
    if found.is_none() && now.is_some() {
        page.count("", front.len() as u128);
        page.put(": ");
        print_next(page, alloc, front);
    }
    let found = found.or(now);
    if now != found || (found.is_some() && now != whole) {
        page.say("what was said is gone");
    }
    found
}

/// At which length a stream says something for the first time, and what; whether it stays so.
pub fn print_growth(page: &mut Page, alloc: Global, stream: &[u8]) {
    let whole = length_in_front(alloc, stream);
    let mut found = None;
    for heard in 0..=stream.len() {
        let front = stream.get(..heard).unwrap_or_default();
        found = print_front(page, alloc, front, found, whole);
    }
    if found.is_none() {
        page.say("more");
    }
}
