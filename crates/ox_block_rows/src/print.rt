//! Bytes in hex digits and as text, and what is written into room.

use std::alloc::{AllocError, Global};

/// More bytes than these are shown by their number alone, and by how many of them are digits.
const MOST_SHOWN: usize = 80;

/// What stands in room before it is written into.
pub const FILLED: u8 = 0x5a;

/// What is said of a row that can't be read, or for which there is no memory.
pub const NO_ROW: &str = "no row, or no memory";

/// Puts what `write!` writes on a page.
macro_rules! put {
    ($page:ident; $($written:tt)*) => {{
        let put = write!($page.text, $($written)*);
        $page.keep(put)
    }};
}

/// The same, in a line.
macro_rules! put_line {
    ($page:ident; $($written:tt)*) => {{
        let put = writeln!($page.text, $($written)*);
        $page.keep(put)
    }};
}

/// What a row prints.
#[derive(Drop)]
pub struct Page {
    /// What is printed so far.
    pub text: String,
    /// Whether there was memory for all of it.
    is_whole: bool,
}

impl Page {
    /// A page on which nothing is printed.
    pub fn new(alloc: Global) -> Page {
        Page {
            text: String::new(alloc),
            is_whole: true,
        }
    }

    /// What is printed, or that there was no memory for it.
    pub fn as_str(&self) -> &str {
        if self.is_whole {
            return self.text.as_str();
        }
        "no memory\n"
    }

    /// Clears the page.
    pub fn clear(&mut self) {
        self.text.clear();
        self.is_whole = true;
    }

    /// Keeps in mind whether something could be put on the page.
    pub fn keep(&mut self, put: Result<(), AllocError>) {
        if put.is_err() {
            self.is_whole = false;
        }
    }

    /// Puts a text.
    pub fn put(&mut self, text: &str) {
        let put = self.text.push_str(text);
        self.keep(put);
    }

    /// Puts a text, in a line.
    pub fn say(&mut self, text: &str) {
        self.put(text);
        self.put("\n");
    }

    /// Puts a text and a number behind it.
    pub fn count(&mut self, text: &str, number: u128) {
        let put = write!(self.text, "{text}{number}");
        self.keep(put)
    }

    /// Puts a text and a number behind it, in a line.
    pub fn count_line(&mut self, text: &str, number: u128) {
        self.count(text, number);
        self.put("\n");
    }

    /// Puts a text, and behind it whether something is so.
    pub fn flag(&mut self, text: &str, is_so: bool) {
        self.put(text);
        self.put(if is_so { "true" } else { "false" });
    }

    /// Puts a text, and behind it whether something is so, in a line.
    pub fn flag_line(&mut self, text: &str, is_so: bool) {
        self.flag(text, is_so);
        self.put("\n");
    }
}

pub(crate) use put;
pub(crate) use put_line;

/// Bytes in hex digits.
pub fn print_hex(page: &mut Page, bytes: &[u8]) {
    for byte in bytes {
        put!(page; "{byte:02x}");
    }
}

/// How many of some bytes are digits.
fn digits_in(bytes: &[u8]) -> usize {
    let mut digits: usize = 0;
    for byte in bytes {
        digits = digits.saturating_add(usize::from(byte.is_ascii_digit()));
    }
    digits
}

/// Bytes in hex digits, or how many they are.
pub fn print_bytes(page: &mut Page, bytes: &[u8]) {
    if bytes.len() > MOST_SHOWN {
        page.count("", bytes.len() as u128);
        page.count(" bytes, ", digits_in(bytes) as u128);
        return page.put(" digits");
    }
    print_hex(page, bytes)
}

/// Bytes in hex digits, in a line.
pub fn print_line(page: &mut Page, bytes: &[u8]) {
    print_hex(page, bytes);
    page.say("")
}

/// Whether nothing was written into these.
pub fn is_untouched(behind: &[u8]) -> bool {
    for byte in behind {
        if *byte != FILLED {
            return false;
        }
    }
    true
}

/// So many bytes in front of room in hex digits, and whether nothing was written behind them.
pub fn print_bytes_in(page: &mut Page, room: &[u8], len: usize) {
    let (front, behind) = room.split_at(len.min(room.len()));
    print_hex(page, front);
    page.flag_line(", untouched: ", is_untouched(behind))
}

/// The same of a text.
pub fn print_text_in(page: &mut Page, room: &[u8], len: usize) {
    let (front, behind) = room.split_at(len.min(room.len()));
    page.put(str::from_utf8(front).unwrap_or("no text"));
    page.flag_line(", untouched: ", is_untouched(behind))
}
