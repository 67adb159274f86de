//! Where a change leads.

use crate::print::{print_hex, say};
use crate::whole::rows_of;
use crate::words::{NO_ROW, index_and_change_of};
use ox_bytes::Bytes;
use ox_plain::other_end;
use std::alloc::Global;
use std::io;

/// The rows of the index at a change's other end, or why there are none. An index in which the
/// change has an end is spelled, and the change.
fn rows_at_end(alloc: Global, words: &str, back: bool) -> Result<Bytes, &'static str> {
    let (index, change) = index_and_change_of(alloc, words).ok_or(NO_ROW)?;
    match other_end(alloc, &index, &change, back) {
        Ok(Some(end)) => rows_of(alloc, &end).ok().ok_or("no memory"),
        Ok(None) => Err("no end"),
        Err(_) => Err("no memory"),
    }
}

/// Prints the rows of the index at the change's other end; an index and a change are spelled.
pub fn print_lead(rt: &impl Print, alloc: Global, words: &str, back: bool) -> io::Result<()> {
    match rows_at_end(alloc, words, back) {
        Ok(rows) => print_rows(rt, rows.as_slice()),
        Err(why) => say(rt, why),
    }
}

/// Rows, in a line.
fn print_rows(rt: &impl Print, rows: &[u8]) -> io::Result<()> {
    print_hex(rt, rows)?;
    say(rt, "")
}
