//! Texts, and bytes in hex digits.

use std::io;

/// A text, in a line.
pub fn say(rt: &impl Print, text: &str) -> io::Result<()> {
    println!(rt; "{text}")
}

/// Bytes as they stand.
pub fn print_hex(rt: &impl Print, bytes: &[u8]) -> io::Result<()> {
    for byte in bytes {
        print!(rt; "{byte:02x}")?;
    }
    Ok(())
}

/// A hash or an id, in reversed order.
pub fn print_hash(rt: &impl Print, hash: &[u8; 32]) -> io::Result<()> {
    let mut reversed = *hash;
    reversed.reverse();
    print_hex(rt, &reversed)
}
