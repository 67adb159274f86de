//! What an index holds, in lines. Hashes and ids are printed in reversed order.

use crate::print::{print_hash, print_hex, say};
use ox_block::OutPoint;
use ox_bytes::Bytes;
use ox_index::Live;
use ox_model::{Audit, InsId, InsRow, OutRow, RuneAudit, RuneId, RuneRow, View};
use ox_runestone::Terms;
use std::io;

/// An outpoint.
pub fn print_outpoint(rt: &impl Print, at: &OutPoint) -> io::Result<()> {
    print_hash(rt, &at.txid.0)?;
    print!(rt; ":{}", at.index)
}

/// An inscription's id.
pub fn print_id(rt: &impl Print, id: &InsId) -> io::Result<()> {
    print_hash(rt, &id.txid)?;
    print!(rt; "i{}", id.index)
}

/// A name, and numbers, each with a space in front.
pub fn print_numbers(rt: &impl Print, name: &str, numbers: &[u32]) -> io::Result<()> {
    print!(rt; "{name}")?;
    for number in numbers {
        print!(rt; " {number}")?;
    }
    Ok(())
}

/// A name and a number, or `none`.
pub fn print_number(rt: &impl Print, name: &str, number: Option<u64>) -> io::Result<()> {
    match number {
        Some(number) => print!(rt; " {name} {number}"),
        None => print!(rt; " {name} none"),
    }
}

/// A name and an amount, or `none`.
fn print_amount(rt: &impl Print, name: &str, amount: Option<u128>) -> io::Result<()> {
    match amount {
        Some(amount) => print!(rt; " {name} {amount}"),
        None => print!(rt; " {name} none"),
    }
}

/// The newest block's height and hash.
pub fn print_tip(rt: &impl Print, live: &Live) -> io::Result<()> {
    let height = live.blocks().wrapping_sub(1);
    let Some(hash) = live.hash_of(height) else {
        return say(rt, "ok empty");
    };
    print!(rt; "ok {height} ")?;
    print_hash(rt, hash)?;
    say(rt, "")
}

/// Everything that an index can be asked for without a part.
pub fn print_index(rt: &impl Print, live: &Live) -> io::Result<()> {
    print_line(rt, live)?;
    print_blocks(rt, live)?;
    print_inscriptions(rt, live)?;
    print_runes(rt, live)
}

/// The line that answers an accepted command.
fn print_line(rt: &impl Print, live: &Live) -> io::Result<()> {
    match live.line() {
        Ok(line) => print!(rt; "{}", str::from_utf8(line.as_slice()).unwrap_or("no text")),
        Err(_) => say(rt, "no memory"),
    }
}

/// The blocks' hashes, and how many satoshis are lost.
fn print_blocks(rt: &impl Print, live: &Live) -> io::Result<()> {
    println!(rt;
        "{} blocks, {} satoshis are lost",
        live.blocks(),
        live.lost()
    )?;
    for height in 0..=live.blocks() {
        print_block(rt, live, height)?;
    }
    Ok(())
}

/// The hash of the block at a height.
pub fn print_block(rt: &impl Print, live: &Live, height: u32) -> io::Result<()> {
    print!(rt; "  height {height}: ")?;
    match live.hash_of(height) {
        Some(hash) => print_hash(rt, hash)?,
        None => print!(rt; "none")?,
    }
    say(rt, "")
}

/// All inscriptions, and the satoshis that bear them.
fn print_inscriptions(rt: &impl Print, live: &Live) -> io::Result<()> {
    println!(rt; "{} inscriptions", live.inscriptions())?;
    for number in 0..live.inscriptions() {
        print_inscription(rt, live, number)?;
    }
    print_borne(rt, live)
}

/// The satoshis that bear inscriptions, from the least on.
fn print_borne(rt: &impl Print, live: &Live) -> io::Result<()> {
    let mut from: u64 = 0;
    for _ in 0..live.inscriptions() {
        let Some((sat, numbers)) = live.next_on(from) else {
            return Ok(());
        };
        print!(rt; "  satoshi {sat}")?;
        print_numbers(rt, ":", numbers)?;
        say(rt, "")?;
        from = sat.saturating_add(1);
    }
    Ok(())
}

/// The inscription with a number.
fn print_inscription(rt: &impl Print, live: &Live, number: u32) -> io::Result<()> {
    if number >= live.inscriptions() {
        return say(rt, "  none");
    }
    let row = live.inscription(number);
    print!(rt; "  {number}: ")?;
    print_id(rt, &row.id)?;
    print!(rt; " height {} marks {}", row.height, row.marks)?;
    print_number(rt, "sat", row.sat)?;
    print_found(rt, live.find(&row.id))?;
    print_numbers(rt, " children", live.children(number))?;
    print_fields(rt, row)?;
    print_relatives(rt, row)
}

/// The number that an id or a name leads to.
pub fn print_found(rt: &impl Print, number: Option<u32>) -> io::Result<()> {
    match number {
        Some(number) => print!(rt; " found {number}"),
        None => print!(rt; " found none"),
    }
}

/// A field's name and its bytes, if there are any.
fn print_field(rt: &impl Print, name: &str, value: &Option<Bytes>) -> io::Result<()> {
    if let Some(bytes) = value {
        print!(rt; " {name}=")?;
        print_hex(rt, bytes.as_slice())?;
    }
    Ok(())
}

/// The fields of an inscription.
fn print_fields(rt: &impl Print, row: &InsRow) -> io::Result<()> {
    print_field(rt, "type", &row.content_type)?;
    print_field(rt, "pointer", &row.pointer)?;
    print_field(rt, "metadata", &row.metadata)?;
    print_field(rt, "protocol", &row.metaprotocol)?;
    print_field(rt, "encoding", &row.encoding)?;
    print_field(rt, "body", &row.body)
}

/// An inscription's parents and its delegate.
fn print_relatives(rt: &impl Print, row: &InsRow) -> io::Result<()> {
    for parent in row.parents.as_slice() {
        print!(rt; " parent=")?;
        print_id(rt, parent)?;
    }
    if let Some(delegate) = &row.delegate {
        print!(rt; " delegate=")?;
        print_id(rt, delegate)?;
    }
    say(rt, "")
}

/// All runes.
fn print_runes(rt: &impl Print, live: &Live) -> io::Result<()> {
    println!(rt; "{} runes", live.runes())?;
    for number in 0..live.runes() {
        print_rune(rt, live, number)?;
    }
    Ok(())
}

/// The rune with a number.
fn print_rune(rt: &impl Print, live: &Live, number: u32) -> io::Result<()> {
    if number >= live.runes() {
        return say(rt, "  none");
    }
    let row = live.rune(number);
    print!(rt;
        "  {number}: {}:{} name {}",
        row.id.block, row.id.tx, row.name
    )?;
    print_found(rt, live.by_id(row.id))?;
    print_found(rt, live.by_name(row.name))?;
    print!(rt;
        " held {} burned {} mints {}",
        live.held(number),
        row.burned,
        row.mints
    )?;
    print_etching(rt, row)?;
    print_terms(rt, &row.terms)
}

/// What an etching gave a rune.
fn print_etching(rt: &impl Print, row: &RuneRow) -> io::Result<()> {
    print!(rt;
        " premine {} spacers {} divisibility {}",
        row.premine, row.spacers, row.divisibility
    )?;
    if let Some(symbol) = row.symbol {
        print!(rt; " symbol {symbol}")?;
    }
    print!(rt; " by ")?;
    print_hash(rt, &row.etching.0)
}

/// The terms of minting, if there are any.
fn print_terms(rt: &impl Print, terms: &Option<Terms>) -> io::Result<()> {
    if let Some(terms) = terms {
        print!(rt; " terms")?;
        print_amount(rt, "amount", terms.amount)?;
        print_amount(rt, "cap", terms.cap)?;
        print_number(rt, "from", terms.height_start)?;
        print_number(rt, "to", terms.height_end)?;
        print_number(rt, "after", terms.offset_start)?;
        print_number(rt, "until", terms.offset_end)?;
    }
    say(rt, "")
}

/// Where all satoshis and runes are.
pub fn print_audit(rt: &impl Print, live: &Live) -> io::Result<()> {
    match live.audit() {
        Ok(audit) => print_sums(rt, &audit),
        Err(_) => say(rt, "no memory"),
    }
}

/// What an audit says of a rune.
fn print_rune_sums(rt: &impl Print, rune: &RuneAudit) -> io::Result<()> {
    println!(rt;
        "  {}:{} premine {} minted {} held {} burned {}",
        rune.id.block, rune.id.tx, rune.premine, rune.minted, rune.held, rune.burned
    )
}

/// What an audit says.
fn print_sums(rt: &impl Print, audit: &Audit) -> io::Result<()> {
    println!(rt;
        "audit claimable {} lost {} outputs {}",
        audit.claimable, audit.lost, audit.outputs
    )?;
    for rune in audit.runes.as_slice() {
        print_rune_sums(rt, rune)?;
    }
    Ok(())
}

/// An output's height, its script and the satoshis that it holds.
pub fn print_output(rt: &impl Print, row: &OutRow) -> io::Result<()> {
    print!(rt; " height {} script ", row.height)?;
    print_hex(rt, row.script.as_slice())?;
    for run in row.sats.runs() {
        print!(rt; " {}+{}", run.first, run.count)?;
    }
    Ok(())
}

/// The runes of an output.
pub fn print_balance(rt: &impl Print, balance: &[(RuneId, u128)]) -> io::Result<()> {
    for (id, amount) in balance {
        print!(rt; " {}:{}={amount}", id.block, id.tx)?;
    }
    Ok(())
}
