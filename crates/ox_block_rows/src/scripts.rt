//! What scripts read as.

use crate::print::{NO_ROW, Page, print_bytes, put, put_line};
use ox_bytes::{Bytes, Memory};
use ox_envelope::{Envelope, InsId, Inscribed, envelopes_of, parse, write_id};
use ox_runestone::is_stone;
use ox_script::{instructions_of, is_return, is_taproot, tapscript_place};
use std::alloc::Global;

/// A field's name as it stands, and its value if there is one.
fn print_field(page: &mut Page, name: &str, value: &Option<Bytes>) {
    if let Some(bytes) = value {
        page.put(name);
        print_bytes(page, bytes.as_slice());
    }
}

/// An id by its text, or `none`, with a space in front.
fn print_text(page: &mut Page, id: Option<InsId>) {
    let Some(id) = id else {
        return page.put(" none");
    };
    let mut into = [0; 75];
    let len = write_id(&id, &mut into);
    let (text, _) = into.split_at(len);
    page.put(" ");
    page.put(str::from_utf8(text).unwrap_or("no text"))
}

/// An id in a line.
pub fn print_id(page: &mut Page, id: Option<InsId>) {
    print_text(page, id);
    page.say("")
}

/// The pushes of an envelope, each in hex digits.
fn print_pushes(page: &mut Page, envelope: &Envelope<'_>) {
    page.put("  pushes");
    for push in envelope.pushes() {
        page.put(" ");
        print_bytes(page, *push);
    }
    page.say("")
}

/// The fields of an envelope, its body and its marks.
fn print_fields(page: &mut Page, says: &Inscribed) {
    page.count("  marks=", says.marks as u128);
    print_field(page, " type=", &says.content_type);
    print_field(page, " pointer=", &says.pointer);
    print_field(page, " metadata=", &says.metadata);
    print_field(page, " protocol=", &says.metaprotocol);
    print_field(page, " encoding=", &says.encoding);
    print_field(page, " body=", &says.body)
}

/// The ids that an envelope names.
fn print_ids(page: &mut Page, parents: &[InsId], delegate: Option<InsId>) {
    page.put(" parents");
    for id in parents {
        print_text(page, Some(*id));
    }
    page.put(" delegate");
    print_id(page, delegate)
}

/// The fields of an envelope, its body, its marks, and the ids that it names.
fn print_inscribed(page: &mut Page, alloc: Global, says: &Inscribed) {
    print_fields(page, says);
    match says.parents.copy(alloc) {
        Ok(parents) => print_ids(page, parents.as_slice(), says.delegate),
        Err(_) => page.say(NO_ROW),
    }
}

/// What an envelope says.
fn print_envelope(page: &mut Page, alloc: Global, envelope: &Envelope<'_>) {
    print_pushes(page, envelope);
    match parse(alloc, envelope) {
        Ok(says) => print_inscribed(page, alloc, &says),
        Err(_) => page.say(NO_ROW),
    }
}

/// How many envelopes there are, and what each says.
fn print_envelopes(page: &mut Page, alloc: Global, found: &[Envelope<'_>]) {
    page.count("", found.len() as u128);
    page.say(" envelopes");
    for envelope in found {
        print_envelope(page, alloc, envelope);
    }
}

/// The envelopes of a script, and what each says.
pub fn print_script(page: &mut Page, alloc: Global, script: &[u8]) {
    match envelopes_of(alloc, script) {
        Ok(found) => print_envelopes(page, alloc, found.as_slice()),
        Err(_) => page.say(NO_ROW),
    }
}

/// The items of a script, whether it is cut short, and whether its end stays: it isn't known to be
/// cut before the last item, and no item comes behind that.
pub fn print_listing(page: &mut Page, script: &[u8]) {
    let mut items = instructions_of(script);
    let mut stays = true;
    while let Some(item) = items.next() {
        put!(page; "{item:?} ");
        stays = stays && !items.met_cut();
    }
    page.flag("cut: ", items.met_cut());
    page.flag_line(", stays: ", stays && items.next().is_none())
}

/// Which kinds of output a script is.
pub fn print_kinds(page: &mut Page, script: &[u8]) {
    page.flag("return: ", is_return(script));
    page.flag(", taproot: ", is_taproot(script));
    page.flag_line(", runestone: ", is_stone(script))
}

/// The place of the tapscript of a witness of so many items, which ends with this one.
pub fn print_tapscript(page: &mut Page, items: usize, last: &[u8]) {
    put_line!(page; "{:?}", tapscript_place(items, last))
}

/// How many items a script has.
fn items_in(script: &[u8]) -> usize {
    let mut count: usize = 0;
    for _ in instructions_of(script) {
        count = count.saturating_add(1);
    }
    count
}

/// How many items a script has, which are counted so many times.
pub fn print_items(page: &mut Page, script: &[u8], times: u32) {
    let mut items = items_in(script);
    for _ in 1..times {
        items = items_in(script);
    }
    page.count("", items as u128);
    page.say(" items")
}

/// Whether an envelope has a body. `Memory` where there is none for what it says.
fn has_body(alloc: Global, envelope: &Envelope<'_>) -> Result<bool, Memory> {
    Ok(parse(alloc, envelope)?.body.is_some())
}

/// How many of some envelopes have a body. `Memory` where there is none for what they say.
fn bodies_in(alloc: Global, found: &[Envelope<'_>]) -> Result<usize, Memory> {
    let mut bodies: usize = 0;
    for envelope in found {
        bodies = bodies.saturating_add(usize::from(has_body(alloc, envelope)?));
    }
    Ok(bodies)
}

/// How many envelopes a script has, and how many of them have a body. `Memory` where there is none
/// for them.
fn envelopes_in(alloc: Global, script: &[u8]) -> Result<(usize, usize), Memory> {
    let found = envelopes_of(alloc, script)?;
    let bodies = bodies_in(alloc, found.as_slice())?;
    Ok((found.len(), bodies))
}

/// The same, searched and read so many times.
fn envelopes_often(alloc: Global, script: &[u8], times: u32) -> Result<(usize, usize), Memory> {
    for _ in 1..times {
        envelopes_in(alloc, script)?;
    }
    envelopes_in(alloc, script)
}

/// How many envelopes there are, and how many of them have a body.
fn print_counts(page: &mut Page, found: usize, bodies: usize) {
    page.count("", found as u128);
    page.count(" envelopes, ", bodies as u128);
    page.say(" with a body")
}

/// How many envelopes a script has, and how many of them have a body, which are searched and read
/// so many times.
pub fn print_tally(page: &mut Page, alloc: Global, script: &[u8], times: u32) {
    match envelopes_often(alloc, script, times) {
        Ok((found, bodies)) => print_counts(page, found, bodies),
        Err(_) => page.say(NO_ROW),
    }
}
