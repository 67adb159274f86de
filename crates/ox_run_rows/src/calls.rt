//! Single calls on a site.

ghost use Rattle.std.specs.Prelude.{◌≤◌, length, IfSome};
ghost use Rattle.ox_run_rows.specs.Live.{IsLive};

use crate::say::{print_heard, print_line, print_shown, print_took, say};
use crate::words::{NO_ROW, bytes_of, file_of, number_of};
use ox_feed::Lines;
use ox_memsite::MemSite;
use ox_outside::{Doorway, Failed, Heard, Site, Which};
use std::alloc::Global;
use std::io;

/// A room of so many bytes, each 0.
fn room_of(alloc: Global, word: &str) -> Option<Vec<u8>>
    ensures { IfSome result (λ room. 1 ≤ length room.items) }
{
    let size: u16 = word.parse().ok()?;
    if size == 0 {
        return None;
    }
    Vec::from_elem(alloc, 0, size as usize).ok()
}

/// Hears channel 0 with rooms of these sizes.
pub fn hear(rt: &impl Print, alloc: Global, site: &mut MemSite, rooms: &[&str]) -> io::Result<()> {
    for size in rooms {
        let Some(mut room) = room_of(alloc, *size) else {
            return say(rt, NO_ROW);
        };
        let heard = site.hear(0, &mut room);
        print_heard(rt, heard, &room)?;
    }
    Ok(())
}

/// Hears a link.
fn hear_link(site: &mut MemSite, link: u32, room: &mut [u8]) -> Result<Heard, Failed>
    requires room { 1 ≤ length room.old }
    requires live { IsLive link site.old }
    ensures live { IsLive link site.new }
{
    Site::hear(site, link, room)
}

/// Hears a link with rooms of these sizes.
fn hear_all(
    rt: &impl Print,
    alloc: Global,
    site: &mut MemSite,
    link: u32,
    rooms: &[&str],
) -> io::Result<()>
    requires live { IsLive link site.old }
    ensures live { IsLive link site.new }
{
    for size in rooms {
        let Some(mut room) = room_of(alloc, *size) else {
            return say(rt, NO_ROW);
        };
        let heard = hear_link(site, link, &mut room);
        print_heard(rt, heard, &room)?;
    }
    Ok(())
}

/// Gives a link up and shuts it.
fn end_link(site: &mut MemSite, link: u32)
    requires live { IsLive link site.old }
{
    Site::give_up(site, link);
    Site::shut(site, link);
}

/// Takes the link that waits at a door, hears it with rooms of these sizes, gives it up and shuts
/// it.
pub fn visit(
    rt: &impl Print,
    alloc: Global,
    site: &mut MemSite,
    door: Doorway,
    rooms: &[&str],
) -> io::Result<()> {
    match Site::door(site, door) {
        Ok(Some(link)) => {
            let heard = hear_all(rt, alloc, site, link, rooms);
            end_link(site, link);
            heard?;
            println!(rt; "link {link}")
        }
        Ok(None) => say(rt, "nobody"),
        Err(Failed) => say(rt, "failed"),
    }
}

/// Shows bytes on channel 0, and prints the answer and what was shown there so far.
pub fn show(rt: &impl Print, site: &mut MemSite, bytes: &[u8]) -> io::Result<()> {
    if bytes.is_empty() {
        return say(rt, "nothing to show");
    }
    let took = site.show(0, bytes);
    print_took(rt, took)?;
    print_shown(rt, site, 0)
}

/// Writes bytes into a file at a place that it has. `None` where it has none, or the call fails.
fn write_at(site: &mut MemSite, file: Which, at: u64, bytes: &[u8]) -> Option<()> {
    if at > site.file(file).len() as u64 {
        return None;
    }
    site.write(file, at, bytes).ok()
}

/// The same for the words of a row.
pub fn overwrite(alloc: Global, site: &mut MemSite, file: &str, at: &str, hex: &str) -> Option<()> {
    let file = file_of(file)?;
    let at = number_of(at)?;
    write_at(site, file, at, &bytes_of(alloc, hex)?)
}

/// Reads so many lines of channel 0, and at its end no more.
pub fn read_lines(
    rt: &impl Print,
    alloc: Global,
    site: &mut MemSite,
    count: &str,
) -> io::Result<()> {
    let Some(count) = number_of(count) else {
        return say(rt, NO_ROW);
    };
    let mut lines = Lines::new(alloc);
    for _ in 0..count {
        let line = lines.next(site);
        print_line(rt, alloc, line)?;
    }
    Ok(())
}
