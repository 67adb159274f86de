//! What a store does, a row each:
//!
//! - `make PROFILE DEPTH COMMAND..`: makes the files a store, and carries commands out on it;
//! - `open COMMAND..`: opens the store, and carries commands out on it;
//! - `pieces SIZE`: opens the store, a body of version 3 in pieces of at most so many bytes;
//! - `reopen MOMENT FILL KEEP`: opens what such a crash as `crash` has it would leave; the files
//!   themselves stay;
//! - `migrate`: makes a store of version 1 one of version 2;
//! - `locate SATOSHI..`: where each is in the store.
//!
//! A command is `-`, which disconnects, or `+` and the bytes of a block, which it connects, as
//! parts between `+`. Hashes are printed as they stand in a block.

ghost use Rattle.std.specs.Prelude.{◌≤◌};

use crate::carry::carry_out_all;
use crate::runs::site_after_crash;
use crate::say::say;
use crate::say_store::{
    print_migrated, print_place, print_store, print_unmade, print_unmigrated, print_unopened,
};
use crate::words::{NO_ROW, commands_of, depth_of, number_of, profile_of, size_of};
use ox_feed::Command;
use ox_memsite::MemSite;
use ox_model::View;
use ox_sat::ProfileName;
use ox_store::Store;
use std::alloc::Global;
use std::io;

/// Makes the files a store, and carries commands out on it.
fn make(
    rt: &impl Print,
    alloc: Global,
    site: &mut MemSite,
    name: ProfileName,
    depth: u16,
    commands: &[Command],
) -> io::Result<()>
    requires { (1 ≤ depth) × (depth ≤ 1000) }
{
    match Store::make(alloc, site, name, depth) {
        Ok(store) => carry_out_all(rt, alloc, store, commands, site),
        Err(fault) => print_unmade(rt, fault),
    }
}

/// The same for the words of a row.
fn make_by(
    rt: &impl Print,
    alloc: Global,
    site: &mut MemSite,
    profile: &str,
    depth: &str,
    words: &[&str],
) -> io::Result<()> {
    let Some(name) = profile_of(profile) else {
        return say(rt, NO_ROW);
    };
    let Some(depth) = depth_of(depth) else {
        return say(rt, NO_ROW);
    };
    match commands_of(alloc, words) {
        Some(commands) => make(rt, alloc, site, name, depth, &commands),
        None => say(rt, NO_ROW),
    }
}

/// Opens the store, and carries commands out on it.
fn open(
    rt: &impl Print,
    alloc: Global,
    site: &mut MemSite,
    commands: &[Command],
) -> io::Result<()> {
    match Store::open(alloc, site) {
        Ok(store) => carry_out_all(rt, alloc, store, commands, site),
        Err(fault) => print_unopened(rt, fault),
    }
}

/// The same for the words of a row.
fn open_by(rt: &impl Print, alloc: Global, site: &mut MemSite, words: &[&str]) -> io::Result<()> {
    match commands_of(alloc, words) {
        Some(commands) => open(rt, alloc, site, &commands),
        None => say(rt, NO_ROW),
    }
}

/// Opens the store, a body of version 3 in pieces of at most so many bytes.
fn open_in_pieces(
    rt: &impl Print,
    alloc: Global,
    site: &mut MemSite,
    most: &str,
) -> io::Result<()> {
    let Some(most) = size_of(most) else {
        return say(rt, NO_ROW);
    };
    match Store::open_in_pieces(alloc, site, most) {
        Ok(store) => print_store(rt, alloc, &store),
        Err(fault) => print_unopened(rt, fault),
    }
}

/// Opens what a crash leaves.
fn reopen(rt: &impl Print, alloc: Global, site: &MemSite, choice: [&str; 3]) -> io::Result<()> {
    match site_after_crash(site, choice) {
        Some(mut after) => open(rt, alloc, &mut after, &[]),
        None => say(rt, NO_ROW),
    }
}

/// Makes a store of version 1 one of version 2.
fn migrate(rt: &impl Print, alloc: Global, site: &mut MemSite) -> io::Result<()> {
    match Store::migrate(alloc, site) {
        Ok((store, commands)) => print_migrated(rt, alloc, commands, &store),
        Err(fault) => print_unmigrated(rt, alloc, &fault),
    }
}

/// Where each of these satoshis is.
fn print_places(rt: &impl Print, store: &Store, words: &[&str]) -> io::Result<()> {
    for word in words {
        let Some(sat) = number_of(word) else {
            return say(rt, NO_ROW);
        };
        print_place(rt, store.live().locate(sat))?;
    }
    Ok(())
}

/// Where satoshis are in the store.
fn locate(rt: &impl Print, alloc: Global, site: &mut MemSite, words: &[&str]) -> io::Result<()> {
    match Store::open(alloc, site) {
        Ok(store) => print_places(rt, &store, words),
        Err(fault) => print_unopened(rt, fault),
    }
}

/// Carries out a row that makes or opens a store.
pub fn tell_store(
    rt: &impl Print,
    alloc: Global,
    site: &mut MemSite,
    row: &[&str],
) -> io::Result<()> {
    match row {
        ["make", profile, depth, words @ ..] => make_by(rt, alloc, site, profile, depth, words),
        ["open", words @ ..] => open_by(rt, alloc, site, words),
        ["pieces", most] => open_in_pieces(rt, alloc, site, most),
        ["reopen", moment, fill, keep] => reopen(rt, alloc, site, [moment, fill, keep]),
        ["migrate"] => migrate(rt, alloc, site),
        ["locate", words @ ..] => locate(rt, alloc, site, words),
        _ => say(rt, NO_ROW),
    }
}
