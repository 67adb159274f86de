//! Runs of the program.

use crate::say::{print_shown, say};
use crate::words::{NO_ROW, byte_of, number_of, portion_of, run_words_of};
use ox_app::{Status, run};
use ox_bytes::Bytes;
use ox_memsite::{Choice, MemSite};
use ox_short_site::{Portion, ShortSite};
use std::alloc::Global;
use std::{io, mem};

/// Prints what was shown on channel 0, if memory never ran out.
fn print_after(rt: &impl Print, site: &MemSite) -> io::Result<()> {
    if site.starved() > 0 {
        return say(rt, "no memory");
    }
    print_shown(rt, site, 0)
}

/// Runs the program. How it ended; `None` where a word can't be read.
fn status_of(alloc: Global, site: &mut MemSite, row: &[&str]) -> Option<Status> {
    let words = run_words_of(alloc, row)?;
    Some(run(alloc, &words, site))
}

/// Runs the program, and prints its status.
fn run_once(rt: &impl Print, alloc: Global, site: &mut MemSite, row: &[&str]) -> io::Result<()> {
    match status_of(alloc, site, row) {
        Some(status) => println!(rt; "status {}", status.code()),
        None => say(rt, NO_ROW),
    }
}

/// Runs the program, and prints its status and what was shown since the site was made.
pub fn run_aloud(
    rt: &impl Print,
    alloc: Global,
    site: &mut MemSite,
    row: &[&str],
) -> io::Result<()> {
    run_once(rt, alloc, site, row)?;
    print_after(rt, site)
}

/// A run over a site of short calls: the status, and how many writes were cut short.
#[derive(Clone, Copy)]
struct ShortRun {
    status: Status,
    cut: u64,
}

/// Runs the program over a site of short calls, and takes the site below out of it. `None` where
/// there is no memory for a site in its place meanwhile.
fn run_over(
    alloc: Global,
    site: &mut MemSite,
    portion: Portion,
    whole_writes: u64,
    words: &[Bytes],
) -> Option<ShortRun> {
    let mut over = ShortSite {
        inner: mem::replace(site, MemSite::new(alloc).ok()?),
        portion,
        whole_writes,
        cut_writes: 0,
    };
    let status = run(alloc, words, &mut over);
    let cut = over.cut_writes;
    *site = over.inner;
    Some(ShortRun { status, cut })
}

/// The same for the words of a row: the portion, how many writes are whole, and those of the run.
fn run_over_by(
    alloc: Global,
    site: &mut MemSite,
    portion: &str,
    writes: &str,
    row: &[&str],
) -> Option<ShortRun> {
    let portion = portion_of(portion)?;
    let whole_writes = number_of(writes)?;
    let words = run_words_of(alloc, row)?;
    run_over(alloc, site, portion, whole_writes, &words)
}

/// The same, printed.
pub fn run_short(
    rt: &impl Print,
    alloc: Global,
    site: &mut MemSite,
    portion: &str,
    writes: &str,
    row: &[&str],
) -> io::Result<()> {
    let Some(ran) = run_over_by(alloc, site, portion, writes, row) else {
        return say(rt, NO_ROW);
    };
    println!(rt; "status {}, {} cut short", ran.status.code(), ran.cut)?;
    print_after(rt, site)
}

/// What a crash leaves. `None` also where there is no such moment.
pub fn site_after_crash(site: &MemSite, choice: [&str; 3]) -> Option<MemSite> {
    let choice = Choice {
        moment: number_of(choice[0])?,
        fill: byte_of(choice[1])?,
        keep: number_of(choice[2])?,
    };
    if choice.moment > site.now() {
        return None;
    }
    site.crash(&choice).ok()
}

/// The words of a run between commas.
fn run_words_in(alloc: Global, run: &str) -> Option<Vec<&str>> {
    run.split(',').collect(alloc).ok()
}

/// Runs the program once for each word, whose own words stand between commas.
fn run_each(rt: &impl Print, alloc: Global, site: &mut MemSite, runs: &[&str]) -> io::Result<()> {
    for run in runs {
        let Some(words) = run_words_in(alloc, run) else {
            return say(rt, NO_ROW);
        };
        run_once(rt, alloc, site, words.as_slice())?;
    }
    Ok(())
}

/// What a crash leaves, where channel 0 says the feed.
fn fed_after_crash(site: &MemSite, feed: &[u8], choice: [&str; 3]) -> Option<MemSite> {
    let mut after = site_after_crash(site, choice)?;
    after.input(feed).ok()?;
    Some(after)
}

/// Runs the program over what a crash leaves, once for each word. Channel 0 says the feed then.
pub fn crash(
    rt: &impl Print,
    alloc: Global,
    site: &MemSite,
    feed: &[u8],
    choice: [&str; 3],
    runs: &[&str],
) -> io::Result<()> {
    let Some(mut after) = fed_after_crash(site, feed, choice) else {
        return say(rt, NO_ROW);
    };
    run_each(rt, alloc, &mut after, runs)?;
    print_after(rt, &after)
}
