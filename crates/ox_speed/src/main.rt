//! Does a part of an index's work, to be timed. The first argument says which, and the others how
//! much of it:
//!
//! - `stone TIMES` deciphers the script on standard input so often
//!   (bench/decipher_runestones.py);
//! - `one EDICTS TIMES` and `all EDICTS TIMES` deal a pool of a thousand runes by so many edicts,
//!   each for one output or for all, `each EDICTS TIMES` and `outputs OUTPUTS TIMES` one rune by
//!   edicts to all outputs, of which there are 20,000 where no number is given, and `pool RUNES
//!   TIMES` gathers a pool of so many (bench/allocation.py);
//! - `runes TIMES LOOKS` does the blocks on standard input to the ledger of runes, the last of them
//!   so often, and then looks up what outputs hold (bench/runes.py);
//! - `look ROWS TIMES`, `number ROWS TIMES`, `check ROWS TIMES` and `mark ROWS TIMES` keep so many
//!   inscriptions, and look them up, ask their signed numbers, or go back to a mark; `reveal
//!   PARENTS TIMES` reveals what the last of the blocks on standard input has, over so many earlier
//!   inscriptions (bench/inscriptions.py);
//! - `spend SCRIPTS TIMES` and `ask SCRIPTS TIMES` keep an output of each of so many scripts, and
//!   spend 500 of them, or look up those of each script (bench/holders.py).
#![tactic(auto)]

use anyhow::bail;
use std::alloc::Global;
use std::env;
use std::io::Read;

mod blocks;
mod feed;
mod holders;
mod pools;
mod reveals;
mod rows;
mod runes;
mod stones;

/// What is done.
#[derive(Clone, Copy, PartialEq, Eq)]
enum Task {
    Stone,
    Deal(pools::Load),
    Runes,
    Keep(rows::Load),
    Reveal,
    Hold(holders::Load),
}

/// The task of a name.
fn task_of(name: &str) -> Option<Task> {
    match name {
        "stone" => Some(Task::Stone),
        "one" => Some(Task::Deal(pools::Load::One)),
        "all" => Some(Task::Deal(pools::Load::All)),
        "each" => Some(Task::Deal(pools::Load::Each)),
        "outputs" => Some(Task::Deal(pools::Load::Outputs)),
        "pool" => Some(Task::Deal(pools::Load::Gather)),
        "runes" => Some(Task::Runes),
        "look" => Some(Task::Keep(rows::Load::Look)),
        "number" => Some(Task::Keep(rows::Load::Number)),
        "check" => Some(Task::Keep(rows::Load::Check)),
        "mark" => Some(Task::Keep(rows::Load::Mark)),
        "reveal" => Some(Task::Reveal),
        "spend" => Some(Task::Hold(holders::Load::Spend)),
        "ask" => Some(Task::Hold(holders::Load::Ask)),
        _ => None,
    }
}

/// Whether a task is done over standard input.
fn hears(task: Task) -> bool {
    match task {
        Task::Stone | Task::Runes | Task::Reveal => true,
        Task::Deal(_) | Task::Keep(_) | Task::Hold(_) => false,
    }
}

/// Does a task over what was heard, as much as two numbers say, and tells what came of it.
fn run(
    rt: &impl Print,
    alloc: Global,
    task: Task,
    feed: &[u8],
    numbers: [u32; 2],
) -> anyhow::Result<()> {
    let [first, second] = numbers;
    match task {
        Task::Stone => stones::run(rt, alloc, feed, first),
        Task::Deal(load) => pools::run(rt, alloc, load, first, second),
        Task::Runes => runes::run(rt, alloc, feed, first, second),
        Task::Keep(load) => rows::run(rt, alloc, load, first, second),
        Task::Reveal => reveals::run(rt, alloc, feed, first, second),
        Task::Hold(load) => holders::run(rt, alloc, load, first, second),
    }
}

fn main(rt: HostRuntime) -> anyhow::Result<()> {
    let alloc = rt.alloc();
    let mut words = env::args(&rt)?.skip(1);
    let task = match words.next() {
        Some(word) => task_of(word.as_str()),
        None => None,
    };
    let Some(task) = task else {
        bail!(
            "stone, one, all, each, outputs, pool, runes, look, number, check, mark, reveal, spend \
             or ask"
        );
    };
    let mut numbers = [0, 0];
    for (number, word) in numbers.iter_mut().zip(words) {
        *number = word.as_str().parse::<u32>()?;
    }
    let mut feed = Vec::new(alloc);
    if hears(task) {
        rt.stdin().read_to_end(&mut feed)?;
    }
    run(&rt, alloc, task, &feed, numbers)
}
