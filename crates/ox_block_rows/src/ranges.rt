//! Lists of satoshis, by steps.

use crate::print::{Page, put_line};
use ox_range::{Growing, Ranges};
use std::alloc::Global;
use std::mem;

/// A list, and one that is kept beside it.
#[derive(Drop)]
struct Lists {
    list: Ranges,
    beside: Ranges,
}

/// Puts a list behind another, if there is memory and they aren't too long.
fn join(list: &mut Ranges, tail: &Ranges) -> bool {
    if tail.len() > u64::MAX - list.len() {
        return false;
    }
    list.join(tail).is_ok()
}

/// Puts so many numbers behind a list, from the first on.
fn put(alloc: Global, list: &mut Ranges, first: u64, count: u64) -> bool {
    if first > u64::MAX - count {
        return false;
    }
    match Ranges::one(alloc, first, count) {
        Ok(tail) => join(list, &tail),
        Err(_) => false,
    }
}

/// Cuts a list at a place, and keeps beside it what stood from there on.
fn cut(lists: &mut Lists, place: u64) -> bool {
    if place > lists.list.len() {
        return false;
    }
    match lists.list.split_off(place) {
        Ok(rest) => {
            lists.beside = rest;
            true
        }
        Err(_) => false,
    }
}

/// Keeps what stands before a place, by a list that grows.
fn keep(alloc: Global, list: &mut Ranges, place: u64) -> bool {
    if place > list.len() {
        return false;
    }
    let Ok(mut growing) = Growing::of(alloc, list) else {
        return false;
    };
    growing.truncate(place);
    match growing.front(place) {
        Ok(front) => {
            *list = front;
            true
        }
        Err(_) => false,
    }
}

/// Keeps a copy of the list beside it.
fn copy(alloc: Global, lists: &mut Lists) -> bool {
    match lists.list.copy(alloc) {
        Ok(list) => {
            lists.beside = list;
            true
        }
        Err(_) => false,
    }
}

/// Carries out a step, if it can be.
fn change(alloc: Global, lists: &mut Lists, word: &str, number: u64) -> bool {
    match word {
        "cut" => cut(lists, number),
        "keep" => keep(alloc, &mut lists.list, number),
        "copy" => copy(alloc, lists),
        "join" => join(&mut lists.list, &lists.beside),
        "swap" => {
            mem::swap(&mut lists.list, &mut lists.beside);
            true
        }
        "new" => {
            lists.list = Ranges::empty(alloc);
            true
        }
        first => put(alloc, &mut lists.list, first.parse().unwrap_or(0), number),
    }
}

/// How many numbers a list has, whether it is empty, and its runs.
fn print_list(page: &mut Page, list: &Ranges) {
    page.count("", list.len() as u128);
    page.flag(" empty: ", list.is_empty());
    for run in list.runs() {
        page.count(" ", run.first as u128);
        page.count("+", run.count as u128);
    }
    page.say("")
}

/// The number at a place.
fn print_at(page: &mut Page, list: &Ranges, place: u64) {
    if place >= list.len() {
        return page.say("no place");
    }
    page.count_line("", list.at(place) as u128)
}

/// Does what a step says.
fn step(page: &mut Page, alloc: Global, lists: &mut Lists, text: &str) {
    let (word, number) = text.split_once(':').unwrap_or((text, ""));
    let number = number.parse().unwrap_or(0);
    match word {
        "show" => print_list(page, &lists.list),
        "at" => print_at(page, &lists.list, number),
        "of" => put_line!(page; "{:?}", lists.list.place_of(number)),
        _ => {
            if change(alloc, lists, word, number) {
                return;
            }
            page.say("no memory, or no step")
        }
    }
}

/// Does what the steps of a row say, from two lists of no number on.
pub fn print_steps(page: &mut Page, alloc: Global, steps: &str) {
    let mut lists = Lists {
        list: Ranges::empty(alloc),
        beside: Ranges::empty(alloc),
    };
    for text in steps.split(' ') {
        step(page, alloc, &mut lists, text);
    }
}
