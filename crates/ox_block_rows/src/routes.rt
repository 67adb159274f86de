//! The routes that paths take.

use crate::print::{NO_ROW, Page, print_bytes, put};
use ox_routes::{Found, Routes};
use std::alloc::Global;

/// The route that was found, its method and its text, and the part of the path behind that.
fn print_found(page: &mut Page, found: &Found<'_>) {
    let route = found.route;
    put!(page; "{route:?} {:?} {} ", route.method(), route.text());
    print_bytes(page, found.part);
    page.say("")
}

/// The route that a path takes.
pub fn print_route(page: &mut Page, alloc: Global, path: &[u8]) {
    let Ok(routes) = Routes::new(alloc) else {
        return page.say(NO_ROW);
    };
    match routes.find(path) {
        Some(found) => print_found(page, &found),
        None => page.say("no route"),
    }
}
