//! The router.

ghost use Rattle.std.specs.Prelude.{◌≡◌, ◌≤◌, List, [], ℕ, None, Some, MatchOption, OnOk, map, Ok};
ghost use Rattle.std.specs.List.{count_by};
ghost use Rattle.matchit.specs.Route.{parse_route};
ghost use Rattle.matchit.specs.Router.{InsertsRead};
ghost use Rattle.ox_routes.specs.Table.{route_and_part, route_taken, takes, row_of, routes};
ghost use Rattle.ox_routes.specs.Rows.{MayJoin, entry, row_shown};

use crate::route::Route;
use matchit::{InsertError, Router};
use ox_bytes::Memory;
use std::alloc::Global;

/// What a path takes: a route, and the part of the path in the route's braces, which is empty where
/// the route has none.
#[derive(Clone, Copy, PartialEq, Eq)]
pub struct Found<'p> {
    pub route: Route,
    pub part: &'p [u8],
}

/// All routes, to be asked for the one that a path takes.
#[derive(Drop)]
pub struct Routes {
    router: Router<Route>,
    ghost holds: { map row_shown router ≡ map entry routes },
}

impl Routes {
    /// The routes. `Memory` where there is none for them.
    pub fn new(alloc: Global) -> Result<Routes, Memory> {
        let mut router = Router::new(alloc);
        add_all(&mut router)?;
        Ok(Routes { router })
    }

    /// The route that a path takes; `None` where no route takes it, and where it isn't UTF-8.
    pub fn find<'p>(&self, path: &'p [u8]) -> Option<Found<'p>>
        ensures { MatchOption result (route_and_part path.now ≡ None)
            (λ taken. route_and_part path.now ≡ Some (taken.route, taken.part.now)) }
    {
        let Ok(text) = str::from_utf8(path) else {
            return None;
        };
        let route = self.route_of(text)?;
        Some(Found {
            route,
            part: &path[route.text().len()..],
        })
    }

    /// The route whose row takes a text.
    fn route_of(&self, text: &str) -> Option<Route>
        ensures { result ≡ route_taken text.now }
    {
        match self.router.at(text) {
            Ok(found) => Some(*found.value),
            Err(_) => None,
        }
    }
}

/// No path is taken by two rows of the table, so that their order says nothing.
pub fn one_row_takes_a_path()
    ensures { (path : List ℕ) → count_by (λ route. takes (row_of route) path) routes ≤ 1 }
{}

/// Adds every route to a router without one.
fn add_all(router: &mut Router<Route>) -> Result<(), Memory>
    requires { router.old ≡ [] }
    ensures { OnOk result (map row_shown router.new ≡ map entry routes) }
{
    add(router, "/audit", Route::Audit)?;
    add(router, "/blockhash/{height}", Route::BlockHash)?;
    add(router, "/connect", Route::Connect)?;
    add(router, "/content/{id}", Route::Content)?;
    add(router, "/disconnect", Route::Disconnect)?;
    add(router, "/inscription/{id}", Route::Inscription)?;
    add(router, "/inscriptions/{page}", Route::Inscriptions)?;
    add(router, "/output/{outpoint}", Route::Output)?;
    add(router, "/rune/{rune}", Route::Rune)?;
    add(router, "/runes/{page}", Route::Runes)?;
    add(router, "/sat/{sat}", Route::Sat)?;
    add(router, "/status", Route::Status)?;
    Ok(())
}

/// Adds a route that can stand beside the others.
fn add(router: &mut Router<Route>, text: &str, route: Route) -> Result<(), Memory>
    requires { MayJoin (parse_route text.now) router.old }
    ensures { OnOk result
        (InsertsRead (parse_route text.now) route router.old router.new (Ok tt)) }
{
    match router.insert(text, route) {
        Ok(()) => Ok(()),
        Err(InsertError::OutOfMemory) => Err(Memory),
        Err(_) => unreachable!(),
    }
}
