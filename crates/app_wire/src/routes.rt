//! The routes of requests.
ghost use Rattle.std.specs.Prelude.{◌≡◌, [], IfOk, OnOk, Some};
ghost use Rattle.app_wire.specs.Routing.{Routing};
ghost use Rattle.app_wire.specs.RouteTable.{RouterFinds, Placed, route_table};

use crate::framer::Request;
use crate::head::Method;
use crate::parts::{caller_at, number_at, title_at};
use crate::route::{Place, Route, RouteEnd};
use fx_base::Memory;
use matchit::{InsertError, Router};
use std::alloc::Global;

fn make(alloc: Global) -> Result<Router<Place>, InsertError>
    ensures { IfOk result (λ r. r ≡ route_table) }
{
    let mut router = Router::new(alloc);
    add_places(&mut router)?;
    Ok(router)
}

// Apart from what owns the router: a value that is owned is let go at each exit, and each of these
// calls has one.
fn add_places(router: &mut Router<Place>) -> Result<(), InsertError>
    requires { router.old ≡ [] }
    ensures { OnOk result (router.new ≡ route_table) }
{
    router.insert("/s/{name}", Place::Session)?;
    router.insert("/s/{name}/view", Place::View)?;
    router.insert("/s/{name}/named", Place::Named)?;
    router.insert("/s/{name}/items/{gallery}/{from}", Place::Items)?;
    router.insert("/s/{name}/event", Place::Event)?;
    router.insert("/s/{name}/input", Place::Input)?;
    router.insert("/desk/{name}/rows", Place::Rows)?;
    router.insert("/desk/{name}/edit", Place::Edit)?;
    router.insert("/desk/{name}/app", Place::Replace)?;
    router.insert("/rows/{table}/{after}", Place::Page)?;
    router.insert("/plan", Place::Plan)?;
    router.insert("/graph", Place::Graph)?;
    Ok(())
}

fn place_of(router: &Router<Place>, path: &str) -> Option<Place>
    requires { router.now ≡ route_table }
    ensures { Placed path.now result }
{
    match router.at(path) {
        Ok(found) => Some(*found.value),
        Err(_) => None,
    }
}

/// The route of a path at its place: of the two of a session the one with this method, if one has
/// it.
fn route_at(alloc: Global, place: Place, method: Method, path: &str) -> Result<Route, RouteEnd>
    requires { Placed path.now (Some place) }
    ensures { RouterFinds place method path.now result }
{
    match place {
        Place::Session => session_at(alloc, method, path),
        Place::View => Ok(Route::View(caller_at(alloc, path, 2)?)),
        Place::Named => Ok(Route::Named(caller_at(alloc, path, 2)?)),
        Place::Items => Ok(Route::Items(
            caller_at(alloc, path, 2)?,
            title_at(alloc, path, 4)?,
            number_at(path, 5)?,
        )),
        Place::Event => Ok(Route::Event(caller_at(alloc, path, 2)?)),
        Place::Input => Ok(Route::Input(caller_at(alloc, path, 2)?)),
        Place::Rows => Ok(Route::Rows(caller_at(alloc, path, 2)?)),
        Place::Edit => Ok(Route::Edit(caller_at(alloc, path, 2)?)),
        Place::Replace => Ok(Route::Replace(caller_at(alloc, path, 2)?)),
        Place::Page => Ok(Route::Page(title_at(alloc, path, 2)?, number_at(path, 3)?)),
        Place::Plan => Ok(Route::Plan),
        Place::Graph => Ok(Route::Graph),
    }
}

fn session_at(alloc: Global, method: Method, path: &str) -> Result<Route, RouteEnd>
    requires { Placed path.now (Some Place.Session) }
    ensures { RouterFinds Place.Session method path.now result }
{
    let name = caller_at(alloc, path, 2)?;
    match method {
        Method::Delete => Ok(Route::End(name)),
        _ => Ok(Route::Begin(name)),
    }
}

/// The routes, made once. A value of this type has all of them.
#[derive(Drop)]
pub struct Routes {
    router: Router<Place>,
    ghost whole: { router ≡ route_table },
}

impl Routes {
    /// All routes. That they are all is in the type, so no clause says it again.
    pub fn new(alloc: Global) -> Result<Routes, Memory> {
        match make(alloc) {
            Ok(router) => Ok(Routes { router }),
            Err(_) => Err(Memory),
        }
    }

    /// The route of a request, with the parts of its path. A caller's name is never decoded.
    pub fn route(&self, alloc: Global, request: &Request) -> Result<Route, RouteEnd>
        ensures { Routing request.now.method request.now.path.items result }
    {
        let Ok(path) = std::str::from_utf8(&request.path) else {
            return Err(RouteEnd::NoRoute);
        };
        let Some(place) = place_of(&self.router, path) else {
            return Err(RouteEnd::NoRoute);
        };
        let route = route_at(alloc, place, request.method, path)?;
        if route.method() != request.method {
            return Err(RouteEnd::WrongMethod);
        }
        Ok(route)
    }
}
