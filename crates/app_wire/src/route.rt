//! Routes: what requests ask for.
ghost use Rattle.std.specs.Prelude.{◌≡◌};
ghost use Rattle.app_wire.specs.Routing.{IsOneRoute, method_of};

use crate::head::Method;
use fx_base::Memory;
use fx_types::words::Words;

/// The paths that have routes.
#[derive(Clone, Copy)]
pub(crate) enum Place {
    /// `/s/{name}`
    Session,
    /// `/s/{name}/view`
    View,
    /// `/s/{name}/named`
    Named,
    /// `/s/{name}/items/{gallery}/{from}`
    Items,
    /// `/s/{name}/event`
    Event,
    /// `/s/{name}/input`
    Input,
    /// `/desk/{name}/rows`
    Rows,
    /// `/desk/{name}/edit`
    Edit,
    /// `/desk/{name}/app`
    Replace,
    /// `/rows/{table}/{after}`
    Page,
    /// `/plan`
    Plan,
    /// `/graph`
    Graph,
}

/// A route, with the decoded parts of its path in their order.
pub enum Route {
    /// `PUT /s/{name}`
    Begin(Words),
    /// `DELETE /s/{name}`
    End(Words),
    /// `GET /s/{name}/view`
    View(Words),
    /// `GET /s/{name}/named`
    Named(Words),
    /// `GET /s/{name}/items/{gallery}/{from}`
    Items(Words, Words, u32),
    /// `POST /s/{name}/event`
    Event(Words),
    /// `POST /s/{name}/input`
    Input(Words),
    /// `POST /desk/{name}/rows`
    Rows(Words),
    /// `POST /desk/{name}/edit`
    Edit(Words),
    /// `POST /desk/{name}/app`
    Replace(Words),
    /// `GET /rows/{table}/{after}`
    Page(Words, u32),
    /// `GET /plan`
    Plan,
    /// `GET /graph`
    Graph,
}

// By hand, so that it is called: what is derived is opened wherever a value may end, which costs
// proofs seconds each time.
impl Drop for Route {
    fn drop(self) {
        match self {
            Route::Begin(_) => {}
            Route::End(_) => {}
            Route::View(_) => {}
            Route::Named(_) => {}
            Route::Items(_, _, _) => {}
            Route::Event(_) => {}
            Route::Input(_) => {}
            Route::Rows(_) => {}
            Route::Edit(_) => {}
            Route::Replace(_) => {}
            Route::Page(_, _) => {}
            Route::Plan => {}
            Route::Graph => {}
        }
    }
}

impl Route {
    /// The method of the requests that have this route.
    pub fn method(&self) -> Method
        ensures { result ≡ method_of self.now }
    {
        match self {
            Route::Begin(_) => Method::Put,
            Route::End(_) => Method::Delete,
            Route::Event(_)
            | Route::Input(_)
            | Route::Rows(_)
            | Route::Edit(_)
            | Route::Replace(_) => Method::Post,
            Route::View(_)
            | Route::Named(_)
            | Route::Items(_, _, _)
            | Route::Page(_, _)
            | Route::Plan
            | Route::Graph => Method::Get,
        }
    }
}

/// Why a request has no route.
#[derive(Clone, Copy)]
pub enum RouteEnd {
    /// No route has this path, or a name, a number or an escape in it is none.
    NoRoute,
    /// The path has a route with another method.
    WrongMethod,
    /// Memory ran out.
    Memory,
}

impl From<Memory> for RouteEnd {
    ghost use Rattle.app_wire.specs.declared.route.RouteEnd.TheVariants as end;

    ghost from_gives = { λ _ e. e ≡ end.Memory };

    fn from(_error: Memory) -> RouteEnd {
        RouteEnd::Memory
    }
}

/// Want of memory aside, a method and a path have one answer.
pub fn one_route()
    ensures { IsOneRoute }
{}
