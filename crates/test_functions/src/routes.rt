//! The routes of requests.

use crate::page::Page;
use app_wire::{Method, Request, Route, RouteEnd, Routes};
use fx_types::Words;

/// Requests of each route, and of none.
const REQUESTS: &str = "PUT /s/a
PUT /s/Az_09-Az_09-Az_09-Az_09-Az_09-12
DELETE /s/a
GET /s/a/view
GET /s/named/named
GET /s/a/items/List/2
GET /s/a/items/G%20x/0
GET /s/a/items/a%2Fb%2f/7
GET /s/a/items/%25%32%35/7
GET /s/a/items/Stra%C3%9Fe/7
GET /s/a/items/Straße/7
POST /s/a/event
POST /s/a/input
POST /desk/d/rows
POST /desk/d/edit
POST /desk/d/app
GET /desk/d/app
GET /rows/Stock/1
GET /rows/T/4294967295
GET /rows/T/0000000009
GET /plan
GET /graph
GET /s/a
POST /rows/T/0
HEAD /plan
GET /plan/
POST /rows/T/4294967296";

pub fn write(page: &mut Page) {
    page.add(
        "# Requests: the route of each with the parts of its path, or the code of its refusal",
    );
    match Routes::new(page.alloc) {
        Ok(routes) => add_all(page, &routes),
        Err(_) => page.miss(),
    }
}

fn add_all(page: &mut Page, routes: &Routes) {
    for line in REQUESTS.lines() {
        let (method, path) = line.split_once(' ').unwrap_or((line, ""));
        page.put(line);
        add_route(page, routes, method_of(method), path.as_bytes());
    }
    page.put("a path that is no text");
    add_route(page, routes, Method::Get, b"/rows/\xc3%A9/0");
}

// Adds what a request gets.
fn add_route(page: &mut Page, routes: &Routes, method: Method, path: &[u8]) {
    page.put(" = ");
    match Vec::from_slice(page.alloc, path) {
        Ok(path) => {
            let body = Vec::new(page.alloc);
            put_answer(page, routes, &Request { method, path, body });
        }
        Err(_) => page.miss(),
    }
    page.add("");
}

fn method_of(word: &str) -> Method {
    match word {
        "GET" => Method::Get,
        "PUT" => Method::Put,
        "POST" => Method::Post,
        "DELETE" => Method::Delete,
        _ => Method::Other,
    }
}

// Puts the route of a request, or the code of its refusal.
fn put_answer(page: &mut Page, routes: &Routes, request: &Request) {
    match routes.route(page.alloc, request) {
        Ok(route) => put_route(page, &route),
        Err(RouteEnd::NoRoute) => page.put("7"),
        Err(RouteEnd::WrongMethod) => page.put("8"),
        Err(RouteEnd::Memory) => page.miss(),
    }
}

// Puts a route and the parts of its path.
fn put_route(page: &mut Page, route: &Route) {
    match route {
        Route::Begin(name) => put_name(page, "Begin ", name),
        Route::End(name) => put_name(page, "End ", name),
        Route::View(name) => put_name(page, "View ", name),
        Route::Named(name) => put_name(page, "Named ", name),
        Route::Items(name, gallery, from) => {
            put_name(page, "Items ", name);
            put_name(page, " ", gallery);
            page.put_made(format!(in page.alloc; " {from}"));
        }
        Route::Event(name) => put_name(page, "Event ", name),
        Route::Input(name) => put_name(page, "Input ", name),
        Route::Rows(name) => put_name(page, "Rows ", name),
        Route::Edit(name) => put_name(page, "Edit ", name),
        Route::Replace(name) => put_name(page, "Replace ", name),
        Route::Page(table, after) => {
            put_name(page, "Page ", table);
            page.put_made(format!(in page.alloc; " {after}"));
        }
        Route::Plan => page.put("Plan"),
        Route::Graph => page.put("Graph"),
    }
}

fn put_name(page: &mut Page, what: &str, name: &Words) {
    page.put(what);
    page.put(name.as_str());
}
