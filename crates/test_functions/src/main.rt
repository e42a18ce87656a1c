//! Writes what libraries answer where no formula shows it: keys and orders of values, how types
//! join and what values weigh, the ends of days, values and refusals in their written forms, what a
//! typed tree reads, how numbers round, the tokens of texts, the properties of controls, the routes
//! of requests, how conversations go, which functions there are, orders and circles, conditions
//! before an error, how requests of sessions and desks count, and whether the system's clock goes.
#![tactic(auto)]

mod batches;
mod conditions;
mod conversations;
mod days;
mod forms;
mod keys;
mod names;
mod numbers;
mod orders;
mod page;
mod parts;
mod reads;
mod refused;
mod routes;
mod sessions;
mod signatures;
mod tokens;
mod weights;

use crate::page::Page;
use app_wire::{Clock, SystemClock};
use fx_base::Memory;
use std::io::{self, ErrorKind};

fn main(rt: HostRuntime) -> io::Result<()> {
    let mut page = Page::new(rt.alloc());
    if write_libraries(&mut page).is_err() {
        page.miss();
    }
    let is_now = SystemClock::new(&rt).now() > 1_700_000_000;
    page.add_answer("the system's clock is past 1700000000", is_now);
    match page.finish() {
        Ok(text) => print!(rt; "{text}"),
        Err(_) => Err(ErrorKind::OutOfMemory.into()),
    }
}

/// Writes what libraries answer.
fn write_libraries(page: &mut Page) -> Result<(), Memory> {
    keys::write(page);
    weights::write(page)?;
    days::write(page);
    forms::write(page);
    refused::write(page)?;
    reads::write(page);
    numbers::write(page);
    tokens::write(page);
    names::write(page)?;
    routes::write(page);
    conversations::write(page);
    signatures::write(page);
    orders::write(page);
    conditions::write(page);
    sessions::write(page)?;
    batches::write(page)
}
