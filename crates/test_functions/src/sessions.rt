//! Sessions and desks: how requests count, and what is kept of them.

use crate::page::Page;
use fx_base::{InOrder, Memory};
use fx_core::{FormulaList, Names, Schema};
use session_state::{Change, Desk, Session, Turn};
use std::alloc::Global;

pub fn write(page: &mut Page) -> Result<(), Memory> {
    page.add("# Sessions and desks");
    add_all(page, &no_names(page.alloc))
}

// All of sessions and desks. The names are lent, since each place where they may end costs a proof
// seconds.
fn add_all(page: &mut Page, names: &Names) -> Result<(), Memory> {
    add_session(page, names)?;
    add_desk(page)?;
    add_carried(page, names)
}

// No names.
fn no_names(alloc: Global) -> Names {
    Names {
        signatures: &[],
        schema: Schema {
            tables: InOrder::new(alloc),
        },
        screens: InOrder::new(alloc),
        controls: InOrder::new(alloc),
        properties: InOrder::new(alloc),
        functions: InOrder::new(alloc),
        formulas: FormulaList::new(alloc),
        variables: InOrder::new(alloc),
        collections: InOrder::new(alloc),
    }
}

// Adds how a copy of a session stands that went to a screen and keeps a request.
fn add_session(page: &mut Page, names: &Names) -> Result<(), Memory> {
    let alloc = page.alloc;
    let mut session = Session::new(alloc, names)?;
    page.add_answer("it goes to a screen", session.change(Change::Screen(2))?);
    session.keep(1, b"a".to_vec(alloc)?, b"r".to_vec(alloc)?);
    let mut copy = session.copy()?;
    page.add_answer("its copy is there", copy.screen() == 2);
    page.add_answer("it went there", copy.take_navigated());
    page.add_answer("nothing is chosen", copy.chosen(0).is_none());
    page.add_answer("its request comes again", copy.turn(1, b"a") == Turn::Again);
    page.add_answer("its reply is kept", copy.kept() == b"r".as_slice());
    Ok(())
}

// Adds how the requests of a desk count, up to the last number.
fn add_desk(page: &mut Page) -> Result<(), Memory> {
    let alloc = page.alloc;
    let mut desk = Desk::new(alloc);
    page.add_answer("a first request is new", desk.turn(1, b"a") == Turn::New);
    desk.keep(u32::MAX, b"a".to_vec(alloc)?, b"r".to_vec(alloc)?);
    let is_out_of_step = desk.turn(1, b"a") == Turn::OutOfStep(u32::MAX);
    page.add_answer("behind the last one it is out of step", is_out_of_step);
    page.add_answer("the last reply is kept", desk.kept() == b"r".as_slice());
    Ok(())
}

// Adds that a session stays where it is as it is carried to the same names.
fn add_carried(page: &mut Page, names: &Names) -> Result<(), Memory> {
    let mut session = Session::new(page.alloc, names)?;
    session.make_room(names)?;
    session.carry(names, names);
    session.make_room(names)?;
    session.drop_room();
    page.add_answer(
        "a carried session is on the first screen",
        session.screen() == 0,
    );
    Ok(())
}
