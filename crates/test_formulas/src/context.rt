//! What the formulas of the table may name.

use crate::answer::Stop;
use crate::apps::{App, add_part, bare_app};
use app_names::is_lawful;
use fx_core::names::Names;
use fx_infer::{InferEnd, type_rounds};
use std::alloc::Global;

/// What formulas may name beside the table, the screens and the controls: named formulas,
/// properties, global variables, one of a screen, and a collection. The formulas behind them give
/// them their types.
const PARTS: [&str; 12] = [
    "named Price = 2",
    "named Parts = [{A: 1, B: \"x\"}]",
    "named Thing = {Name: \"n\", Size: {Wide: 1}}",
    "List.Items Stock",
    "Line.Text \"\"",
    "Head.Text \"\"",
    "Rate.Max 1",
    "global count picked none",
    "Home hint",
    "collection Basket",
    "App.OnStart Set(count, 1); Set(picked, {Name: \"n\", Qty: 1}); Set(none, Blank())",
    "Home.OnVisible UpdateContext({hint: \"h\"}); Collect(Basket, {Name: \"n\", Qty: 1})",
];

/// All that the formulas of the table may name, with its types.
pub fn context(alloc: Global) -> Result<Names, Stop> {
    let mut app = bare_app(alloc)?;
    add_parts(alloc, &mut app)?;
    settle(alloc, app)
}

/// Adds what formulas may name.
fn add_parts(alloc: Global, app: &mut App) -> Result<(), Stop> {
    for part in PARTS {
        add_part(alloc, app, part)?;
    }
    Ok(())
}

/// The names of an app, with their types.
fn settle(alloc: Global, app: App) -> Result<Names, Stop> {
    let App { names, cells } = app;
    if !is_lawful(&names) {
        return Err(Stop::NoRow);
    }
    match type_rounds(alloc, names, &cells) {
        Ok(names) => Ok(names),
        Err(InferEnd::Broken(_)) => Err(Stop::NoRow),
        Err(InferEnd::Memory) => Err(Stop::Memory),
    }
}
