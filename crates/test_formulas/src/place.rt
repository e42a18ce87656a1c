//! Where formulas stand.
ghost use Rattle.std.specs.Prelude.{◌≤◌, IfOk};
ghost use Rattle.fx_infer.specs.Below.{tree_depth};

use crate::answer::Stop;
use crate::names::LIST;
use fx_infer::{Place, Written, no_deeper};
use fx_parser::{ParseEnd, parse_formula};
use fx_types::types::{Columns, Ty};
use fx_types::words::Words;
use std::alloc::Global;

/// The type that is wanted in a place.
#[derive(Clone, Copy)]
pub enum Wanted {
    Any,
    Number,
    Text,
    Boolean,
    Date,
    Table,
}

impl Wanted {
    /// The type, where one is wanted. Any table is wanted as one without columns.
    fn ty(self, alloc: Global) -> Option<Ty> {
        match self {
            Wanted::Any => None,
            Wanted::Number => Some(Ty::Number),
            Wanted::Text => Some(Ty::Text),
            Wanted::Boolean => Some(Ty::Boolean),
            Wanted::Date => Some(Ty::Date),
            Wanted::Table => Some(Ty::Tab(Columns::new(alloc))),
        }
    }
}

/// A place of a formula.
#[derive(Clone, Copy)]
pub struct Spot {
    /// The number of its screen.
    screen: Option<u32>,
    /// The number of the gallery whose item it sees.
    item: Option<u32>,
    /// What it allows.
    kind: Place,
    /// The type that is wanted there.
    wanted: Wanted,
}

impl Spot {
    /// A place of a behaviour formula.
    pub fn behaviour(screen: Option<u32>, item: Option<u32>) -> Spot {
        Spot {
            screen,
            item,
            kind: Place::Acting,
            wanted: Wanted::Any,
        }
    }

    /// A place of a value on the first screen.
    pub fn value(item: Option<u32>, wanted: Wanted) -> Spot {
        Spot {
            screen: Some(0),
            item,
            kind: Place::Pure,
            wanted,
        }
    }

    /// The place of a named formula.
    pub fn named() -> Spot {
        Spot {
            screen: None,
            item: None,
            kind: Place::Pure,
            wanted: Wanted::Any,
        }
    }

    /// The place that a word names: `pure`, on the first screen; `item`, in the template of the
    /// gallery; `acts`, a behaviour formula of the first screen, and `start` one of none; or a type
    /// that is wanted on the first screen.
    fn of(word: &str) -> Option<Spot> {
        let spot = match word {
            "pure" => Spot::value(None, Wanted::Any),
            "item" => Spot::value(Some(LIST), Wanted::Any),
            "acts" => Spot::behaviour(Some(0), None),
            "start" => Spot::behaviour(None, None),
            "number" => Spot::value(None, Wanted::Number),
            "text" => Spot::value(None, Wanted::Text),
            "boolean" => Spot::value(None, Wanted::Boolean),
            "date" => Spot::value(None, Wanted::Date),
            "table" => Spot::value(None, Wanted::Table),
            _ => return None,
        };
        Some(spot)
    }
}

/// A formula in the place that this word names.
pub fn place_formula(alloc: Global, word: &str, text: &str) -> Result<Written, Stop>
    ensures shallow { IfOk result (λ w. tree_depth w.expr ≤ 64) }
{
    match Spot::of(word) {
        Some(spot) => write_formula(alloc, "F", spot, text),
        None => Err(Stop::NoRow),
    }
}

/// A formula of this text, in the cell of this address.
pub fn write_formula(alloc: Global, cell: &str, spot: Spot, text: &str) -> Result<Written, Stop>
    ensures shallow { IfOk result (λ w. tree_depth w.expr ≤ 64) }
{
    no_deeper();
    if text.len() >= 4_294_967_296 {
        return Err(Stop::NoRow);
    }
    let cell = Words::of(alloc, cell)?;
    match parse_formula(alloc, text) {
        Ok(expr) => Ok(Written {
            cell,
            screen: spot.screen,
            item: spot.item,
            wanted: spot.wanted.ty(alloc),
            place: spot.kind,
            expr,
        }),
        Err(ParseEnd::Memory) => Err(Stop::Memory),
        Err(_) => Err(Stop::NoRow),
    }
}
