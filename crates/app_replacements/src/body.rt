//! The body of a replacement.
ghost use Rattle.std.specs.Prelude.{◌≡◌, IfOk, option_and_then, option_map};
ghost use Rattle.serde_json.specs.View.{items_view, view as json_view};
ghost use Rattle.app_replacements.specs.Bodies as bodies;
ghost use Rattle.app_replacements.specs.Bodies.{IsSoundReplacement, replaced_in};

use app_moves::Move;
use fx_base::{InOrder, Memory};
use numbered_requests::Body;
use numbered_requests::values::{items_at, member_count, number_at, text_at};
use serde_json::Value as Json;
use std::alloc::Global;

/// The most moves of one request.
const MOST_MOVES: usize = 2000;

/// Moves in their order.
pub type MoveList = InOrder<Move>;

/// A replacement of the whole app under its number, with the moves of the tables that are there.
/// The app that is to come stays in the JSON: `app_in` finds it.
#[derive(Drop)]
pub struct Replacement {
    pub seq: u32,
    pub moves: MoveList,
}

/// The app that is to come, as JSON.
pub fn app_in(json: &Json) -> Option<&Json>
    ensures { option_map (λ app. json_view app.now) result ≡ bodies.app_in (json_view json.now) }
{
    json.get("app")
}

fn table_move_in(alloc: Global, json: &Json) -> Result<Option<Move>, Memory>
    ensures { IfOk result (λ m. m ≡ bodies.table_move_in (json_view json.now)) }
{
    let (Some(table), Some(to)) = (text_at(alloc, json, "table")?, text_at(alloc, json, "to")?)
    else {
        return Ok(None);
    };
    Ok(Some(Move {
        table,
        column: None,
        to,
    }))
}

fn column_move_in(alloc: Global, json: &Json) -> Result<Option<Move>, Memory>
    ensures { IfOk result (λ m. m ≡ bodies.column_move_in (json_view json.now)) }
{
    let Some(column) = text_at(alloc, json, "column")? else {
        return Ok(None);
    };
    match table_move_in(alloc, json)? {
        Some(Move { table, to, .. }) => Ok(Some(Move {
            table,
            column: Some(column),
            to,
        })),
        None => Ok(None),
    }
}

/// The move that JSON is, if it is one.
fn move_in(alloc: Global, json: &Json) -> Result<Option<Move>, Memory>
    ensures { IfOk result (λ m. m ≡ bodies.move_in (json_view json.now)) }
{
    match member_count(json) {
        2 => table_move_in(alloc, json),
        3 => column_move_in(alloc, json),
        _ => Ok(None),
    }
}

/// The moves that a list is, if each of its elements is one.
fn moves_in(alloc: Global, items: &[Json]) -> Result<Option<MoveList>, Memory>
    ensures { IfOk result (λ ms. ms ≡ bodies.moves_in (items_view items.now)) }
{
    let mut moves = MoveList::new(alloc);
    for json in items {
        match move_in(alloc, json)? {
            Some(step) => moves.push(step)?,
            None => return Ok(None),
        }
    }
    Ok(Some(moves))
}

/// The moves, where there are as many as may be asked for.
fn if_few(moves: Option<MoveList>) -> Option<MoveList>
    ensures { result ≡ option_and_then bodies.if_few moves }
{
    match moves {
        Some(moves) if moves.len() <= MOST_MOVES => Some(moves),
        _ => None,
    }
}

impl Body for Replacement {
    ghost asked = { replaced_in };

    ghost number = { λ r. r.seq };

    ghost sound = { IsSoundReplacement };

    fn read(alloc: Global, json: &Json) -> Result<Option<Replacement>, Memory> {
        if member_count(json) != 3 || app_in(json).is_none() {
            return Ok(None);
        }
        let Some(seq) = number_at(json, "seq") else {
            return Ok(None);
        };
        let Some(items) = items_at(json, "moves") else {
            return Ok(None);
        };
        match if_few(moves_in(alloc, items)?) {
            Some(moves) => Ok(Some(Replacement { seq, moves })),
            None => Ok(None),
        }
    }

    fn seq(&self) -> u32 {
        self.seq
    }

    ghost counted = { λ r h. h.number };
}
