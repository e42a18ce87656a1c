// A keeper, and what the cases have come to.
ghost use Rattle.std.specs.Prelude.{◌≡◌, false};
ghost use Rattle.keeper_cases.specs.Stock.{IsInStep};

use crate::calls::{Ask, Asked, Call, Sources, form_of};
use crate::said::Said;
use crate::stage::{Stage, back, begin, commit, count, put, remove, reshape, scan, shape, total};
use crate::stock::{cells, from, moves, names_alone, page, stock};
use fx_number::Num;
use row_keeper::Keeper;

/// A keeper, and what the cases have come to.
#[derive(Drop)]
pub struct Case<K> {
    pub keeper: K,
    pub stage: Stage,
}

impl<K: Keeper> Case<K> {
    /// The cases begin with a keeper that they haven't shaped.
    pub fn new(keeper: K) -> Case<K>
        requires { K.in_transaction keeper ≡ false }
        ensures { IsInStep result.stage.is_shaped result.stage.is_begun (K.shaped result.keeper)
            (K.in_transaction result.keeper) }
    {
        Case {
            keeper,
            stage: Stage {
                is_shaped: false,
                is_begun: false,
            },
        }
    }

    /// Makes a call of the keeper, and adds what it answers; other calls answer nothing.
    pub fn make(&mut self, call: &Call, said: &mut Said)
        requires { IsInStep self.old.stage.is_shaped self.old.stage.is_begun
            (K.shaped self.old.keeper) (K.in_transaction self.old.keeper) }
        ensures { IsInStep self.new.stage.is_shaped self.new.stage.is_begun
            (K.shaped self.new.keeper) (K.in_transaction self.new.keeper) }
    {
        match call {
            Call::Shape(text) => shape_stock(&mut self.keeper, &mut self.stage, text, said),
            Call::Other => shape_other(&mut self.keeper, &mut self.stage, said),
            Call::Begin => begin(&mut self.keeper, &mut self.stage, said),
            Call::Commit => commit(&mut self.keeper, &mut self.stage, said),
            Call::Back => back(&mut self.keeper, &mut self.stage, said),
            Call::Put(id, name, quantity) => {
                put_cells(&mut self.keeper, self.stage, *id, name, *quantity, said);
            }
            Call::Remove(id) => remove(&mut self.keeper, self.stage, *id, said),
            Call::Reshape(text, sources) => {
                move_stock(&mut self.keeper, &mut self.stage, text, *sources, said);
            }
            Call::Ask(question) => ask(&mut self.keeper, self.stage, *question, said),
            _ => {}
        }
    }
}

/// Shapes the keeper by a table like that of the cases.
fn shape_stock<K: Keeper>(keeper: &mut K, stage: &mut Stage, text: &str, said: &mut Said)
    requires { IsInStep stage.old.is_shaped stage.old.is_begun (K.shaped keeper.old)
        (K.in_transaction keeper.old) }
    ensures { IsInStep stage.new.is_shaped stage.new.is_begun (K.shaped keeper.new)
        (K.in_transaction keeper.new) }
{
    match stock(said.alloc, form_of(text)) {
        Ok(schema) => shape(keeper, stage, &schema, true, said),
        Err(_) => said.miss(),
    }
}

/// Tries to shape the keeper by another table.
fn shape_other<K: Keeper>(keeper: &mut K, stage: &mut Stage, said: &mut Said)
    requires { IsInStep stage.old.is_shaped stage.old.is_begun (K.shaped keeper.old)
        (K.in_transaction keeper.old) }
    ensures { IsInStep stage.new.is_shaped stage.new.is_begun (K.shaped keeper.new)
        (K.in_transaction keeper.new) }
{
    match names_alone(said.alloc) {
        Ok(schema) => shape(keeper, stage, &schema, false, said),
        Err(_) => said.miss(),
    }
}

/// Moves the table to another like it.
#[tactic(auto, using(crate::proofs::StockLemmas::are_moves))]
fn move_stock<K: Keeper>(
    keeper: &mut K,
    stage: &mut Stage,
    text: &str,
    sources: Sources,
    said: &mut Said,
)
    requires { IsInStep stage.old.is_shaped stage.old.is_begun (K.shaped keeper.old)
        (K.in_transaction keeper.old) }
    ensures { IsInStep stage.new.is_shaped stage.new.is_begun (K.shaped keeper.new)
        (K.in_transaction keeper.new) }
{
    match (stock(said.alloc, form_of(text)), moves(said.alloc, sources)) {
        (Ok(schema), Ok(moves)) => reshape(keeper, stage, &schema, &moves, said),
        _ => said.miss(),
    }
}

/// Puts a new row of a name and a quantity, or puts it over that of a number.
fn put_cells<K: Keeper>(
    keeper: &mut K,
    stage: Stage,
    id: Option<u32>,
    name: &str,
    quantity: Option<Num>,
    said: &mut Said,
)
    requires { IsInStep stage.is_shaped stage.is_begun (K.shaped keeper.old)
        (K.in_transaction keeper.old) }
    ensures { IsInStep stage.is_shaped stage.is_begun (K.shaped keeper.new)
        (K.in_transaction keeper.new) }
{
    match cells(said.alloc, name, quantity) {
        Ok(cells) => put(keeper, stage, id, &cells, said),
        Err(_) => said.miss(),
    }
}

/// Asks for rows.
fn ask<K: Keeper>(keeper: &mut K, stage: Stage, ask: Ask, said: &mut Said)
    requires { IsInStep stage.is_shaped stage.is_begun (K.shaped keeper.old)
        (K.in_transaction keeper.old) }
    ensures { IsInStep stage.is_shaped stage.is_begun (K.shaped keeper.new)
        (K.in_transaction keeper.new) }
{
    match ask.of {
        Asked::Page => ask_page(keeper, stage, ask, false, said),
        Asked::Blanks => ask_page(keeper, stage, ask, true, said),
        Asked::Rows | Asked::Count | Asked::Total => ask_quantities(keeper, stage, ask, said),
    }
}

/// Asks for a page of rows by their numbers, or for those of it that have no quantity.
fn ask_page<K: Keeper>(keeper: &mut K, stage: Stage, ask: Ask, is_blank: bool, said: &mut Said)
    requires { IsInStep stage.is_shaped stage.is_begun (K.shaped keeper.old)
        (K.in_transaction keeper.old) }
    ensures { IsInStep stage.is_shaped stage.is_begun (K.shaped keeper.new)
        (K.in_transaction keeper.new) }
{
    match page(said.alloc, ask.least, ask.most, is_blank) {
        Ok(query) => scan(keeper, stage, &query, said),
        Err(_) => said.miss(),
    }
}

/// Asks for the rows of at least a quantity, how many they are, or what they come to.
fn ask_quantities<K: Keeper>(keeper: &mut K, stage: Stage, ask: Ask, said: &mut Said)
    requires { IsInStep stage.is_shaped stage.is_begun (K.shaped keeper.old)
        (K.in_transaction keeper.old) }
    ensures { IsInStep stage.is_shaped stage.is_begun (K.shaped keeper.new)
        (K.in_transaction keeper.new) }
{
    match from(said.alloc, ask.least, ask.most) {
        Ok(query) => match ask.of {
            Asked::Count => count(keeper, stage, &query, said),
            Asked::Total => total(keeper, stage, &query, said),
            _ => scan(keeper, stage, &query, said),
        },
        Err(_) => said.miss(),
    }
}
