// From where the columns of new tables come.
ghost use Rattle.std.specs.Prelude.{◌≡◌, option_map};
ghost use Rattle.app_moves.specs.Moves as moves_by;

use crate::moves::Move;
use crate::tables::column_named;
use fx_core::{Column, TableShape};
use fx_types::Words;

/// Whether a name is given, and is this one.
pub fn is_name(name: &Words, given: &Option<Words>) -> bool
    ensures { result ≡ moves_by.is_name name.now given.now }
{
    match given {
        Some(given) => given.is(name),
        None => false,
    }
}

/// Whether a move is one of a column of the table of a name.
fn moves_column(table: &Words, step: &Move) -> bool
    ensures { result ≡ moves_by.moves_column table.now step.now }
{
    step.column.is_some() && step.table.is(table)
}

/// The column of a table that a move names.
fn column_of<'a>(table: &'a TableShape, name: &Option<Words>) -> Option<&'a Column>
    ensures { option_map (λ c. c.now) result ≡ moves_by.column_of table.now name.now }
{
    match name {
        Some(name) => column_named(table, name),
        None => None,
    }
}

/// The first move that gives a name to a column of an old table.
fn column_to<'a>(moves: &'a [Move], old: &TableShape, name: &Words) -> Option<&'a Move>
    ensures { option_map (λ m. m.now) result ≡ moves_by.column_to moves.now old.now name.now }
{
    moves
        .iter()
        .find(|step| step.to.is(name) && moves_column(&old.name, step))
}

/// The column of an old table that is to get a name.
fn column_moved_to<'a>(moves: &[Move], old: &'a TableShape, name: &Words) -> Option<&'a Column>
    ensures { option_map (λ c. c.now) result
        ≡ moves_by.column_moved_to moves.now old.now name.now }
{
    column_of(old, &column_to(moves, old, name)?.column)
}

/// Whether the column of a name of an old table is to get another one.
fn is_column_moved(moves: &[Move], old: &TableShape, name: &Words) -> bool
    ensures { result ≡ moves_by.is_column_moved moves.now old.now name.now }
{
    moves.iter().any(|step| is_name(name, &step.column) && step.table.is(&old.name))
}

/// The column of an old table that the new one of a name comes from.
pub fn column_source<'a>(moves: &[Move], old: &'a TableShape, name: &Words) -> Option<&'a Column>
    ensures { option_map (λ c. c.now) result ≡ moves_by.column_source moves.now old.now name.now }
{
    match column_moved_to(moves, old, name) {
        Some(column) => Some(column),
        None if is_column_moved(moves, old, name) => None,
        None => column_named(old, name),
    }
}
