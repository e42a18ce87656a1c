// Which move breaks a rule first, and which column comes from one of another type.
ghost use Rattle.std.specs.Prelude.{◌≡◌, option_map};
ghost use Rattle.app_moves.specs.Broken as broken;
ghost use Rattle.app_moves.specs.Moves as moves_by;

use crate::columns::{column_source, is_name};
use crate::moves::Move;
use crate::tables::{column_named, is_called, table_named, target_of};
use fx_core::{Column, TableShape};
use fx_types::{Ty, Words};

/// Whether neither is given, or both are this name.
fn is_same_column(other: &Option<Words>, column: &Option<Words>) -> bool
    ensures { result ≡ broken.is_same_column other.now column.now }
{
    match column {
        Some(name) => is_name(name, other),
        None => other.is_none(),
    }
}

/// Whether an earlier move is one of the same table, or of the same column of it.
fn moves_same(step: &Move, earlier: &Move) -> bool
    ensures { result ≡ broken.moves_same step.now earlier.now }
{
    earlier.table.is(&step.table) && is_same_column(&earlier.column, &step.column)
}

/// Whether an earlier move gives a table the same name.
fn gives_table(step: &Move, earlier: &Move) -> bool
    ensures { result ≡ broken.gives_table step.now earlier.now }
{
    earlier.column.is_none() && earlier.to.is(&step.to)
}

/// Whether an earlier move gives a column of a new table the same name.
fn gives_column(
    olds: &[TableShape],
    news: &[TableShape],
    moves: &[Move],
    new: &TableShape,
    step: &Move,
    earlier: &Move,
) -> bool
    ensures { result ≡ broken.gives_column olds.now news.now moves.now new.now step.now
        earlier.now }
{
    earlier.column.is_some()
        && earlier.to.is(&step.to)
        && is_called(&new.name, target_of(olds, news, moves, &earlier.table))
}

/// Whether an earlier move is one of the same thing.
fn is_moved_before(earlier: &[Move], step: &Move) -> bool
    ensures { result ≡ broken.is_moved_before earlier.now step.now }
{
    earlier.iter().any(|other| moves_same(step, other))
}

/// Whether an earlier move gives a table the same name.
fn is_given_before(earlier: &[Move], step: &Move) -> bool
    ensures { result ≡ broken.is_given_before earlier.now step.now }
{
    earlier.iter().any(|other| gives_table(step, other))
}

/// Whether an earlier move gives a column of a new table the same name.
fn is_filled_before(
    olds: &[TableShape],
    news: &[TableShape],
    moves: &[Move],
    earlier: &[Move],
    new: &TableShape,
    step: &Move,
) -> bool
    ensures { result ≡ broken.is_filled_before olds.now news.now moves.now earlier.now new.now
        step.now }
{
    earlier
        .iter()
        .any(|other| gives_column(olds, news, moves, new, step, other))
}

/// Whether a table moves well behind earlier moves.
fn is_fine_table(olds: &[TableShape], news: &[TableShape], earlier: &[Move], step: &Move) -> bool
    ensures { result ≡ broken.is_fine_table olds.now news.now earlier.now step.now }
{
    table_named(olds, &step.table).is_some()
        && table_named(news, &step.to).is_some()
        && !is_moved_before(earlier, step)
        && !is_given_before(earlier, step)
}

/// Whether a column fares well in what its table becomes.
fn is_fine_in(
    olds: &[TableShape],
    news: &[TableShape],
    moves: &[Move],
    earlier: &[Move],
    step: &Move,
) -> bool
    ensures { result ≡ broken.is_fine_in olds.now news.now moves.now earlier.now step.now
        (moves_by.target_of olds.now news.now moves.now step.now.table) }
{
    match target_of(olds, news, moves, &step.table) {
        Some(new) => {
            column_named(new, &step.to).is_some()
                && !is_filled_before(olds, news, moves, earlier, new, step)
        }
        None => false,
    }
}

/// The column of a name of the table of another.
fn column_in<'a>(tables: &'a [TableShape], table: &Words, name: &Words) -> Option<&'a Column>
    ensures { option_map (λ c. c.now) result ≡ broken.column_in tables.now table.now name.now }
{
    column_named(table_named(tables, table)?, name)
}

/// Whether a column moves well behind earlier moves.
fn is_fine_column(
    olds: &[TableShape],
    news: &[TableShape],
    moves: &[Move],
    earlier: &[Move],
    step: &Move,
    name: &Words,
) -> bool
    ensures { result ≡ broken.is_fine_column olds.now news.now moves.now earlier.now step.now
        name.now }
{
    column_in(olds, &step.table, name).is_some()
        && !is_moved_before(earlier, step)
        && is_fine_in(olds, news, moves, earlier, step)
}

/// Whether a move of the list breaks no rule behind earlier ones of it.
fn is_fine(
    olds: &[TableShape],
    news: &[TableShape],
    moves: &[Move],
    earlier: &[Move],
    step: &Move,
) -> bool
    ensures { result ≡ broken.is_fine olds.now news.now moves.now earlier.now step.now }
{
    match &step.column {
        Some(name) => is_fine_column(olds, news, moves, earlier, step, name),
        None => is_fine_table(olds, news, earlier, step),
    }
}

/// The first move of the list that breaks a rule.
pub fn broken_move<'a>(
    olds: &[TableShape],
    news: &[TableShape],
    moves: &'a [Move],
) -> Option<&'a Move>
    ensures { option_map (λ m. m.now) result ≡ broken.broken_move olds.now news.now moves.now }
{
    for (place, step) in moves.iter().enumerate() {
        if !is_fine(olds, news, moves, &moves[..place], step) {
            return Some(step);
        }
    }
    None
}

/// Whether two columns have one type.
fn is_same_type(one: &Ty, other: &Ty) -> bool
    ensures { result ≡ broken.is_same_type one.now other.now }
{
    match (one, other) {
        (Ty::Number, Ty::Number)
        | (Ty::Text, Ty::Text)
        | (Ty::Boolean, Ty::Boolean)
        | (Ty::Date, Ty::Date) => true,
        _ => false,
    }
}

/// Whether a column's source has another type.
fn has_other_type(column: &Column, source: Option<&Column>) -> bool
    ensures { result ≡ broken.has_other_type column.now (option_map (λ c. c.now) source.entry) }
{
    match source {
        Some(source) => !is_same_type(&source.ty, &column.ty),
        None => false,
    }
}

/// The first column of a new table whose source in an old one has another type.
fn mistyped_from<'a>(moves: &[Move], old: &TableShape, new: &'a TableShape) -> Option<&'a Column>
    ensures { option_map (λ c. c.now) result
        ≡ broken.mistyped_from moves.now old.now new.now }
{
    new.columns.as_slice().iter().find(|column| has_other_type(
        column,
        column_source(moves, old, &column.name),
    ))
}

/// The first column of a new table whose source has another type.
pub fn mistyped_column<'a>(
    moves: &[Move],
    source: Option<&TableShape>,
    new: &'a TableShape,
) -> Option<&'a Column>
    ensures { option_map (λ c. c.now) result ≡ broken.mistyped_column moves.now
        (option_map (λ t. t.now) source.entry) new.now }
{
    mistyped_from(moves, source?, new)
}
