// From where new tables come, and what becomes of old ones.
ghost use Rattle.std.specs.Prelude.{◌≡◌, option_map};
ghost use Rattle.app_moves.specs.Moves as moves_by;

use crate::moves::Move;
use fx_core::{Column, TableShape};
use fx_types::Words;

/// The table of a name.
pub fn table_named<'a>(tables: &'a [TableShape], name: &Words) -> Option<&'a TableShape>
    ensures { option_map (λ t. t.now) result ≡ moves_by.table_named tables.now name.now }
{
    tables.iter().find(|table| table.name.is(name))
}

/// The column of a name, `ID` aside.
pub fn column_named<'a>(table: &'a TableShape, name: &Words) -> Option<&'a Column>
    ensures { option_map (λ c. c.now) result ≡ moves_by.column_named table.now name.now }
{
    table
        .columns
        .as_slice()
        .iter()
        .find(|column| column.name.is(name))
}

/// Whether a move is one of a table that is there.
fn moves_table(olds: &[TableShape], step: &Move) -> bool
    ensures { result ≡ moves_by.moves_table olds.now step.now }
{
    step.column.is_none() && table_named(olds, &step.table).is_some()
}

/// The first move that gives a name to a table that is there.
fn first_to<'a>(olds: &[TableShape], moves: &'a [Move], name: &Words) -> Option<&'a Move>
    ensures { option_map (λ m. m.now) result ≡ moves_by.first_to olds.now moves.now name.now }
{
    moves
        .iter()
        .find(|step| step.to.is(name) && moves_table(olds, step))
}

/// The old table that is to get a name.
fn moved_to<'a>(olds: &'a [TableShape], moves: &[Move], name: &Words) -> Option<&'a TableShape>
    ensures { option_map (λ t. t.now) result ≡ moves_by.moved_to olds.now moves.now name.now }
{
    table_named(olds, &first_to(olds, moves, name)?.table)
}

/// Whether the table of a name is to get another one.
fn is_moved(moves: &[Move], name: &Words) -> bool
    ensures { result ≡ moves_by.is_moved moves.now name.now }
{
    moves
        .iter()
        .any(|step| step.column.is_none() && step.table.is(name))
}

/// The old table of a name, where it keeps its name.
fn kept_table<'a>(olds: &'a [TableShape], moves: &[Move], name: &Words) -> Option<&'a TableShape>
    ensures { option_map (λ t. t.now) result ≡ moves_by.kept_table olds.now moves.now name.now }
{
    if is_moved(moves, name) {
        None
    } else {
        table_named(olds, name)
    }
}

/// The old table that the new one of a name comes from.
pub fn source_of<'a>(olds: &'a [TableShape], moves: &[Move], name: &Words) -> Option<&'a TableShape>
    ensures { option_map (λ t. t.now) result ≡ moves_by.source_of olds.now moves.now name.now }
{
    match moved_to(olds, moves, name) {
        Some(table) => Some(table),
        None => kept_table(olds, moves, name),
    }
}

/// Whether a table is there and has this name.
pub fn is_called(name: &Words, table: Option<&TableShape>) -> bool
    ensures { result ≡ moves_by.is_called name.now (option_map (λ t. t.now) table.entry) }
{
    match table {
        Some(table) => table.name.is(name),
        None => false,
    }
}

/// Whether the new table of one name comes from the old one of another.
fn comes_from(
    olds: &[TableShape],
    news: &[TableShape],
    moves: &[Move],
    new: &Words,
    old: &Words,
) -> bool
    ensures { result ≡ moves_by.comes_from olds.now news.now moves.now new.now old.now }
{
    table_named(news, new).is_some() && is_called(old, source_of(olds, moves, new))
}

/// Whether a move makes the old table of a name a new one.
fn leads_from(
    olds: &[TableShape],
    news: &[TableShape],
    moves: &[Move],
    old: &Words,
    step: &Move,
) -> bool
    ensures { result ≡ moves_by.leads_from olds.now news.now moves.now old.now step.now }
{
    step.column.is_none() && step.table.is(old) && comes_from(olds, news, moves, &step.to, old)
}

/// The first move that makes the old table of a name a new one.
fn first_from<'a>(
    olds: &[TableShape],
    news: &[TableShape],
    moves: &'a [Move],
    old: &Words,
) -> Option<&'a Move>
    ensures { option_map (λ m. m.now) result
        ≡ moves_by.first_from olds.now news.now moves.now old.now }
{
    moves
        .iter()
        .find(|step| leads_from(olds, news, moves, old, step))
}

/// The new table that comes by a move from the old one of a name.
fn led_to<'a>(
    olds: &[TableShape],
    news: &'a [TableShape],
    moves: &[Move],
    old: &Words,
) -> Option<&'a TableShape>
    ensures { option_map (λ t. t.now) result
        ≡ moves_by.led_to olds.now news.now moves.now old.now }
{
    table_named(news, &first_from(olds, news, moves, old)?.to)
}

/// What the old table of a name becomes, by all moves of the list.
pub fn target_of<'a>(
    olds: &[TableShape],
    news: &'a [TableShape],
    moves: &[Move],
    old: &Words,
) -> Option<&'a TableShape>
    ensures { option_map (λ t. t.now) result
        ≡ moves_by.target_of olds.now news.now moves.now old.now }
{
    match led_to(olds, news, moves, old) {
        Some(table) => Some(table),
        None if comes_from(olds, news, moves, old, old) => table_named(news, old),
        None => None,
    }
}
