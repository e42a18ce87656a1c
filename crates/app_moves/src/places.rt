// Moves by places, as a keeper is asked for them.
ghost use Rattle.std.specs.Prelude.{◌≡◌, ◌<◌, ◌≤◌, All, IfOk, IfSome, None, bytes_eq, length};
ghost use Rattle.std.specs.Prelude.{map, option_map};
ghost use Rattle.std.specs.List.{position};
ghost use Rattle.std.specs.Option.{ForSome};
ghost use Rattle.fx_core.specs.declared.schema.Column.{Column as Field};
ghost use Rattle.fx_core.specs.declared.schema.TableShape.{TableShape as Shape};
ghost use Rattle.fx_core.specs.Lawful.{IsLawfulSchema};
ghost use Rattle.row_keeper.specs.MovedTables.{AreMoves};
ghost use Rattle.app_moves.specs.Moves as moves_by;
ghost use Rattle.app_moves.specs.Places as places;
ghost use Rattle.app_moves.specs.Refusals as refusals;

use crate::columns::column_source;
use crate::moves::Move;
use crate::tables::source_of;
use fx_base::{InOrder, Memory};
use fx_core::{Column, Schema, TableShape};
use fx_types::Words;
use row_keeper::TableMove;
use std::alloc::Global;

/// The place of the table of a name.
fn table_place(tables: &[TableShape], name: &Words) -> Option<usize>
    ensures place { result ≡ position (λ (t : Shape). bytes_eq t.name name.now) tables.now }
    ensures there { IfSome result (λ k. k < length tables.now) }
{
    tables.iter().position(|table| table.name.is(name))
}

/// The place of the column of a name, `ID` aside.
fn column_place(columns: &[Column], name: &Words) -> Option<usize>
    ensures place { result ≡ position (λ (c : Field). bytes_eq c.name name.now) columns.now }
    ensures there { IfSome result (λ k. k < length columns.now) }
{
    columns.iter().position(|column| column.name.is(name))
}

/// The place of a table, if there is one.
fn place_of(tables: &[TableShape], table: Option<&TableShape>) -> Option<u16>
    requires { length tables.now ≤ 32 }
    ensures { result ≡ places.place_of tables.now (option_map (λ t. t.now) table.entry) }
{
    let place = table_place(tables, &table?.name)?;
    Some(place as u16)
}

/// The number of a column, if there is one, where `ID` is 0.
fn number_of(columns: &[Column], column: Option<&Column>) -> Option<u16>
    requires { length columns.now ≤ 63 }
    ensures { result ≡ places.number_of columns.now (option_map (λ c. c.now) column.entry) }
{
    let place = column_place(columns, &column?.name)?;
    Some(place as u16 + 1)
}

/// The number of a column's source, where its table has this one.
fn column_move(moves: &[Move], source: Option<&TableShape>, column: &Column) -> Option<u16>
    requires { ForSome (option_map (λ t. t.now) source) (λ t. length t.columns ≤ 63) }
    ensures { result ≡ places.column_move moves.now (option_map (λ t. t.now) source.entry)
        column.now }
{
    let old = source?;
    number_of(
        old.columns.as_slice(),
        column_source(moves, old, &column.name),
    )
}

/// The numbers of the sources of a new table's columns.
fn column_moves(
    alloc: Global,
    moves: &[Move],
    source: Option<&TableShape>,
    columns: &[Column],
) -> Result<InOrder<Option<u16>>, Memory>
    requires { ForSome (option_map (λ t. t.now) source) (λ t. length t.columns ≤ 63) }
    ensures { IfOk result (λ v. v ≡ map (places.column_move moves.now
        (option_map (λ t. t.now) source.entry)) columns.now) }
{
    let mut numbers = InOrder::new(alloc);
    for column in columns {
        numbers.push(column_move(moves, source, column))?;
    }
    Ok(numbers)
}

/// From where a new table comes.
fn table_move(
    alloc: Global,
    olds: &[TableShape],
    moves: &[Move],
    new: &TableShape,
) -> Result<TableMove, Memory>
    requires few { length olds.now ≤ 32 }
    requires narrow { All (λ t. length t.columns ≤ 63) olds.now }
    ensures { IfOk result (λ m. m ≡ places.table_move olds.now moves.now new.now) }
{
    let source = source_of(olds, moves, &new.name);
    let columns = column_moves(alloc, moves, source, new.columns.as_slice())?;
    let from = place_of(olds, source);
    Ok(TableMove { from, columns })
}

/// From where each new table comes, and its columns, as a keeper is asked for it.
pub fn table_moves(
    alloc: Global,
    olds: &Schema,
    news: &Schema,
    moves: &[Move],
) -> Result<Vec<TableMove>, Memory>
    requires olds { IsLawfulSchema olds.now }
    requires news { IsLawfulSchema news.now }
    ensures places { IfOk result (λ v. v.items
        ≡ places.table_moves olds.now.tables moves.now news.now.tables) }
    ensures fit { refusals.moves_refusal olds.now.tables news.now.tables moves.now ≡ None
        → AreMoves olds.now.tables news.now.tables
        (places.table_moves olds.now.tables moves.now news.now.tables) }
{
    let tables = olds.tables.as_slice();
    let mut all = Vec::new(alloc);
    for new in news.tables.as_slice() {
        all.push(table_move(alloc, tables, moves, new)?)?;
    }
    Ok(all)
}
