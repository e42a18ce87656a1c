// The table that the cases are about: its schema, cells of its rows, and queries of it.
ghost use Rattle.std.specs.Prelude.{◌≡◌, true, cond, [], ◌∷◌, None, Option, Some, IfOk};
ghost use Rattle.std.specs.Prelude.{IsSomeAnd, slice_get};
ghost use Rattle.fx_types.specs.declared.types.Ty.TheVariants.{Number, Text};
ghost use Rattle.fx_core.specs.declared.schema.Schema.{Schema as SchemaValue};
ghost use Rattle.row_queries.specs.Conditions.{always, is_blank as has_blank};
ghost use Rattle.row_queries.specs.Queries.{CanTotal, IsQuery};
ghost use Rattle.row_queries.specs.RowTests.{HasNoFaults};
ghost use Rattle.row_queries.specs.TableRows.{AreCellsOf};
ghost use Rattle.row_keeper.specs.Tables.{shapes_of};
ghost use Rattle.keeper_cases.specs.Stock.{IsStock, source_of, stock_moves};

use crate::calls::{Form, Sources};
use fx_base::{InOrder, Memory};
use fx_core::{Column, Schema, TableShape};
use fx_number::Num;
use fx_types::{Ty, Value, Words};
use row_keeper::TableMove;
use row_queries::{Cells, Key, KeyRange, Query, RangeList, Test, TestNode};
use std::alloc::Global;

/// A text, and an indexed number, by their names.
pub fn stock(alloc: Global, form: Form) -> Result<Schema, Memory>
    ensures { IfOk result (λ s. IsStock (Some s)) }
{
    let mut columns = InOrder::new(alloc);
    columns.push(text_column(alloc, form.name)?)?;
    columns.push(number_column(alloc, form.quantity)?)?;
    let mut tables = InOrder::new(alloc);
    tables.push(TableShape {
        name: Words::of(alloc, form.table)?,
        columns,
    })?;
    Ok(Schema { tables })
}

/// A column of texts, by its name and rules.
fn text_column(alloc: Global, text: &str) -> Result<Column, Memory>
    ensures { IfOk result (λ c. c.ty ≡ Text) }
{
    let (name, rules) = text.split_once(':').unwrap_or((text, ""));
    Ok(Column {
        name: Words::of(alloc, name)?,
        ty: Ty::Text,
        required: is_required(rules),
        unique: is_unique(rules),
        indexed: false,
    })
}

/// An indexed column of numbers, by its name and rules.
fn number_column(alloc: Global, text: &str) -> Result<Column, Memory>
    ensures { IfOk result (λ c. (c.ty ≡ Number) × (c.indexed ≡ true)) }
{
    let (name, rules) = text.split_once(':').unwrap_or((text, ""));
    Ok(Column {
        name: Words::of(alloc, name)?,
        ty: Ty::Number,
        required: is_required(rules),
        unique: is_unique(rules),
        indexed: true,
    })
}

fn is_required(rules: &str) -> bool {
    rules == "required" || rules == "key"
}

fn is_unique(rules: &str) -> bool {
    rules == "unique" || rules == "key"
}

/// `Name` alone.
pub fn names_alone(alloc: Global) -> Result<Schema, Memory> {
    let mut columns = InOrder::new(alloc);
    columns.push(text_column(alloc, "Name:key")?)?;
    let mut tables = InOrder::new(alloc);
    tables.push(TableShape {
        name: Words::of(alloc, "Stock")?,
        columns,
    })?;
    Ok(Schema { tables })
}

/// How the table moves to another like it.
pub fn moves(alloc: Global, sources: Sources) -> Result<Vec<TableMove>, Memory>
    ensures { IfOk result (λ ms. ms.items
        ≡ stock_moves sources.rows sources.names sources.quantities) }
{
    let from = source(sources.rows, true, 0);
    let mut columns = InOrder::new(alloc);
    columns.push(source(sources.rows, sources.names, 1))?;
    columns.push(source(sources.rows, sources.quantities, 2))?;
    let mut moves = Vec::new(alloc);
    moves.push(TableMove { from, columns })?;
    Ok(moves)
}

/// The number of a source, where rows come and this does with them.
fn source(has_rows: bool, is_given: bool, number: u16) -> Option<u16>
    ensures { result ≡ source_of has_rows is_given number }
{
    if has_rows && is_given {
        Some(number)
    } else {
        None
    }
}

/// The cells of a row.
pub fn cells(alloc: Global, name: &str, quantity: Option<Num>) -> Result<Cells, Memory>
    ensures { IfOk result (λ c. (s : SchemaValue) → IsStock (Some s)
        → IsSomeAnd (slice_get s.tables 0) (λ t. AreCellsOf t.columns c)) }
{
    let mut cells = Cells::new(alloc);
    cells.push(Value::Text(Words::of(alloc, name)?))?;
    match quantity {
        None => cells.push(Value::Blank)?,
        Some(number) => cells.push(Value::Number(number))?,
    }
    Ok(cells)
}

/// The key of a number, or one before all.
fn key_of(alloc: Global, number: Option<Num>) -> Result<Key, Memory> {
    match number {
        None => Ok(Key::from_bytes(Vec::new(alloc))),
        Some(number) => Key::of(alloc, &Value::Number(number)),
    }
}

/// The range of the keys from one on.
fn from_on(alloc: Global, from: Key) -> Result<RangeList, Memory>
    ensures { IfOk result (λ l. l ≡ record { from = from; upto = None } ∷ []) }
{
    let mut ranges = InOrder::new(alloc);
    ranges.push(KeyRange { from, upto: None })?;
    Ok(ranges)
}

/// The rows of at least a quantity, or all, the greatest quantity first.
pub fn from(alloc: Global, quantity: Option<Num>, most: Option<u32>) -> Result<Query, Memory>
    ensures query { IfOk result (λ q. (o : Option SchemaValue) → IsStock o
        → IsQuery (shapes_of o) q) }
    ensures total { IfOk result (λ q. (o : Option SchemaValue) → IsStock o
        → CanTotal (shapes_of o) q 2) }
    ensures sound { IfOk result (λ q. HasNoFaults q.test) }
{
    let ranges = from_on(alloc, key_of(alloc, quantity)?)?;
    Ok(Query {
        table: 0,
        column: 2,
        ranges,
        test: Test {
            node: TestNode::All,
        },
        order: Some((2, true)),
        take: most,
    })
}

/// A test of rows that have no quantity, or of all rows.
fn test_of(is_blank: bool) -> Test
    ensures { result ≡ cond is_blank (has_blank 2) always }
{
    if is_blank {
        Test {
            node: TestNode::IsBlank(2),
        }
    } else {
        Test {
            node: TestNode::All,
        }
    }
}

/// The rows from a number on, or all, by their numbers; or those of them without a quantity.
pub fn page(
    alloc: Global,
    first: Option<Num>,
    most: Option<u32>,
    is_blank: bool,
) -> Result<Query, Memory>
    ensures { IfOk result (λ q. (o : Option SchemaValue) → IsStock o → IsQuery (shapes_of o) q) }
{
    let ranges = from_on(alloc, key_of(alloc, first)?)?;
    Ok(Query {
        table: 0,
        column: 0,
        ranges,
        test: test_of(is_blank),
        order: None,
        take: most,
    })
}
