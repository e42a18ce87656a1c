//! Whether the tables of a database are those that rows are kept in. A statement has its meaning
//! under the whole schema, so no other table may stand beside them.
#![tactic(auto)]

ghost use Rattle.std.specs.Prelude.{◌≡◌, ◌↔◌, IsTrue, List, [], ◌∷◌, None, Some, false, true};
ghost use Rattle.sqlite.specs.Kind.TheVariants.{Integer};
ghost use Rattle.sql_meanings.specs.Schema.{column_of, keyed, kept_schema, lines_at, marks_at};
ghost use Rattle.sql_meanings.specs.Schema.{no_schema};
ghost use Rattle.sql_layout.specs.declared.Layout.TheVariants.{Empty, Kept};
ghost use Rattle.sql_layout.specs.Plain.{IsBare, index_of, kept_indexes, kept_tables};

use sqlite_items::Items;
use sqlite_schema::schema::{Column, Index, Kind, Schema, Table};
use sqlite_value::keys::Collation;
use sqlite_value::value::{Bytes, Value};

/// What the tables of a database are to the rows that are kept.
#[derive(Clone, Copy, Debug, PartialEq, Eq)]
pub enum Layout {
    /// There is no table, index or view yet.
    Empty,
    /// The four tables that rows are kept in, made in their order, and nothing else.
    Kept,
    /// Anything else.
    Foreign,
}

fn is_named(bytes: &Bytes, name: &[u8]) -> bool
    ensures { IsTrue result ↔ (bytes.now ≡ name.now) }
{
    bytes.as_slice() == name
}

fn is_column(column: &Column, name: &[u8], kind: Kind, not_null: bool) -> bool
    ensures { IsTrue result ↔ (column.now ≡ column_of name.now kind not_null) }
{
    is_named(&column.name, name)
        && column.kind == kind
        && !column.is_strict
        && column.not_null == not_null
        && matches!(column.default, Value::Null)
        && column.collation == Collation::Binary
}

/// Whether the table has no rule but its keys.
fn is_bare(table: &Table) -> bool
    ensures { IsTrue result ↔ IsBare table.now }
{
    table.checks.roots.is_empty()
        && table.references.is_empty()
        && table.computed.is_empty()
        && table.stamps.places.is_empty()
        && table.stamps.terms.roots.is_empty()
        && table.stamps.formats.is_empty()
        && !table.is_counted
}

fn are_places(places: &Items<usize>, those: &[usize]) -> bool
    ensures { IsTrue result ↔ (places.now ≡ those.now) }
{
    places.as_slice() == those
}

/// Whether the table has a number as its key, and one column more.
fn is_keyed(table: &Table, name: &[u8], tree: u32, key: &[u8], other: &[u8], kind: Kind) -> bool
    ensures { IsTrue result ↔ (table.now ≡ record (keyed name.now
        (column_of key.now Integer false ∷ column_of other.now kind true ∷ [])) { tree = tree }) }
{
    let [first, second] = table.columns.as_slice() else {
        return false;
    };
    is_named(&table.name, name)
        && table.tree == tree
        && is_column(first, key, Kind::Integer, false)
        && is_column(second, other, kind, true)
        && table.key == Some(0)
        && are_places(&table.primary, &[0])
        && table.uniques.is_empty()
        && table.orders.is_empty()
        && is_bare(table)
}

/// Whether the key of the table is that of these columns.
fn has_key(table: &Table, places: &[usize]) -> bool
    ensures { IsTrue result ↔ ((table.now.key ≡ None) × (table.now.primary ≡ places.now)
        × (table.now.uniques ≡ places.now ∷ []) × (table.now.orders ≡ record { digits = 0 } ∷ [])) }
{
    let [unique] = table.uniques.as_slice() else {
        return false;
    };
    let [order] = table.orders.as_slice() else {
        return false;
    };
    table.key.is_none()
        && are_places(&table.primary, places)
        && are_places(unique, places)
        && order.digits == 0
}

fn is_lines(table: &Table) -> bool
    ensures { IsTrue result ↔ (table.now ≡ lines_at) }
{
    let [tab, id, body] = table.columns.as_slice() else {
        return false;
    };
    is_named(&table.name, b"lines")
        && table.tree == 2
        && is_column(tab, b"tab", Kind::Integer, true)
        && is_column(id, b"id", Kind::Integer, true)
        && is_column(body, b"body", Kind::Any, true)
        && has_key(table, &[1, 2])
        && is_bare(table)
}

fn is_marks(table: &Table) -> bool
    ensures { IsTrue result ↔ (table.now ≡ marks_at) }
{
    let [tab, col, key, id] = table.columns.as_slice() else {
        return false;
    };
    is_named(&table.name, b"marks")
        && table.tree == 4
        && is_column(tab, b"tab", Kind::Integer, true)
        && is_column(col, b"col", Kind::Integer, true)
        && is_column(key, b"k", Kind::Any, true)
        && is_column(id, b"id", Kind::Integer, true)
        && has_key(table, &[1, 2, 3, 4])
        && is_bare(table)
}

fn is_index(index: &Index, name: &[u8], tree: u32, table: u32, places: &[usize]) -> bool
    ensures { IsTrue result ↔ (index.now ≡ index_of name.now tree table places.now) }
{
    is_named(&index.name, name)
        && index.tree == tree
        && index.table == table
        && are_places(&index.columns, places)
        && index.order.digits == 0
        && index.is_unique
}

/// Whether there is no table, index or view.
fn is_empty_schema(schema: &Schema) -> bool
    ensures { IsTrue result ↔ (schema.now ≡ no_schema) }
{
    schema.tables.is_empty() && schema.indexes.is_empty() && schema.views.is_empty()
}

fn are_tables(tables: &[Table]) -> bool
    ensures { IsTrue result ↔ (tables.now ≡ kept_tables) }
{
    let [shape, tabs, lines, marks] = tables else {
        return false;
    };
    is_keyed(shape, b"shape", 0, b"one", b"body", Kind::Any)
        && is_keyed(tabs, b"tabs", 1, b"tab", b"last", Kind::Integer)
        && is_lines(lines)
        && is_marks(marks)
}

fn are_indexes(indexes: &[Index]) -> bool
    ensures { IsTrue result ↔ (indexes.now ≡ kept_indexes) }
{
    let [by_id, by_key] = indexes else {
        return false;
    };
    is_index(by_id, b"sqlite_autoindex_lines_1", 3, 2, &[1, 2])
        && is_index(by_key, b"sqlite_autoindex_marks_1", 5, 4, &[1, 2, 3, 4])
}

/// Whether these are the tables that rows are kept in, and no others.
fn is_kept_schema(schema: &Schema) -> bool
    ensures { IsTrue result ↔ (schema.now ≡ kept_schema) }
{
    are_tables(schema.tables.as_slice())
        && are_indexes(schema.indexes.as_slice())
        && schema.views.is_empty()
}

/// What the tables of a database are to the rows that are kept.
pub fn layout_of(schema: &Schema) -> Layout
    ensures empty { (result ≡ Empty) ↔ (schema.now ≡ no_schema) }
    ensures kept { (result ≡ Kept) ↔ (schema.now ≡ kept_schema) }
{
    if is_empty_schema(schema) {
        Layout::Empty
    } else if is_kept_schema(schema) {
        Layout::Kept
    } else {
        Layout::Foreign
    }
}
