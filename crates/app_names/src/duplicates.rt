//! Names of tables, columns, screens and controls that are taken.
ghost use Rattle.std.specs.Prelude.{◌≡◌, ◌≤◌, ◌||◌, [], IfOk, length, map};
ghost use Rattle.app_names.specs.Declarations.{is_name_among};
ghost use Rattle.app_names.specs.NameRules as rules;
ghost use Rattle.app_names.specs.Tops.{is_name_in_set};
ghost use Rattle.fx_core.specs.declared.schema.Column.{Column as TableColumn};

use crate::broken::word;
use crate::given_names::{put_formula_names, screen_names, table_names};
use crate::name_clashes::is_reserved;
use crate::name_sets::{put_name, set_of};
use app_cells::{Cell, Frame};
use fx_base::Memory;
use fx_core::schema::{Column, TableShape};
use fx_types::words::Words;
use std::alloc::Global;
use std::collections::BTreeSet;

// Whether a name is taken by those of a set.
fn is_taken_by(seen: &BTreeSet<Words>, name: &Words) -> bool
    ensures { result ≡ (rules.is_reserved name.now || is_name_in_set seen.now name.now) }
{
    is_reserved(name) || seen.contains(name)
}

// The first of these names that is taken by those before it.
fn first_twice(alloc: Global, before: &[Words], names: &[Words]) -> Result<Option<Words>, Memory>
    ensures { IfOk result (λ o. o ≡ rules.first_twice before.now names.now) }
{
    let mut seen = set_of(alloc, before)?;
    for name in names {
        if is_taken_by(&seen, name) {
            return Ok(Some(name.copy(alloc)?));
        }
        put_name(alloc, name, &mut seen)?;
    }
    Ok(None)
}

fn column_names(alloc: Global, columns: &[Column]) -> Result<Vec<Words>, Memory>
    ensures { IfOk result (λ v. v.items ≡ map (λ (c : TableColumn). c.name) columns.now) }
{
    let mut names = Vec::new(alloc);
    for column in columns {
        names.push(column.name.copy(alloc)?)?;
    }
    Ok(names)
}

// The first column whose name is taken: `ID` is from the start.
fn column_twice(alloc: Global, table: &TableShape) -> Result<Option<Words>, Memory>
    ensures { IfOk result (λ o. o ≡ rules.column_twice table.now) }
{
    let mut before = Vec::new(alloc);
    before.push(word(alloc, "ID")?)?;
    let names = column_names(alloc, table.columns.as_slice())?;
    first_twice(alloc, &before, &names)
}

// Whether a name is taken by these.
fn is_taken(before: &[Words], name: &Words) -> bool
    ensures { result ≡ rules.is_taken before.now name.now }
{
    is_reserved(name) || is_among(before, name)
}

fn is_among(names: &[Words], name: &Words) -> bool
    ensures { result ≡ is_name_among names.now name.now }
{
    names.iter().any(|other| other.is(name))
}

// The first name of a table or of a column that is taken.
fn table_twice(alloc: Global, tables: &[TableShape]) -> Result<Option<Words>, Memory>
    ensures { IfOk result (λ o. o ≡ rules.table_twice [] tables.now) }
{
    let mut before = Vec::new(alloc);
    for table in tables {
        if is_taken(&before, &table.name) {
            return Ok(Some(table.name.copy(alloc)?));
        }
        if let Some(name) = column_twice(alloc, table)? {
            return Ok(Some(name));
        }
        before.push(table.name.copy(alloc)?)?;
    }
    Ok(None)
}

// The first name of a screen or a control that is taken, by tables and named formulas too.
fn screen_twice(alloc: Global, frame: &Frame, cells: &[Cell]) -> Result<Option<Words>, Memory>
    requires { length frame.now.screens ≤ 64 }
    ensures { IfOk result (λ o. o ≡ rules.screen_twice frame.now cells.now) }
{
    let mut before = table_names(alloc, frame)?;
    put_formula_names(alloc, cells, &mut before)?;
    let names = screen_names(alloc, frame)?;
    first_twice(alloc, &before, &names)
}

/// The first name of a table, a column, a screen or a control that is taken.
pub fn frame_twice(alloc: Global, frame: &Frame, cells: &[Cell]) -> Result<Option<Words>, Memory>
    requires { length frame.now.screens ≤ 64 }
    ensures { IfOk result (λ o. o ≡ rules.frame_twice frame.now cells.now) }
{
    match table_twice(alloc, frame.schema.tables.as_slice())? {
        Some(name) => Ok(Some(name)),
        None => screen_twice(alloc, frame, cells),
    }
}
