//! Whether no name and no number stands twice in a list. It is told by a loop in a loop, and by no
//! set, which would take memory.
ghost use Rattle.std.specs.Prelude.{◌≡◌, bytes_eq, nat_eq};
ghost use Rattle.std.specs.Str.{IsAscii};
ghost use Rattle.app_names.specs.Decided.{are_apart, are_cells_distinct, are_distinct};
ghost use Rattle.app_names.specs.Decided.{column_names, formula_cells, function_names, is_new};
ghost use Rattle.app_names.specs.Decided.{property_cells, table_names};
ghost use Rattle.fx_core.specs.Lawful.{id_name};

use fx_core::names::{FormulaName, FunctionName, Property};
use fx_core::schema::{Column, TableShape};
use fx_types::words::Words;

// Whether no column has this name.
fn is_no_column(name: &Words, columns: &[Column]) -> bool
    ensures { result ≡ is_new bytes_eq name.now (column_names columns.now) }
{
    for column in columns {
        if column.name.is(name) {
            return false;
        }
    }
    true
}

/// Whether no column's name stands twice.
pub fn are_distinct_columns(columns: &[Column]) -> bool
    ensures { result ≡ are_distinct bytes_eq (column_names columns.now) }
{
    for (place, column) in columns.iter().enumerate() {
        if !is_no_column(&column.name, &columns[place + 1..]) {
            return false;
        }
    }
    true
}

// Whether a name is this word of ASCII characters.
fn is_word(name: &Words, word: &str) -> bool
    requires { IsAscii word.now }
    ensures { result ≡ bytes_eq name.now word.now }
{
    name.as_str() == word
}

/// Whether no column has the name of the one that numbers the rows.
pub fn is_without_id(columns: &[Column]) -> bool
    ensures { result ≡ is_new bytes_eq id_name (column_names columns.now) }
{
    for column in columns {
        if is_word(&column.name, "ID") {
            return false;
        }
    }
    true
}

// Whether no table has this name.
fn is_no_table(name: &Words, tables: &[TableShape]) -> bool
    ensures { result ≡ is_new bytes_eq name.now (table_names tables.now) }
{
    for table in tables {
        if table.name.is(name) {
            return false;
        }
    }
    true
}

/// Whether no table's name stands twice.
pub fn are_distinct_tables(tables: &[TableShape]) -> bool
    ensures { result ≡ are_distinct bytes_eq (table_names tables.now) }
{
    for (place, table) in tables.iter().enumerate() {
        if !is_no_table(&table.name, &tables[place + 1..]) {
            return false;
        }
    }
    true
}

// Whether no function of the app's own has this name.
fn is_no_function(name: &Words, functions: &[FunctionName]) -> bool
    ensures { result ≡ is_new bytes_eq name.now (function_names functions.now) }
{
    for function in functions {
        if function.name.is(name) {
            return false;
        }
    }
    true
}

/// Whether no name of a function of the app's own stands twice.
pub fn are_distinct_functions(functions: &[FunctionName]) -> bool
    ensures { result ≡ are_distinct bytes_eq (function_names functions.now) }
{
    for (place, function) in functions.iter().enumerate() {
        if !is_no_function(&function.name, &functions[place + 1..]) {
            return false;
        }
    }
    true
}

// Whether no property's cell has this number.
fn is_no_property(cell: u32, properties: &[Property]) -> bool
    ensures { result ≡ is_new nat_eq cell (property_cells properties.now) }
{
    for property in properties {
        if property.cell == cell {
            return false;
        }
    }
    true
}

// Whether no formula's cell has this number.
fn is_no_formula(cell: u32, formulas: &[FormulaName]) -> bool
    ensures { result ≡ is_new nat_eq cell (formula_cells formulas.now) }
{
    for formula in formulas {
        if formula.cell == cell {
            return false;
        }
    }
    true
}

// Whether no property's cell stands twice.
fn are_distinct_properties(properties: &[Property]) -> bool
    ensures { result ≡ are_distinct nat_eq (property_cells properties.now) }
{
    for (place, property) in properties.iter().enumerate() {
        if !is_no_property(property.cell, &properties[place + 1..]) {
            return false;
        }
    }
    true
}

// Whether no formula's cell stands twice.
fn are_distinct_formulas(formulas: &[FormulaName]) -> bool
    ensures { result ≡ are_distinct nat_eq (formula_cells formulas.now) }
{
    for (place, formula) in formulas.iter().enumerate() {
        if !is_no_formula(formula.cell, &formulas[place + 1..]) {
            return false;
        }
    }
    true
}

// Whether no formula's cell is a property's.
fn are_apart(formulas: &[FormulaName], properties: &[Property]) -> bool
    ensures { result ≡ are_apart nat_eq (formula_cells formulas.now) (property_cells properties.now) }
{
    for formula in formulas {
        if !is_no_property(formula.cell, properties) {
            return false;
        }
    }
    true
}

/// Whether no cell stands twice among formulas and properties.
pub fn are_distinct_cells(formulas: &[FormulaName], properties: &[Property]) -> bool
    ensures { result ≡ are_cells_distinct (formula_cells formulas.now)
        (property_cells properties.now) }
{
    are_distinct_formulas(formulas)
        && are_distinct_properties(properties)
        && are_apart(formulas, properties)
}
