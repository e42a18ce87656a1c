//! Values in plain form and as JSON.

use crate::page::Page;
use crate::parts::{Scalar, number, pair, value_of};
use fx_base::Memory;
use fx_types::{Fault, Fields, Kind, Rows, Value, Words};
use std::alloc::Global;
use view_text::{Named, named_json, plain, value_json};

/// The scalars that are written.
const SCALARS: [Scalar; 15] = [
    Scalar::Number(0),
    Scalar::Number(-10_000),
    Scalar::Number(5_000),
    Scalar::Number(9_223_372_036_854_770_000),
    Scalar::Number(-9_223_372_036_854_775_807),
    Scalar::Text(""),
    Scalar::Text("a\"b"),
    Scalar::Text("tab\t\u{1}\\"),
    Scalar::Text("Straße 😀"),
    Scalar::Date(-25_567),
    Scalar::Date(0),
    Scalar::Date(19_782),
    Scalar::Date(2_932_896),
    Scalar::Blank,
    Scalar::Boolean(true),
];

pub fn write(page: &mut Page) {
    page.add("# Plain form and JSON");
    for scalar in SCALARS {
        add_made(page, value_of(page.alloc, scalar));
    }
    add_made(page, error(page.alloc));
    add(page, &Value::Rec(Fields::new(page.alloc)));
    add(page, &Value::Tab(Rows::new(page.alloc)));
    add_made(page, nested(page.alloc));
    match named(page.alloc) {
        Ok(all) => page.add_made(named_json(page.alloc, &all)),
        Err(Memory) => page.miss(),
    }
}

// Adds a value that was made, if there was memory for it.
fn add_made(page: &mut Page, value: Result<Value, Memory>) {
    match value {
        Ok(value) => add(page, &value),
        Err(Memory) => page.miss(),
    }
}

// Adds both forms of a value.
fn add(page: &mut Page, value: &Value) {
    page.put_made(plain(page.alloc, value));
    page.put(" is ");
    match value_json(page.alloc, value) {
        Ok(json) => page.add_made(json.to_string(page.alloc)),
        Err(Memory) => page.miss(),
    }
}

fn error(alloc: Global) -> Result<Value, Memory> {
    let message = Words::of(alloc, "Name")?;
    let kind = Kind::ConstraintViolated;
    Ok(Value::Fault(Fault { kind, message }))
}

// A record of a record and a table.
fn nested(alloc: Global) -> Result<Value, Memory> {
    let rows = rows(alloc)?;
    let words = Words::of(alloc, "x")?;
    let record = pair(alloc, number(10_000), Value::Text(words))?;
    let nested = pair(alloc, Value::Rec(record), Value::Tab(rows))?;
    Ok(Value::Rec(nested))
}

fn rows(alloc: Global) -> Result<Rows, Memory> {
    let mut rows = Rows::new(alloc);
    rows.push(pair(alloc, number(10_000), Value::Blank)?)?;
    rows.push(pair(alloc, number(20_000), Value::Boolean(false))?)?;
    Ok(rows)
}

// Named formulas, as they are listed.
fn named(alloc: Global) -> Result<Vec<Named>, Memory> {
    let first = Words::of(alloc, "A")?;
    let second = Words::of(alloc, "B")?;
    Ok(vec![in alloc; name_number(first, 3_333), name_number(second, 9_999)]?)
}

fn name_number(name: Words, units: i64) -> Named {
    let value = number(units);
    Named { name, value }
}
