//! How types join, which values fit them, and what values weigh.

use crate::page::Page;
use crate::parts::{Scalar, pair, single};
use fx_base::Memory;
use fx_core::Scalar as ScalarType;
use fx_types::{Columns, Rows, Ty, Value, Words};
use fx_value::{coerce, fits, join, same, weigh};
use std::alloc::Global;
use view_text::plain;

/// The number 1.
const ONE: Scalar = Scalar::Number(10_000);

pub fn write(page: &mut Page) -> Result<(), Memory> {
    page.add("# Types and weights");
    add_records(page)?;
    add_tables(page)?;
    add_nested(page)
}

fn add_records(page: &mut Page) -> Result<(), Memory> {
    let alloc = page.alloc;
    let record = single(alloc, "A", ONE)?;
    let has_a = columns(alloc, "A", ScalarType::Number)?;
    let has_b = columns(alloc, "B", ScalarType::Text)?;
    add_record(page, &Value::Rec(record), &Ty::Rec(has_a), &Ty::Rec(has_b))
}

// What a record of the first type is like.
fn add_record(page: &mut Page, record: &Value, has_a: &Ty, has_b: &Ty) -> Result<(), Memory> {
    page.add_answer("a copy is the same", is_as_copy(page.alloc, record)?);
    page.add_answer("another is the same", same(record, &Value::Blank));
    page.add_answer("a record fits its type", fits(record, has_a));
    page.add_answer("it fits another type", fits(record, has_b));
    page.add_answer("a record joins a text", joins_text(page.alloc, has_a)?);
    page.add_made(weight_text(page.alloc, record));
    add_joined(page, record, has_a, has_b)
}

fn is_as_copy(alloc: Global, value: &Value) -> Result<bool, Memory> {
    Ok(same(value, &value.copy(alloc)?))
}

fn joins_text(alloc: Global, ty: &Ty) -> Result<bool, Memory> {
    Ok(join(alloc, ty, &Ty::Text)?.is_some())
}

fn add_tables(page: &mut Page) -> Result<(), Memory> {
    let alloc = page.alloc;
    let mut rows = Rows::new(alloc);
    rows.push(single(alloc, "B", ONE)?)?;
    rows.push(single(alloc, "B", Scalar::Blank)?)?;
    let has_b = columns(alloc, "B", ScalarType::Number)?;
    let has_a = columns(alloc, "A", ScalarType::Date)?;
    add_joined(page, &Value::Tab(rows), &Ty::Tab(has_b), &Ty::Tab(has_a))
}

fn add_nested(page: &mut Page) -> Result<(), Memory> {
    let empty = Value::Tab(Rows::new(page.alloc));
    let nested = pair(page.alloc, Value::Boolean(true), empty)?;
    page.add_made(weight_text(page.alloc, &Value::Rec(nested)));
    Ok(())
}

fn columns(alloc: Global, name: &str, ty: ScalarType) -> Result<Columns, Memory> {
    let name = Words::of(alloc, name)?;
    let mut columns = Columns::new(alloc);
    columns.push((name, ty.ty()))?;
    Ok(columns)
}

// A value of the first type as one of the join of both.
fn add_joined(page: &mut Page, value: &Value, ty: &Ty, other: &Ty) -> Result<(), Memory> {
    if !fits(value, ty) {
        page.add("no fit");
        return Ok(());
    }
    match join(page.alloc, ty, other)? {
        Some(joined) => {
            let wide = coerce(page.alloc, value.copy(page.alloc)?, &joined)?;
            page.add_made(weight_text(page.alloc, &wide));
        }
        None => page.add("no join"),
    }
    Ok(())
}

fn weight_text(alloc: Global, value: &Value) -> Result<String, Memory> {
    let shown = plain(alloc, value)?;
    Ok(format!(in alloc; "{shown} weighs {}", weigh(value))?)
}
