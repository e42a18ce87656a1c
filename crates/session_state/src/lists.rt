//! Lists as a session has them at first, and their copies.
ghost use Rattle.std.specs.Prelude.{◌≡◌, map, length, None, IfOk, replicate};
ghost use Rattle.fx_types.specs.ValueView.{view};
ghost use Rattle.fx_types.specs.Values.{blank, tab, no_rows};

use fx_base::Memory;
use fx_types::values::{Rows, Value};
use fx_types::words::Words;
use std::alloc::Global;

/// So many blanks.
pub(crate) fn blanks(alloc: Global, count: usize) -> Result<Vec<Value>, Memory>
    ensures { IfOk result (λ v. map view v.items ≡ replicate count blank) }
{
    let mut all = Vec::new(alloc);
    for _ in 0..count {
        all.push(Value::Blank)?;
    }
    Ok(all)
}

/// So many empty tables.
pub(crate) fn empty_tables(alloc: Global, count: usize) -> Result<Vec<Value>, Memory>
    ensures { IfOk result (λ v. map view v.items ≡ replicate count (tab no_rows)) }
{
    let mut all = Vec::new(alloc);
    for _ in 0..count {
        all.push(Value::Tab(Rows::new(alloc)))?;
    }
    Ok(all)
}

/// So many places with nothing.
pub(crate) fn nothing<T: Drop>(alloc: Global, count: usize) -> Result<Vec<Option<T>>, Memory>
    ensures { IfOk result (λ v. v.items ≡ replicate count None) }
{
    let mut all = Vec::new(alloc);
    for _ in 0..count {
        all.push(None)?;
    }
    Ok(all)
}

/// The same values.
pub(crate) fn copy_of_values(alloc: Global, values: &[Value]) -> Result<Vec<Value>, Memory>
    ensures { IfOk result (λ v. v.items ≡ values.now) }
{
    let mut all = Vec::new(alloc);
    for value in values {
        all.push(value.copy(alloc)?)?;
    }
    Ok(all)
}

/// The same value, if there is one.
fn copy_of_input(alloc: Global, input: &Option<Value>) -> Result<Option<Value>, Memory>
    ensures { IfOk result (λ v. v ≡ input.now) }
{
    match input {
        Some(value) => Ok(Some(value.copy(alloc)?)),
        None => Ok(None),
    }
}

/// The same inputs.
pub(crate) fn copy_of_inputs(
    alloc: Global,
    inputs: &[Option<Value>],
) -> Result<Vec<Option<Value>>, Memory>
    ensures { IfOk result (λ v. v.items ≡ inputs.now) }
{
    let mut all = Vec::new(alloc);
    for input in inputs {
        all.push(copy_of_input(alloc, input)?)?;
    }
    Ok(all)
}

/// The same texts.
pub(crate) fn copy_of_texts(alloc: Global, texts: &[Words]) -> Result<Vec<Words>, Memory>
    ensures { IfOk result (λ v. v.items ≡ texts.now) }
{
    let mut all = Vec::new(alloc);
    for text in texts {
        all.push(text.copy(alloc)?)?;
    }
    Ok(all)
}
