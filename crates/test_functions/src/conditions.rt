//! What a row holds of a condition, and of one before an error.
ghost use Rattle.std.specs.Prelude.{◌≡◌, [], IfOk, IfSome};
ghost use Rattle.fx_types.specs.declared.comparisons.Cmp.TheVariants.{Eq as EqualTo};
ghost use Rattle.fx_types.specs.declared.faults.Kind.TheVariants.{Div0};
ghost use Rattle.fx_types.specs.Values.{number as number_data, fault as fault_data};
ghost use Rattle.row_queries.specs.Conditions.{all_of, also, compares, constant as constant_data};
ghost use Rattle.row_queries.specs.Conditions.{no_conditions};
ghost use Rattle.row_queries.specs.RowTests.{CanAsk};
ghost use Rattle.row_queries.specs.TableRows.{values_of};

use crate::page::Page;
use fx_base::Memory;
use fx_number::Num;
use fx_types::{Cmp, Fault, Kind, Value, Words};
use row_queries::{Cells, Held, Row, Test, TestNode, Tests, fault_of, meets};
use std::alloc::Global;

pub fn write(page: &mut Page) {
    page.add("# A condition, and one before an error, of the row 3");
    add_before_an_error(page, "that its number is 2, and an error", 20_000);
    add_before_an_error(page, "that its number is 3, and an error", 30_000);
    match number_is(30_000) {
        Some(test) => add_held(page, "that its number is 3", &row(page.alloc), &test),
        None => page.add("no number"),
    }
}

// A row without cells.
fn row(alloc: Global) -> Row {
    Row {
        id: 3,
        cells: Cells::new(alloc),
    }
}

// A test that the number of a row is this many ten-thousandths.
fn number_is(units: i64) -> Option<Test>
    ensures { IfSome result (λ t. t ≡ compares EqualTo 0 (number_data units)) }
{
    Some(Test {
        node: TestNode::Compare(Cmp::Eq, 0, Value::Number(Num::from_units(units)?)),
    })
}

fn division_by_zero(message: Words) -> Test
    ensures { result ≡ constant_data (fault_data Div0 message) }
{
    Test {
        node: TestNode::Const(Value::Fault(Fault {
            kind: Kind::Div0,
            message,
        })),
    }
}

// A test before an error.
fn before_an_error(alloc: Global, first: Test, message: Words) -> Result<Test, Memory>
    ensures { IfOk result (λ t. t ≡ all_of (also first
        (also (constant_data (fault_data Div0 message)) no_conditions))) }
{
    let mut tests = Tests::new(alloc);
    tests.push(first)?;
    tests.push(division_by_zero(message))?;
    Ok(Test {
        node: TestNode::And(tests),
    })
}

// Adds what the row holds of a test of its number before an error.
fn add_before_an_error(page: &mut Page, what: &str, units: i64) {
    let Ok(message) = Words::of(page.alloc, "") else {
        return page.miss();
    };
    let Some(first) = number_is(units) else {
        return page.add("no number");
    };
    match before_an_error(page.alloc, first, message) {
        Ok(test) => add_held(page, what, &row(page.alloc), &test),
        Err(Memory) => page.miss(),
    }
}

// Adds what a row holds of a test, and whether there is an error.
fn add_held(page: &mut Page, what: &str, row: &Row, test: &Test)
    requires { CanAsk (values_of row.now) test.now }
{
    page.put(what);
    page.add(match meets(page.alloc, test, row) {
        Ok(Held::Yes) => ": holds",
        Ok(Held::No) => ": doesn't hold",
        Ok(Held::Error) => ": is an error",
        Err(Memory) => return page.miss(),
    });
    let fault = fault_of(page.alloc, test, row);
    page.add_answer(
        "by a division by zero",
        matches!(&fault, Ok(Some(fault)) if fault.kind == Kind::Div0),
    );
}
