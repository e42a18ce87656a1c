//! What formulas take of query expressions.
ghost use Rattle.std.specs.Prelude.{◌≡◌, ◌*◌, ℤ, List, length, map, pos, slice_get, true, IfOk};
ghost use Rattle.std.specs.Prelude.{IfSome, MatchOption, None, Some};
ghost use Rattle.fx_types.specs.ValueView.{view};
ghost use Rattle.fx_types.specs.Values.{number};
ghost use Rattle.fx_primitives.specs.Folds.{average_of};
ghost use Rattle.fx_eval.specs.Demands.{IsDemand, IsFolded, IsNumberColumn, IsSearch, IsSearchBy};
ghost use Rattle.fx_eval.specs.Demands.{fun_of, most_rows_taken, settled_in};
ghost use Rattle.fx_number.specs.Decimal.{IsInRange};
ghost use Rattle.fx_plan.specs.QueryExpressions.{sketch_of};
ghost use Rattle.fx_semantics.specs.Rows.{rows_in};
ghost use Rattle.fx_tables.specs.AggregateCalls.{IsSumValue, number_or_blank as number_or_blank_of};
ghost use Rattle.fx_value.specs.Aggregates.{SumsUp};
ghost use Rattle.fx_tables.specs.RowCalls.{IsCountValue, first_row_record};
ghost use Rattle.fx_core.specs.declared.functions.Fun.TheVariants as fun;
ghost use Rattle.fx_core.specs.Lawful.{IsLawfulSchema};
ghost use Rattle.fx_core.specs.Term.{all, cons, const, nil, of};
ghost use Rattle.fx_plan.specs.Consumers.{over_query};
ghost use Rattle.fx_eval.specs.Visits.{IsUnasked};

use fx_base::Memory;
use fx_core::{Core, CoreNode, Fun, Scalar, Schema};
use fx_number::Num;
use fx_plan::conditions::column_of;
use fx_plan::sketches::filter_sketch;
use fx_plan::{Sketch, settled_call, settled_query, settled_search, sketch_under};
use fx_primitives::quotient;
use fx_tables::row_calls::first;
use fx_types::{Fault, Kind, Totals, Value, Words};
use std::alloc::Global;
use std::slice;

/// What a formula takes of the rows of a query expression.
#[derive(Clone, Copy)]
pub enum Demand {
    /// All of them.
    Rows,
    /// The first of them, at most so many.
    FirstRows(u32),
    /// How many they are.
    Count,
    /// The first, or blank where there is none.
    First,
    /// The same, where `LookUp` seeks it.
    Found,
    /// The same, as the scope of a formula.
    FoundIn,
    /// What the numbers in a column come to.
    Total(Fold, u16),
}

/// What numbers are made one of.
#[derive(Clone, Copy)]
pub enum Fold {
    Sum,
    Least,
    Greatest,
    Average,
}

/// What a tree takes, with the sketch of the query expression of which it does.
#[derive(Drop)]
pub struct Asked {
    pub demand: Demand,
    pub sketch: Sketch,
}

impl Demand {
    /// How many rows are taken at most; else all.
    pub fn most(self) -> Option<u32>
        ensures { result ≡ most_rows_taken self }
    {
        match self {
            Demand::FirstRows(most) => Some(most),
            Demand::First | Demand::Found | Demand::FoundIn => Some(1),
            Demand::Rows | Demand::Count | Demand::Total(_, _) => None,
        }
    }
}

/// What a tree that stands under so many scopes takes of a query expression, where query
/// expressions that aren't taken whole stand with so many first rows. `None` never where it is one,
/// or seeks a row of one.
pub fn asked_under(
    alloc: Global,
    schema: &Schema,
    limit: u32,
    core: &Core,
    depth: u32,
) -> Result<Option<Asked>, Memory>
    requires { IsLawfulSchema schema.now }
    ensures { IfOk result (λ asked. MatchOption asked (IsUnasked schema.now.tables depth core.now)
        (λ a. IsDemand schema.now.tables depth a.demand a.sketch core.now)) }
{
    match &core.node {
        CoreNode::Over(Fun::FirstN, rows, parts) => {
            first_rows(alloc, schema, limit, rows, parts.as_slice(), depth)
        }
        CoreNode::Over(Fun::CountRows, rows, parts) => {
            count(alloc, schema, rows, parts.as_slice(), depth)
        }
        CoreNode::Over(Fun::First, rows, parts) => {
            first_row(alloc, schema, rows, parts.as_slice(), depth)
        }
        CoreNode::Over(Fun::LookUp, rows, parts) => {
            look_up(alloc, schema, rows, parts.as_slice(), depth)
        }
        CoreNode::Over(Fun::SumRows, rows, parts) => {
            total(alloc, schema, Fold::Sum, rows, parts.as_slice(), depth)
        }
        CoreNode::Over(Fun::MinRows, rows, parts) => {
            total(alloc, schema, Fold::Least, rows, parts.as_slice(), depth)
        }
        CoreNode::Over(Fun::MaxRows, rows, parts) => {
            total(alloc, schema, Fold::Greatest, rows, parts.as_slice(), depth)
        }
        CoreNode::Over(Fun::AverageRows, rows, parts) => {
            total(alloc, schema, Fold::Average, rows, parts.as_slice(), depth)
        }
        _ => all_rows(alloc, schema, core, depth),
    }
}

// All rows of a query expression.
fn all_rows(
    alloc: Global,
    schema: &Schema,
    core: &Core,
    depth: u32,
) -> Result<Option<Asked>, Memory>
    requires { IsLawfulSchema schema.now }
    ensures { IfOk result (λ asked. MatchOption asked
        (sketch_of schema.now.tables depth core.now ≡ None)
        (λ a. IsDemand schema.now.tables depth a.demand a.sketch core.now)) }
{
    let sketch = sketch_under(alloc, schema, core, depth)?;
    Ok(of_sketch(Demand::Rows, sketch))
}

// The demand on a query expression that has a sketch.
fn of_sketch(demand: Demand, sketch: Option<Sketch>) -> Option<Asked>
    ensures { MatchOption result (sketch ≡ None)
        (λ a. (a.demand ≡ demand) × (sketch ≡ Some a.sketch)) }
{
    match sketch {
        Some(sketch) => Some(Asked { demand, sketch }),
        None => None,
    }
}

// Whether a tree is this number.
fn is_number(core: &Core, count: u32) -> bool
    ensures { result ≡ true → core.now ≡ of (const (number (pos (count * 10000)))) nil }
{
    match &core.node {
        CoreNode::Const(Value::Number(number)) => number.units() == i64::from(count) * 10_000,
        _ => false,
    }
}

// The first rows of a query expression, where they are this many.
fn first_rows(
    alloc: Global,
    schema: &Schema,
    limit: u32,
    rows: &Core,
    parts: &[Core],
    depth: u32,
) -> Result<Option<Asked>, Memory>
    requires { IsLawfulSchema schema.now }
    ensures { IfOk result (λ asked. MatchOption asked
        (IsUnasked schema.now.tables depth (over_query fun.FirstN rows.now (all parts.now)))
        (λ a. IsDemand schema.now.tables depth a.demand a.sketch
        (over_query fun.FirstN rows.now (all parts.now)))) }
{
    match parts {
        [count] if is_number(count, limit) => {
            let sketch = sketch_under(alloc, schema, rows, depth)?;
            Ok(of_sketch(Demand::FirstRows(limit), sketch))
        }
        _ => Ok(None),
    }
}

// How many rows of a query expression there are.
fn count(
    alloc: Global,
    schema: &Schema,
    rows: &Core,
    parts: &[Core],
    depth: u32,
) -> Result<Option<Asked>, Memory>
    requires { IsLawfulSchema schema.now }
    ensures { IfOk result (λ asked. MatchOption asked
        (IsUnasked schema.now.tables depth (over_query fun.CountRows rows.now (all parts.now)))
        (λ a. IsDemand schema.now.tables depth a.demand a.sketch
        (over_query fun.CountRows rows.now (all parts.now)))) }
{
    match parts {
        [] => {
            let sketch = sketch_under(alloc, schema, rows, depth)?;
            Ok(of_sketch(Demand::Count, sketch))
        }
        [_, ..] => Ok(None),
    }
}

// The first row of a query expression.
fn first_row(
    alloc: Global,
    schema: &Schema,
    rows: &Core,
    parts: &[Core],
    depth: u32,
) -> Result<Option<Asked>, Memory>
    requires { IsLawfulSchema schema.now }
    ensures { IfOk result (λ asked. MatchOption asked
        (IsUnasked schema.now.tables depth (over_query fun.First rows.now (all parts.now)))
        (λ a. IsDemand schema.now.tables depth a.demand a.sketch
        (over_query fun.First rows.now (all parts.now)))) }
{
    match parts {
        [] => {
            let sketch = sketch_under(alloc, schema, rows, depth)?;
            Ok(of_sketch(Demand::First, sketch))
        }
        [_, ..] => Ok(None),
    }
}

// The row that `LookUp` finds: the first of the rows that meet its condition besides.
fn look_up(
    alloc: Global,
    schema: &Schema,
    rows: &Core,
    parts: &[Core],
    depth: u32,
) -> Result<Option<Asked>, Memory>
    requires { IsLawfulSchema schema.now }
    ensures { IfOk result (λ asked. MatchOption asked
        (IsUnasked schema.now.tables depth (over_query fun.LookUp rows.now (all parts.now)))
        (λ a. IsDemand schema.now.tables depth a.demand a.sketch
        (over_query fun.LookUp rows.now (all parts.now)))) }
{
    match parts {
        [condition] => {
            let sketch = filtered_under(alloc, schema, rows, condition, depth)?;
            Ok(of_sketch(Demand::Found, sketch))
        }
        [condition, _] => {
            let sketch = filtered_under(alloc, schema, rows, condition, depth)?;
            Ok(of_sketch(Demand::FoundIn, sketch))
        }
        [] => Ok(None),
        [_, _, _, ..] => Ok(None),
    }
}

// The sketch of rows with a condition besides.
fn filtered_under(
    alloc: Global,
    schema: &Schema,
    rows: &Core,
    condition: &Core,
    depth: u32,
) -> Result<Option<Sketch>, Memory>
    requires { IsLawfulSchema schema.now }
    ensures { IfOk result (λ s. s ≡ sketch_of schema.now.tables depth
        (over_query fun.Filter rows.now (cons condition.now nil))) }
{
    match sketch_under(alloc, schema, rows, depth)? {
        Some(rows) => filter_sketch(alloc, schema, rows, slice::from_ref(condition), depth),
        None => Ok(None),
    }
}

/// The formula that stands in the scope of the row that `LookUp` finds.
pub(crate) fn found_formula(core: &Core) -> &Core
    requires { IsSearch core.now }
    ensures { IsSearchBy core.now result.now }
{
    match &core.node {
        CoreNode::Over(_, _, parts) => second(parts.as_slice()),
        _ => unreachable!(),
    }
}

// The second of two parts.
fn second(parts: &[Core]) -> &Core
    requires { length parts.now ≡ 2 }
    ensures { slice_get parts.now 1 ≡ Some result.now }
{
    match parts {
        [_, second] => second,
        _ => unreachable!(),
    }
}

// What the numbers in a column of a query expression come to.
fn total(
    alloc: Global,
    schema: &Schema,
    fold: Fold,
    rows: &Core,
    parts: &[Core],
    depth: u32,
) -> Result<Option<Asked>, Memory>
    requires { IsLawfulSchema schema.now }
    ensures { IfOk result (λ asked. MatchOption asked
        (IsUnasked schema.now.tables depth (over_query (fun_of fold) rows.now (all parts.now)))
        (λ a. IsDemand schema.now.tables depth a.demand a.sketch
        (over_query (fun_of fold) rows.now (all parts.now)))) }
{
    match parts {
        [column] => total_of(alloc, schema, fold, rows, column, depth),
        _ => Ok(None),
    }
}

fn total_of(
    alloc: Global,
    schema: &Schema,
    fold: Fold,
    rows: &Core,
    column: &Core,
    depth: u32,
) -> Result<Option<Asked>, Memory>
    requires { IsLawfulSchema schema.now }
    ensures { IfOk result (λ asked. MatchOption asked
        (IsUnasked schema.now.tables depth (over_query (fun_of fold) rows.now
        (cons column.now nil))) (λ a. IsDemand schema.now.tables depth a.demand a.sketch
        (over_query (fun_of fold) rows.now (cons column.now nil)))) }
{
    let Some(sketch) = sketch_under(alloc, schema, rows, depth)? else {
        return Ok(None);
    };
    match number_column(schema, &sketch, column, depth) {
        Some(place) => Ok(Some(Asked {
            demand: Demand::Total(fold, place),
            sketch,
        })),
        None => Ok(None),
    }
}

// The column of numbers of a sketch's table that a tree names.
fn number_column(schema: &Schema, sketch: &Sketch, column: &Core, depth: u32) -> Option<u16>
    requires { IsLawfulSchema schema.now }
    ensures { IfSome result (λ i. IsNumberColumn schema.now.tables depth sketch.now column.now i) }
{
    let shape = schema.tables.get(sketch.table as usize)?;
    column_of(shape, column, Scalar::Number, depth)
}

/// A tree that takes this of a query expression, with these values in the places of the constants
/// of that.
pub(crate) fn settle(
    alloc: Global,
    demand: Demand,
    core: &Core,
    depth: u32,
    constants: &[Value],
) -> Result<Core, Memory>
    ensures { IfOk result (λ t. t ≡ settled_in demand depth (map view constants.now) core.now) }
{
    match demand {
        Demand::Rows => settled_query(alloc, core, depth, constants),
        Demand::Found | Demand::FoundIn => settled_search(alloc, core, depth, constants),
        Demand::FirstRows(_) | Demand::Count | Demand::First | Demand::Total(_, _) => {
            settled_call(alloc, core, depth, constants)
        }
    }
}

/// A count as a value.
pub(crate) fn count_value(count: u32) -> Value
    ensures { IsCountValue count (view result) }
{
    match Num::from_units(i64::from(count) * 10_000) {
        Some(number) => Value::Number(number),
        None => unreachable!(),
    }
}

/// The first row of a table, or blank where there is none.
pub(crate) fn first_in(table: Value) -> Value
    ensures { view result ≡ first_row_record (rows_in (view table)) }
{
    match table {
        Value::Tab(rows) => first(rows),
        _ => Value::Blank,
    }
}

/// What the totals of numbers say of them.
pub(crate) fn fold_value(alloc: Global, fold: Fold, totals: &Totals) -> Result<Value, Memory>
    requires { (zs : List ℤ) × SumsUp zs totals.now }
    ensures { IfOk result (λ v. (zs : List ℤ) → SumsUp zs totals.now → IsFolded fold zs (view v)) }
{
    match fold {
        Fold::Sum => sum_value(alloc, totals),
        Fold::Least => Ok(number_or_blank(totals.least)),
        Fold::Greatest => Ok(number_or_blank(totals.greatest)),
        Fold::Average => Ok(number_or_blank(average(totals))),
    }
}

fn number_or_blank(number: Option<Num>) -> Value
    ensures { view result ≡ number_or_blank_of number }
{
    match number {
        Some(number) => Value::Number(number),
        None => Value::Blank,
    }
}

// The sum of numbers, blank of none, and `Numeric` exactly where it is out of range.
fn sum_value(alloc: Global, totals: &Totals) -> Result<Value, Memory>
    ensures { IfOk result (λ v. (zs : List ℤ) → SumsUp zs totals.now → IsSumValue zs (view v)) }
{
    if totals.count == 0 {
        return Ok(Value::Blank);
    }
    match number_of(totals.sum) {
        Some(sum) => Ok(Value::Number(sum)),
        None => Ok(Value::Fault(Fault {
            kind: Kind::Numeric,
            message: Words::of(alloc, "")?,
        })),
    }
}

// The sum divided by how many numbers there are, rounded once; none of no numbers.
fn average(totals: &Totals) -> Option<Num>
    requires { (zs : List ℤ) × SumsUp zs totals.now }
    ensures { (zs : List ℤ) → SumsUp zs totals.now → result ≡ average_of zs }
{
    // Between these lie all numbers, so their sum is in the range of sums of so many.
    let _least = totals.least?.units();
    let _greatest = totals.greatest?.units();
    quotient(totals.sum, totals.count)
}

// The number of so many ten-thousandths, if it is in range.
fn number_of(units: i128) -> Option<Num>
    ensures { MatchOption result (¬ IsInRange units) (λ n. (n ≡ units) × IsInRange units) }
{
    match i64::try_from(units) {
        Ok(units) => Num::from_units(units),
        Err(_) => None,
    }
}
