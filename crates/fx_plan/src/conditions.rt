//! Conditions that a keeper can test on its rows.
ghost use Rattle.std.specs.Prelude.{◌≡◌, ◌≤◌, ◌++◌, ◌∷◌, [], Some, List, bytes_eq, length};
ghost use Rattle.std.specs.Prelude.{option_and_then, option_map, position, IfOk, IfSome, ◌<◌};
ghost use Rattle.std.specs.Str.{IsAscii};
ghost use Rattle.fx_types.specs.TypeView.{shape};
ghost use Rattle.fx_plan.specs.Outlines.{opposite};
ghost use Rattle.fx_plan.specs.QueryExpressions.{along, patterns_behind};
ghost use Rattle.fx_plan.specs.QueryExpressions.{are_constant as are_constant_in};
ghost use Rattle.fx_plan.specs.QueryExpressions.{beside as beside_in, call_pattern as called_in};
ghost use Rattle.fx_plan.specs.QueryExpressions.{called_with_one, called_with_two};
ghost use Rattle.fx_plan.specs.QueryExpressions.{column_number as column_named_in};
ghost use Rattle.fx_plan.specs.QueryExpressions.{column_of as column_of_in};
ghost use Rattle.fx_plan.specs.QueryExpressions.{comparison_pattern as compared_in};
ghost use Rattle.fx_plan.specs.QueryExpressions.{compared_with as compared_with_in};
ghost use Rattle.fx_plan.specs.QueryExpressions.{comparison_by as comparison_of};
ghost use Rattle.fx_plan.specs.QueryExpressions.{is_constant as is_constant_in, is_of as is_of_in};
ghost use Rattle.fx_plan.specs.QueryExpressions.{is_row as is_row_in, negated as negated_in};
ghost use Rattle.fx_plan.specs.QueryExpressions.{pattern_of as pattern_in};
ghost use Rattle.fx_plan.specs.QueryExpressions.{patterns_of as patterns_in};
ghost use Rattle.fx_plan.specs.QueryExpressions.{plain_column as plain_column_in};
ghost use Rattle.fx_plan.specs.QueryExpressions.{flipped as turned_of};
ghost use Rattle.fx_plan.specs.Ranges.{column_type};
ghost use Rattle.fx_core.specs.declared.schema.Column.{Column};
ghost use Rattle.fx_core.specs.Term.{Term, all, field_terms};

use crate::patterns::{Pattern, PatternNode, Patterns};
use fx_base::Memory;
use fx_core::{Column, Core, CoreArgs, CoreNode, Fun, Scalar, TableShape};
use fx_types::{Cmp, Ty, Words};
use std::alloc::Global;

/// The pattern of a condition on the rows of a table, which are the rows of this scope; none where
/// the condition isn't delegable. Its constants are added to those so far, as they stand in it.
#[cycle(pattern_of)]
pub fn pattern_of(
    alloc: Global,
    table: &TableShape,
    condition: &Core,
    scope: u32,
    constants: &mut CoreArgs,
) -> Result<Option<Pattern>, Memory>
    requires { length table.now.columns ≤ 63 }
    ensures { IfOk result (λ r. along constants.new r
        ≡ pattern_in table.now scope condition.now constants.old) }
{
    if is_constant(condition, scope) {
        let place = keep(alloc, condition, constants)?;
        return Ok(Some(Pattern {
            node: PatternNode::Const(place),
        }));
    }
    match &condition.node {
        CoreNode::All(parts) => {
            let front = Patterns::new(alloc);
            let parts = patterns_of(alloc, table, parts.as_slice(), scope, front, constants)?;
            Ok(parts.map(|parts| Pattern {
                node: PatternNode::And(parts),
            }))
        }
        CoreNode::Any(parts) => {
            let front = Patterns::new(alloc);
            let parts = patterns_of(alloc, table, parts.as_slice(), scope, front, constants)?;
            Ok(parts.map(|parts| Pattern {
                node: PatternNode::Or(parts),
            }))
        }
        CoreNode::Call(Fun::Not, parts) => {
            negation(alloc, table, parts.as_slice(), scope, constants)
        }
        CoreNode::Call(fun, parts) => {
            call_pattern(alloc, table, *fun, parts.as_slice(), scope, constants)
        }
        CoreNode::Dot(_, _) => {
            let column = column_of(table, condition, Scalar::Boolean, scope);
            Ok(column.map(|column| Pattern {
                node: PatternNode::Flag(column),
            }))
        }
        _ => Ok(None),
    }
}

/// The patterns of several conditions, behind those in front.
#[cycle(pattern_of)]
pub fn patterns_of(
    alloc: Global,
    table: &TableShape,
    conditions: &[Core],
    scope: u32,
    front: Patterns,
    constants: &mut CoreArgs,
) -> Result<Option<Patterns>, Memory>
    requires { length table.now.columns ≤ 63 }
    ensures { IfOk result (λ r. along constants.new r
        ≡ patterns_behind front (patterns_in table.now scope (all conditions.now) constants.old)) }
{
    let mut patterns = front;
    for condition in conditions {
        match pattern_of(alloc, table, condition, scope, constants)? {
            Some(pattern) => patterns.push(pattern)?,
            None => return Ok(None),
        }
    }
    Ok(Some(patterns))
}

// What isn't met where the one condition is.
#[cycle(pattern_of)]
fn negation(
    alloc: Global,
    table: &TableShape,
    parts: &[Core],
    scope: u32,
    constants: &mut CoreArgs,
) -> Result<Option<Pattern>, Memory>
    requires { length table.now.columns ≤ 63 }
    ensures { IfOk result (λ r. along constants.new r
        ≡ option_and_then negated_in (patterns_in table.now scope (all parts.now) constants.old)) }
{
    match parts {
        [] => Ok(None),
        [part] => negate(alloc, pattern_of(alloc, table, part, scope, constants)?),
        [_, _, ..] => Ok(None),
    }
}

// What isn't met where the pattern is.
fn negate(alloc: Global, pattern: Option<Pattern>) -> Result<Option<Pattern>, Memory>
    ensures { IfOk result (λ r. r ≡ option_map opposite pattern) }
{
    match pattern {
        Some(pattern) => Ok(Some(Pattern {
            node: PatternNode::Not(Box::new(alloc, pattern)?),
        })),
        None => Ok(None),
    }
}

// The pattern of a call of a column, or of a column and a constant.
fn call_pattern(
    alloc: Global,
    table: &TableShape,
    fun: Fun,
    parts: &[Core],
    scope: u32,
    constants: &mut CoreArgs,
) -> Result<Option<Pattern>, Memory>
    requires { length table.now.columns ≤ 63 }
    ensures { IfOk result (λ r. along constants.new r
        ≡ called_in table.now scope fun (all parts.now) constants.old) }
{
    match parts {
        [] => Ok(None),
        [part] => Ok(blank_test(table, fun, part, scope)),
        [left, right] => called_with(alloc, table, fun, left, right, scope, constants),
        [_, _, _, ..] => Ok(None),
    }
}

fn blank_test(table: &TableShape, fun: Fun, part: &Core, scope: u32) -> Option<Pattern>
    requires { length table.now.columns ≤ 63 }
    ensures { (ds : List Term) → along ds result ≡ called_with_one table.now scope fun part.now ds }
{
    match fun {
        Fun::IsBlank => plain_column(table, part, scope).map(|column| Pattern {
            node: PatternNode::IsBlank(column),
        }),
        _ => None,
    }
}

fn called_with(
    alloc: Global,
    table: &TableShape,
    fun: Fun,
    left: &Core,
    right: &Core,
    scope: u32,
    constants: &mut CoreArgs,
) -> Result<Option<Pattern>, Memory>
    requires { length table.now.columns ≤ 63 }
    ensures { IfOk result (λ r. along constants.new r
        ≡ called_with_two table.now scope fun left.now right.now constants.old) }
{
    match fun {
        Fun::StartsWith => match beside(table, Scalar::Text, left, right, scope) {
            Some(column) => {
                let place = keep(alloc, right, constants)?;
                Ok(Some(Pattern {
                    node: PatternNode::Starts(column, place),
                }))
            }
            None => Ok(None),
        },
        Fun::In => match beside(table, Scalar::Text, right, left, scope) {
            Some(column) => {
                let place = keep(alloc, left, constants)?;
                Ok(Some(Pattern {
                    node: PatternNode::Contains(column, place),
                }))
            }
            None => Ok(None),
        },
        _ => comparison_pattern(
            alloc,
            table,
            comparison_by(fun),
            left,
            right,
            scope,
            constants,
        ),
    }
}

// A column compared with a constant, which stands on either side.
fn comparison_pattern(
    alloc: Global,
    table: &TableShape,
    comparison: Option<(Cmp, Scalar)>,
    left: &Core,
    right: &Core,
    scope: u32,
    constants: &mut CoreArgs,
) -> Result<Option<Pattern>, Memory>
    requires { length table.now.columns ≤ 63 }
    ensures { IfOk result (λ r. along constants.new r
        ≡ compared_in table.now scope comparison left.now right.now constants.old) }
{
    let Some((op, ty)) = comparison else {
        return Ok(None);
    };
    if is_constant(right, scope) {
        compared_with(alloc, table, (op, ty), left, right, scope, constants)
    } else {
        compared_with(alloc, table, (turn(op), ty), right, left, scope, constants)
    }
}

// A column on the left compared with a constant on the right.
fn compared_with(
    alloc: Global,
    table: &TableShape,
    comparison: (Cmp, Scalar),
    left: &Core,
    right: &Core,
    scope: u32,
    constants: &mut CoreArgs,
) -> Result<Option<Pattern>, Memory>
    requires { length table.now.columns ≤ 63 }
    ensures { IfOk result (λ r. along constants.new r
        ≡ compared_with_in table.now scope comparison.0 comparison.1 left.now right.now
        constants.old) }
{
    let (op, ty) = comparison;
    match beside(table, ty, left, right, scope) {
        Some(column) => {
            let place = keep(alloc, right, constants)?;
            Ok(Some(Pattern {
                node: PatternNode::Compare(op, column, place),
            }))
        }
        None => Ok(None),
    }
}

// Adds a constant to those so far, and says its place.
fn keep(alloc: Global, constant: &Core, constants: &mut CoreArgs) -> Result<u32, Memory>
    ensures { IfOk result (λ place. (place ≡ length constants.old)
        × (constants.new ≡ constants.old ++ constant.now ∷ [])) }
{
    let Ok(place) = u32::try_from(constants.len()) else {
        return Err(Memory);
    };
    constants.push(constant.copy(alloc)?)?;
    Ok(place)
}

// The column of this type that stands beside a constant.
fn beside(table: &TableShape, ty: Scalar, column: &Core, constant: &Core, scope: u32) -> Option<u16>
    requires { length table.now.columns ≤ 63 }
    ensures { result ≡ beside_in table.now scope ty column.now constant.now }
{
    if is_constant(constant, scope) {
        column_of(table, column, ty, scope)
    } else {
        None
    }
}

/// The column of this type that a part is, of the row of this scope.
pub fn column_of(table: &TableShape, part: &Core, ty: Scalar, scope: u32) -> Option<u16>
    requires { length table.now.columns ≤ 63 }
    ensures { result ≡ column_of_in table.now scope ty part.now }
{
    match plain_column(table, part, scope) {
        Some(column) if is_of(table, column, ty) => Some(column),
        _ => None,
    }
}

/// The column that a part is, of the row of this scope.
pub fn plain_column(table: &TableShape, part: &Core, scope: u32) -> Option<u16>
    requires { length table.now.columns ≤ 63 }
    ensures { result ≡ plain_column_in table.now scope part.now }
{
    match &part.node {
        CoreNode::Dot(row, name) => {
            if is_row(row, scope) {
                column_named(table, name)
            } else {
                None
            }
        }
        _ => None,
    }
}

fn is_row(part: &Core, scope: u32) -> bool
    ensures { result ≡ is_row_in scope part.now }
{
    match &part.node {
        CoreNode::Row(place) => u32::from(*place) == scope,
        _ => false,
    }
}

// The column of a name: `ID` is column 0.
fn column_named(table: &TableShape, name: &Words) -> Option<u16>
    requires { length table.now.columns ≤ 63 }
    ensures { result ≡ column_named_in table.now name.now }
{
    if is_word(name, "ID") {
        return Some(0);
    }
    match column_place(table.columns.as_slice(), name) {
        Some(place) => Some(place as u16 + 1),
        None => None,
    }
}

// The place of a column of a name.
fn column_place(columns: &[Column], name: &Words) -> Option<usize>
    ensures place { result ≡ position (λ (c : Column). bytes_eq c.name name.now) columns.now }
    ensures within { IfSome result (λ i. i < length columns.now) }
{
    columns.iter().position(|column| column.name.is(name))
}

// Whether a name is this word of ASCII characters.
fn is_word(name: &Words, word: &str) -> bool
    requires { IsAscii word.now }
    ensures { result ≡ bytes_eq name.now word.now }
{
    name.as_str() == word
}

// Whether the values of a column are of this type: those of `ID` are numbers.
fn is_of(table: &TableShape, column: u16, ty: Scalar) -> bool
    ensures { result ≡ is_of_in ty (column_type table.now column) }
{
    if column == 0 {
        return is_type(&Ty::Number, ty);
    }
    match table.columns.get(column as usize - 1) {
        Some(column) => is_type(&column.ty, ty),
        None => false,
    }
}

fn is_type(ty: &Ty, scalar: Scalar) -> bool
    ensures { result ≡ is_of_in scalar (Some (shape ty.now)) }
{
    match (scalar, ty) {
        (Scalar::Number, Ty::Number)
        | (Scalar::Text, Ty::Text)
        | (Scalar::Boolean, Ty::Boolean)
        | (Scalar::Date, Ty::Date) => true,
        _ => false,
    }
}

// The comparison that a function makes, and the type of what it compares.
fn comparison_by(fun: Fun) -> Option<(Cmp, Scalar)>
    ensures { result ≡ comparison_of fun }
{
    match fun {
        Fun::EqualNumbers => Some((Cmp::Eq, Scalar::Number)),
        Fun::EqualTexts => Some((Cmp::Eq, Scalar::Text)),
        Fun::EqualBooleans => Some((Cmp::Eq, Scalar::Boolean)),
        Fun::EqualDates => Some((Cmp::Eq, Scalar::Date)),
        Fun::UnequalNumbers => Some((Cmp::Ne, Scalar::Number)),
        Fun::UnequalTexts => Some((Cmp::Ne, Scalar::Text)),
        Fun::UnequalBooleans => Some((Cmp::Ne, Scalar::Boolean)),
        Fun::UnequalDates => Some((Cmp::Ne, Scalar::Date)),
        Fun::LessNumbers => Some((Cmp::Lt, Scalar::Number)),
        Fun::LessDates => Some((Cmp::Lt, Scalar::Date)),
        Fun::LessEqualNumbers => Some((Cmp::Le, Scalar::Number)),
        Fun::LessEqualDates => Some((Cmp::Le, Scalar::Date)),
        Fun::GreaterNumbers => Some((Cmp::Gt, Scalar::Number)),
        Fun::GreaterDates => Some((Cmp::Gt, Scalar::Date)),
        Fun::GreaterEqualNumbers => Some((Cmp::Ge, Scalar::Number)),
        Fun::GreaterEqualDates => Some((Cmp::Ge, Scalar::Date)),
        _ => None,
    }
}

// A comparison with its sides changed over.
fn turn(op: Cmp) -> Cmp
    ensures { result ≡ turned_of op }
{
    match op {
        Cmp::Eq => Cmp::Eq,
        Cmp::Ne => Cmp::Ne,
        Cmp::Lt => Cmp::Gt,
        Cmp::Le => Cmp::Ge,
        Cmp::Gt => Cmp::Lt,
        Cmp::Ge => Cmp::Le,
    }
}

/// Whether a tree is a constant to the conditions on the rows of this scope: it is pure, and
/// doesn't read the row.
#[cycle(is_constant)]
pub fn is_constant(core: &Core, scope: u32) -> bool
    ensures { result ≡ is_constant_in scope core.now }
{
    match &core.node {
        CoreNode::Row(place) => u32::from(*place) != scope,
        CoreNode::Const(_) | CoreNode::Read(_) | CoreNode::Item | CoreNode::Caught => true,
        CoreNode::Dot(part, _) | CoreNode::Coerce(part, _) => is_constant(part, scope),
        CoreNode::Over(_, table, parts) => {
            is_constant(table, scope) && are_constant(parts.as_slice(), scope)
        }
        CoreNode::With(record, formula) => {
            is_constant(record, scope) && is_constant(formula, scope)
        }
        CoreNode::Rec(fields) => are_constant_fields(fields.as_slice(), scope),
        CoreNode::Call(_, parts)
        | CoreNode::User(_, parts)
        | CoreNode::List(_, parts)
        | CoreNode::All(parts)
        | CoreNode::Any(parts)
        | CoreNode::If(parts)
        | CoreNode::Switch(parts)
        | CoreNode::IfError(parts) => are_constant(parts.as_slice(), scope),
        CoreNode::Chain(_) | CoreNode::Act(_, _) => false,
    }
}

#[cycle(is_constant)]
fn are_constant(parts: &[Core], scope: u32) -> bool
    ensures { result ≡ are_constant_in scope (all parts.now) }
{
    for part in parts {
        if !is_constant(part, scope) {
            return false;
        }
    }
    true
}

#[cycle(is_constant)]
fn are_constant_fields(fields: &[(Words, Core)], scope: u32) -> bool
    ensures { result ≡ are_constant_in scope (field_terms fields.now) }
{
    for (_, part) in fields {
        if !is_constant(part, scope) {
            return false;
        }
    }
    true
}
