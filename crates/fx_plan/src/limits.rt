// Trees in which query expressions give what is taken of them.
ghost use Rattle.std.specs.Prelude.{◌≡◌, ◌*◌, pos, false, option_map, IfOk};
ghost use Rattle.fx_types.specs.TypeView.{shape};
ghost use Rattle.fx_types.specs.ValueView.{view};
ghost use Rattle.fx_types.specs.Values.{number};
ghost use Rattle.fx_plan.specs.Mixes.{mix_view};
ghost use Rattle.fx_plan.specs.Sites.{deeper, is_asked as is_asked_in};
ghost use Rattle.fx_plan.specs.declared.site_list.Scoped.TheVariants.{Nothing};
ghost use Rattle.fx_core.specs.Term.{all, cons, term_field_names, nil, of, field_terms};
ghost use Rattle.fx_core.specs.Term as top;
ghost use Rattle.fx_core.specs.Lawful.{IsLawfulSchema};
ghost use Rattle.fx_plan.specs.Limits.{depth_at, each_limited, fields_limited, with_limited_parts};
ghost use Rattle.fx_plan.specs.Limited.{first_rows_of, limited, over_first as over_first_in};
ghost use Rattle.fx_plan.specs.Limited.{takes_first_whole, taken_as};

use crate::mixing::{Mix, mix_under};
use crate::{Scoped, formulas_of, is_update, sketch_under, takes_whole};
use filter_parts::{Split, part};
use fx_base::Memory;
use fx_core::{Core, CoreArgs, CoreFields, CoreNode, Deed, Form, Fun, Schema, make_core};
use fx_number::Num;
use fx_types::{Ty, Value, Words};
use std::alloc::Global;

/// A cell's tree in which each largest query expression that isn't taken whole gives its first
/// rows, as many as the limit says, and so does that of each mixed filter.
pub fn limit_queries(
    alloc: Global,
    schema: &Schema,
    limit: u32,
    core: &Core,
) -> Result<Core, Memory>
    requires { IsLawfulSchema schema.now }
    ensures { IfOk result (λ c. c ≡ limited schema.now.tables limit 0 false core.now) }
{
    limit_queries_under(alloc, schema, limit, core, 0)
}

/// The same of a part of a tree, which stands under so many scopes. Where it is a query expression
/// itself, it isn't taken whole.
pub fn limit_queries_under(
    alloc: Global,
    schema: &Schema,
    limit: u32,
    core: &Core,
    depth: u32,
) -> Result<Core, Memory>
    requires { IsLawfulSchema schema.now }
    ensures { IfOk result (λ c. c ≡ limited schema.now.tables limit depth false core.now) }
{
    limit_tree(alloc, schema, limit, core, depth, false)
}

// A tree under so many scopes, which may be taken whole itself.
#[cycle(limit_tree)]
fn limit_tree(
    alloc: Global,
    schema: &Schema,
    limit: u32,
    core: &Core,
    depth: u32,
    whole: bool,
) -> Result<Core, Memory>
    requires { IsLawfulSchema schema.now }
    ensures { IfOk result (λ c. c ≡ limited schema.now.tables limit depth whole core.now) }
{
    let mix = mix_under(alloc, schema, core, depth)?;
    let is_query = sketch_under(alloc, schema, core, depth)?.is_some();
    let is_asked = mix.is_some() || is_query;
    let takes_first = takes_first(alloc, schema, core, depth, is_asked)?;
    let tree = limit_parts(alloc, schema, limit, core, depth, takes_first)?;
    take(alloc, tree, mix, is_query && !whole, limit)
}

// Whether the first part of a tree may be taken whole.
fn takes_first(
    alloc: Global,
    schema: &Schema,
    core: &Core,
    depth: u32,
    is_asked: bool,
) -> Result<bool, Memory>
    requires lawful { IsLawfulSchema schema.now }
    requires asked { is_asked ≡ is_asked_in schema.now.tables depth core.now }
    ensures { IfOk result (λ b. b ≡ takes_first_whole schema.now.tables depth core.now) }
{
    if is_asked {
        return Ok(true);
    }
    takes_whole(alloc, schema, core, depth)
}

// A tree whose parts are limited, as it is taken: a mixed filter is split, and a query expression
// is cut.
fn take(alloc: Global, tree: Core, mix: Option<Mix>, cut: bool, limit: u32) -> Result<Core, Memory>
    ensures { IfOk result (λ c. c ≡ taken_as limit (option_map mix_view mix) cut tree) }
{
    match mix {
        Some(mix) => over_first(alloc, part(alloc, &tree, mix.marks.as_slice())?, limit),
        None => {
            if cut {
                first_rows(alloc, tree, limit)
            } else {
                Ok(tree)
            }
        }
    }
}

// The other conditions of a split filter over the first rows of the rest of it.
fn over_first(alloc: Global, split: Split, limit: u32) -> Result<Core, Memory>
    ensures { IfOk result (λ c. c ≡ over_first_in limit (split.inner, all split.rest)) }
{
    let Split { inner, rest } = split;
    let rows = first_rows(alloc, inner, limit)?;
    make_core::call_over(alloc, Fun::Filter, rows, rest)
}

// A tree with its parts limited, of which the first may be taken whole.
#[cycle(limit_tree)]
fn limit_parts(
    alloc: Global,
    schema: &Schema,
    limit: u32,
    core: &Core,
    depth: u32,
    takes_first: bool,
) -> Result<Core, Memory>
    requires lawful { IsLawfulSchema schema.now }
    requires first { takes_first ≡ takes_first_whole schema.now.tables depth core.now }
    ensures { IfOk result (λ c. c ≡ with_limited_parts schema.now.tables limit depth core.now) }
{
    match &core.node {
        CoreNode::Const(_)
        | CoreNode::Read(_)
        | CoreNode::Row(_)
        | CoreNode::Item
        | CoreNode::Caught => core.copy(alloc),
        CoreNode::Dot(part, name) => limit_dot(alloc, schema, limit, part, name, depth),
        CoreNode::Coerce(part, ty) => limit_coerced(alloc, schema, limit, part, ty, depth),
        CoreNode::With(record, formula) => {
            limit_within(alloc, schema, limit, record, formula, depth)
        }
        CoreNode::Over(fun, table, parts) => {
            limit_over(alloc, schema, limit, *fun, table, takes_first, parts, depth)
        }
        CoreNode::Rec(fields) => limit_record(alloc, schema, limit, fields, depth),
        CoreNode::Act(deed, parts) => limit_act(alloc, schema, limit, deed, parts, depth),
        CoreNode::User(function, parts) => {
            limit_user(alloc, schema, limit, *function, parts, depth)
        }
        CoreNode::Call(fun, parts) => limit_call(alloc, schema, limit, *fun, parts, depth),
        CoreNode::List(ty, parts) => limit_list(alloc, schema, limit, ty, parts, depth),
        CoreNode::Chain(parts) => limit_chain(alloc, schema, limit, parts, depth),
        CoreNode::All(parts) => limit_form(alloc, schema, limit, Form::All, parts, depth),
        CoreNode::Any(parts) => limit_form(alloc, schema, limit, Form::Any, parts, depth),
        CoreNode::If(parts) => limit_form(alloc, schema, limit, Form::If, parts, depth),
        CoreNode::Switch(parts) => limit_form(alloc, schema, limit, Form::Switch, parts, depth),
        CoreNode::IfError(parts) => limit_form(alloc, schema, limit, Form::IfError, parts, depth),
    }
}

// A field of a record.
#[cycle(limit_tree)]
fn limit_dot(
    alloc: Global,
    schema: &Schema,
    limit: u32,
    part: &Core,
    name: &Words,
    depth: u32,
) -> Result<Core, Memory>
    requires { IsLawfulSchema schema.now }
    ensures { IfOk result (λ c. c ≡ with_limited_parts schema.now.tables limit depth
        (of (top.dot name.now) (cons part.now nil))) }
{
    let inner = limit_tree(alloc, schema, limit, part, depth, false)?;
    make_core::dot(alloc, inner, name.copy(alloc)?)
}

// A value as one of a type.
#[cycle(limit_tree)]
fn limit_coerced(
    alloc: Global,
    schema: &Schema,
    limit: u32,
    part: &Core,
    ty: &Ty,
    depth: u32,
) -> Result<Core, Memory>
    requires { IsLawfulSchema schema.now }
    ensures { IfOk result (λ c. c ≡ with_limited_parts schema.now.tables limit depth
        (of (top.coerce (shape ty.now)) (cons part.now nil))) }
{
    let inner = limit_tree(alloc, schema, limit, part, depth, false)?;
    make_core::coerce(alloc, inner, ty.copy(alloc)?)
}

// A formula in the scope of a record.
#[cycle(limit_tree)]
fn limit_within(
    alloc: Global,
    schema: &Schema,
    limit: u32,
    outer: &Core,
    formula: &Core,
    depth: u32,
) -> Result<Core, Memory>
    requires { IsLawfulSchema schema.now }
    ensures { IfOk result (λ c. c ≡ with_limited_parts schema.now.tables limit depth
        (of top.within (cons outer.now (cons formula.now nil)))) }
{
    let scope = limit_tree(alloc, schema, limit, outer, depth, false)?;
    let inside = deepen(depth, true)?;
    let inner = limit_tree(alloc, schema, limit, formula, inside, false)?;
    make_core::within(alloc, scope, inner)
}

// A call over a table, which may be taken whole.
#[cycle(limit_tree)]
fn limit_over(
    alloc: Global,
    schema: &Schema,
    limit: u32,
    fun: Fun,
    table: &Core,
    takes_first: bool,
    parts: &CoreArgs,
    depth: u32,
) -> Result<Core, Memory>
    requires lawful { IsLawfulSchema schema.now }
    requires first { takes_first ≡ takes_first_whole schema.now.tables depth
        (of (top.over fun) (cons table.now (all parts.now))) }
    ensures { IfOk result (λ c. c ≡ with_limited_parts schema.now.tables limit depth
        (of (top.over fun) (cons table.now (all parts.now)))) }
{
    let rows = limit_tree(alloc, schema, limit, table, depth, takes_first)?;
    let scoped = formulas_of(fun, parts.as_slice());
    let others = limit_all(alloc, schema, limit, parts.as_slice(), scoped, depth)?;
    make_core::call_over(alloc, fun, rows, others)
}

// A record of fields.
#[cycle(limit_tree)]
fn limit_record(
    alloc: Global,
    schema: &Schema,
    limit: u32,
    fields: &CoreFields,
    depth: u32,
) -> Result<Core, Memory>
    requires { IsLawfulSchema schema.now }
    ensures { IfOk result (λ c. c ≡ with_limited_parts schema.now.tables limit depth
        (of (top.rec (term_field_names fields.now)) (field_terms fields.now))) }
{
    let items = limit_fields(alloc, schema, limit, fields.as_slice(), depth)?;
    Ok(make_core::record_of(items))
}

// A change of state.
#[cycle(limit_tree)]
fn limit_act(
    alloc: Global,
    schema: &Schema,
    limit: u32,
    deed: &Deed,
    parts: &CoreArgs,
    depth: u32,
) -> Result<Core, Memory>
    requires { IsLawfulSchema schema.now }
    ensures { IfOk result (λ c. c ≡ with_limited_parts schema.now.tables limit depth
        (of (top.act deed.now) (all parts.now))) }
{
    let scoped = Scoped::Others(is_update(deed));
    let items = limit_all(alloc, schema, limit, parts.as_slice(), scoped, depth)?;
    Ok(make_core::act(deed.copy(alloc)?, items))
}

// A call of a function of values.
#[cycle(limit_tree)]
fn limit_call(
    alloc: Global,
    schema: &Schema,
    limit: u32,
    fun: Fun,
    parts: &CoreArgs,
    depth: u32,
) -> Result<Core, Memory>
    requires { IsLawfulSchema schema.now }
    ensures { IfOk result (λ c. c ≡ with_limited_parts schema.now.tables limit depth
        (of (top.call fun) (all parts.now))) }
{
    let items = limit_among(alloc, schema, limit, parts, depth)?;
    Ok(make_core::call(fun, items))
}

// A call of a function of the app's own.
#[cycle(limit_tree)]
fn limit_user(
    alloc: Global,
    schema: &Schema,
    limit: u32,
    function: u32,
    parts: &CoreArgs,
    depth: u32,
) -> Result<Core, Memory>
    requires { IsLawfulSchema schema.now }
    ensures { IfOk result (λ c. c ≡ with_limited_parts schema.now.tables limit depth
        (of (top.user function) (all parts.now))) }
{
    let items = limit_among(alloc, schema, limit, parts, depth)?;
    Ok(make_core::user(function, items))
}

// A table of rows.
#[cycle(limit_tree)]
fn limit_list(
    alloc: Global,
    schema: &Schema,
    limit: u32,
    ty: &Ty,
    parts: &CoreArgs,
    depth: u32,
) -> Result<Core, Memory>
    requires { IsLawfulSchema schema.now }
    ensures { IfOk result (λ c. c ≡ with_limited_parts schema.now.tables limit depth
        (of (top.list (shape ty.now)) (all parts.now))) }
{
    let items = limit_among(alloc, schema, limit, parts, depth)?;
    Ok(make_core::list(ty.copy(alloc)?, items))
}

// Parts in turn.
#[cycle(limit_tree)]
fn limit_chain(
    alloc: Global,
    schema: &Schema,
    limit: u32,
    parts: &CoreArgs,
    depth: u32,
) -> Result<Core, Memory>
    requires { IsLawfulSchema schema.now }
    ensures { IfOk result (λ c. c ≡ with_limited_parts schema.now.tables limit depth
        (of top.chain (all parts.now))) }
{
    let items = limit_among(alloc, schema, limit, parts, depth)?;
    Ok(make_core::chain(items))
}

// A form.
#[cycle(limit_tree)]
fn limit_form(
    alloc: Global,
    schema: &Schema,
    limit: u32,
    form: Form,
    parts: &CoreArgs,
    depth: u32,
) -> Result<Core, Memory>
    requires { IsLawfulSchema schema.now }
    ensures { IfOk result (λ c. c ≡ with_limited_parts schema.now.tables limit depth
        (of (top.form form) (all parts.now))) }
{
    let items = limit_among(alloc, schema, limit, parts, depth)?;
    Ok(make_core::form(form, items))
}

// Parts that stand where the whole stands.
#[cycle(limit_tree)]
fn limit_among(
    alloc: Global,
    schema: &Schema,
    limit: u32,
    parts: &CoreArgs,
    depth: u32,
) -> Result<CoreArgs, Memory>
    requires { IsLawfulSchema schema.now }
    ensures { IfOk result (λ cs. cs ≡ each_limited schema.now.tables limit (depth_at Nothing depth)
        0 parts.now) }
{
    limit_all(
        alloc,
        schema,
        limit,
        parts.as_slice(),
        Scoped::Nothing,
        depth,
    )
}

// Parts of which some stand in a scope of their own.
#[cycle(limit_tree)]
fn limit_all(
    alloc: Global,
    schema: &Schema,
    limit: u32,
    parts: &[Core],
    scoped: Scoped,
    depth: u32,
) -> Result<CoreArgs, Memory>
    requires { IsLawfulSchema schema.now }
    ensures { IfOk result (λ cs. cs ≡ each_limited schema.now.tables limit (depth_at scoped depth) 0
        parts.now) }
{
    let mut items = CoreArgs::new(alloc);
    for (at, part) in parts.iter().enumerate() {
        let inside = deepen(depth, scoped.opens(at))?;
        let inner = limit_tree(alloc, schema, limit, part, inside, false)?;
        items.push(inner)?;
    }
    Ok(items)
}

// The fields of a record.
#[cycle(limit_tree)]
fn limit_fields(
    alloc: Global,
    schema: &Schema,
    limit: u32,
    fields: &[(Words, Core)],
    depth: u32,
) -> Result<CoreFields, Memory>
    requires { IsLawfulSchema schema.now }
    ensures { IfOk result (λ fs. fs ≡ fields_limited schema.now.tables limit depth fields.now) }
{
    let mut items = CoreFields::new(alloc);
    for (name, part) in fields {
        let inner = limit_tree(alloc, schema, limit, part, depth, false)?;
        items.push(name.copy(alloc)?, inner)?;
    }
    Ok(items)
}

// One scope more, if there is one.
fn deepen(depth: u32, opens: bool) -> Result<u32, Memory>
    ensures { IfOk result (λ k. k ≡ deeper opens depth) }
{
    if opens {
        depth.checked_add(1).ok_or(Memory)
    } else {
        Ok(depth)
    }
}

// The first rows of a table, as many as the limit says.
fn first_rows(alloc: Global, table: Core, limit: u32) -> Result<Core, Memory>
    ensures { IfOk result (λ c. c ≡ first_rows_of limit table) }
{
    let mut parts = CoreArgs::new(alloc);
    parts.push(make_core::constant(number_of(limit)))?;
    make_core::call_over(alloc, Fun::FirstN, table, parts)
}

fn number_of(limit: u32) -> Value
    ensures { view result ≡ number (pos (limit * 10000)) }
{
    match Num::from_units(i64::from(limit) * 10_000) {
        Some(number) => Value::Number(number),
        None => unreachable!(),
    }
}
