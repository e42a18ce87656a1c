//! Where a formula takes rows of tables.
ghost use Rattle.std.specs.Prelude.{◌≡◌, ◌+◌, ◌<◌, ◌^◌, ◌∷◌, [], length, option_map, IfOk, OnOk};
ghost use Rattle.fx_plan.specs.SitePlaces.{is_scoped, scope_opened as opened_in, parts_in};
ghost use Rattle.fx_plan.specs.SitePlaces.{place_position, stand_at, within_call as within_in};
ghost use Rattle.fx_plan.specs.Sites.{is_asked as is_asked_in, is_filter as is_filter_in};
ghost use Rattle.fx_plan.specs.Sites.{is_formula as is_formula_in, is_update as is_update_in};
ghost use Rattle.fx_plan.specs.Sites.{listed, own_use, part_at, site_use, sites_of};
ghost use Rattle.fx_plan.specs.Sites.{takes_whole as takes_whole_in};
ghost use Rattle.fx_plan.specs.Sites.{totals as totals_in, totals_column as totals_column_in};
ghost use Rattle.fx_plan.specs.Sites.{uses_among, uses_in};
ghost use Rattle.fx_core.specs.Lawful.{IsLawfulSchema};
ghost use Rattle.fx_core.specs.Term.{all, field_terms};

use crate::call_names::{deed_name, form_name, function_name};
use crate::conditions::column_of;
use crate::mixing::mix_under;
use crate::sketches::{filter_sketch, sketch_under};
use fx_base::Memory;
use fx_core::rows::{Takes, row_of};
use fx_core::{Core, CoreNode, Deed, Form, Fun, Scalar, Schema, Site};
use fx_types::Words;
use std::alloc::Global;

// Where a tree stands.
#[derive(Clone, Copy)]
struct Place {
    // How many scopes are around it.
    depth: u32,
    // The function of the nearest call around it.
    by: &'static str,
    // Whether that takes the whole of it.
    delegated: bool,
    // Whether it is the first part of a larger query expression or of a mixed filter.
    inner: bool,
}

/// Which of several parts stand in a scope of their own.
#[derive(Clone, Copy)]
pub enum Scoped {
    Nothing,
    /// All but the first, if any.
    Others(bool),
    /// The formulas behind a table, by the function and the number of its parts.
    Formulas(Fun, usize),
}

impl Scoped {
    /// Whether the part at a place does.
    pub fn opens(self, at: usize) -> bool
        requires { at + 1 < 2 ^ 64 }
        ensures { result ≡ is_scoped self at }
    {
        match self {
            Scoped::Nothing => false,
            Scoped::Others(open) => at > 0 && open,
            Scoped::Formulas(fun, count) => is_formula(row_of(fun).takes(count, at + 1)),
        }
    }
}

/// The formulas among the parts of a function behind its table.
pub fn formulas_of(fun: Fun, parts: &[Core]) -> Scoped
    ensures { result ≡ Scoped.Formulas fun (length parts.now + 1) }
{
    Scoped::Formulas(fun, parts.len() + 1)
}

impl Place {
    // Where a part stands in a call of this name, or in what has none.
    fn within(&self, name: Option<&'static str>) -> Place
        ensures { place_position result ≡ within_in (option_map (λ n. n.now) name.entry)
            (place_position self.now) }
    {
        Place {
            depth: self.depth,
            by: name.unwrap_or(self.by),
            delegated: false,
            inner: false,
        }
    }

    // The same in one more scope, if there is one.
    fn open(&self, opens: bool) -> Result<Place, Memory>
        ensures { IfOk result (λ p. place_position p ≡ opened_in opens (place_position self.now)) }
    {
        if !opens {
            return Ok(*self);
        }
        match self.depth.checked_add(1) {
            Some(depth) => Ok(Place { depth, ..*self }),
            None => Err(Memory),
        }
    }
}

/// The largest query expressions in a cell's tree and those of its mixed filters, and what takes
/// them.
pub fn sites(alloc: Global, schema: &Schema, core: &Core) -> Result<Vec<Site>, Memory>
    requires { IsLawfulSchema schema.now }
    ensures { IfOk result (λ s. s.items ≡ sites_of schema.now.tables core.now) }
{
    let mut sites = Vec::new(alloc);
    let place = Place {
        depth: 0,
        by: "cell",
        delegated: false,
        inner: false,
    };
    list(alloc, schema, core, &place, &mut sites)?;
    Ok(sites)
}

// Lists the largest query expressions in a tree.
#[cycle(list)]
fn list(
    alloc: Global,
    schema: &Schema,
    core: &Core,
    place: &Place,
    sites: &mut Vec<Site>,
) -> Result<(), Memory>
    requires { IsLawfulSchema schema.now }
    ensures { OnOk result (sites.new.items ≡ listed sites.old.items
        (uses_in schema.now.tables (place_position place.now) core.now)) }
{
    let is_asked = list_own(alloc, schema, core, place, sites)?;
    list_parts(alloc, schema, core, place, is_asked, sites)
}

// Lists the tree itself, if it is a mixed filter, or a query expression and not the first part of a
// larger one or of a mixed filter. Says whether it is a query expression or a mixed filter.
fn list_own(
    alloc: Global,
    schema: &Schema,
    core: &Core,
    place: &Place,
    sites: &mut Vec<Site>,
) -> Result<bool, Memory>
    requires { IsLawfulSchema schema.now }
    ensures sites { OnOk result (sites.new.items
        ≡ listed sites.old.items (own_use schema.now.tables (place_position place.now) core.now)) }
    ensures asked { IfOk result (λ b. b ≡ is_asked_in schema.now.tables place.now.depth core.now) }
{
    if let Some(mix) = mix_under(alloc, schema, core, place.depth)? {
        list_site(alloc, mix.table, "Filter", false, sites)?;
        return Ok(true);
    }
    let Some(query) = sketch_under(alloc, schema, core, place.depth)? else {
        return Ok(false);
    };
    if !place.inner {
        list_site(alloc, query.table, place.by, place.delegated, sites)?;
    }
    Ok(true)
}

// Lists one more site.
fn list_site(
    alloc: Global,
    table: u16,
    by: &str,
    delegated: bool,
    sites: &mut Vec<Site>,
) -> Result<(), Memory>
    ensures { OnOk result (sites.new.items
        ≡ listed sites.old.items (site_use table by.now delegated ∷ [])) }
{
    let Ok(number) = u32::try_from(sites.len() + 1) else {
        return Err(Memory);
    };
    sites.push(Site {
        number,
        table,
        by: Words::of(alloc, by)?,
        delegated,
    })?;
    Ok(())
}

// Lists those in the parts of a tree.
#[cycle(list)]
fn list_parts(
    alloc: Global,
    schema: &Schema,
    core: &Core,
    place: &Place,
    is_asked: bool,
    sites: &mut Vec<Site>,
) -> Result<(), Memory>
    requires lawful { IsLawfulSchema schema.now }
    requires asked { is_asked ≡ is_asked_in schema.now.tables place.now.depth core.now }
    ensures { OnOk result (sites.new.items ≡ listed sites.old.items
        (uses_among schema.now.tables (part_at schema.now.tables (place_position place.now)
        core.now) 0 (parts_in core.now))) }
{
    match &core.node {
        CoreNode::Const(_)
        | CoreNode::Read(_)
        | CoreNode::Row(_)
        | CoreNode::Item
        | CoreNode::Caught => Ok(()),
        CoreNode::Dot(part, _) | CoreNode::Coerce(part, _) => {
            list(alloc, schema, part, &place.within(None), sites)
        }
        CoreNode::Call(fun, parts) => {
            let inside = place.within(function_name(*fun));
            list_among(
                alloc,
                schema,
                parts.as_slice(),
                Scoped::Nothing,
                &inside,
                sites,
            )
        }
        CoreNode::Over(fun, rows, parts) => {
            let inside = place.within(function_name(*fun));
            let first = Place {
                delegated: takes_whole(alloc, schema, core, place.depth)?,
                inner: is_asked,
                ..inside
            };
            list(alloc, schema, rows, &first, sites)?;
            let behind = parts.as_slice();
            let scoped = formulas_of(*fun, behind);
            list_among(alloc, schema, behind, scoped, &inside, sites)
        }
        CoreNode::With(record, formula) => {
            let inside = place.within(Some("With"));
            list(alloc, schema, record, &inside, sites)?;
            list(alloc, schema, formula, &inside.open(true)?, sites)
        }
        CoreNode::Rec(fields) => {
            list_fields(alloc, schema, fields.as_slice(), &place.within(None), sites)
        }
        CoreNode::List(_, parts)
        | CoreNode::User(_, parts)
        | CoreNode::Chain(parts)
        | CoreNode::All(parts)
        | CoreNode::Any(parts) => {
            let inside = place.within(None);
            list_among(
                alloc,
                schema,
                parts.as_slice(),
                Scoped::Nothing,
                &inside,
                sites,
            )
        }
        CoreNode::If(parts) => {
            let inside = place.within(form_name(Form::If));
            list_among(
                alloc,
                schema,
                parts.as_slice(),
                Scoped::Nothing,
                &inside,
                sites,
            )
        }
        CoreNode::Switch(parts) => {
            let inside = place.within(form_name(Form::Switch));
            list_among(
                alloc,
                schema,
                parts.as_slice(),
                Scoped::Nothing,
                &inside,
                sites,
            )
        }
        CoreNode::IfError(parts) => {
            let inside = place.within(form_name(Form::IfError));
            list_among(
                alloc,
                schema,
                parts.as_slice(),
                Scoped::Nothing,
                &inside,
                sites,
            )
        }
        CoreNode::Act(deed, parts) => {
            let inside = place.within(Some(deed_name(deed)));
            let changes = Scoped::Others(is_update(deed));
            list_among(alloc, schema, parts.as_slice(), changes, &inside, sites)
        }
    }
}

// Lists those in several parts of a tree.
#[cycle(list)]
fn list_among(
    alloc: Global,
    schema: &Schema,
    parts: &[Core],
    scoped: Scoped,
    place: &Place,
    sites: &mut Vec<Site>,
) -> Result<(), Memory>
    requires { IsLawfulSchema schema.now }
    ensures { OnOk result (sites.new.items ≡ listed sites.old.items
        (uses_among schema.now.tables (stand_at scoped (place_position place.now)) 0
        (all parts.now))) }
{
    for (at, part) in parts.iter().enumerate() {
        let stand = place.open(scoped.opens(at))?;
        list(alloc, schema, part, &stand, sites)?;
    }
    Ok(())
}

// Lists those in the fields of a record.
#[cycle(list)]
fn list_fields(
    alloc: Global,
    schema: &Schema,
    fields: &[(Words, Core)],
    place: &Place,
    sites: &mut Vec<Site>,
) -> Result<(), Memory>
    requires { IsLawfulSchema schema.now }
    ensures { OnOk result (sites.new.items ≡ listed sites.old.items
        (uses_among schema.now.tables (stand_at Scoped.Nothing (place_position place.now)) 0
        (field_terms fields.now))) }
{
    for (_, part) in fields {
        list(alloc, schema, part, place, sites)?;
    }
    Ok(())
}

// Whether what stands at a place is a formula in the scope of a row.
fn is_formula(takes: Takes) -> bool
    ensures { result ≡ is_formula_in takes }
{
    matches!(
        takes,
        Takes::Formula(_) | Takes::ScalarFormula | Takes::AnyFormula | Takes::RowFormula
    )
}

/// Whether the parts of a deed behind the first are formulas in the scope of a row.
pub fn is_update(deed: &Deed) -> bool
    ensures { result ≡ is_update_in deed.now }
{
    matches!(deed, Deed::UpdateIf(_))
}

/// Whether a tree takes the whole of the query expression that is its first part.
pub fn takes_whole(alloc: Global, schema: &Schema, core: &Core, depth: u32) -> Result<bool, Memory>
    requires { IsLawfulSchema schema.now }
    ensures { IfOk result (λ b. b ≡ takes_whole_in schema.now.tables depth core.now) }
{
    match &core.node {
        CoreNode::Over(Fun::CountRows | Fun::First, _, _) => Ok(true),
        CoreNode::Over(Fun::LookUp, rows, parts) => match parts.as_slice() {
            [] => Ok(false),
            parts => is_filter(alloc, schema, rows, &parts[..1], depth),
        },
        CoreNode::Over(
            Fun::SumRows | Fun::MinRows | Fun::MaxRows | Fun::AverageRows,
            rows,
            parts,
        ) => totals(alloc, schema, rows, parts.as_slice(), depth),
        _ => Ok(false),
    }
}

// Whether rows with conditions are a query expression.
fn is_filter(
    alloc: Global,
    schema: &Schema,
    rows: &Core,
    conditions: &[Core],
    depth: u32,
) -> Result<bool, Memory>
    requires { IsLawfulSchema schema.now }
    ensures { IfOk result (λ b. b ≡ is_filter_in schema.now.tables depth rows.now
        (all conditions.now)) }
{
    match sketch_under(alloc, schema, rows, depth)? {
        Some(rows) => Ok(filter_sketch(alloc, schema, rows, conditions, depth)?.is_some()),
        None => Ok(false),
    }
}

// Whether a total is that of a plain column of numbers in a query expression.
fn totals(
    alloc: Global,
    schema: &Schema,
    rows: &Core,
    columns: &[Core],
    depth: u32,
) -> Result<bool, Memory>
    requires { IsLawfulSchema schema.now }
    ensures { IfOk result (λ b. b ≡ totals_in schema.now.tables depth rows.now (all columns.now)) }
{
    match columns {
        [] => Ok(false),
        [column] => totals_column(alloc, schema, rows, column, depth),
        [_, _, ..] => Ok(false),
    }
}

fn totals_column(
    alloc: Global,
    schema: &Schema,
    rows: &Core,
    column: &Core,
    depth: u32,
) -> Result<bool, Memory>
    requires { IsLawfulSchema schema.now }
    ensures { IfOk result (λ b. b ≡ totals_column_in schema.now.tables depth rows.now column.now) }
{
    let Some(rows) = sketch_under(alloc, schema, rows, depth)? else {
        return Ok(false);
    };
    match schema.tables.get(rows.table as usize) {
        Some(table) => Ok(column_of(table, column, Scalar::Number, depth).is_some()),
        None => Ok(false),
    }
}
