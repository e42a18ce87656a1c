//! Whether names are lawful.
ghost use Rattle.std.specs.Prelude.{◌≡◌, IsTrue, ◌↔◌};
ghost use Rattle.std.specs.List.{list_all};
ghost use Rattle.app_names.specs.Decided as decided;
ghost use Rattle.fx_core.specs.Lawful.{IsLawful};
ghost use Rattle.fx_core.specs.declared.names.Parameter.{Parameter as Taken};
ghost use Rattle.fx_core.specs.declared.names.Variable.{Variable};

use crate::distinct::{are_distinct_cells, are_distinct_functions};
use crate::lawful_schema::{is_column_type, is_schema};
use fx_core::controls::has_property;
use fx_core::names::{ControlName, FunctionName, Names, Parameter, Property, Variable};
use fx_types::controls::Control;

// Whether this is the number of a gallery, where it is a number.
fn is_lawful_gallery(controls: &[ControlName], gallery: Option<u32>) -> bool
    ensures { result ≡ decided.is_lawful_gallery controls.now gallery }
{
    match gallery {
        None => true,
        Some(number) => match controls.get(number as usize) {
            Some(control) => control.kind == Control::Gallery,
            None => false,
        },
    }
}

// Whether a control stands on a screen, and in a gallery where it stands in one.
fn is_lawful_control(names: &Names, control: &ControlName) -> bool
    ensures { result ≡ decided.is_lawful_control names.now control.now }
{
    (control.screen as usize) < names.screens.len()
        && is_lawful_gallery(names.controls.as_slice(), control.gallery)
}

// Whether all controls are lawful.
fn are_lawful_controls(names: &Names) -> bool
    ensures { result ≡ list_all (decided.is_lawful_control names.now) names.now.controls }
{
    let controls = names.controls.as_slice();
    controls
        .iter()
        .all(|control| is_lawful_control(names, control))
}

// Whether a property is one of its control's kind.
fn is_lawful_property(names: &Names, property: &Property) -> bool
    ensures { result ≡ decided.is_lawful_property names.now property.now }
{
    match names.controls.get(property.control as usize) {
        Some(control) => has_property(control.kind, property.name.as_str()),
        None => false,
    }
}

// Whether all properties are lawful.
fn are_lawful_properties(names: &Names) -> bool
    ensures { result ≡ list_all (decided.is_lawful_property names.now) names.now.properties }
{
    let properties = names.properties.as_slice();
    properties
        .iter()
        .all(|property| is_lawful_property(names, property))
}

// Whether this is the number of a screen, where it is a number.
fn is_lawful_screen(names: &Names, screen: Option<u32>) -> bool
    ensures { result ≡ decided.is_lawful_screen names.now screen }
{
    match screen {
        None => true,
        Some(number) => (number as usize) < names.screens.len(),
    }
}

// Whether all variables belong to screens or to none.
fn are_lawful_variables(names: &Names) -> bool
    ensures { result ≡ list_all (λ (v : Variable). decided.is_lawful_screen names.now v.screen)
        names.now.variables }
{
    let variables = names.variables.as_slice();
    variables
        .iter()
        .all(|variable| is_lawful_screen(names, variable.screen))
}

// Whether so many things have numbers of their own.
fn is_few(count: usize) -> bool
    ensures { result ≡ decided.is_few count }
{
    count < 4_294_967_296
}

// Whether there are fewer things of each kind than numbers for them.
fn are_few(names: &Names) -> bool
    ensures { result ≡ decided.are_few names.now }
{
    is_few(names.screens.len())
        && is_few(names.controls.len())
        && is_few(names.properties.len())
        && is_few(names.formulas.len())
        && is_few(names.variables.len())
        && is_few(names.collections.len())
}

// Whether parameters have types that columns may have.
fn are_lawful_parameters(parameters: &[Parameter]) -> bool
    ensures { result ≡ list_all (λ (p : Taken). decided.is_column_type p.ty) parameters.now }
{
    parameters
        .iter()
        .all(|parameter| is_column_type(&parameter.ty))
}

// Whether a function of the app's own takes and answers values of types that columns may have.
fn is_lawful_function(function: &FunctionName) -> bool
    ensures { result ≡ decided.is_lawful_function function.now }
{
    are_lawful_parameters(function.params.as_slice()) && is_column_type(&function.result)
}

// Whether all functions are lawful.
fn have_lawful_types(functions: &[FunctionName]) -> bool
    ensures { result ≡ list_all decided.is_lawful_function functions.now }
{
    functions
        .iter()
        .all(|function| is_lawful_function(function))
}

// Whether there are fewer functions than numbers, no two of one name, and all are lawful.
fn are_lawful_functions(functions: &[FunctionName]) -> bool
    ensures { result ≡ decided.are_lawful_functions functions.now }
{
    is_few(functions.len()) && are_distinct_functions(functions) && have_lawful_types(functions)
}

// Whether names are lawful. What is decided is proved here, and what it means in `is_lawful`.
fn are_lawful(names: &Names) -> bool
    ensures { result ≡ decided.is_lawful names.now }
{
    is_schema(&names.schema)
        && are_few(names)
        && are_lawful_controls(names)
        && are_lawful_properties(names)
        && are_lawful_variables(names)
        && are_lawful_functions(names.functions.as_slice())
        && are_distinct_cells(names.formulas.as_slice(), names.properties.as_slice())
}

/// Whether names are lawful: their schema is, each number of a screen, a control or a gallery is
/// one, each property is one of its control's kind, functions of the app's own are lawful, and no
/// cell is numbered twice.
pub fn is_lawful(names: &Names) -> bool
    ensures { IsTrue result ↔ IsLawful names.now }
{
    are_lawful(names)
}
