//! Things of an app by their names and numbers.
ghost use Rattle.std.specs.Prelude.{◌≡◌, ◌<◌, ◌^◌, ◌&&◌, ℕ, List, IfSome, bytes_eq, length, nat_eq};
ghost use Rattle.std.specs.Prelude.{option_map};
ghost use Rattle.fx_core.specs.declared.names.Property.{Property};
ghost use Rattle.fx_core.specs.declared.names.Variable.{Variable};
ghost use Rattle.fx_typing.specs.Meaning.{is_global, is_on, first_match};

use fx_core::names::{Collection, ControlName, Property, Variable};
use fx_core::schema::TableShape;
use fx_types::words::Words;

/// A thing that formulas name.
pub trait Named {
    ghost name_of: { Self → List ℕ };

    /// Whether this is its name.
    fn is_named(&self, name: &Words) -> bool
        ensures { result ≡ bytes_eq (name_of self.now) name.now };
}

impl Named for Words {
    ghost name_of = { λ w. w };

    fn is_named(&self, name: &Words) -> bool {
        self.is(name)
    }
}

impl Named for ControlName {
    ghost name_of = { λ c. c.name };

    fn is_named(&self, name: &Words) -> bool {
        self.name.is(name)
    }
}

impl Named for Collection {
    ghost name_of = { λ c. c.name };

    fn is_named(&self, name: &Words) -> bool {
        self.name.is(name)
    }
}

impl Named for TableShape {
    ghost name_of = { λ t. t.name };

    fn is_named(&self, name: &Words) -> bool {
        self.name.is(name)
    }
}

/// The first thing of this name, with its number.
pub fn thing_in<'a, T: Named>(things: &'a [T], name: &Words) -> Option<(u32, &'a T)>
    requires { length things.now < 2 ^ 32 }
    ensures value { option_map (λ e. (e.0, e.1.now)) result
        ≡ first_match (λ t. bytes_eq (T.name_of t) name.now) 0 things.now }
    ensures below { IfSome result (λ e. e.0 < length things.now) }
{
    for (number, thing) in things.iter().enumerate() {
        if thing.is_named(name) {
            return Some((number as u32, thing));
        }
    }
    None
}

/// The first global variable of this name, with its number.
pub fn global_in<'a>(variables: &'a [Variable], name: &Words) -> Option<(u32, &'a Variable)>
    requires { length variables.now < 2 ^ 32 }
    ensures { option_map (λ e. (e.0, e.1.now)) result
        ≡ first_match (λ (v : Variable). is_global v.screen && bytes_eq v.name name.now) 0
        variables.now }
{
    for (number, variable) in variables.iter().enumerate() {
        if variable.screen.is_none() && variable.name.is(name) {
            return Some((number as u32, variable));
        }
    }
    None
}

/// The first variable of this name of a screen, with its number.
pub fn context_in<'a>(
    variables: &'a [Variable],
    screen: Option<u32>,
    name: &Words,
) -> Option<(u32, &'a Variable)>
    requires { length variables.now < 2 ^ 32 }
    ensures { option_map (λ e. (e.0, e.1.now)) result
        ≡ first_match (λ (v : Variable). is_on screen v.screen && bytes_eq v.name name.now) 0
        variables.now }
{
    for (number, variable) in variables.iter().enumerate() {
        if is_on(screen, variable.screen) && variable.name.is(name) {
            return Some((number as u32, variable));
        }
    }
    None
}

// Whether a variable of a screen, if it has one, is one of this screen.
fn is_on(screen: Option<u32>, own: Option<u32>) -> bool
    ensures { result ≡ is_on screen own }
{
    match (screen, own) {
        (Some(screen), Some(own)) => screen == own,
        _ => false,
    }
}

/// The first written property of this name of a control, with its number.
pub fn property_in<'a>(
    properties: &'a [Property],
    control: u32,
    name: &Words,
) -> Option<(u32, &'a Property)>
    requires { length properties.now < 2 ^ 32 }
    ensures { option_map (λ e. (e.0, e.1.now)) result
        ≡ first_match (λ (p : Property). nat_eq p.control control && bytes_eq p.name name.now) 0
        properties.now }
{
    for (number, property) in properties.iter().enumerate() {
        if property.control == control && property.name.is(name) {
            return Some((number as u32, property));
        }
    }
    None
}
