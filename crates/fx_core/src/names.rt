//! What formulas may name.

use crate::formulas::FormulaList;
use crate::schema::Schema;
use crate::signatures::Signature;
use fx_base::InOrder;
use fx_types::controls::Control;
use fx_types::types::Ty;
use fx_types::words::Words;

/// A control.
#[derive(Drop)]
pub struct ControlName {
    pub name: Words,
    pub kind: Control,
    /// The number of its screen.
    pub screen: u32,
    /// The number of the gallery that it stands in.
    pub gallery: Option<u32>,
    /// The type of a gallery's `Items` formula, and Blank for other controls and without a formula.
    pub items: Ty,
}

/// A property of a control that is written.
#[derive(Drop)]
pub struct Property {
    /// The number of its control.
    pub control: u32,
    pub name: Words,
    /// The number of its cell.
    pub cell: u32,
}

/// A named formula.
#[derive(Drop)]
pub struct FormulaName {
    pub name: Words,
    /// The number of its cell.
    pub cell: u32,
    pub ty: Ty,
}

/// A variable: of a screen, or a global one.
#[derive(Drop)]
pub struct Variable {
    pub name: Words,
    /// The number of its screen, and None for a global one.
    pub screen: Option<u32>,
    pub ty: Ty,
}

/// A collection.
#[derive(Drop)]
pub struct Collection {
    pub name: Words,
    pub ty: Ty,
}

/// A parameter of a function of the app's own.
#[derive(Drop)]
pub struct Parameter {
    pub name: Words,
    /// A number, text, Boolean or date.
    pub ty: Ty,
}

/// The parameters of a function by their positions.
pub type ParameterList = InOrder<Parameter>;

/// A function of the app's own.
#[derive(Drop)]
pub struct FunctionName {
    pub name: Words,
    pub params: ParameterList,
    /// A number, text, Boolean or date.
    pub result: Ty,
}

/// The names of screens.
pub type ScreenList = InOrder<Words>;

/// Controls in app order.
pub type ControlList = InOrder<ControlName>;

/// Written properties in app order.
pub type PropertyList = InOrder<Property>;

/// Variables in the order of their first assignment.
pub type VariableList = InOrder<Variable>;

/// Collections in the order of their first assignment.
pub type CollectionList = InOrder<Collection>;

/// Functions of the app's own in the order of the text.
pub type FunctionList = InOrder<FunctionName>;

/// All that the formulas of an app may name.
#[derive(Drop)]
pub struct Names {
    /// The table of functions.
    pub signatures: &'static [Signature],
    pub schema: Schema,
    pub screens: ScreenList,
    pub controls: ControlList,
    pub properties: PropertyList,
    pub formulas: FormulaList,
    pub functions: FunctionList,
    pub variables: VariableList,
    pub collections: CollectionList,
}
