//! The trees of formulas, plain and typed, the functions and rules that they name, and what an app
//! names.
#![tactic(auto)]

mod app_end;
mod broken;
mod broken_text;
pub mod controls;
pub mod deeds;
pub mod expr;
pub mod formulas;
pub mod functions;
pub mod literals;
pub mod make_core;
pub mod make_expr;
pub mod names;
pub mod reading;
pub mod rows;
mod rule;
pub mod schema;
pub mod signatures;
pub mod sites;
pub mod sources;
pub mod trees;

pub use app_end::AppEnd;
pub use broken::Broken;
pub use broken_text::{address, line, lines};
pub use deeds::{Deed, Sources, Target};
pub use formulas::FormulaList;
pub use functions::{Acting, Form, Fun};
pub use fx_types::formats::{DateFormat, NumberFormat, TimeUnit};
pub use literals::{Enumeration, SortOrder};
pub use names::{
    Collection, CollectionList, ControlList, ControlName, FormulaName, FunctionList, FunctionName,
    Names, Parameter, ParameterList, Property, PropertyList, ScreenList, Variable, VariableList,
};
pub use rows::{Answer, Ending, Row, Scalar, Takes};
pub use rule::Rule;
pub use schema::{Column, ColumnList, Schema, TableList, TableShape};
pub use signatures::{SigShape, Signature, signature_in};
pub use sites::Site;
pub use sources::Source;
pub use trees::{Core, CoreArgs, CoreFields, CoreNode};
