//! How the name of a function tells which function is called.
ghost use Rattle.std.specs.Prelude.{◌≡◌};
ghost use Rattle.fx_core.specs.Signatures as table;

use crate::functions::{Acting, Form, Fun};

/// How the arguments of a call choose the function.
#[derive(Clone, Copy, PartialEq, Eq)]
pub enum SigShape {
    /// Always this function.
    One(Fun),
    /// The first function, or the second where the first argument is a table.
    Either(Fun, Fun),
    /// This function, as a literal behind its other arguments makes it where one is given.
    Literal(Fun),
    /// A form that evaluates only the parts that it needs.
    Form(Form),
    /// `With`: a formula in the scope of a record.
    With,
    /// `Table`: rows.
    Table,
    /// `Today`: the day.
    Today,
    /// `Defaults`: a record of blanks with the columns of a table or a collection.
    Defaults,
    /// A function that changes state.
    Act(Acting),
}

/// A function's entry in the table of functions: its name, how its arguments choose what is called,
/// and how many arguments it takes.
#[derive(Clone, Copy)]
pub struct Signature {
    pub name: &'static str,
    pub shape: SigShape,
    /// The least number of arguments.
    pub least: u8,
    /// The greatest number of arguments, where 255 means any number.
    pub most: u8,
    /// Whether it changes state.
    pub acts: bool,
}

/// The entry of this name, the first one if there are several.
pub fn signature_in(signatures: &[Signature], name: &str) -> Option<Signature>
    ensures { result ≡ table.signature_in signatures.now name.now }
{
    for signature in signatures {
        if signature.name == name {
            return Some(*signature);
        }
    }
    None
}
