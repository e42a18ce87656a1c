// Errors as values.
ghost use Rattle.std.specs.Prelude.{◌≡◌, IfOk};
ghost use Rattle.fx_types.specs.Faults.{kind_name};

use crate::words::Words;
use fx_number::Memory;
use std::alloc::Global;

/// The kind of an error, as `FirstError.Kind` names it.
#[derive(Clone, Copy, PartialEq, Eq)]
pub enum Kind {
    /// A division by zero.
    Div0,
    /// A number out of range.
    Numeric,
    /// An argument that the function does not take.
    InvalidArgument,
    /// A row that is not there.
    NotFound,
    /// A required column that is blank.
    MissingRequired,
    /// A unique column's value that stands in another row.
    ConstraintViolated,
    /// A limit that is passed.
    QuotaExceeded,
    /// A value that breaks a rule of its own.
    Validation,
    /// An error that a formula made.
    Custom,
}

impl Kind {
    /// The name of the kind, as the constants of `ErrorKind` have it.
    pub fn name(self) -> &'static str
        ensures { result.now ≡ kind_name self }
    {
        match self {
            Kind::Div0 => "Div0",
            Kind::Numeric => "Numeric",
            Kind::InvalidArgument => "InvalidArgument",
            Kind::NotFound => "NotFound",
            Kind::MissingRequired => "MissingRequired",
            Kind::ConstraintViolated => "ConstraintViolated",
            Kind::QuotaExceeded => "QuotaExceeded",
            Kind::Validation => "Validation",
            Kind::Custom => "Custom",
        }
    }
}

/// An error, as the value of a formula.
#[derive(Drop)]
pub struct Fault {
    pub kind: Kind,
    pub message: Words,
}

impl Fault {
    /// The same error.
    pub fn copy(&self, alloc: Global) -> Result<Fault, Memory>
        ensures { IfOk result (λ f. f ≡ self.now) }
    {
        Ok(Fault {
            kind: self.kind,
            message: self.message.copy(alloc)?,
        })
    }
}
