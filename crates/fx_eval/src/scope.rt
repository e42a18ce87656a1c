//! What stands around a formula.
ghost use Rattle.std.specs.Prelude.{◌≡◌, Some, IsSome, IfOk, slice_get};
ghost use Rattle.fx_types.specs.ValueView.{view};
ghost use Rattle.fx_semantics.specs.Errors.{IsCaught};

use fx_base::Memory;
use fx_scalar::error_record;
use fx_types::{Fault, Value};
use std::alloc::Global;
use std::marker::Model;

/// The rows and records of the scopes from the outside, the gallery's item if there is one, and the
/// error that was caught around, if one was.
#[derive(Drop)]
pub struct Scope {
    pub rows: Vec<Value>,
    pub item: Option<Value>,
    pub caught: Option<Fault>,
}

impl Model for Scope {
    ghost use Rattle.std.specs.Coded.{codes};
    ghost use Rattle.fx_types.specs.ValueCode.{data_code};
    ghost use Rattle.fx_env.specs.Scopes.{ScopeValues};

    ghost Value = { ScopeValues };

    ghost coded = { Prim.hlevel (codes, data_code) };

    ghost use Rattle.fx_env.specs.Scopes.{scope_values};

    ghost view = { λ s. scope_values s.rows.items s.item s.caught };
}

impl Scope {
    /// The row or record of a scope, counted from the outside, from 0.
    pub fn row(&self, alloc: Global, place: u8) -> Result<Value, Memory>
        requires { IsSome (slice_get self.now.rows place) }
        ensures { IfOk result (λ v. slice_get self.now.rows place ≡ Some (view v)) }
    {
        self.rows[place as usize].copy(alloc)
    }

    /// The gallery's item.
    pub fn gallery_item(&self, alloc: Global) -> Result<Value, Memory>
        requires { IsSome self.now.item }
        ensures { IfOk result (λ v. self.now.item ≡ Some (view v)) }
    {
        match &self.item {
            Some(item) => item.copy(alloc),
            None => unreachable!(),
        }
    }

    /// The error that was caught, as a record.
    pub fn caught_error(&self, alloc: Global) -> Result<Value, Memory>
        requires { IsSome self.now.caught }
        ensures { IfOk result (λ v. IsCaught self.now.caught (view v)) }
    {
        match &self.caught {
            Some(fault) => error_record(alloc, fault),
            None => unreachable!(),
        }
    }
}
