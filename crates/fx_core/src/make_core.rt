//! Typed trees made of their parts.
ghost use Rattle.std.specs.Prelude.{◌≡◌, IfOk};
ghost use Rattle.fx_types.specs.TypeView.{shape};
ghost use Rattle.fx_types.specs.ValueView.{view};
ghost use Rattle.fx_core.specs.Term.{of, nil, cons, all, term_field_names, field_terms};
ghost use Rattle.fx_core.specs.Term as top;

use crate::deeds::Deed;
use crate::functions::{Form, Fun};
use crate::sources::Source;
use crate::trees::{Core, CoreArgs, CoreFields, CoreNode};
use fx_base::Memory;
use fx_types::types::Ty;
use fx_types::values::Value;
use fx_types::words::Words;
use std::alloc::Global;

/// A value.
pub fn constant(value: Value) -> Core
    ensures { result ≡ of (top.const (view value)) nil }
{
    Core {
        node: CoreNode::Const(value),
    }
}

/// What a source holds.
pub fn read(source: Source) -> Core
    ensures { result ≡ of (top.read source) nil }
{
    Core {
        node: CoreNode::Read(source),
    }
}

/// The row or record of a scope, counted from the outside, from 0.
pub fn row(scope: u8) -> Core
    ensures { result ≡ of (top.row scope) nil }
{
    Core {
        node: CoreNode::Row(scope),
    }
}

/// The gallery's item.
pub fn item() -> Core
    ensures { result ≡ of top.item nil }
{
    Core {
        node: CoreNode::Item,
    }
}

/// The error that the nearest `IfError` caught.
pub fn caught_error() -> Core
    ensures { result ≡ of top.caught nil }
{
    Core {
        node: CoreNode::Caught,
    }
}

/// A field of a record.
pub fn dot(alloc: Global, part: Core, name: Words) -> Result<Core, Memory>
    ensures { IfOk result (λ c. c ≡ of (top.dot name) (cons part nil)) }
{
    Ok(Core {
        node: CoreNode::Dot(Box::new(alloc, part)?, name),
    })
}

/// A function of the values of its parts.
pub fn call(fun: Fun, parts: CoreArgs) -> Core
    ensures { result ≡ of (top.call fun) (all parts) }
{
    Core {
        node: CoreNode::Call(fun, parts),
    }
}

/// A function of a table and other parts.
pub fn call_over(alloc: Global, fun: Fun, table: Core, parts: CoreArgs) -> Result<Core, Memory>
    ensures { IfOk result (λ c. c ≡ of (top.over fun) (cons table (all parts))) }
{
    Ok(Core {
        node: CoreNode::Over(fun, Box::new(alloc, table)?, parts),
    })
}

/// A call of a function of the app's own, by its place among these.
pub fn user(function: u32, parts: CoreArgs) -> Core
    ensures { result ≡ of (top.user function) (all parts) }
{
    Core {
        node: CoreNode::User(function, parts),
    }
}

/// A formula in the scope of a record.
pub fn within(alloc: Global, scope: Core, formula: Core) -> Result<Core, Memory>
    ensures { IfOk result (λ c. c ≡ of top.within (cons scope (cons formula nil))) }
{
    let scope = Box::new(alloc, scope)?;
    let formula = Box::new(alloc, formula)?;
    Ok(Core {
        node: CoreNode::With(scope, formula),
    })
}

/// A record of these fields.
pub fn record_of(fields: CoreFields) -> Core
    ensures { result ≡ of (top.rec (term_field_names fields)) (field_terms fields) }
{
    Core {
        node: CoreNode::Rec(fields),
    }
}

/// A table of these rows.
pub fn list(row: Ty, parts: CoreArgs) -> Core
    ensures { result ≡ of (top.list (shape row)) (all parts) }
{
    Core {
        node: CoreNode::List(row, parts),
    }
}

/// A form that evaluates only the parts that it needs.
pub fn form(form: Form, parts: CoreArgs) -> Core
    ensures { result ≡ of (top.form form) (all parts) }
{
    let node = match form {
        Form::All => CoreNode::All(parts),
        Form::Any => CoreNode::Any(parts),
        Form::If => CoreNode::If(parts),
        Form::Switch => CoreNode::Switch(parts),
        Form::IfError => CoreNode::IfError(parts),
    };
    Core { node }
}

/// A value as one of this type.
pub fn coerce(alloc: Global, part: Core, ty: Ty) -> Result<Core, Memory>
    ensures { IfOk result (λ c. c ≡ of (top.coerce (shape ty)) (cons part nil)) }
{
    Ok(Core {
        node: CoreNode::Coerce(Box::new(alloc, part)?, ty),
    })
}

/// Parts in turn.
pub fn chain(parts: CoreArgs) -> Core
    ensures { result ≡ of top.chain (all parts) }
{
    Core {
        node: CoreNode::Chain(parts),
    }
}

/// A change of state.
pub fn act(deed: Deed, parts: CoreArgs) -> Core
    ensures { result ≡ of (top.act deed) (all parts) }
{
    Core {
        node: CoreNode::Act(deed, parts),
    }
}
