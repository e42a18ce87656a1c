//! Names with other types.
ghost use Rattle.std.specs.Prelude.{◌≡◌, IfOk, length, map};
ghost use Rattle.fx_types.specs.TypeView.{shape};
ghost use Rattle.fx_types.specs.Types.{Shape};
ghost use Rattle.fx_typing.specs.Rounds as rounds;
ghost use Rattle.fx_typing.specs.Rounds.{AllSame, SameNames, SameVariable, SameCollection};
ghost use Rattle.fx_typing.specs.Rounds.{SameFormula, SameControl};
ghost use Rattle.fx_infer.specs.TypesView.{AreAsMany, types_view};

use crate::round_types::Types;
use fx_base::{InOrder, Memory};
use fx_core::names::{Collection, ControlName, FormulaName, Names, Variable};
use fx_types::types::Ty;
use std::alloc::Global;

/// A thing whose type is found by rounds.
pub trait TypedName: Sized {
    ghost type_of: { Self → Shape };

    ghost IsSame: { Self → Self → Type 0 };

    /// Its type.
    fn ty(&self) -> &Ty
        ensures { shape result.now ≡ type_of self.now };

    /// The same thing with another type.
    fn retype(self, ty: Ty) -> Self
        ensures same { IsSame self result }
        ensures ty { type_of result ≡ shape ty };
}

impl TypedName for Variable {
    ghost use Rattle.fx_types.specs.TypeView.{shape};
    ghost use Rattle.fx_typing.specs.Rounds.{SameVariable};
    ghost use Rattle.fx_core.specs.declared.names.Variable.{Variable};

    ghost type_of = { λ (v : Variable). shape v.ty };

    ghost IsSame = { SameVariable };

    fn ty(&self) -> &Ty {
        &self.ty
    }

    fn retype(self, ty: Ty) -> Variable {
        Variable {
            name: self.name,
            screen: self.screen,
            ty,
        }
    }
}

impl TypedName for Collection {
    ghost use Rattle.fx_types.specs.TypeView.{shape};
    ghost use Rattle.fx_typing.specs.Rounds.{SameCollection};
    ghost use Rattle.fx_core.specs.declared.names.Collection.{Collection};

    ghost type_of = { λ (c : Collection). shape c.ty };

    ghost IsSame = { SameCollection };

    fn ty(&self) -> &Ty {
        &self.ty
    }

    fn retype(self, ty: Ty) -> Collection {
        Collection {
            name: self.name,
            ty,
        }
    }
}

impl TypedName for FormulaName {
    ghost use Rattle.fx_types.specs.TypeView.{shape};
    ghost use Rattle.fx_typing.specs.Rounds.{SameFormula};
    ghost use Rattle.fx_core.specs.declared.names.FormulaName.{FormulaName};

    ghost type_of = { λ (f : FormulaName). shape f.ty };

    ghost IsSame = { SameFormula };

    fn ty(&self) -> &Ty {
        &self.ty
    }

    fn retype(self, ty: Ty) -> FormulaName {
        FormulaName {
            name: self.name,
            cell: self.cell,
            ty,
        }
    }
}

impl TypedName for ControlName {
    ghost use Rattle.fx_types.specs.TypeView.{shape};
    ghost use Rattle.fx_typing.specs.Rounds.{SameControl};
    ghost use Rattle.fx_core.specs.declared.names.ControlName.{ControlName};

    ghost type_of = { λ (c : ControlName). shape c.items };

    ghost IsSame = { SameControl };

    fn ty(&self) -> &Ty {
        &self.items
    }

    fn retype(self, ty: Ty) -> ControlName {
        ControlName {
            name: self.name,
            kind: self.kind,
            screen: self.screen,
            gallery: self.gallery,
            items: ty,
        }
    }
}

// The same things with these types.
fn retype_all<T: TypedName + Drop>(
    alloc: Global,
    things: InOrder<T>,
    types: Vec<Ty>,
) -> Result<InOrder<T>, Memory>
    requires { length types.items ≡ length things }
    ensures same { IfOk result (λ r. AllSame T.IsSame things r) }
    ensures types { IfOk result (λ r. map T.type_of r ≡ map shape types.items) }
{
    let mut all = InOrder::new(alloc);
    for (thing, ty) in things.into_items().into_iter().zip(types) {
        all.push(thing.retype(ty))?;
    }
    Ok(all)
}

/// The same names with these types, which are as many.
pub fn with_types(alloc: Global, names: Names, types: Types) -> Result<Names, Memory>
    requires { AreAsMany types names }
    ensures same { IfOk result (λ m. SameNames names m) }
    ensures types { IfOk result (λ m. rounds.types_in m ≡ types_view types) }
{
    Ok(Names {
        signatures: names.signatures,
        schema: names.schema,
        screens: names.screens,
        controls: retype_all(alloc, names.controls, types.items)?,
        properties: names.properties,
        functions: names.functions,
        formulas: names.formulas.retype(alloc, types.formulas)?,
        variables: retype_all(alloc, names.variables, types.variables)?,
        collections: retype_all(alloc, names.collections, types.collections)?,
    })
}
