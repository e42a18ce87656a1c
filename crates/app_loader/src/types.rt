//! What is seen of types by looking at them: their columns rise, at every depth.
ghost use Rattle.std.specs.Prelude.{All};
ghost use Rattle.app_loader.specs.Types.{AreLawfullyTyped};
ghost use Rattle.fx_types.specs.TypeView.{shape};
ghost use Rattle.fx_types.specs.Types.{column_list};
ghost use Rattle.fx_semantics.specs.Sound.{AreLawfulColumns, IsLawfulType};
ghost use Rattle.fx_core.specs.declared.names.Collection.{Collection};
ghost use Rattle.fx_core.specs.declared.names.ControlName.{ControlName};
ghost use Rattle.fx_core.specs.declared.names.FormulaName.{FormulaName};
ghost use Rattle.fx_core.specs.declared.names.Variable.{Variable};

use fx_core::{Collection, ControlName, FormulaName, Names, Variable};
use fx_types::types::{Columns, Ty};

/// Looks at a type.
#[cycle(look)]
pub fn look_at_type(ty: &Ty)
    ensures { IsLawfulType (shape ty.now) }
{
    match ty {
        Ty::Rec(columns) | Ty::Tab(columns) => look_at_columns(columns),
        Ty::Blank | Ty::Number | Ty::Text | Ty::Boolean | Ty::Date => {}
    }
}

#[cycle(look)]
fn look_at_columns(columns: &Columns)
    ensures { AreLawfulColumns (column_list columns.now) }
{
    for (_, ty) in columns.as_slice() {
        look_at_type(ty);
    }
}

fn look_at_formulas(formulas: &[FormulaName])
    ensures { All (λ (f : FormulaName). IsLawfulType (shape f.ty)) formulas.now }
{
    for formula in formulas {
        look_at_type(&formula.ty);
    }
}

fn look_at_variables(variables: &[Variable])
    ensures { All (λ (v : Variable). IsLawfulType (shape v.ty)) variables.now }
{
    for variable in variables {
        look_at_type(&variable.ty);
    }
}

fn look_at_collections(collections: &[Collection])
    ensures { All (λ (c : Collection). IsLawfulType (shape c.ty)) collections.now }
{
    for collection in collections {
        look_at_type(&collection.ty);
    }
}

fn look_at_controls(controls: &[ControlName])
    ensures { All (λ (c : ControlName). IsLawfulType (shape c.items)) controls.now }
{
    for control in controls {
        look_at_type(&control.items);
    }
}

/// Looks at the types of names.
pub fn look_at_types(names: &Names)
    ensures { AreLawfullyTyped names.now }
{
    look_at_formulas(names.formulas.as_slice());
    look_at_variables(names.variables.as_slice());
    look_at_collections(names.collections.as_slice());
    look_at_controls(names.controls.as_slice());
}
