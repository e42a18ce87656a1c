//! Names in a set.
ghost use Rattle.std.specs.Prelude.{◌≡◌, ◌++◌, ◌∷◌, [], IfOk, List, OnOk, ℕ};
ghost use Rattle.app_names.specs.Declarations.{is_name_among, own_names};
ghost use Rattle.app_names.specs.Tops.{is_name_in_set};

use app_cells::Spot;
use fx_base::Memory;
use fx_types::words::Words;
use std::alloc::Global;
use std::collections::BTreeSet;

/// Adds a name.
pub fn put_name(alloc: Global, name: &Words, names: &mut BTreeSet<Words>) -> Result<(), Memory>
    ensures { OnOk result ((xs : List (List ℕ)) → is_name_in_set names.old ≡ is_name_among xs
        → is_name_in_set names.new ≡ is_name_among (xs ++ name.now ∷ [])) }
{
    names.insert(name.copy(alloc)?)?;
    Ok(())
}

/// Adds the name of a named formula.
pub fn put_own_name(alloc: Global, spot: &Spot, names: &mut BTreeSet<Words>) -> Result<(), Memory>
    ensures { OnOk result ((xs : List (List ℕ)) → is_name_in_set names.old ≡ is_name_among xs
        → is_name_in_set names.new ≡ is_name_among (xs ++ own_names spot.now)) }
{
    match spot {
        Spot::Formula(name) => put_name(alloc, name, names),
        Spot::OnStart | Spot::OnVisible(_) | Spot::Property(_, _) => Ok(()),
    }
}

/// A set of these names.
pub fn set_of(alloc: Global, all: &[Words]) -> Result<BTreeSet<Words>, Memory>
    ensures { IfOk result (λ s. is_name_in_set s ≡ is_name_among all.now) }
{
    let mut names = BTreeSet::new(alloc);
    for name in all {
        put_name(alloc, name, &mut names)?;
    }
    Ok(names)
}
