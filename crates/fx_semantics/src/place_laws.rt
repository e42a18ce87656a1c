// Laws of the typed trees of formulas that may act.
ghost use Rattle.fx_semantics.specs.Laws.{AdmittedIsPlaced, AllTypingsLawful};

use crate::typings_are_lawful;

/// A law, and no work: in the typed tree of an admitted formula what acts acts in its place alone.
pub fn admitted_is_placed()
    ensures { AdmittedIsPlaced }
{}

/// A law, and no work: the columns of all types of a typing have rising names, where those of the
/// types around and of those that the tree names have, whether or not the tree acts.
pub fn all_typings_are_lawful()
    ensures { AllTypingsLawful }
{
    typings_are_lawful();
}
