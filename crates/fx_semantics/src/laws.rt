// Laws of the values of typed trees.
ghost use Rattle.fx_semantics.specs.Sound.{TypingsLawful, ValuesFit};
ghost use Rattle.fx_semantics.specs.Unique.{OneValue};

use fx_tables::row_calls::{
    count_if_once, count_once, greatest_once, least_once, sort_once, sum_once,
};

/// A law, and no work: over sources that give what fits their types, each value of a tree fits the
/// type that a typing gives it, where the columns of all its types have rising names.
pub fn values_fit()
    ensures { ValuesFit }
{}

/// A law, and no work: the columns of all types of a typing have rising names, where those of the
/// types around and of those that the tree names have.
pub fn typings_are_lawful()
    ensures { TypingsLawful }
{}

/// A law, and no work: a tree has one value at most where the values of its sources are told.
pub fn one_value()
    ensures { OneValue }
{
    sum_once();
    least_once();
    greatest_once();
    count_once();
    count_if_once();
    sort_once();
}
