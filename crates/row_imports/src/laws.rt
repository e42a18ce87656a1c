// The law of an import that comes again.
ghost use Rattle.row_imports.specs.Laws.{RepeatsImport};

use fx_value::compare_is_total;

/// A law, and no work: an import that was accepted, once more, adds no row, changes as many as
/// there are lines, and leaves the tables as they are.
// A statement is proved only where it is a clause of a function, so a law is a function with hardly
// a body: what it calls is called for what it says.
pub fn repeats_import()
    ensures { RepeatsImport }
{
    compare_is_total();
}
