//! The rows of tables.
ghost use Rattle.std.specs.Prelude.{◌≡◌, false, MatchResult};
ghost use Rattle.fx_types.specs.ValueView.{view};
ghost use Rattle.fx_types.specs.Values.{fault};
ghost use Rattle.fx_semantics.specs.Rows.{rows_in};
ghost use Rattle.fx_tables.specs.Unions.{is_fault};

use fx_types::faults::Fault;
use fx_types::values::{Rows, Value};
use std::alloc::Global;

/// The rows of a table, of which a blank one has none, or the error in its place.
pub fn rows_of(alloc: Global, table: Value) -> Result<Rows, Fault>
    ensures { MatchResult result
        (λ r. (r ≡ rows_in (view table)) × (is_fault (view table) ≡ false))
        (λ f. view table ≡ fault f.kind f.message) }
{
    match table {
        Value::Tab(rows) => Ok(rows),
        Value::Fault(fault) => Err(fault),
        _ => Ok(Rows::new(alloc)),
    }
}
