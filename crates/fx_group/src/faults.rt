// Errors in the fields of records.
ghost use Rattle.std.specs.Prelude.{◌≡◌, MatchOption, false};
ghost use Rattle.fx_types.specs.Values.{fault};
ghost use Rattle.fx_tables.specs.Groups.{value_of};
ghost use Rattle.fx_tables.specs.Unions.{is_fault};

use fx_types::faults::Fault;
use fx_types::values::{Fields, Value};
use fx_types::words::Words;

// The error in the field of a name, if there is one.
pub(crate) fn fault_in<'r>(row: &'r Fields, name: &Words) -> Option<&'r Fault>
    ensures { MatchOption result (is_fault (value_of name.now row.now) ≡ false)
        (λ f. value_of name.now row.now ≡ fault f.now.kind f.now.message) }
{
    match row.value(name) {
        Some(Value::Fault(fault)) => Some(fault),
        _ => None,
    }
}
