// What sources are worth to a formula, but for tables.
ghost use Rattle.std.specs.Prelude.{◌≡◌, ℕ, IfOk, map};
ghost use Rattle.fx_types.specs.ValueView.{view};
ghost use Rattle.fx_core.specs.declared.sources.Source.TheVariants.{Table};
ghost use Rattle.recalc.specs.Reading.{told_by};
ghost use Rattle.session_state.specs.Changes.{IsOwn};
ghost use Rattle.session_state.specs.Sessions.{Holds};

use crate::session_sources::{chosen_item, input, value_of};
use fx_base::Memory;
use fx_core::{Names, Source};
use fx_types::Value;
use session_state::Session;
use std::alloc::Global;

/// The value of a source, where cells have these values: of one that is a session's own where the
/// session holds it.
#[tactic(auto, using(crate::proofs::Tellings::own_held, crate::proofs::Tellings::own_input))]
pub fn given_value(
    alloc: Global,
    names: &Names,
    session: &Session,
    values: &[Value],
    today: &Value,
    source: Source,
) -> Result<Value, Memory>
    requires held { IsOwn source → Holds session.now source }
    requires no_table { (k : ℕ) → source ≡ Table k → ⊥ }
    ensures { IfOk result (λ v. view v ≡ told_by (view today.now) names.now session.now
        (map view values.now) source) }
{
    match source {
        Source::Cell(cell) => value_of(alloc, values, cell),
        Source::Global(_) => session.get(source),
        Source::Context(_) => session.get(source),
        Source::Gathered(_) => session.get(source),
        Source::Input(control) => input(alloc, names, session, values, control),
        Source::Chosen(gallery) => chosen_item(alloc, names, session, values, gallery),
        Source::Table(_) => unreachable!(),
        Source::Today => today.copy(alloc),
    }
}
