// The environment of a formula that reads no table.
ghost use Rattle.std.specs.Prelude.{◌≡◌, Some, length, map};
ghost use Rattle.std.proofs.Math.Bool.{Bool-set};
ghost use Rattle.app_semantics.specs.Holding.{HoldsFitting};
ghost use Rattle.fx_types.specs.ValueView.{view};
ghost use Rattle.fx_env.specs.Telling.{no_marks};
ghost use Rattle.recalc.specs.Holds.{holds_prop};
ghost use Rattle.recalc.specs.Reading.{fixed_on, told_by, told_values};

use crate::source_values::given_value;
use fx_core::{Names, Schema, Source};
use fx_env::Steps;
use fx_env::environment::{Env, Stop};
use fx_types::{Totals, Value};
use row_queries::Query;
use session_state::Session;
use std::alloc::Global;
use std::sync::ledger::Ledger;

/// What a formula reads, where there are no tables: the values of cells by their numbers, a session
/// whose values fit, and the day.
#[derive(Drop)]
pub(crate) struct Reading<'a> {
    pub(crate) alloc: Global,
    pub(crate) names: &'a Names,
    pub(crate) session: &'a Session,
    pub(crate) values: &'a [Value],
    pub(crate) today: &'a Value,
    /// The sources that stand in the formula.
    pub(crate) reads: &'a [Source],
    pub(crate) schema: &'a Schema,
    pub(crate) limit: u32,
    ghost has_no_tables: { length schema.now.tables ≡ 0 },
    ghost holds: { HoldsFitting names.now session.now } by { Prim.hlevel (holds_prop, Bool-set) },
}

impl Env for Reading<'_> {
    ghost fixed = { λ r. fixed_on r.names.now r.reads.now
        (told_by (view r.today.now) r.names.now r.session.now (map view r.values.now)) r.schema.now
        r.limit };

    ghost told = { λ r. Some (told_values (told_by (view r.today.now) r.names.now r.session.now
        (map view r.values.now))) };

    ghost marks = { λ r. no_marks };

    ghost ticked = { λ r. 0 };

    ghost visited = { λ r. 0 };

    #[tactic(auto, using(crate::proofs::Tellings::given_typed, crate::proofs::Tellings::is_held, crate::proofs::Tellings::not_typed))]
    fn read<L: Ledger>(&mut self, source: Source, _steps: &mut Steps<L>) -> Result<Value, Stop> {
        Ok(given_value(
            self.alloc,
            self.names,
            self.session,
            self.values,
            self.today,
            source,
        )?)
    }

    fn schema(&self) -> &Schema {
        self.schema
    }

    fn limit(&self) -> u32 {
        self.limit
    }

    // There are no tables, so that no query can be asked.
    fn tables(&self) -> Option<&Schema> {
        None
    }

    fn scan(&mut self, _query: &Query) -> Result<Value, Stop> {
        unreachable!()
    }

    fn count(&mut self, _query: &Query) -> Result<u32, Stop> {
        unreachable!()
    }

    fn total(&mut self, _query: &Query, _column: u16) -> Result<Totals, Stop> {
        unreachable!()
    }
}
