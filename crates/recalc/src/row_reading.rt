// The environment of a formula that reads tables: what the sources that it reads are worth, and the
// tables of a keeper.
ghost use Rattle.std.specs.Prelude.{◌≡◌, Some, map, option_map};
ghost use Rattle.std.proofs.Math.Bool.{Bool-set};
ghost use Rattle.app_semantics.specs.Holding.{HoldsFitting};
ghost use Rattle.fx_types.specs.ValueView.{view};
ghost use Rattle.fx_core.specs.Lawful.{IsLawfulSchema};
ghost use Rattle.recalc.specs.Holds.{holds_prop};
ghost use Rattle.recalc.specs.Reading.{KeeperState, fixed_over, loans_of, told_by, told_over};
ghost use Rattle.recalc.specs.Schemas.{schema_prop, shaped_prop};
ghost use Rattle.recalc.specs.Stops.{stop_of as stop_by};
ghost use Rattle.row_keeper.specs.Shaped.{by};

use crate::source_values::given_value;
use crate::tables::table_value;
use fx_core::{Names, Schema, Source};
use fx_env::Steps;
use fx_env::environment::{Env, Stop};
use fx_types::{Totals, Value};
use row_keeper::scan_values::scan;
use row_keeper::{Keeper, KeeperEnd};
use row_queries::{Query, rows_fit};
use session_state::Session;
use std::alloc::Global;
use std::sync::ledger::Ledger;

/// What a formula reads: the values of cells by their numbers, a session whose values fit, the day,
/// and the tables of a keeper that is shaped by the schema of the names.
#[derive(Drop)]
pub(crate) struct RowReading<'a, K: Keeper> {
    pub(crate) alloc: Global,
    pub(crate) names: &'a Names,
    pub(crate) session: &'a Session,
    pub(crate) values: &'a [Value],
    pub(crate) today: &'a Value,
    /// The sources that stand in the formula.
    pub(crate) reads: &'a [Source],
    pub(crate) keeper: &'a mut K,
    pub(crate) limit: u32,
    ghost holds: { HoldsFitting names.now session.now } by { Prim.hlevel (holds_prop, Bool-set) },
    ghost lawful: { IsLawfulSchema names.now.schema } by { schema_prop names.now.schema },
    ghost shaped: { K.shaped keeper.now ≡ by names.now.schema } by { shaped_prop (K.shaped keeper.now) (by names.now.schema) },
}

/// Why an evaluation stops where the keeper gives no answer.
pub fn stop_of(end: KeeperEnd) -> Stop
    ensures { result ≡ stop_by end }
{
    match end {
        KeeperEnd::Memory => Stop::Memory,
        KeeperEnd::Failed => Stop::Keeper,
    }
}

impl<K: Keeper> Env for RowReading<'_, K> {
    ghost Beside = { KeeperState };

    ghost fixed = { λ r. fixed_over r.names.now r.reads.now
        (told_by (view r.today.now) r.names.now r.session.now (map view r.values.now)) r.limit
        (loans_of r.keeper.ghost_name (K.loan r.keeper.now)) (K.in_transaction r.keeper.now) };

    ghost told = { λ r. option_map (told_over (view r.today.now) r.names.now r.session.now
        (map view r.values.now) (K.began r.keeper.now)) (K.told r.keeper.now) };

    ghost marks = { λ r. K.marks r.keeper.now };

    ghost ticked = { λ r. 0 };

    ghost visited = { λ r. K.visited r.keeper.now };

    fn read<L: Ledger>(&mut self, source: Source, _steps: &mut Steps<L>) -> Result<Value, Stop> {
        // Called for what it says: rows that fit a table are a value of its type.
        rows_fit();
        match source {
            Source::Table(table) => {
                match table_value(self.alloc, self.keeper, &self.names.schema, table) {
                    Ok(value) => Ok(value),
                    Err(end) => Err(stop_of(end)),
                }
            }
            _ => Ok(given_value(
                self.alloc,
                self.names,
                self.session,
                self.values,
                self.today,
                source,
            )?),
        }
    }

    fn schema(&self) -> &Schema {
        &self.names.schema
    }

    fn limit(&self) -> u32 {
        self.limit
    }

    fn tables(&self) -> Option<&Schema> {
        Some(&self.names.schema)
    }

    fn scan(&mut self, query: &Query) -> Result<Value, Stop> {
        match scan(self.alloc, self.keeper, &self.names.schema, query) {
            Ok(value) => Ok(value),
            Err(end) => Err(stop_of(end)),
        }
    }

    fn count(&mut self, query: &Query) -> Result<u32, Stop> {
        match self.keeper.count(query) {
            Ok(number) => Ok(number),
            Err(end) => Err(stop_of(end)),
        }
    }

    fn total(&mut self, query: &Query, column: u16) -> Result<Totals, Stop> {
        match self.keeper.total(query, column) {
            Ok(totals) => Ok(totals),
            Err(end) => Err(stop_of(end)),
        }
    }
}
