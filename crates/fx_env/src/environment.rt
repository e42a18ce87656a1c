//! What typed trees are evaluated over.
ghost use Rattle.std.specs.Prelude.{◌≡◌, ℕ, ◌+◌, ◌≤◌, Option, IsSome, IfOk, IsErrOf, MatchOption};
ghost use Rattle.std.specs.Prelude.{length};
ghost use Rattle.fx_base.specs.Faults.{Rose};
ghost use Rattle.fx_base.specs.Silence.{MayFallSilent, IsLater, SilenceCause, Marks};
ghost use Rattle.fx_base.specs.Telling.{Stays};
ghost use Rattle.fx_types.specs.ValueView.{view};
ghost use Rattle.fx_env.specs.Queries.{KeepsTables, ReadsTold};
ghost use Rattle.fx_env.specs.Scopes.{Fixed};
ghost use Rattle.fx_env.specs.Telling.{EnvState, tables_told, values_told};
ghost use Rattle.fx_env.specs.declared.environment.Stop.TheVariants.{Memory as OutOfMemory};
ghost use Rattle.fx_semantics.specs.Sources.{Gives};
ghost use Rattle.row_queries.specs.Answers.{IsCountAnswer, IsScanValue, IsTotalAnswer};
ghost use Rattle.row_queries.specs.Answers.{rows_counted};
ghost use Rattle.row_queries.specs.Queries.{CanTotal, IsQuery};
ghost use Rattle.row_queries.specs.RowTests.{HasNoFaults};
ghost use Rattle.row_queries.specs.Visits.{VisitsAtLeast, VisitsTold};

use crate::Steps;
use fx_base::Memory;
use fx_core::{Schema, Source};
use fx_types::{Totals, Value};
use row_queries::Query;
use std::alloc::{AllocError, AllocFailed};
use std::sync::ledger::Ledger;

/// Why an evaluation gave no value.
#[derive(Clone, Copy)]
pub enum Stop {
    /// Memory ran out.
    Memory,
    /// The keeper of rows failed, and a fault was counted.
    Keeper,
}

impl From<Memory> for Stop {
    ghost from_gives = { λ _ e. e ≡ OutOfMemory };

    fn from(_: Memory) -> Self {
        Stop::Memory
    }
}

impl From<AllocError> for Stop {
    ghost from_gives = { λ _ e. e ≡ OutOfMemory };

    fn from(_: AllocError) -> Self {
        Stop::Memory
    }
}

impl<T: Drop> From<AllocFailed<T>> for Stop {
    ghost from_gives = { λ _ e. e ≡ OutOfMemory };

    fn from(_: AllocFailed<T>) -> Self {
        Stop::Memory
    }
}

/// The sources that a tree reads, and the tables of the app. A query is one of these tables, over
/// an indexed column or over every key, with ranges that rise and don't overlap, and with a test
/// that can be asked of every row that fits the table.
///
/// No call changes what is told. An environment may fall silent, in any call, and then stays
/// silent: only where a fault was counted in that call or a doubt has come up (`SilenceCause`).
/// What an answer is, is said over what is told after the call; what it fits holds in any case.
/// Counts stand still at the greatest `u64`.
pub trait Env {
    /// What environments of a kind tell besides values and tables.
    ghost Beside: { Type 0 } = { Unit {0} };

    /// What no call changes: the type of each source that may be read, the tables of the app, and
    /// how many rows a query may take that isn't delegated.
    ghost fixed: { Self → Fixed };

    /// Where it is told, the value of each source, the rows of each table by rising `ID`, and what
    /// else is told.
    ghost told: { Self → Option (EnvState Self.Beside) };

    /// How many faults have been counted, and whether a doubt has come up.
    ghost marks: { Self → Marks };

    /// How many steps reads have taken.
    ghost ticked: { Self → ℕ };

    /// How many rows have been visited.
    ghost visited: { Self → ℕ };

    /// The value of a source that has a type. It visits the rows of a table, and none for any other
    /// source. `Keeper` only where a fault was counted.
    fn read<L: Ledger>(&mut self, source: Source, steps: &mut Steps<L>) -> Result<Value, Stop>
        requires { IsSome ((fixed self.old).types source) }
        ensures fixed { fixed self.new ≡ fixed self.old }
        ensures told { MayFallSilent (SilenceCause (marks self.old) (marks self.new)) Stays
            (told self.old) (told self.new) }
        ensures value { IfOk result (λ v. Gives (fixed self.old).types (values_told (told self.new))
            source (view v)) }
        ensures marks { IsLater (marks self.old) (marks self.new) }
        ensures keeper { IsErrOf result Stop.Keeper
            → Rose (marks self.old).faults (marks self.new).faults }
        ensures ticks { steps.new + ticked self.old ≡ steps.old + ticked self.new }
        ensures visited { visited self.old ≤ visited self.new }
        ensures most { ReadsTold source (tables_told (told self.new)) (visited self.old)
            (visited self.new) };

    /// The tables of the app.
    fn schema(&self) -> &Schema
        ensures { result.now ≡ (fixed self.now).schema };

    /// How many rows a query may take that isn't delegated.
    fn limit(&self) -> u32
        ensures { result ≡ (fixed self.now).limit };

    /// The tables of the app, where query expressions are answered by queries of them. Then each
    /// may be read, and its rows are its value as a source. `None` only where the app has no
    /// tables.
    fn tables(&self) -> Option<&Schema>
        ensures { MatchOption result (length (fixed self.now).schema.tables ≡ 0)
            (λ s. (s.now ≡ (fixed self.now).schema) × KeepsTables (fixed self.now) (told self.now)) };

    /// The table of the rows that a query gives, or the first error of its test in the query's
    /// order: of some rows that the table can hold, even where none are told. `Keeper` only where a
    /// fault was counted.
    fn scan(&mut self, query: &Query) -> Result<Value, Stop>
        requires { IsQuery (fixed self.old).schema.tables query.now }
        ensures fixed { fixed self.new ≡ fixed self.old }
        ensures told { MayFallSilent (SilenceCause (marks self.old) (marks self.new)) Stays
            (told self.old) (told self.new) }
        ensures value { IfOk result (λ v. IsScanValue (fixed self.old).schema.tables
            (tables_told (told self.new)) query.now (view v)) }
        ensures marks { IsLater (marks self.old) (marks self.new) }
        ensures keeper { IsErrOf result Stop.Keeper
            → Rose (marks self.old).faults (marks self.new).faults }
        ensures ticked { ticked self.new ≡ ticked self.old }
        ensures visited { visited self.old ≤ visited self.new }
        ensures least { IfOk result (λ v. VisitsAtLeast (rows_counted (view v)) (visited self.old)
            (visited self.new)) }
        ensures most { VisitsTold (tables_told (told self.new)) query.now (visited self.old)
            (visited self.new) };

    /// How many rows a query gives, whose test has no errors as constants: of some rows that the
    /// table can hold, even where none are told. `Keeper` only where a fault was counted.
    fn count(&mut self, query: &Query) -> Result<u32, Stop>
        requires query { IsQuery (fixed self.old).schema.tables query.now }
        requires sound { HasNoFaults query.now.test }
        ensures fixed { fixed self.new ≡ fixed self.old }
        ensures told { MayFallSilent (SilenceCause (marks self.old) (marks self.new)) Stays
            (told self.old) (told self.new) }
        ensures value { IfOk result (λ n. IsCountAnswer (fixed self.old).schema.tables
            (tables_told (told self.new)) query.now n) }
        ensures marks { IsLater (marks self.old) (marks self.new) }
        ensures keeper { IsErrOf result Stop.Keeper
            → Rose (marks self.old).faults (marks self.new).faults }
        ensures ticked { ticked self.new ≡ ticked self.old }
        ensures visited { visited self.old ≤ visited self.new }
        ensures most { VisitsTold (tables_told (told self.new)) query.now (visited self.old)
            (visited self.new) };

    /// What the values of a column of numbers that aren't blank come to, in the rows that a query
    /// gives, whose test has no errors as constants: of some rows that the table can hold, even
    /// where none are told. `Keeper` only where a fault was counted.
    fn total(&mut self, query: &Query, column: u16) -> Result<Totals, Stop>
        requires query { IsQuery (fixed self.old).schema.tables query.now }
        requires sound { HasNoFaults query.now.test }
        requires column { CanTotal (fixed self.old).schema.tables query.now column }
        ensures fixed { fixed self.new ≡ fixed self.old }
        ensures told { MayFallSilent (SilenceCause (marks self.old) (marks self.new)) Stays
            (told self.old) (told self.new) }
        ensures value { IfOk result (λ t. IsTotalAnswer (fixed self.old).schema.tables
            (tables_told (told self.new)) query.now column t) }
        ensures marks { IsLater (marks self.old) (marks self.new) }
        ensures keeper { IsErrOf result Stop.Keeper
            → Rose (marks self.old).faults (marks self.new).faults }
        ensures ticked { ticked self.new ≡ ticked self.old }
        ensures visited { visited self.old ≤ visited self.new }
        ensures most { VisitsTold (tables_told (told self.new)) query.now (visited self.old)
            (visited self.new) };
}
