//! What keeps the rows of tables, with transactions.
ghost use Rattle.row_keeper.specs.declared.keeper.KeeperEnd.TheVariants.{Memory as OutOfMemory};
ghost use Rattle.row_keeper.specs.declared.keeper.KeeperEnd.TheVariants.{Failed as CallFailed};
ghost use Rattle.std.specs.Prelude.{◌≡◌, ◌≢◌, ℕ, ◌≤◌, Bool, true, false, List, length, Option};
ghost use Rattle.std.specs.Prelude.{Some, None, slice_get, IfNone, IfOk, IfSome, IsSome, IsSomeAnd};
ghost use Rattle.std.specs.Prelude.{OnErr, OnOk};
ghost use Rattle.std.specs.List.{All};
ghost use Rattle.fx_base.specs.Silence.{MayFallSilent, IsLater, SilenceCause, Marks};
ghost use Rattle.fx_base.specs.Telling.{Stays};
ghost use Rattle.fx_core.specs.Lawful.{IsLawfulSchema};
ghost use Rattle.row_queries.specs.Answers.{IsCountAnswer, IsScanAnswer, IsTotalAnswer};
ghost use Rattle.row_queries.specs.Queries.{CanTotal, IsQuery};
ghost use Rattle.row_queries.specs.RowTests.{HasNoFaults};
ghost use Rattle.row_queries.specs.TableRows.{AreCellsOf, IsRowOf};
ghost use Rattle.row_queries.specs.Visits.{VisitsAtLeast, VisitsTold};
ghost use Rattle.row_keeper.specs.Causes.{HasCause, end_of};
ghost use Rattle.row_keeper.specs.Changes.{CountsQuery, Inserts, IsInserted, IsReplaced, Removes};
ghost use Rattle.row_keeper.specs.Changes.{Replaces, Scans, Shapes, StaysOrShapes, TotalsUp};
ghost use Rattle.row_keeper.specs.Crashes.{LeavesNoMore, LeavesThese, MayLeave};
ghost use Rattle.row_keeper.specs.Kept.{columns_shaped};
ghost use Rattle.row_keeper.specs.MovedTables.{AreMoves, IsReshaped, Reshapes};
ghost use Rattle.row_keeper.specs.Passing.{Passes, around};
ghost use Rattle.row_keeper.specs.Shaped.{Shaped, StaysOrEnds, by, gone_back, shaped_so, steady};
ghost use Rattle.row_keeper.specs.Tables.{AreStatesOf, Tables, columns_at, rows_told, shapes_of};

use crate::moves::TableMove;
use crate::rows::{Put, Reshaped};
use fx_base::Memory;
use fx_core::Schema;
use fx_types::Totals;
use row_queries::{Cells, Query, RowList};
use std::alloc::{AllocError, AllocFailed};

/// Why a call of a keeper gave no answer.
#[derive(Clone, Copy, Debug, PartialEq, Eq)]
pub enum KeeperEnd {
    /// Memory ran out.
    Memory,
    /// The store failed, and a fault is counted.
    Failed,
}

impl From<Memory> for KeeperEnd {
    ghost from_gives = { λ _ e. e ≡ OutOfMemory };

    fn from(_: Memory) -> Self {
        KeeperEnd::Memory
    }
}

impl From<AllocError> for KeeperEnd {
    ghost from_gives = { λ _ e. e ≡ OutOfMemory };

    fn from(_: AllocError) -> Self {
        KeeperEnd::Memory
    }
}

impl<T: Drop> From<AllocFailed<T>> for KeeperEnd {
    ghost from_gives = { λ _ e. e ≡ OutOfMemory };

    fn from(_: AllocFailed<T>) -> Self {
        KeeperEnd::Memory
    }
}

/// A store of the rows of tables, with transactions. Tables and columns go by number, and `ID` is
/// column 0.
///
/// A keeper may tell what it has. It falls silent only in a call in which its count of faults rose,
/// or after a doubt has come up, and stays silent then. What it tells after a call that gave no
/// answer is what it told before, unless the call says otherwise.
///
/// What a crash may leave is said of the exits of calls. A `commit` that answers Ok, and so
/// `attach` and `shape`, leaves the tables that are told and no others; a `commit` that doesn't may
/// leave those with its changes too.
pub trait Keeper {
    ghost use Rattle.row_keeper.specs.declared.keeper.KeeperEnd.{KeeperEnd};

    /// The schema that is kept, if any, and the tables, where they are told.
    ghost told: { Self → Option Tables };

    /// The same as the transaction began.
    ghost began: { Self → Option Tables };

    /// What a crash may leave, where it is told: one of these.
    ghost leaves: { Self → Option (List Tables) };

    /// The name that was attached, if any, where it is told.
    ghost attached: { Self → Option (Option (List ℕ)) };

    /// The schema that it is shaped by, if any, now and as the transaction began.
    ghost shaped: { Self → Shaped };

    /// Whether a transaction is begun.
    ghost in_transaction: { Self → Bool };

    /// The faults that it counted, and whether a doubt has come up.
    ghost marks: { Self → Marks };

    /// How many rows have been visited. The count stands still at the greatest `u64`.
    ghost visited: { Self → ℕ };

    /// The loan through which it is used, where it is a lent keeper. No call changes it.
    ghost loan: { Self → Option ℕ };

    /// What it promises besides of attaching a name.
    ghost attaches: { Self → List ℕ → Self → Type 0 };

    /// What it promises besides of how calls end, other than `commit` and `back`.
    ghost ends: { Self → Self → Option KeeperEnd → Type 0 };

    /// What it promises besides of how `commit` ends.
    ghost commits: { Self → Self → Option KeeperEnd → Type 0 };

    /// What it promises besides of `back`.
    ghost backs: { Self → Self → Type 0 };

    /// Attaches the store of a name. It comes first.
    fn attach(&mut self, name: &str) -> Result<(), KeeperEnd>
        requires idle { in_transaction self.old ≡ false }
        ensures attached { OnOk result (MayFallSilent
            (SilenceCause (marks self.old) (marks self.new)) (λ _ n. n ≡ Some name.now)
            (attached self.old) (attached self.new)) }
        ensures promised { OnOk result (attaches self.old name.now self.new) }
        ensures err { OnErr result (MayFallSilent (SilenceCause (marks self.old) (marks self.new))
            Stays (told self.old) (told self.new)
            × MayFallSilent (SilenceCause (marks self.old) (marks self.new)) Stays
            (attached self.old) (attached self.new)) }
        ensures shaped { OnErr result (StaysOrEnds (shaped self.old) (shaped self.new)) }
        ensures lasting { OnOk result (LeavesThese (told self.new) (leaves self.new)) }
        ensures idle { in_transaction self.new ≡ false }
        ensures cause { HasCause (marks self.old) (marks self.new) result }
        ensures visited { visited self.old ≤ visited self.new }
        ensures loan { loan self.new ≡ loan self.old }
        ensures ends { ends self.old self.new (end_of result) };

    /// Makes the tables those of a schema, with the rows that are there. Where another schema is
    /// kept it answers that one and changes nothing.
    fn shape(&mut self, schema: &Schema) -> Result<Option<Schema>, KeeperEnd>
        requires idle { in_transaction self.old ≡ false }
        requires lawful { IsLawfulSchema schema.now }
        ensures tables { IfOk result (λ other. MayFallSilent
            (SilenceCause (marks self.old) (marks self.new)) (Shapes schema.now other)
            (told self.old) (told self.new)) }
        ensures another { IfOk result (λ other. IfSome other (λ s. s ≢ schema.now)) }
        ensures sound { IfOk result (λ other. IfNone other
            (IfSome (told self.new) (λ t. AreStatesOf schema.now.tables t.states))) }
        ensures shaped { IfOk result (λ other. IfNone other (shaped self.new ≡ by schema.now)) }
        ensures unshaped { IfOk result (λ other. IsSome other → shaped self.new ≡ shaped self.old) }
        ensures err { OnErr result (MayFallSilent (SilenceCause (marks self.old) (marks self.new))
            (StaysOrShapes schema.now) (told self.old) (told self.new)) }
        ensures err_shaped { OnErr result (StaysOrEnds (shaped self.old) (shaped self.new)) }
        ensures lasting { OnOk result (LeavesThese (told self.new) (leaves self.new)) }
        ensures attached { MayFallSilent (SilenceCause (marks self.old) (marks self.new)) Stays
            (attached self.old) (attached self.new) }
        ensures idle { in_transaction self.new ≡ false }
        ensures cause { HasCause (marks self.old) (marks self.new) result }
        ensures visited { visited self.old ≤ visited self.new }
        ensures loan { loan self.new ≡ loan self.old }
        ensures ends { ends self.old self.new (end_of result) };

    /// Begins a transaction.
    fn begin(&mut self) -> Result<(), KeeperEnd>
        requires idle { in_transaction self.old ≡ false }
        ensures tables { MayFallSilent (SilenceCause (marks self.old) (marks self.new)) Stays
            (told self.old) (told self.new) }
        ensures ok { OnOk result ((in_transaction self.new ≡ true)
            × (began self.new ≡ told self.new)) }
        ensures err { OnErr result (in_transaction self.new ≡ false) }
        ensures attached { MayFallSilent (SilenceCause (marks self.old) (marks self.new)) Stays
            (attached self.old) (attached self.new) }
        ensures crash { LeavesNoMore (SilenceCause (marks self.old) (marks self.new))
            (leaves self.old) (leaves self.new) }
        ensures shaped { OnOk result (shaped self.new ≡ steady (shaped self.old)) }
        ensures err_shaped { OnErr result (shaped self.new ≡ shaped self.old) }
        ensures cause { HasCause (marks self.old) (marks self.new) result }
        ensures visited { visited self.old ≤ visited self.new }
        ensures loan { loan self.new ≡ loan self.old }
        ensures ends { ends self.old self.new (end_of result) };

    /// Puts a new row, or says which rule it breaks first.
    fn insert(&mut self, table: u16, cells: &Cells) -> Result<Put, KeeperEnd>
        requires begun { in_transaction self.old ≡ true }
        requires fit { IsSomeAnd (slice_get (shapes_of (shaped self.old).now) table)
            (λ t. AreCellsOf t.columns cells.now) }
        ensures put { IfOk result (λ put. MayFallSilent
            (SilenceCause (marks self.old) (marks self.new))
            (Inserts (columns_at (shapes_of (shaped self.old).now) table) table cells.now put)
            (told self.old) (told self.new)) }
        ensures sound { IfOk result (λ put. IsInserted
            (columns_at (shapes_of (shaped self.old).now) table) put) }
        ensures err { OnErr result (MayFallSilent (SilenceCause (marks self.old) (marks self.new))
            Stays (told self.old) (told self.new)) }
        ensures began { MayFallSilent (SilenceCause (marks self.old) (marks self.new)) Stays
            (began self.old) (began self.new) }
        ensures attached { MayFallSilent (SilenceCause (marks self.old) (marks self.new)) Stays
            (attached self.old) (attached self.new) }
        ensures crash { LeavesNoMore (SilenceCause (marks self.old) (marks self.new))
            (leaves self.old) (leaves self.new) }
        ensures shaped { shaped self.new ≡ shaped self.old }
        ensures mode { in_transaction self.new ≡ in_transaction self.old }
        ensures cause { HasCause (marks self.old) (marks self.new) result }
        ensures visited { visited self.old ≤ visited self.new }
        ensures loan { loan self.new ≡ loan self.old }
        ensures ends { ends self.old self.new (end_of result) };

    /// Puts other cells into a row, or says that there is none of this number, or which rule it
    /// would break first.
    fn replace(&mut self, table: u16, id: u32, cells: &Cells) -> Result<Put, KeeperEnd>
        requires begun { in_transaction self.old ≡ true }
        requires fit { IsSomeAnd (slice_get (shapes_of (shaped self.old).now) table)
            (λ t. AreCellsOf t.columns cells.now) }
        ensures put { IfOk result (λ put. MayFallSilent
            (SilenceCause (marks self.old) (marks self.new))
            (Replaces (columns_at (shapes_of (shaped self.old).now) table) table id cells.now put)
            (told self.old) (told self.new)) }
        ensures sound { IfOk result (λ put. IsReplaced
            (columns_at (shapes_of (shaped self.old).now) table) id put) }
        ensures err { OnErr result (MayFallSilent (SilenceCause (marks self.old) (marks self.new))
            Stays (told self.old) (told self.new)) }
        ensures began { MayFallSilent (SilenceCause (marks self.old) (marks self.new)) Stays
            (began self.old) (began self.new) }
        ensures attached { MayFallSilent (SilenceCause (marks self.old) (marks self.new)) Stays
            (attached self.old) (attached self.new) }
        ensures crash { LeavesNoMore (SilenceCause (marks self.old) (marks self.new))
            (leaves self.old) (leaves self.new) }
        ensures shaped { shaped self.new ≡ shaped self.old }
        ensures mode { in_transaction self.new ≡ in_transaction self.old }
        ensures cause { HasCause (marks self.old) (marks self.new) result }
        ensures visited { visited self.old ≤ visited self.new }
        ensures loan { loan self.new ≡ loan self.old }
        ensures ends { ends self.old self.new (end_of result) };

    /// Takes a row out, and says whether it was there.
    fn remove(&mut self, table: u16, id: u32) -> Result<bool, KeeperEnd>
        requires begun { in_transaction self.old ≡ true }
        requires table { IsSome (slice_get (shapes_of (shaped self.old).now) table) }
        ensures was { IfOk result (λ was. MayFallSilent
            (SilenceCause (marks self.old) (marks self.new)) (Removes table id was) (told self.old)
            (told self.new)) }
        ensures err { OnErr result (MayFallSilent (SilenceCause (marks self.old) (marks self.new))
            Stays (told self.old) (told self.new)) }
        ensures began { MayFallSilent (SilenceCause (marks self.old) (marks self.new)) Stays
            (began self.old) (began self.new) }
        ensures attached { MayFallSilent (SilenceCause (marks self.old) (marks self.new)) Stays
            (attached self.old) (attached self.new) }
        ensures crash { LeavesNoMore (SilenceCause (marks self.old) (marks self.new))
            (leaves self.old) (leaves self.new) }
        ensures shaped { shaped self.new ≡ shaped self.old }
        ensures mode { in_transaction self.new ≡ in_transaction self.old }
        ensures cause { HasCause (marks self.old) (marks self.new) result }
        ensures visited { visited self.old ≤ visited self.new }
        ensures loan { loan self.new ≡ loan self.old }
        ensures ends { ends self.old self.new (end_of result) };

    /// Moves the tables to another schema, or names the first of the new tables in which a row
    /// would break a rule, and leaves all. Where it gives no answer the tables and the schema may
    /// be any, and `back` is all that is left to do.
    fn reshape(&mut self, schema: &Schema, moves: &[TableMove]) -> Result<Reshaped, KeeperEnd>
        requires begun { in_transaction self.old ≡ true }
        requires lawful { IsLawfulSchema schema.now }
        requires moves { AreMoves (shapes_of (shaped self.old).now) schema.now.tables moves.now }
        ensures moved { IfOk result (λ r. MayFallSilent
            (SilenceCause (marks self.old) (marks self.new)) (Reshapes schema.now moves.now r)
            (told self.old) (told self.new)) }
        ensures sound { IfOk result (IsReshaped (columns_shaped schema.now.tables)) }
        ensures shaped { IfOk result (λ r. shaped self.new
            ≡ shaped_so schema.now r (shaped self.old)) }
        ensures then { (shaped self.new).then ≡ (shaped self.old).then }
        ensures passes { Passes (around (began self.old) (attached self.old) (leaves self.old)
            (in_transaction self.old) (marks self.old) (visited self.old) (loan self.old))
            (around (began self.new) (attached self.new) (leaves self.new) (in_transaction self.new)
            (marks self.new) (visited self.new) (loan self.new)) }
        ensures cause { HasCause (marks self.old) (marks self.new) result }
        ensures ends { ends self.old self.new (end_of result) };

    /// Ends the transaction with its changes. Where it gives no answer the transaction is ended
    /// too, and the tables are those as it began.
    fn commit(&mut self) -> Result<(), KeeperEnd>
        requires begun { in_transaction self.old ≡ true }
        requires shaped { IsSome (shaped self.old).now }
        ensures ok { OnOk result (MayFallSilent (SilenceCause (marks self.old) (marks self.new))
            Stays (told self.old) (told self.new)) }
        ensures err { OnErr result (MayFallSilent (SilenceCause (marks self.old) (marks self.new))
            Stays (began self.old) (told self.new)) }
        ensures attached { MayFallSilent (SilenceCause (marks self.old) (marks self.new)) Stays
            (attached self.old) (attached self.new) }
        ensures crash { MayLeave (SilenceCause (marks self.old) (marks self.new)) (told self.old)
            (leaves self.old) (leaves self.new) }
        ensures lasting { OnOk result (LeavesThese (told self.new) (leaves self.new)) }
        ensures shaped { OnOk result (shaped self.new ≡ steady (shaped self.old)) }
        ensures err_shaped { OnErr result (shaped self.new ≡ gone_back (shaped self.old)) }
        ensures idle { in_transaction self.new ≡ false }
        ensures cause { HasCause (marks self.old) (marks self.new) result }
        ensures visited { visited self.old ≤ visited self.new }
        ensures loan { loan self.new ≡ loan self.old }
        ensures ends { commits self.old self.new (end_of result) };

    /// Ends the transaction, and the tables are those as it began. Where it fails it counts a
    /// fault.
    fn back(&mut self)
        requires begun { in_transaction self.old ≡ true }
        ensures tables { MayFallSilent (SilenceCause (marks self.old) (marks self.new)) Stays
            (began self.old) (told self.new) }
        ensures attached { MayFallSilent (SilenceCause (marks self.old) (marks self.new)) Stays
            (attached self.old) (attached self.new) }
        ensures crash { LeavesNoMore (SilenceCause (marks self.old) (marks self.new))
            (leaves self.old) (leaves self.new) }
        ensures shaped { shaped self.new ≡ gone_back (shaped self.old) }
        ensures idle { in_transaction self.new ≡ false }
        ensures later { IsLater (marks self.old) (marks self.new) }
        ensures visited { visited self.old ≤ visited self.new }
        ensures loan { loan self.new ≡ loan self.old }
        ensures ends { backs self.old self.new };

    /// The rows that a query gives, or the first error of its test in the query's order: of some
    /// rows that the table can hold, even where none are told.
    fn scan(&mut self, query: &Query) -> Result<RowList, KeeperEnd>
        requires query { IsQuery (shapes_of (shaped self.old).now) query.now }
        ensures rows { IfOk result (λ answer. MayFallSilent
            (SilenceCause (marks self.old) (marks self.new)) (Scans query.now answer)
            (told self.old) (told self.new)) }
        ensures answer { IfOk result (λ answer. IsScanAnswer (shapes_of (shaped self.old).now)
            (rows_told (told self.new)) query.now answer) }
        ensures fit { IfOk result (λ answer. IsSomeAnd
            (slice_get (shapes_of (shaped self.old).now) query.now.table)
            (λ t. All (IsRowOf t) answer.rows)) }
        ensures least { IfOk result (λ answer. VisitsAtLeast (length answer.rows) (visited self.old)
            (visited self.new)) }
        ensures most { VisitsTold (rows_told (told self.new)) query.now (visited self.old)
            (visited self.new) }
        ensures err { OnErr result (MayFallSilent (SilenceCause (marks self.old) (marks self.new))
            Stays (told self.old) (told self.new)) }
        ensures began { MayFallSilent (SilenceCause (marks self.old) (marks self.new)) Stays
            (began self.old) (began self.new) }
        ensures attached { MayFallSilent (SilenceCause (marks self.old) (marks self.new)) Stays
            (attached self.old) (attached self.new) }
        ensures crash { LeavesNoMore (SilenceCause (marks self.old) (marks self.new))
            (leaves self.old) (leaves self.new) }
        ensures shaped { shaped self.new ≡ shaped self.old }
        ensures mode { in_transaction self.new ≡ in_transaction self.old }
        ensures cause { HasCause (marks self.old) (marks self.new) result }
        ensures visited { visited self.old ≤ visited self.new }
        ensures loan { loan self.new ≡ loan self.old }
        ensures ends { ends self.old self.new (end_of result) };

    /// How many rows a query gives, whose test has no errors as constants: of some rows that the
    /// table can hold, even where none are told.
    fn count(&mut self, query: &Query) -> Result<u32, KeeperEnd>
        requires query { IsQuery (shapes_of (shaped self.old).now) query.now }
        requires sound { HasNoFaults query.now.test }
        ensures answer { IfOk result (λ n. IsCountAnswer (shapes_of (shaped self.old).now)
            (rows_told (told self.new)) query.now n) }
        ensures number { IfOk result (λ n. MayFallSilent
            (SilenceCause (marks self.old) (marks self.new)) (CountsQuery query.now n)
            (told self.old) (told self.new)) }
        ensures most { VisitsTold (rows_told (told self.new)) query.now (visited self.old)
            (visited self.new) }
        ensures err { OnErr result (MayFallSilent (SilenceCause (marks self.old) (marks self.new))
            Stays (told self.old) (told self.new)) }
        ensures began { MayFallSilent (SilenceCause (marks self.old) (marks self.new)) Stays
            (began self.old) (began self.new) }
        ensures attached { MayFallSilent (SilenceCause (marks self.old) (marks self.new)) Stays
            (attached self.old) (attached self.new) }
        ensures crash { LeavesNoMore (SilenceCause (marks self.old) (marks self.new))
            (leaves self.old) (leaves self.new) }
        ensures shaped { shaped self.new ≡ shaped self.old }
        ensures mode { in_transaction self.new ≡ in_transaction self.old }
        ensures cause { HasCause (marks self.old) (marks self.new) result }
        ensures visited { visited self.old ≤ visited self.new }
        ensures loan { loan self.new ≡ loan self.old }
        ensures ends { ends self.old self.new (end_of result) };

    /// What the values of a column of numbers that aren't blank come to, in the rows that a query
    /// gives, whose test has no errors as constants: of some rows that the table can hold, even
    /// where none are told.
    fn total(&mut self, query: &Query, column: u16) -> Result<Totals, KeeperEnd>
        requires query { IsQuery (shapes_of (shaped self.old).now) query.now }
        requires sound { HasNoFaults query.now.test }
        requires column { CanTotal (shapes_of (shaped self.old).now) query.now column }
        ensures answer { IfOk result (λ totals. IsTotalAnswer (shapes_of (shaped self.old).now)
            (rows_told (told self.new)) query.now column totals) }
        ensures totals { IfOk result (λ totals. MayFallSilent
            (SilenceCause (marks self.old) (marks self.new)) (TotalsUp query.now column totals)
            (told self.old) (told self.new)) }
        ensures most { VisitsTold (rows_told (told self.new)) query.now (visited self.old)
            (visited self.new) }
        ensures err { OnErr result (MayFallSilent (SilenceCause (marks self.old) (marks self.new))
            Stays (told self.old) (told self.new)) }
        ensures began { MayFallSilent (SilenceCause (marks self.old) (marks self.new)) Stays
            (began self.old) (began self.new) }
        ensures attached { MayFallSilent (SilenceCause (marks self.old) (marks self.new)) Stays
            (attached self.old) (attached self.new) }
        ensures crash { LeavesNoMore (SilenceCause (marks self.old) (marks self.new))
            (leaves self.old) (leaves self.new) }
        ensures shaped { shaped self.new ≡ shaped self.old }
        ensures mode { in_transaction self.new ≡ in_transaction self.old }
        ensures cause { HasCause (marks self.old) (marks self.new) result }
        ensures visited { visited self.old ≤ visited self.new }
        ensures loan { loan self.new ≡ loan self.old }
        ensures ends { ends self.old self.new (end_of result) };

    /// A fact, and no work: where it is shaped, the tables that it tells are of its shape.
    fn fits(&self)
        ensures { IfSome (shaped self.now).now
            (λ s. IfSome (told self.now) (λ t. AreStatesOf s.tables t.states)) };

    /// A law: where it doesn't tell its tables, it doesn't tell those either that it had as the
    /// transaction began, nor what a crash may leave.
    ghost quiet: { (k : Self) → told k ≡ None → (began k ≡ None) × (leaves k ≡ None) };

    /// A law: where it tells its tables, it tells those too.
    ghost heard: { (k : Self) → IsSome (told k) → IsSome (began k) };
}

impl<K: Keeper> Keeper for &mut K {
    ghost told = { λ k. K.told k.now };

    ghost began = { λ k. K.began k.now };

    ghost leaves = { λ k. K.leaves k.now };

    ghost attached = { λ k. K.attached k.now };

    ghost shaped = { λ k. K.shaped k.now };

    ghost in_transaction = { λ k. K.in_transaction k.now };

    ghost marks = { λ k. K.marks k.now };

    ghost visited = { λ k. K.visited k.now };

    ghost loan = { λ k. Some k.ghost_name };

    ghost attaches = { λ k name l. K.attaches k.now name l.now };

    ghost ends = { λ k l end. K.ends k.now l.now end };

    ghost commits = { λ k l end. K.commits k.now l.now end };

    ghost backs = { λ k l. K.backs k.now l.now };

    ghost quiet = { λ k. K.quiet k.now };

    ghost heard = { λ k. K.heard k.now };

    fn attach(&mut self, name: &str) -> Result<(), KeeperEnd> {
        (**self).attach(name)
    }

    fn shape(&mut self, schema: &Schema) -> Result<Option<Schema>, KeeperEnd> {
        (**self).shape(schema)
    }

    fn begin(&mut self) -> Result<(), KeeperEnd> {
        (**self).begin()
    }

    fn insert(&mut self, table: u16, cells: &Cells) -> Result<Put, KeeperEnd> {
        (**self).insert(table, cells)
    }

    fn replace(&mut self, table: u16, id: u32, cells: &Cells) -> Result<Put, KeeperEnd> {
        (**self).replace(table, id, cells)
    }

    fn remove(&mut self, table: u16, id: u32) -> Result<bool, KeeperEnd> {
        (**self).remove(table, id)
    }

    fn reshape(&mut self, schema: &Schema, moves: &[TableMove]) -> Result<Reshaped, KeeperEnd> {
        (**self).reshape(schema, moves)
    }

    fn commit(&mut self) -> Result<(), KeeperEnd> {
        (**self).commit()
    }

    fn back(&mut self) {
        (**self).back()
    }

    fn scan(&mut self, query: &Query) -> Result<RowList, KeeperEnd> {
        (**self).scan(query)
    }

    fn count(&mut self, query: &Query) -> Result<u32, KeeperEnd> {
        (**self).count(query)
    }

    fn total(&mut self, query: &Query, column: u16) -> Result<Totals, KeeperEnd> {
        (**self).total(query, column)
    }

    fn fits(&self) {
        (**self).fits()
    }
}
