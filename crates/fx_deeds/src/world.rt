//! What behaviour formulas act on.
ghost use Rattle.std.specs.Prelude.{◌≡◌, ◌≤◌, ℕ, Option, Some, None, IfOk, OnErr, OnOk, IsErrOf};
ghost use Rattle.std.specs.Prelude.{IsSome, IsSomeAnd, slice_get};
ghost use Rattle.fx_base.specs.Faults.{Rose};
ghost use Rattle.fx_base.specs.Silence.{MayFallSilent, IsLater, SilenceCause};
ghost use Rattle.fx_base.specs.Telling.{Stays};
ghost use Rattle.fx_types.specs.Values.{Data};
ghost use Rattle.fx_env.specs.Telling.{EnvState, values_told};
ghost use Rattle.fx_core.specs.declared.names.Names.{Names as AppNames};
ghost use Rattle.fx_core.specs.declared.sources.Source.{Source as Origin};
ghost use Rattle.fx_core.specs.declared.sources.Source.TheVariants as source;
ghost use Rattle.fx_core.specs.Lawful.{IsLawfulSchema};
ghost use Rattle.fx_core.specs.Reads.{sources_in};
ghost use Rattle.fx_core.specs.SourceTypes.{sources};
ghost use Rattle.row_keeper.specs.Changes.{IsInserted, IsReplaced};
ghost use Rattle.row_keeper.specs.Tables.{columns_at, rows_of_tables};
ghost use Rattle.row_queries.specs.TableRows.{AreCellsOf};
ghost use Rattle.session_state.specs.Changes.{FitsChange};
ghost use Rattle.session_state.specs.Sessions.{stored_value};
ghost use Rattle.fx_deeds.specs.Changed.{IsChanged, IsRowChanged, IsRowMade, IsRowRemoved};
ghost use Rattle.fx_deeds.specs.State.{AreReady, WorldState};

use fx_core::{Core, Names};
use fx_env::{Env, Steps, Stop};
use row_keeper::Put;
use row_queries::Cells;
use session_state::Change;
use std::sync::ledger::Ledger;

/// What behaviour formulas act on: an environment whose session and tables can be changed. Each
/// call makes one change or none.
///
/// A world may tell its state: what the app is and the moment, the tables, the session, and the
/// sources that were written. It falls silent, and stays silent, only as an environment does. After
/// a call that gave no answer the state is as it was. No call changes the names of the app, the
/// types of its sources, its schema or its limit.
pub trait World: Env {
    /// What a world tells besides tables and session, which no change touches: the formulas of
    /// cells and the moment.
    ghost App: { Type 0 } = { Unit {0} };

    /// What each source may give in a state.
    ghost gives: { WorldState Self.App → Origin → Data → Type 0 };

    /// The names of the app.
    ghost names: { Self → AppNames };

    /// The state, where it is told.
    ghost state: { Self → Option (WorldState Self.App) };

    /// The names of the app.
    fn names(&self) -> &Names
        ensures { result.now ≡ names self.now };

    /// Makes ready what a formula reads: afterwards the value that is told of each of its sources
    /// is one that the source gives in the state. Nothing changes. `Keeper` only where a fault was
    /// counted.
    fn ready<L: Ledger>(&mut self, core: &Core, steps: &mut Steps<L>) -> Result<(), Stop>
        ensures fixed { Self.fixed self.new ≡ Self.fixed self.old }
        ensures named { names self.new ≡ names self.old }
        ensures stays { MayFallSilent (SilenceCause (Self.marks self.old) (Self.marks self.new))
            Stays (state self.old) (state self.new) }
        ensures ready { OnOk result (AreReady (Self.fixed self.old).types gives
            (sources_in core.now) (state self.new) (values_told (Self.told self.new))) }
        ensures counts { IsLater (Self.marks self.old) (Self.marks self.new)
            × (Self.visited self.old ≤ Self.visited self.new) }
        ensures keeper { IsErrOf result Stop.Keeper
            → Rose (Self.marks self.old).faults (Self.marks self.new).faults };

    /// Makes a change of the session, and says whether it was made. `Keeper` only where a fault was
    /// counted.
    fn change(&mut self, change: Change) -> Result<bool, Stop>
        requires { FitsChange (names self.old) change }
        ensures fixed { Self.fixed self.new ≡ Self.fixed self.old }
        ensures named { names self.new ≡ names self.old }
        ensures done { IfOk result (λ done. MayFallSilent
            (SilenceCause (Self.marks self.old) (Self.marks self.new)) (IsChanged change done)
            (state self.old) (state self.new)) }
        ensures stops { OnErr result (MayFallSilent
            (SilenceCause (Self.marks self.old) (Self.marks self.new)) Stays (state self.old)
            (state self.new)) }
        ensures counts { IsLater (Self.marks self.old) (Self.marks self.new)
            × (Self.visited self.old ≤ Self.visited self.new) }
        ensures keeper { IsErrOf result Stop.Keeper
            → Rose (Self.marks self.old).faults (Self.marks self.new).faults };

    /// Puts a new row into a table, or says which rule it breaks first. `Keeper` only where a fault
    /// was counted.
    fn insert(&mut self, table: u16, cells: &Cells) -> Result<Put, Stop>
        requires { IsSomeAnd (slice_get (Self.fixed self.old).schema.tables table)
            (λ t. AreCellsOf t.columns cells.now) }
        ensures fixed { Self.fixed self.new ≡ Self.fixed self.old }
        ensures named { names self.new ≡ names self.old }
        ensures put { IfOk result (λ put. MayFallSilent
            (SilenceCause (Self.marks self.old) (Self.marks self.new))
            (IsRowMade (columns_at (Self.fixed self.old).schema.tables table) table cells.now put)
            (state self.old) (state self.new)) }
        ensures sound { IfOk result (λ put. IsInserted
            (columns_at (Self.fixed self.old).schema.tables table) put) }
        ensures stops { OnErr result (MayFallSilent
            (SilenceCause (Self.marks self.old) (Self.marks self.new)) Stays (state self.old)
            (state self.new)) }
        ensures counts { IsLater (Self.marks self.old) (Self.marks self.new)
            × (Self.visited self.old ≤ Self.visited self.new) }
        ensures keeper { IsErrOf result Stop.Keeper
            → Rose (Self.marks self.old).faults (Self.marks self.new).faults };

    /// Puts other cells into a row of a table, or says that there is none of this number, or which
    /// rule it would break first. `Keeper` only where a fault was counted.
    fn replace(&mut self, table: u16, id: u32, cells: &Cells) -> Result<Put, Stop>
        requires { IsSomeAnd (slice_get (Self.fixed self.old).schema.tables table)
            (λ t. AreCellsOf t.columns cells.now) }
        ensures fixed { Self.fixed self.new ≡ Self.fixed self.old }
        ensures named { names self.new ≡ names self.old }
        ensures put { IfOk result (λ put. MayFallSilent
            (SilenceCause (Self.marks self.old) (Self.marks self.new))
            (IsRowChanged (columns_at (Self.fixed self.old).schema.tables table) table id cells.now
            put) (state self.old) (state self.new)) }
        ensures sound { IfOk result (λ put. IsReplaced
            (columns_at (Self.fixed self.old).schema.tables table) id put) }
        ensures stops { OnErr result (MayFallSilent
            (SilenceCause (Self.marks self.old) (Self.marks self.new)) Stays (state self.old)
            (state self.new)) }
        ensures counts { IsLater (Self.marks self.old) (Self.marks self.new)
            × (Self.visited self.old ≤ Self.visited self.new) }
        ensures keeper { IsErrOf result Stop.Keeper
            → Rose (Self.marks self.old).faults (Self.marks self.new).faults };

    /// Takes a row out of a table, and says whether it was there. `Keeper` only where a fault was
    /// counted.
    fn remove(&mut self, table: u16, id: u32) -> Result<bool, Stop>
        requires { IsSome (slice_get (Self.fixed self.old).schema.tables table) }
        ensures fixed { Self.fixed self.new ≡ Self.fixed self.old }
        ensures named { names self.new ≡ names self.old }
        ensures was { IfOk result (λ was. MayFallSilent
            (SilenceCause (Self.marks self.old) (Self.marks self.new)) (IsRowRemoved table id was)
            (state self.old) (state self.new)) }
        ensures stops { OnErr result (MayFallSilent
            (SilenceCause (Self.marks self.old) (Self.marks self.new)) Stays (state self.old)
            (state self.new)) }
        ensures counts { IsLater (Self.marks self.old) (Self.marks self.new)
            × (Self.visited self.old ≤ Self.visited self.new) }
        ensures keeper { IsErrOf result Stop.Keeper
            → Rose (Self.marks self.old).faults (Self.marks self.new).faults };

    /// A law: worlds that tell the same as environments have the same state.
    ghost keeps: { (a b : Self) → Self.told a ≡ Self.told b → state a ≡ state b };

    /// A law: where it tells nothing as an environment, its state isn't told either.
    ghost lost: { (w : Self) → Self.told w ≡ None → state w ≡ None };

    /// A law: of a collection the value is told that the session holds.
    ghost collections: { (w : Self) (s : WorldState Self.App) (e : EnvState Self.Beside)
        → state w ≡ Some s → Self.told w ≡ Some e →
        (k : ℕ) → e.values (source.Gathered k) ≡ stored_value s.session (source.Gathered k) };

    /// A law: the rows that are told are those of the state.
    ghost rows: { (w : Self) (s : WorldState Self.App) (e : EnvState Self.Beside) → state w ≡ Some s
        → Self.told w ≡ Some e → e.tables ≡ rows_of_tables s.tables.states };

    /// A law: sources have the types that the names give them.
    ghost typed: { (w : Self) (x : Origin) → (Self.fixed w).types x ≡ sources (names w) x };

    /// A law: the tables are those of the names.
    ghost shaped: { (w : Self) → (Self.fixed w).schema ≡ (names w).schema };

    /// A law: they are lawful.
    ghost lawful: { (w : Self) → IsLawfulSchema (Self.fixed w).schema };
}
