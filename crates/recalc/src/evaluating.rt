// The value of one formula.
ghost use Rattle.std.specs.Prelude.{◌≡◌, ◌+◌, ℕ, false, true, IfOk, IsErrOf, Some, map, option_map};
ghost use Rattle.app_semantics.specs.Fresh.{IsValueOf, reads_table as reads_any};
ghost use Rattle.app_semantics.specs.Holding.{HoldsFitting};
ghost use Rattle.app_semantics.specs.Present.{present};
ghost use Rattle.app_semantics.specs.Sound.{IsSoundApp, IsSoundCell, IsLimitedTree};
ghost use Rattle.fx_types.specs.TypeView.{shape};
ghost use Rattle.fx_types.specs.ValueView.{view};
ghost use Rattle.fx_scalar.specs.ScalarFunctions.{IsToday};
ghost use Rattle.fx_semantics.specs.Sound.{IsItemFit};
ghost use Rattle.fx_typing.specs.Typing.{item_context};
ghost use Rattle.fx_value.specs.Fits.{fits_in};
ghost use Rattle.recalc.specs.Asking.{IsHeardOf, ToldRows};
ghost use Rattle.recalc.specs.AskingOver.{HasRead};
ghost use Rattle.recalc.specs.Reading.{cell_value};
ghost use Rattle.recalc.specs.Stops.{end_of_stop as end_by};
ghost use Rattle.fx_eval.specs.Visits.{AtMost};
ghost use Rattle.recalc.specs.Values.{CellsFit};
ghost use Rattle.recalc.specs.Visits.{FormulaVisits, WhereTold};
ghost use Rattle.row_keeper.specs.Over.{HasCause};
ghost use Rattle.row_keeper.specs.declared.keeper.KeeperEnd.TheVariants.{Failed};
ghost use Rattle.row_keeper.specs.Shaped.{by};

use crate::app_cells::{App, CellInfo};
use crate::reading::Reading;
use crate::row_reading::RowReading;
use fx_base::{InOrder, Memory};
use fx_core::{Schema, Source};
use fx_env::{Steps, Stop};
use fx_eval::{Scope, eval};
use fx_types::values::Value;
use row_keeper::{Keeper, KeeperEnd};
use session_state::Session;
use std::alloc::Global;
use std::sync::ledger::Ledger;

/// Whether a table is among these sources.
pub(crate) fn reads_table(reads: &[Source]) -> bool
    ensures { result ≡ reads_any reads.now }
{
    reads
        .iter()
        .any(|source| matches!(source, Source::Table(_)))
}

/// Why a keeper's rows gave no value.
pub fn end_of(stop: Stop) -> KeeperEnd
    ensures { result ≡ end_by stop }
{
    match stop {
        Stop::Memory => KeeperEnd::Memory,
        Stop::Keeper => KeeperEnd::Failed,
    }
}

/// The value of a formula that doesn't act, over the values of cells, a session, a day and the rows
/// of tables, and over the item of a gallery where it sees one. The keeper is asked where the
/// formula reads a table, and else left alone. `Failed` only where it counted a fault.
#[tactic(auto, using(crate::proofs::Asked::read_none, crate::proofs::Asked::read_on))]
pub(crate) fn formula_value<K: Keeper, L: Ledger>(
    alloc: Global,
    app: &App,
    session: &Session,
    keeper: &mut K,
    values: &[Value],
    day: &Value,
    info: &CellInfo,
    item: Option<Value>,
    steps: &mut Steps<L>,
) -> Result<Value, KeeperEnd>
    requires sound { IsSoundApp app.now }
    requires cell { IsSoundCell app.now.names info.now }
    requires taken { IsLimitedTree app.now.names.schema.tables app.now.limit info.now }
    requires quiet { info.now.cell.acts ≡ false }
    requires holds { HoldsFitting app.now.names session.now }
    requires fits { CellsFit app.now (cell_value (map view values.now)) }
    requires item { IsItemFit (option_map view item) (item_context app.now.names info.now.cell.item) }
    requires day { (moment : ℕ) × IsToday moment (view day.now) }
    requires shaped { reads_any info.now.reads ≡ true
        → K.shaped keeper.old ≡ by app.now.names.schema }
    ensures value { IfOk result (λ v. (moment : ℕ) (tables : ToldRows)
        → IsToday moment (view day.now) → IsHeardOf (K.told keeper.new) tables →
        IsValueOf (present app.now session.now tables moment) (cell_value (map view values.now))
        (option_map view item) info.now (view v)) }
    ensures fits { IfOk result (λ v. fits_in (view v) (shape info.now.ty) ≡ true) }
    ensures steps { IfOk result (λ v. steps.new ≡ steps.old + 1) }
    ensures visits { IfOk result (λ _. (moment : ℕ) → IsToday moment (view day.now)
        → WhereTold (K.told keeper.new) (λ rows.
        AtMost (FormulaVisits app.now session.now rows moment (cell_value (map view values.now))
        (option_map view item) info.now) (K.visited keeper.old) (K.visited keeper.new))) }
    ensures read { HasRead K.Keeper keeper.old keeper.new }
    ensures cause { HasCause K.Keeper keeper.old keeper.new result }
    ensures alone { reads_any info.now.reads ≡ false → keeper.new ≡ keeper.old }
    ensures reached { IsErrOf result Failed → reads_any info.now.reads ≡ true }
{
    if reads_table(info.reads.as_slice()) {
        value_over_rows(alloc, app, session, keeper, values, day, info, item, steps)
    } else {
        Ok(value_alone(alloc, app, session, values, day, info, item, steps)?)
    }
}

/// The same of a formula that reads no table.
fn value_alone<L: Ledger>(
    alloc: Global,
    app: &App,
    session: &Session,
    values: &[Value],
    day: &Value,
    info: &CellInfo,
    item: Option<Value>,
    steps: &mut Steps<L>,
) -> Result<Value, Memory>
    requires sound { IsSoundApp app.now }
    requires cell { IsSoundCell app.now.names info.now }
    requires taken { IsLimitedTree app.now.names.schema.tables app.now.limit info.now }
    requires quiet { info.now.cell.acts ≡ false }
    requires no_tables { reads_any info.now.reads ≡ false }
    requires holds { HoldsFitting app.now.names session.now }
    requires fits { CellsFit app.now (cell_value (map view values.now)) }
    requires item { IsItemFit (option_map view item) (item_context app.now.names info.now.cell.item) }
    requires day { (moment : ℕ) × IsToday moment (view day.now) }
    ensures value { IfOk result (λ v. (moment : ℕ) (tables : ToldRows)
        → IsToday moment (view day.now) →
        IsValueOf (present app.now session.now tables moment) (cell_value (map view values.now))
        (option_map view item) info.now (view v)) }
    ensures fits { IfOk result (λ v. fits_in (view v) (shape info.now.ty) ≡ true) }
    ensures steps { IfOk result (λ v. steps.new ≡ steps.old + 1) }
{
    let schema = Schema {
        tables: InOrder::new(alloc),
    };
    let mut env = Reading {
        alloc,
        names: &app.names,
        session,
        values,
        today: day,
        reads: info.reads.as_slice(),
        schema: &schema,
        limit: app.limit,
    };
    let mut scope = Scope {
        rows: Vec::new(alloc),
        item,
        caught: None,
    };
    match eval(alloc, &mut env, &mut scope, &info.taken, steps) {
        Ok(value) => Ok(value),
        Err(Stop::Memory) => Err(Memory),
        // Only over an environment that counts faults, and this one counts none.
        Err(Stop::Keeper) => unreachable!(),
    }
}

/// The same of a formula that reads tables.
fn value_over_rows<'a, K: Keeper, L: Ledger>(
    alloc: Global,
    app: &'a App,
    session: &'a Session,
    keeper: &'a mut K,
    values: &'a [Value],
    day: &'a Value,
    info: &'a CellInfo,
    item: Option<Value>,
    steps: &mut Steps<L>,
) -> Result<Value, KeeperEnd>
    requires sound { IsSoundApp app.now }
    requires cell { IsSoundCell app.now.names info.now }
    requires taken { IsLimitedTree app.now.names.schema.tables app.now.limit info.now }
    requires quiet { info.now.cell.acts ≡ false }
    requires tables { reads_any info.now.reads ≡ true }
    requires holds { HoldsFitting app.now.names session.now }
    requires fits { CellsFit app.now (cell_value (map view values.now)) }
    requires item { IsItemFit (option_map view item) (item_context app.now.names info.now.cell.item) }
    requires day { (moment : ℕ) × IsToday moment (view day.now) }
    requires shaped { K.shaped keeper.old ≡ by app.now.names.schema }
    ensures value { IfOk result (λ v. (moment : ℕ) (tables : ToldRows)
        → IsToday moment (view day.now) → IsHeardOf (K.told keeper.new) tables →
        IsValueOf (present app.now session.now tables moment) (cell_value (map view values.now))
        (option_map view item) info.now (view v)) }
    ensures fits { IfOk result (λ v. fits_in (view v) (shape info.now.ty) ≡ true) }
    ensures steps { IfOk result (λ v. steps.new ≡ steps.old + 1) }
    ensures visits { IfOk result (λ _. (moment : ℕ) → IsToday moment (view day.now)
        → WhereTold (K.told keeper.new) (λ rows.
        AtMost (FormulaVisits app.now session.now rows moment (cell_value (map view values.now))
        (option_map view item) info.now) (K.visited keeper.old) (K.visited keeper.new))) }
    ensures read { HasRead K.Keeper keeper.old keeper.new }
    ensures cause { HasCause K.Keeper keeper.old keeper.new result }
{
    let mut env = RowReading {
        alloc,
        names: &app.names,
        session,
        values,
        today: day,
        reads: info.reads.as_slice(),
        keeper,
        limit: app.limit,
    };
    let mut scope = Scope {
        rows: Vec::new(alloc),
        item,
        caught: None,
    };
    match eval(alloc, &mut env, &mut scope, &info.taken, steps) {
        Ok(value) => Ok(value),
        Err(stop) => Err(end_of(stop)),
    }
}
