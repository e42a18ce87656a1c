//! The cells on which leans who reads sources.
ghost use Rattle.std.specs.Prelude.{◌≡◌, ◌++◌, [], ℕ, IfOk, IfSome, OnOk, Some, true};
ghost use Rattle.std.specs.List.{Contains};
ghost use Rattle.std.specs.Option.{option_to_list};
ghost use Rattle.recalc.specs.Asking.{IsHeardOf, ToldRows};
ghost use Rattle.recalc.specs.AskingOver.{HasRead};
ghost use Rattle.recalc.specs.app_cells.Leaning.{cell_behind as behind};
ghost use Rattle.recalc.specs.app_semantics.Holding.{HoldsFitting};
ghost use Rattle.recalc.specs.app_semantics.Needed.{is_alone};
ghost use Rattle.recalc.specs.app_semantics.Present.{present};
ghost use Rattle.recalc.specs.app_semantics.Sound.{IsSoundApp};
ghost use Rattle.fx_scalar.specs.ScalarFunctions.{IsToday};
ghost use Rattle.fx_core.specs.Reads.{IsAmong, sources_in};
ghost use Rattle.fx_core.specs.declared.sources.Source.{Source as Src};
ghost use Rattle.recalc.specs.Changes.{StaysCleanExcept};
ghost use Rattle.recalc.specs.Kept.{IsInOrder, cached_value};
ghost use Rattle.recalc.specs.Outcomes.{IsRightOver};
ghost use Rattle.session_requests.specs.WorldContext.{IsFreshBehind};
ghost use Rattle.row_keeper.specs.Over.{HasCause};
ghost use Rattle.row_keeper.specs.Shaped.{by};

use crate::app_cells::App;
use fx_base::Memory;
use fx_core::{Core, Source};
use recalc::{Cache, Steps, cell_behind, stands_alone};
use row_keeper::{Keeper, KeeperEnd};
use session_state::Session;
use std::alloc::Global;
use std::sync::ledger::Ledger;

/// Whether the cell of this number has a value by itself.
pub(crate) fn has_value(app: &App, cell: u32) -> bool
    ensures { result ≡ is_alone app.now.cells cell }
{
    match app.cells.get(cell as usize) {
        Some(info) => stands_alone(info),
        None => false,
    }
}

/// The cell on which leans who reads a source, if it has a value by itself.
fn alone_behind(app: &App, source: Source) -> Option<u32>
    ensures there { (d : ℕ) → behind app.now.names source ≡ Some d → is_alone app.now.cells d ≡ true
        → result ≡ Some d }
    ensures alone { IfSome result (λ d. is_alone app.now.cells d ≡ true) }
{
    match cell_behind(&app.names, source) {
        Some(cell) if has_value(app, cell) => Some(cell),
        _ => None,
    }
}

/// Puts a cell behind others, if there is one.
fn put(cells: &mut Vec<u32>, cell: Option<u32>) -> Result<(), Memory>
    ensures { OnOk result (cells.new.items ≡ cells.old.items ++ option_to_list cell) }
{
    match cell {
        Some(cell) => Ok(cells.push(cell)?),
        None => Ok(()),
    }
}

/// The cells that have a value by themselves, and on which leans who reads these sources.
pub(crate) fn cells_behind(alloc: Global, app: &App, reads: &[Source]) -> Result<Vec<u32>, Memory>
    ensures behind { IfOk result (λ v. (x : Src) (d : ℕ) → IsAmong x reads.now
        → behind app.now.names x ≡ Some d → is_alone app.now.cells d ≡ true → Contains v.items d) }
    ensures alone { IfOk result (λ v. (k : ℕ) → Contains v.items k
        → is_alone app.now.cells k ≡ true) }
{
    let mut cells = Vec::new(alloc);
    for source in reads {
        put(&mut cells, alone_behind(app, *source))?;
    }
    Ok(cells)
}

/// Brings the cells up to date on which a formula leans. Then the values that are kept are fresh at
/// those.
#[tactic(auto, using(recalc::proofs::Asked::read_none, recalc::proofs::Leaving::left_same))]
pub(crate) fn refresh_behind<K: Keeper, L: Ledger>(
    alloc: Global,
    app: &App,
    session: &Session,
    cache: &mut Cache,
    keeper: &mut K,
    moment: u64,
    core: &Core,
    steps: &mut Steps<L>,
) -> Result<(), KeeperEnd>
    requires sound { IsSoundApp app.now }
    requires holds { HoldsFitting app.now.names session.now }
    requires shaped { K.shaped keeper.old ≡ by app.now.names.schema }
    requires order { IsInOrder app.now cache.old }
    requires day { IsToday moment cache.old.values.day }
    ensures order { IsInOrder app.now cache.new }
    ensures but { StaysCleanExcept app.now [] cache.old cache.new }
    ensures day { cache.new.values.day ≡ cache.old.values.day }
    ensures right { IsRightOver app.now session.now (K.told keeper.old) moment cache.old
        → IsRightOver app.now session.now (K.told keeper.new) moment cache.new }
    ensures fresh { OnOk result (IsRightOver app.now session.now (K.told keeper.old) moment
        cache.old → (tables : ToldRows) (x : Src) → IsHeardOf (K.told keeper.new) tables
        → IsAmong x (sources_in core.now) →
        IsFreshBehind (present app.now session.now tables moment) (cached_value cache.new) x) }
    ensures read { HasRead K.Keeper keeper.old keeper.new }
    ensures cause { HasCause K.Keeper keeper.old keeper.new result }
{
    let reads = core.reads(alloc)?;
    let cells = cells_behind(alloc, app, reads.as_slice())?;
    if cells.is_empty() {
        return Ok(());
    }
    let roots = cells.as_slice();
    match cache.refresh(alloc, app, session, keeper, moment, roots, steps) {
        Ok(()) => Ok(()),
        Err(end) => Err(end),
    }
}
