//! What `view` prints: each named formula of an app with its value.
ghost use Rattle.std.specs.Prelude.{◌≡◌, ◌++◌, [], IfOk, OnOk, flat_map, map, string_bytes};
ghost use Rattle.office.specs.app_semantics.Sound.{IsSoundApp};
ghost use Rattle.session_state.specs.Changes.{HoldsTables};
ghost use Rattle.office.specs.NamedReply.{reply_row};
ghost use Rattle.fx_cli.specs.Plain.{IsAppText, value_line};

use app_cells::App;
use fx_base::Memory;
use fx_base::plan::FaultPlan;
use office::{Steps, named_list};
use row_keeper::{KeeperEnd, MemoryKeeper};
use session_state::Session;
use std::alloc::Global;
use std::sync::ledger::Ledger;
use view_text::{Named, plain};

/// A line for each named formula, in order: its name and its value at a moment, in seconds since
/// 1970-01-01 UTC. The app has no tables, so no keeper is called: the one that formulas are
/// evaluated over is made here, and keeps nothing.
#[tactic(auto, using(crate::proofs::ViewedSession::opened_holds))]
pub fn view_text<L: Ledger>(
    alloc: Global,
    app: &App,
    moment: u64,
    steps: &mut Steps<L>,
) -> Result<String, Memory>
    requires sound { IsSoundApp app.now }
    requires tables { HoldsTables app.now.names }
    requires bare { app.now.names.schema.tables ≡ [] }
    ensures { IfOk result (λ text. IsAppText moment app.now (string_bytes text)) }
{
    let session = Session::new(alloc, &app.names)?;
    let mut keeper = MemoryKeeper::new(alloc, FaultPlan::new(Vec::new(alloc)));
    match named_list(alloc, app, &session, &mut keeper, moment, steps) {
        Ok(values) => values_text(alloc, &values),
        Err(KeeperEnd::Memory) => Err(Memory),
        Err(KeeperEnd::Failed) => unreachable!(),
    }
}

/// The lines of values.
fn values_text(alloc: Global, values: &[Named]) -> Result<String, Memory>
    ensures { IfOk result (λ text. string_bytes text
        ≡ flat_map value_line (map reply_row values.now)) }
{
    let mut text = String::new(alloc);
    for named in values {
        push_line(alloc, &mut text, named)?;
    }
    Ok(text)
}

/// One line more.
fn push_line(alloc: Global, text: &mut String, named: &Named) -> Result<(), Memory>
    ensures { OnOk result (string_bytes text.new
        ≡ string_bytes text.old ++ value_line (reply_row named.now)) }
{
    let name = named.name.as_str();
    let value = plain(alloc, &named.value)?;
    text.push_str(&format!(in alloc; "{name} = {value}\n")?)?;
    Ok(())
}
