// The changes of a transaction, in one transaction of the database.
ghost use Rattle.std.specs.Prelude.{◌≡◌, ◌≢◌, false, IfOk, OnErr, OnOk};
ghost use Rattle.sqlite.specs.Held.{state};
ghost use Rattle.row_plan.specs.Shown.{all_shown};
ghost use Rattle.row_plan.specs.Written.{all_statements};
ghost use Rattle.sql_statements.specs.declared.endings.Ending.TheVariants.{Done, Failed as Broken};
ghost use Rattle.store_model.specs.Ends.{call_failed};
ghost use Rattle.store_writing.specs.Writes.{WritesChanges};

use fx_core::Schema;
use row_changes::TableChanges;
use row_keeper::KeeperEnd;
use row_plan::{PlanEnd, Step, plan};
use sql_playing::settle;
use sql_statements::Ending;
use sqlite::{Alter, Connection};
use std::alloc::Global;

/// The statements that write the changes of the tables of a schema.
fn planned<'a>(
    alloc: Global,
    schema: &Schema,
    changes: &'a [TableChanges],
) -> Result<Vec<Step<'a>>, KeeperEnd>
    ensures { IfOk result (λ steps. all_shown steps.items
        ≡ all_statements 0 schema.now.tables changes.now) }
{
    match plan(alloc, schema.tables.as_slice(), changes) {
        Ok(steps) => Ok(steps),
        Err(PlanEnd::Memory) => Err(KeeperEnd::Memory),
        Err(PlanEnd::NoKey) => Err(KeeperEnd::Failed),
    }
}

/// How the end of a transaction of the database is told.
fn told(ending: Ending) -> Result<(), KeeperEnd>
    ensures ok { OnOk result (ending ≡ Done) }
    ensures err { OnErr result (ending ≢ Done) }
    ensures failed { call_failed result ≡ false → ending ≢ Broken }
{
    match ending {
        Ending::Done => Ok(()),
        Ending::Memory => Err(KeeperEnd::Memory),
        Ending::Failed => Err(KeeperEnd::Failed),
    }
}

/// Writes what a transaction has made of the tables of a schema: all of it or nothing, over a crash
/// too.
pub fn write_changes<S: Alter>(
    alloc: Global,
    conn: &mut Connection<S>,
    schema: &Schema,
    changes: &[TableChanges],
) -> Result<(), KeeperEnd>
    ensures { WritesChanges (state S.Store conn.old) (state S.Store conn.new) schema.now changes.now
        result }
{
    let steps = planned(alloc, schema, changes)?;
    let ending = settle(conn, &steps);
    told(ending)
}
