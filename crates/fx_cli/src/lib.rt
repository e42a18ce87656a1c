//! The top of the program: what its words do, and how it ends.
#![tactic(auto)]

ghost use Rattle.std.specs.Prelude.{◌≡◌, ◌≤◌, None, false};
ghost use Rattle.fx_cli.specs.Complete.{Completes};
ghost use Rattle.fx_cli.specs.Outside.{outside, sight};
ghost use Rattle.fx_cli.specs.Report.{IsSaid, Wants};
ghost use Rattle.fx_cli.specs.Run.{Run, ServesApp};
ghost use Rattle.fx_cli.specs.Words.{sample, wanted};
ghost use Rattle.fx_cli.specs.declared.words.Form.TheVariants.{Serve};

pub mod files;
pub mod laws;
pub mod memory;
mod opening;
pub mod replay;
pub mod report;
mod sampling;
pub mod sink;
pub mod system;
pub mod view;
pub mod words;

use crate::report::{Report, carry_out};
use crate::sampling::run_sample;
use crate::sink::write_all;
use crate::words::sample_of;
use app_wire::clock::Clock;
use app_wire::doors::Doors;
pub use files::{FileEnd, Files};
use fx_base::Failed;
pub use memory::{MemoryFiles, MemorySink};
pub use office::Steps;
use office::{one_app, one_verdict};
use row_keeper::Keeper;
pub use sink::Sink;
use std::alloc::Global;
use std::sync::ledger::Ledger;
pub use system::{RealFiles, StdSink};

/// How a run ends: 0 done, 1 the file breaks a rule, 2 the words are no form, 3 want of memory, 4 a
/// file that could not be read, 5 a keeper that could not be opened, 6 a fault of the doors, 7
/// output that could not be written, 8 a keeper that keeps another schema, 9 the most requests, or
/// the most conversations of a replay.
#[derive(Clone, Copy, Debug, PartialEq, Eq)]
pub struct Status(pub u8);

/// All that the program does. `words` are those after its name. What it says is made whole before
/// any of it is written, and nothing else is written to `out`. The keeper is opened for an app that
/// is served, and for a sample load, and `view` and `check` leave it alone.
pub fn run<D: Doors, K: Keeper, F: Files, O: Sink, C: Clock, L: Ledger>(
    alloc: Global,
    words: &[String],
    doors: &mut D,
    keeper: &mut K,
    files: &mut F,
    out: &mut O,
    clock: &mut C,
    steps: &mut Steps<L>,
) -> Status
    requires idle { K.in_transaction keeper.old ≡ false }
    // 0 for words that serve an app: the office theorem.
    ensures headline { result.0 ≡ 0 → Wants Serve (wanted words.now)
        → ServesApp (sight D.Doors K.Keeper F.Files O.Sink C.Clock) words.now
        (outside doors.old keeper.old files.old out.old clock.old)
        (outside doors.new keeper.new files.new out.new clock.new) }
    // Every run: the report that it came to and what it left alone then, and its status by its
    // causes.
    ensures run { Run (sight D.Doors K.Keeper F.Files O.Sink C.Clock) words.now
        (outside doors.old keeper.old files.old out.old clock.old)
        (outside doors.new keeper.new files.new out.new clock.new) result.0 }
    // Where nothing fails, what is asked for is done, or memory runs out.
    ensures complete { Completes (sight D.Doors K.Keeper F.Files O.Sink C.Clock) words.now
        (outside doors.old keeper.old files.old out.old clock.old)
        (outside doors.new keeper.new files.new out.new clock.new) result.0 }
    ensures idle { K.in_transaction keeper.new ≡ false }
{
    match sample_of(words) {
        Some(n) => run_sample(alloc, n, keeper, out, steps),
        None => run_words(alloc, words, doors, keeper, files, out, clock, steps),
    }
}

/// A run whose words ask for no sample load.
fn run_words<D: Doors, K: Keeper, F: Files, O: Sink, C: Clock, L: Ledger>(
    alloc: Global,
    words: &[String],
    doors: &mut D,
    keeper: &mut K,
    files: &mut F,
    out: &mut O,
    clock: &mut C,
    steps: &mut Steps<L>,
) -> Status
    requires idle { K.in_transaction keeper.old ≡ false }
    requires files { sample words.now ≡ None }
    ensures headline { result.0 ≡ 0 → Wants Serve (wanted words.now)
        → ServesApp (sight D.Doors K.Keeper F.Files O.Sink C.Clock) words.now
        (outside doors.old keeper.old files.old out.old clock.old)
        (outside doors.new keeper.new files.new out.new clock.new) }
    ensures run { Run (sight D.Doors K.Keeper F.Files O.Sink C.Clock) words.now
        (outside doors.old keeper.old files.old out.old clock.old)
        (outside doors.new keeper.new files.new out.new clock.new) result.0 }
    ensures idle { K.in_transaction keeper.new ≡ false }
{
    // The laws are called for what they say: no file both is an app and is refused.
    one_verdict();
    one_app();
    let report = carry_out(alloc, words, doors, keeper, files, clock, steps);
    say(&report, out)
}

/// Writes what the report says, and ends with its status, or with 7 where the sink fails.
pub fn say<O: Sink>(report: &Report, out: &mut O) -> Status
    ensures said { IsSaid O.Sink out.old out.new report.now result.0 }
    ensures later { O.faults out.old ≤ O.faults out.new }
{
    match write_all(out, report.text()) {
        Ok(()) => Status(report.status()),
        Err(Failed) => Status(7),
    }
}
