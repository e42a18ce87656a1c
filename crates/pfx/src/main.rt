//! `pfx`, a server for small office apps written in Power Fx.
#![tactic(auto)]

ghost use Rattle.std.specs.Prelude.{◌≡◌, ◌<◌, false};

use app_wire::clock::SystemClock;
use app_wire::doors::Doors;
use app_wire::stream::StreamDoors;
use fx_base::plan::FaultPlan;
use fx_cli::report::Report;
use fx_cli::system::{RealFiles, StdSink};
use fx_cli::words::{Form, form_of, service_of};
use fx_cli::{Sink, Status, Steps, run, say};
use row_keeper::{Keeper, MemoryKeeper};
use sql_keeper::SqlKeeper;
use std::env;
use std::io::{self, ErrorKind};
use std::marker::Brand;
use std::process::ExitCode;
use std::rt::Env;
use std::sync::ledger::{Blank, Ledger};
use tcp_doors::TcpDoors;

fn main(rt: HostRuntime) -> ExitCode {
    let status = match words(&rt) {
        Ok(words) => run_words::<Brand>(&rt, &words, Blank::new(1)),
        Err(error) if error.kind() == ErrorKind::OutOfMemory => say_alone(
            &rt,
            &Report::OutOfMemory,
        ),
        Err(_) => say_alone(&rt, &Report::Usage),
    };
    ExitCode::from(status.0)
}

/// The words after the program's name. It is an error where one of them is no text.
fn words(rt: &(impl Env + AllocGlobal)) -> io::Result<Vec<String>> {
    Ok(env::args(rt)?.skip(1).collect(rt.alloc())?)
}

/// A run over the system's files and its clock. On a port it serves rows in SQLite, and says what
/// it has to say on standard error. A replay answers on standard output, with rows in memory, and
/// speaks on standard error too.
fn run_words<L: Ledger>(rt: &HostRuntime, words: &[String], blank: Blank) -> Status
    requires name { blank.name ≡ L.name }
    requires parts { blank.parts ≡ L.parts }
    requires some { 0 < L.parts }
{
    let steps = Steps::<L>::new(blank);
    let mut memory = MemoryKeeper::new(rt.alloc(), FaultPlan::new(Vec::new(rt.alloc())));
    let mut stream = StreamDoors::new(rt.reader(), rt.stdout());
    match form_of(words) {
        Some((Form::Serve, _)) if service_of(words).port.is_some() => run_over(
            rt,
            words,
            &mut TcpDoors::new(*rt),
            &mut SqlKeeper::new(*rt),
            &mut StdSink::new(rt.stderr()),
            steps,
        ),
        Some((Form::Serve, _)) => run_over(
            rt,
            words,
            &mut stream,
            &mut memory,
            &mut StdSink::new(rt.stderr()),
            steps,
        ),
        _ => run_over(
            rt,
            words,
            &mut stream,
            &mut memory,
            &mut StdSink::new(rt.stdout()),
            steps,
        ),
    }
}

/// A run over these doors, this keeper and this output.
fn run_over<D: Doors, K: Keeper, O: Sink, L: Ledger>(
    rt: &HostRuntime,
    words: &[String],
    doors: &mut D,
    keeper: &mut K,
    out: &mut O,
    mut steps: Steps<L>,
) -> Status
    requires { K.in_transaction keeper.old ≡ false }
{
    run(
        rt.alloc(),
        words,
        doors,
        keeper,
        &mut RealFiles::new(rt),
        out,
        &mut SystemClock::new(rt),
        &mut steps,
    )
}

/// Says this alone, on standard output.
fn say_alone(rt: &HostRuntime, report: &Report) -> Status {
    say(report, &mut StdSink::new(rt.stdout()))
}
