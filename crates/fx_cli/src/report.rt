//! What a run says before it ends.
ghost use Rattle.std.specs.Prelude.{◌≡◌, ◌≤◌, [], Some, false, string_bytes};
ghost use Rattle.fx_base.specs.Faults.{Rose};
ghost use Rattle.fx_base.specs.Silence.{IsLater};
ghost use Rattle.office.specs.app_loader.Edits.{IsLoaded};
ghost use Rattle.office.specs.app_semantics.Sound.{IsSoundApp};
ghost use Rattle.office.specs.session_requests.Opening.{CanOpen};
ghost use Rattle.office.specs.State.{OfficeState, schema_of, started};
ghost use Rattle.row_requests.specs.Sound.{AreSound};
ghost use Rattle.session_state.specs.Changes.{HoldsTables};
ghost use Rattle.fx_cli.specs.Conversations.{Serves, service_at};
ghost use Rattle.fx_cli.specs.Outside.{work_of, work_sight};
ghost use Rattle.fx_cli.specs.Plain.{IsAppText, IsShownNow};
ghost use Rattle.fx_cli.specs.Report as by_parts;
ghost use Rattle.fx_cli.specs.Report.{EndsOver, IsChecking, NothingBegun, IsReadOnceAtMost};
ghost use Rattle.fx_cli.specs.Report.{IsRefusal, IsShowing, IsTimeless, IsUnread, LeavesKeeper};
ghost use Rattle.fx_cli.specs.Report.{fault_text, keeper_text, limit_text, memory_text, no_service};
ghost use Rattle.fx_cli.specs.Report.{no_show, schema_text, status_of, status_of_end, report_text};
ghost use Rattle.fx_cli.specs.Report.{text_of_end, unread_text, usage_text};
ghost use Rattle.fx_cli.specs.Run.{LeavesAlone, Reports};
ghost use Rattle.fx_cli.specs.declared.words.Form.TheVariants.{Check, Serve, View};
ghost use Rattle.row_keeper.specs.Shaped.{by};

use crate::files::{FileEnd, Files};
use crate::opening::open_keeper;
use crate::replay::{ReplayEnd, hold_all};
use crate::view::view_text;
use crate::words::{Form, Service, form_of, service_of};
use app_cells::App;
use app_reports::checked_lines;
use app_wire::clock::Clock;
use app_wire::doors::Doors;
use app_wire::routes::Routes;
use fx_base::Memory;
use fx_core::{AppEnd, lines};
use office::{Office, Steps, load, load_named, loaded_app};
use row_keeper::{Keeper, KeeperEnd};
use std::alloc::Global;
use std::sync::ledger::Ledger;

/// What a run says. It is made whole before any of it is written.
#[derive(Drop)]
pub enum Report {
    /// The lines of a file's formulas, or what is told of a sample load.
    Shown(String),
    /// The lines of an app: what it has, and where its formulas take rows.
    Checked(String),
    /// The file breaks a rule: a line for each break.
    Broken(String),
    /// The words are no form.
    Usage,
    /// Memory ran out.
    OutOfMemory,
    /// The file could not be read.
    Unread(String),
    /// The keeper failed as it was opened.
    KeeperFault,
    /// The keeper keeps another schema than that of the app.
    OtherSchema,
    /// The conversations were answered, up to this end.
    Replayed(ReplayEnd),
}

impl Report {
    /// The status that goes with it.
    pub fn status(&self) -> u8
        ensures { result ≡ status_of self.now }
    {
        match self {
            Report::Shown(_) => 0,
            Report::Checked(_) => 0,
            Report::Broken(_) => 1,
            Report::Usage => 2,
            Report::OutOfMemory => 3,
            Report::Unread(_) => 4,
            Report::KeeperFault => 5,
            Report::OtherSchema => 8,
            Report::Replayed(end) => status_of_end(*end),
        }
    }

    /// What it says.
    pub fn text(&self) -> &[u8]
        ensures { result.now ≡ report_text self.now }
    {
        match self {
            Report::Shown(text) => text.as_bytes(),
            Report::Checked(text) => text.as_bytes(),
            Report::Broken(text) => text.as_bytes(),
            Report::Usage => usage(),
            Report::OutOfMemory => out_of_memory(),
            Report::Unread(text) => text.as_bytes(),
            Report::KeeperFault => keeper_fault(),
            Report::OtherSchema => other_schema(),
            Report::Replayed(end) => text_of_end(*end),
        }
    }
}

fn status_of_end(end: ReplayEnd) -> u8
    ensures { result ≡ status_of_end end }
{
    match end {
        ReplayEnd::Done => 0,
        ReplayEnd::Fault => 6,
        ReplayEnd::Full => 9,
    }
}

fn text_of_end(end: ReplayEnd) -> &'static [u8]
    ensures { result.now ≡ text_of_end end }
{
    match end {
        ReplayEnd::Done => b"",
        ReplayEnd::Fault => connection_fault(),
        ReplayEnd::Full => request_limit(),
    }
}

// A function for each text, so that no other proof reads it letter by letter.
#[tactic(auto, unfolding(crate::specs::Report::usage_text))]
fn usage() -> &'static [u8]
    ensures { result.now ≡ usage_text }
{
    b"usage: pfx view FILE | check APP | replay APP | serve APP DB PORT [COUNT] | gen N\n"
}

#[tactic(auto, unfolding(crate::specs::Report::memory_text))]
fn out_of_memory() -> &'static [u8]
    ensures { result.now ≡ memory_text }
{
    b"pfx: out of memory\n"
}

#[tactic(auto, unfolding(crate::specs::Report::keeper_text))]
fn keeper_fault() -> &'static [u8]
    ensures { result.now ≡ keeper_text }
{
    b"pfx: keeper fault\n"
}

#[tactic(auto, unfolding(crate::specs::Report::schema_text))]
fn other_schema() -> &'static [u8]
    ensures { result.now ≡ schema_text }
{
    b"pfx: the database has another schema\n"
}

#[tactic(auto, unfolding(crate::specs::Report::fault_text))]
fn connection_fault() -> &'static [u8]
    ensures { result.now ≡ fault_text }
{
    b"pfx: connection fault\n"
}

#[tactic(auto, unfolding(crate::specs::Report::limit_text))]
fn request_limit() -> &'static [u8]
    ensures { result.now ≡ limit_text }
{
    b"pfx: request limit\n"
}

/// One byte more than the longest text that can be viewed.
const MOST_READ: u32 = 262_145;

/// One byte more than the longest app file.
const MOST_APP_READ: u32 = 4_194_305;

/// Does what the words ask for, up to the report of it.
pub fn carry_out<D: Doors, K: Keeper, F: Files, C: Clock, L: Ledger>(
    alloc: Global,
    words: &[String],
    doors: &mut D,
    keeper: &mut K,
    files: &mut F,
    clock: &mut C,
    steps: &mut Steps<L>,
) -> Report
    requires idle { K.in_transaction keeper.old ≡ false }
    ensures reports { Reports (work_sight D.Doors K.Keeper F.Files C.Clock) words.now
        (work_of doors.old keeper.old files.old clock.old)
        (work_of doors.new keeper.new files.new clock.new) result }
    ensures cause { result ≡ Report.Replayed ReplayEnd.Fault
        → Rose (D.faults doors.old) (D.faults doors.new) }
    ensures leaves { LeavesAlone (work_sight D.Doors K.Keeper F.Files C.Clock) words.now
        (work_of doors.old keeper.old files.old clock.old)
        (work_of doors.new keeper.new files.new clock.new) result }
    ensures later { F.faults files.old ≤ F.faults files.new }
    ensures doors_later { D.faults doors.old ≤ D.faults doors.new }
    ensures keeper_later { IsLater (K.marks keeper.old) (K.marks keeper.new) }
    ensures idle { K.in_transaction keeper.new ≡ false }
    ensures told { F.told files.new ≡ F.told files.old }
{
    match form_of(words) {
        Some((Form::View, name)) => view_file(alloc, name, files, clock, steps),
        Some((Form::Check, name)) => check_file(alloc, name, files),
        Some((Form::Serve, name)) => serve_file(
            alloc,
            name,
            service_of(words),
            doors,
            keeper,
            files,
            clock,
            steps,
        ),
        None => Report::Usage,
    }
}

/// Views a file. The clock is read once, where the file is accepted.
fn view_file<F: Files, C: Clock, L: Ledger>(
    alloc: Global,
    name: &str,
    files: &mut F,
    clock: &mut C,
    steps: &mut Steps<L>,
) -> Report
    ensures reports { by_parts.Reports F.Files files.old files.new
        (λ app text. IsShownNow (C.told clock.old) (C.told clock.new) app (string_bytes text))
        no_service (Some (View, name.now)) result }
    ensures timeless { IsTimeless result → clock.new ≡ clock.old }
    ensures clock { IsReadOnceAtMost C.told clock.old clock.new }
    ensures later { F.faults files.old ≤ F.faults files.new }
    ensures told { F.told files.new ≡ F.told files.old }
{
    let source = match files.read(name, MOST_READ) {
        Ok(source) => source,
        Err(FileEnd::Memory) => return Report::OutOfMemory,
        Err(FileEnd::Failed) => return unread_file(alloc, name),
    };
    match load_named(alloc, &source) {
        Ok(app) => show(alloc, &app, clock.now(), steps),
        Err(end) => refuse(alloc, end),
    }
}

/// Checks an app's file. Nothing is evaluated, and no keeper is called.
fn check_file<F: Files>(alloc: Global, name: &str, files: &mut F) -> Report
    ensures reports { by_parts.Reports F.Files files.old files.new no_show no_service
        (Some (Check, name.now)) result }
    ensures later { F.faults files.old ≤ F.faults files.new }
    ensures told { F.told files.new ≡ F.told files.old }
{
    let file = match files.read(name, MOST_APP_READ) {
        Ok(file) => file,
        Err(FileEnd::Memory) => return Report::OutOfMemory,
        Err(FileEnd::Failed) => return unread_file(alloc, name),
    };
    match load(alloc, &file) {
        Ok(app) => check(alloc, &app),
        Err(end) => refuse(alloc, end),
    }
}

/// What is told of an app that is accepted.
fn check(alloc: Global, app: &App) -> Report
    ensures { IsChecking app.now result }
{
    match checked_lines(alloc, app) {
        Ok(text) => Report::Checked(text),
        Err(Memory) => Report::OutOfMemory,
    }
}

/// The values of an app's formulas at a moment.
fn show<L: Ledger>(alloc: Global, app: &App, moment: u64, steps: &mut Steps<L>) -> Report
    requires sound { IsSoundApp app.now }
    requires tables { HoldsTables app.now.names }
    requires bare { app.now.names.schema.tables ≡ [] }
    ensures { IsShowing (IsAppText moment app.now) result }
{
    match view_text(alloc, app, moment, steps) {
        Ok(text) => Report::Shown(text),
        Err(Memory) => Report::OutOfMemory,
    }
}

/// Serves the app of a file, with the rows of a keeper.
fn serve_file<D: Doors, K: Keeper, F: Files, C: Clock, L: Ledger>(
    alloc: Global,
    name: &str,
    service: Service<'_>,
    doors: &mut D,
    keeper: &mut K,
    files: &mut F,
    clock: &mut C,
    steps: &mut Steps<L>,
) -> Report
    requires idle { K.in_transaction keeper.old ≡ false }
    ensures reports { by_parts.Reports F.Files files.old files.new no_show
        (EndsOver K.Keeper service.entry.store.now keeper.old keeper.new
        (λ end a b. Serves service.entry.port service.entry.most
        (service_at D.Doors C.Clock a doors.old clock.old)
        (service_at D.Doors C.Clock b doors.new clock.new) end)) (Some (Serve, name.now)) result }
    ensures cause { result ≡ Report.Replayed ReplayEnd.Fault
        → Rose (D.faults doors.old) (D.faults doors.new) }
    ensures unheld { NothingBegun result → (doors.new ≡ doors.old) × (clock.new ≡ clock.old) }
    ensures unopened { LeavesKeeper K.Keeper service.entry.store.now keeper.old keeper.new result }
    ensures later { F.faults files.old ≤ F.faults files.new }
    ensures doors_later { D.faults doors.old ≤ D.faults doors.new }
    ensures keeper_later { IsLater (K.marks keeper.old) (K.marks keeper.new) }
    ensures idle { K.in_transaction keeper.new ≡ false }
    ensures told { F.told files.new ≡ F.told files.old }
{
    let file = match files.read(name, MOST_APP_READ) {
        Ok(file) => file,
        Err(FileEnd::Memory) => return Report::OutOfMemory,
        Err(FileEnd::Failed) => return unread_file(alloc, name),
    };
    // The law is called for what it says of an app that was loaded: that it can be edited.
    loaded_app();
    match load(alloc, &file) {
        Ok(app) => serve_app(alloc, app, service, doors, keeper, clock, steps),
        Err(end) => refuse(alloc, end),
    }
}

/// Serves an app, with the rows of a keeper, where that can be opened for the app.
fn serve_app<D: Doors, K: Keeper, C: Clock, L: Ledger>(
    alloc: Global,
    app: App,
    service: Service<'_>,
    doors: &mut D,
    keeper: &mut K,
    clock: &mut C,
    steps: &mut Steps<L>,
) -> Report
    requires idle { K.in_transaction keeper.old ≡ false }
    requires app { IsSoundApp app }
    requires loaded { IsLoaded app }
    requires opens { CanOpen app.names }
    ensures ends { EndsOver K.Keeper service.entry.store.now keeper.old keeper.new
        (λ end a b. Serves service.entry.port service.entry.most
        (service_at D.Doors C.Clock a doors.old clock.old)
        (service_at D.Doors C.Clock b doors.new clock.new) end) app result }
    ensures cause { result ≡ Report.Replayed ReplayEnd.Fault
        → Rose (D.faults doors.old) (D.faults doors.new) }
    ensures unheld { NothingBegun result → (doors.new ≡ doors.old) × (clock.new ≡ clock.old) }
    ensures unopened { LeavesKeeper K.Keeper service.entry.store.now keeper.old keeper.new result }
    ensures doors_later { D.faults doors.old ≤ D.faults doors.new }
    ensures keeper_later { IsLater (K.marks keeper.old) (K.marks keeper.new) }
    ensures idle { K.in_transaction keeper.new ≡ false }
{
    // Made before the keeper is opened: an office is made without memory then, and the keeper is
    // given back by it.
    let routes = match Routes::new(alloc) {
        Ok(routes) => routes,
        Err(Memory) => return Report::OutOfMemory,
    };
    match open_keeper(keeper, service.store, &app.names.schema) {
        Ok(None) => Report::Replayed(serve_over(
            alloc, app, routes, service, doors, keeper, clock, steps,
        )),
        Ok(Some(_)) => Report::OtherSchema,
        Err(KeeperEnd::Memory) => Report::OutOfMemory,
        Err(KeeperEnd::Failed) => Report::KeeperFault,
    }
}

/// Serves an app, with the rows of a keeper that has the shape of its tables.
fn serve_over<D: Doors, K: Keeper, C: Clock, L: Ledger>(
    alloc: Global,
    app: App,
    routes: Routes,
    service: Service<'_>,
    doors: &mut D,
    keeper: &mut K,
    clock: &mut C,
    steps: &mut Steps<L>,
) -> ReplayEnd
    requires idle { K.in_transaction keeper.old ≡ false }
    requires shaped { K.shaped keeper.old ≡ by (schema_of app) }
    requires app { IsSoundApp app }
    requires loaded { IsLoaded app }
    requires opens { CanOpen app.names }
    requires sound { AreSound (schema_of app) (K.told keeper.old) }
    ensures served { (state : OfficeState) × (state.tables ≡ K.told keeper.new)
        × Serves service.entry.port service.entry.most
        (service_at D.Doors C.Clock
        (record { state = started app (K.told keeper.old); marks = K.marks keeper.old })
        doors.old clock.old)
        (service_at D.Doors C.Clock (record { state = state; marks = K.marks keeper.new })
        doors.new clock.new) result
        × (K.shaped keeper.new ≡ by (schema_of state.app)) }
    ensures cause { result ≡ ReplayEnd.Fault → Rose (D.faults doors.old) (D.faults doors.new) }
    ensures doors_later { D.faults doors.old ≤ D.faults doors.new }
    ensures keeper_later { IsLater (K.marks keeper.old) (K.marks keeper.new) }
    ensures idle { K.in_transaction keeper.new ≡ false }
{
    let mut office = Office::over(alloc, app, routes, keeper);
    let end = hold_all(&mut office, service, doors, clock, steps);
    // It is known of a keeper that is given back what it keeps.
    let _keeper = office.into_keeper();
    end
}

/// What breaks rules in a file.
pub(crate) fn refuse(alloc: Global, end: AppEnd) -> Report
    ensures { IsRefusal end result }
{
    match end {
        AppEnd::Refused(all) => match lines(alloc, &all) {
            Ok(text) => Report::Broken(text),
            Err(Memory) => Report::OutOfMemory,
        },
        AppEnd::Memory => Report::OutOfMemory,
    }
}

/// That a file could not be read.
fn unread_file(alloc: Global, name: &str) -> Report
    ensures { IsUnread name.now result }
{
    match format!(in alloc; "pfx: cannot read {name}\n") {
        Ok(text) => Report::Unread(text),
        Err(_) => Report::OutOfMemory,
    }
}
