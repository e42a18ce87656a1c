//! A sample load: an app is put to requests of its own, and what came of them is told.
ghost use Rattle.std.specs.Prelude.{◌≡◌, ◌≤◌, ℕ, Err, IfOk, List, Some, false, length, map};
ghost use Rattle.std.specs.Prelude.{string_bytes};
ghost use Rattle.std.specs.List.{All};
ghost use Rattle.app_wire.specs.Framing.{asked};
ghost use Rattle.fx_base.specs.Faults.{Rose};
ghost use Rattle.fx_base.specs.Silence.{IsLater};
ghost use Rattle.fx_core.specs.declared.broken.Broken.{Broken};
ghost use Rattle.office.specs.session_requests.Opening.{CanOpen};
ghost use Rattle.office.specs.State.{OfficeState, schema_of, started};
ghost use Rattle.office.specs.app_loader.Edits.{IsLoaded};
ghost use Rattle.office.specs.app_loader.Judged.{JudgedApp};
ghost use Rattle.office.specs.app_semantics.Sound.{IsSoundApp};
ghost use Rattle.numbered_requests.specs.Replies.{IsReply, said};
ghost use Rattle.row_requests.specs.Sound.{AreSound};
ghost use Rattle.sample_app.specs.Counts.{HasRowCount};
ghost use Rattle.sample_app.specs.Sample.{app_text as sample_text};
ghost use Rattle.sample_app.specs.Summary.{summary as summary_of};
ghost use Rattle.fx_cli.specs.Conversations.{office_at};
ghost use Rattle.fx_cli.specs.Report.{RunEndsWith, IsSaid};
ghost use Rattle.fx_cli.specs.Sampled.{EndsSample, IsPlayed, IsSampled, IsSampleReport};
ghost use Rattle.fx_cli.specs.Sampled.{ReportsSample};
ghost use Rattle.row_keeper.specs.Causes as by_marks;
ghost use Rattle.row_keeper.specs.Over.{Becomes, HasCause};
ghost use Rattle.row_keeper.specs.Shaped.{by};

use crate::opening::open_keeper;
use crate::report::{Report, refuse};
use crate::sink::Sink;
use crate::{Status, say};
use app_cells::App;
use app_wire::framer::Request;
use app_wire::routes::Routes;
use fx_base::Memory;
use office::{Office, Reply, Steps, load, loaded_app, one_app};
use row_keeper::{Keeper, KeeperEnd};
use sample_app::{app_text, count_rows, requests, summary};
use std::alloc::Global;
use std::sync::ledger::Ledger;

/// The moment of all requests: 2024-01-01, in seconds since 1970-01-01 UTC.
const MOMENT: u64 = 1_704_067_200;

/// Puts the sample app to its requests, which depend on a number, and writes what is told of that.
pub(crate) fn run_sample<K: Keeper, O: Sink, L: Ledger>(
    alloc: Global,
    n: u32,
    keeper: &mut K,
    out: &mut O,
    steps: &mut Steps<L>,
) -> Status
    requires idle { K.in_transaction keeper.old ≡ false }
    requires few { n ≤ 1000000 }
    ensures sampled { (report : Report) × ReportsSample K.Keeper n keeper.old keeper.new report
        × IsSaid O.Sink out.old out.new report result.0 }
    ensures spoilt { (bs : List Broken) → JudgedApp sample_text (Err bs)
        → RunEndsWith 1 result.0 ⊥ (Rose (O.faults out.old) (O.faults out.new)) }
    ensures keeper_later { IsLater (K.marks keeper.old) (K.marks keeper.new) }
    ensures out_later { O.faults out.old ≤ O.faults out.new }
    ensures idle { K.in_transaction keeper.new ≡ false }
{
    // The law is called for what it says: no text both is an app and is refused.
    one_app();
    let report = put_sample(alloc, n, keeper, steps);
    say(&report, out)
}

/// Puts the sample app to its requests, up to the report of it. The app is loaded as that of a file
/// is.
fn put_sample<K: Keeper, L: Ledger>(
    alloc: Global,
    n: u32,
    keeper: &mut K,
    steps: &mut Steps<L>,
) -> Report
    requires idle { K.in_transaction keeper.old ≡ false }
    requires few { n ≤ 1000000 }
    ensures reports { ReportsSample K.Keeper n keeper.old keeper.new result }
    ensures later { IsLater (K.marks keeper.old) (K.marks keeper.new) }
    ensures idle { K.in_transaction keeper.new ≡ false }
{
    // The law is called for what it says of an app that was loaded: that it can be edited.
    loaded_app();
    match load(alloc, app_text()) {
        Ok(app) => put_app(alloc, n, app, keeper, steps),
        Err(end) => refuse(alloc, end),
    }
}

/// Puts an app to the requests, over a keeper that is opened for it with the store of the empty
/// name.
fn put_app<K: Keeper, L: Ledger>(
    alloc: Global,
    n: u32,
    app: App,
    keeper: &mut K,
    steps: &mut Steps<L>,
) -> Report
    requires idle { K.in_transaction keeper.old ≡ false }
    requires few { n ≤ 1000000 }
    requires app { IsSoundApp app }
    requires loaded { IsLoaded app }
    requires opens { CanOpen app.names }
    ensures ends { EndsSample K.Keeper n keeper.old keeper.new app result }
    ensures later { IsLater (K.marks keeper.old) (K.marks keeper.new) }
    ensures idle { K.in_transaction keeper.new ≡ false }
{
    // Made before the keeper is opened: an office is made without memory then, and the keeper is
    // given back by it.
    let routes = match Routes::new(alloc) {
        Ok(routes) => routes,
        Err(Memory) => return Report::OutOfMemory,
    };
    let requests = match requests(alloc, n) {
        Ok(requests) => requests,
        Err(Memory) => return Report::OutOfMemory,
    };
    match open_keeper(keeper, "", &app.names.schema) {
        Ok(None) => report_of(put_over(alloc, app, routes, &requests, keeper, steps)),
        Ok(Some(_)) => Report::OtherSchema,
        Err(KeeperEnd::Memory) => Report::OutOfMemory,
        Err(KeeperEnd::Failed) => Report::KeeperFault,
    }
}

/// The report of what is told, or of what stopped the requests.
fn report_of(told: Result<String, KeeperEnd>) -> Report
    ensures { IsSampleReport told result }
{
    match told {
        Ok(text) => Report::Shown(text),
        Err(KeeperEnd::Memory) => Report::OutOfMemory,
        Err(KeeperEnd::Failed) => Report::KeeperFault,
    }
}

/// Puts an app to requests, over a keeper that has the shape of its tables, and tells what came of
/// them.
fn put_over<K: Keeper, L: Ledger>(
    alloc: Global,
    app: App,
    routes: Routes,
    requests: &[Request],
    keeper: &mut K,
    steps: &mut Steps<L>,
) -> Result<String, KeeperEnd>
    requires idle { K.in_transaction keeper.old ≡ false }
    requires shaped { K.shaped keeper.old ≡ by (schema_of app) }
    requires app { IsSoundApp app }
    requires loaded { IsLoaded app }
    requires opens { CanOpen app.names }
    requires sound { AreSound (schema_of app) (K.told keeper.old) }
    ensures sampled { IfOk result (λ text. (state : OfficeState)
        × (state.tables ≡ K.told keeper.new)
        × IsSampled (map asked requests.now) (record
        { state = started app (K.told keeper.old); marks = K.marks keeper.old })
        (record { state = state; marks = K.marks keeper.new }) (string_bytes text)) }
    ensures cause { HasCause K.Keeper keeper.old keeper.new result }
    ensures idle { K.in_transaction keeper.new ≡ false }
{
    let played = play_over(alloc, app, routes, requests, keeper, steps)?;
    tell(alloc, &played, keeper)
}

/// What is left of an office whose requests were answered.
#[derive(Drop)]
struct Played {
    app: App,
    /// How many sessions live.
    sessions: usize,
    replies: Vec<Reply>,
}

/// Puts an app to requests, over a keeper that has the shape of its tables and is given back.
fn play_over<K: Keeper, L: Ledger>(
    alloc: Global,
    app: App,
    routes: Routes,
    requests: &[Request],
    keeper: &mut K,
    steps: &mut Steps<L>,
) -> Result<Played, KeeperEnd>
    requires idle { K.in_transaction keeper.old ≡ false }
    requires shaped { K.shaped keeper.old ≡ by (schema_of app) }
    requires app { IsSoundApp app }
    requires loaded { IsLoaded app }
    requires opens { CanOpen app.names }
    requires sound { AreSound (schema_of app) (K.told keeper.old) }
    ensures played { IfOk result (λ p. (state : OfficeState) × (state.tables ≡ K.told keeper.new)
        × (p.sessions ≡ length state.sessions)
        × IsPlayed (map asked requests.now) (map said p.replies.items)
        (record { state = started app (K.told keeper.old); marks = K.marks keeper.old })
        (record { state = state; marks = K.marks keeper.new })) }
    ensures whole { IfOk result (λ p. All IsReply p.replies.items) }
    ensures shaped { IfOk result (λ p. K.shaped keeper.new ≡ by (schema_of p.app)) }
    ensures sound { IfOk result (λ p. AreSound (schema_of p.app) (K.told keeper.new)) }
    ensures cause { HasCause K.Keeper keeper.old keeper.new result }
    ensures idle { K.in_transaction keeper.new ≡ false }
{
    let mut office = Office::over(alloc, app, routes, keeper);
    let played = play(alloc, &mut office, requests, steps);
    let sessions = office.live_sessions();
    // It is known of a keeper that is given back what it keeps.
    let (app, _keeper) = office.into_parts();
    match played {
        Ok(replies) => Ok(Played {
            app,
            sessions,
            replies,
        }),
        Err(end) => Err(end),
    }
}

/// Answers requests, one after another, at the moment of the sample: their replies. It stops at the
/// first that is answered with want of memory or with a fault of the keeper.
fn play<K: Keeper + Drop, L: Ledger>(
    alloc: Global,
    office: &mut Office<K>,
    requests: &[Request],
    steps: &mut Steps<L>,
) -> Result<Vec<Reply>, KeeperEnd>
    ensures played { IfOk result (λ replies. IsPlayed (map asked requests.now)
        (map said replies.items) (office_at office.old) (office_at office.new)) }
    ensures whole { IfOk result (λ replies. All IsReply replies.items) }
    ensures cause { by_marks.HasCause office.old.marks office.new.marks result }
    ensures loan { office.new.loan ≡ office.old.loan }
{
    let mut replies = Vec::new(alloc);
    for request in requests {
        let reply = office.carry_out(request, MOMENT, steps)?;
        replies.push(reply)?;
    }
    Ok(replies)
}

/// What is told of the replies, with the rows that are kept then.
fn tell<K: Keeper>(alloc: Global, played: &Played, keeper: &mut K) -> Result<String, KeeperEnd>
    requires shaped { K.shaped keeper.old ≡ by (schema_of played.now.app) }
    requires sound { AreSound (schema_of played.now.app) (K.told keeper.old) }
    requires whole { All IsReply played.now.replies.items }
    ensures told { IfOk result (λ text. (rows : ℕ) × Becomes K.Keeper keeper.old keeper.new
        (HasRowCount rows)
        × (string_bytes text ≡ summary_of rows played.now.sessions
        (map said played.now.replies.items))) }
    ensures cause { HasCause K.Keeper keeper.old keeper.new result }
    ensures mode { K.in_transaction keeper.new ≡ K.in_transaction keeper.old }
{
    let rows = count_rows(alloc, keeper, &played.app.names.schema)?;
    Ok(summary(alloc, rows, played.sessions, &played.replies)?)
}
