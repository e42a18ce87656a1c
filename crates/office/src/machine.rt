//! The office, one request at a time.
ghost use Rattle.std.specs.Prelude.{◌≡◌, ◌≢◌, ◌⊎◌, ◌<◌, Err, IfOk, IsErrOf, Ok, OnErr, Some, false};
ghost use Rattle.std.specs.Prelude.{length};
ghost use Rattle.fx_base.specs.Silence.{IsLater, SilenceCause};
ghost use Rattle.app_loader.specs.Edits.{IsLoaded};
ghost use Rattle.app_loader.specs.app_semantics.Sound.{IsSoundApp};
ghost use Rattle.row_keeper.specs.Causes.{HasCause};
ghost use Rattle.row_keeper.specs.declared.keeper.KeeperEnd.TheVariants.{Failed};
ghost use Rattle.row_keeper.specs.Shaped.{by};
ghost use Rattle.app_wire.specs.Framing.{asked};
ghost use Rattle.app_wire.specs.declared.route.RouteEnd.TheVariants.{Memory as NoMemory};
ghost use Rattle.numbered_requests.specs.Replies.{IsReply, said};
ghost use Rattle.row_requests.specs.Sound.{AreSound};
ghost use Rattle.session_requests.specs.Opening.{CanOpen};
ghost use Rattle.app_wire.specs.ReplyBytes.{refusal};
ghost use Rattle.office.specs.Costs.{CostsAnswered, CostsBy, counts};
ghost use Rattle.office.specs.Leaving.{ActsClean, AreEachLeft, HaveTurned, LeavesActed, LeavesBy};
ghost use Rattle.office.specs.Leaving.{LeavesClean, LeavesStopped, StopsClean, nothing, day_turned};
ghost use Rattle.office.specs.Refused.{IsRefused};
ghost use Rattle.office.specs.State.{schema_of, started};
ghost use Rattle.office.specs.Step.{AnswersRequest, RouteStep, Left, PassesChecks, ReachesKeeper};
ghost use Rattle.office.specs.Step.{Step};

use crate::keeping::{DAY, turn_all};
use crate::plans::{show_graph, show_plan};
use crate::posting::post_edit;
use crate::replacing::post_app;
use crate::sending::{change_rows, post_event, post_input};
use crate::sessions::{begin, end, show_items_to, show_named, show_view_to};
use app_cells::App;
use app_wire::framer::Request;
use app_wire::route::{Route, RouteEnd};
use app_wire::routes::Routes;
use fx_base::Memory;
use fx_core::Schema;
use numbered_requests::{Named, Reply};
use recalc::{Cache, Steps};
use row_keeper::{Keeper, KeeperEnd};
use row_requests::show_page;
use session_state::{Desk, Session};
use std::alloc::Global;
use std::marker::Model;
use std::sync::ledger::Ledger;

/// An app in use: its live sessions, its desks, and the keeper of its rows. Between two requests no
/// transaction is begun.
#[derive(Drop)]
pub struct Office<K: Keeper + Drop> {
    pub(crate) alloc: Global,
    pub(crate) app: App,
    routes: Routes,
    pub(crate) keeper: K,
    pub(crate) sessions: Vec<Named<Session>>,
    desks: Vec<Named<Desk>>,
    // One for each session, in their order.
    caches: Vec<Named<Cache>>,
    // That of the last request that had a route, by whose day caches go.
    moment: u64,
}

impl<K: Keeper + Drop> Model for Office<K> {
    ghost use Rattle.std.specs.Coded.{codes};
    ghost use Rattle.app_cells.specs.contracts.app.App.{the_row as app_row};
    ghost use Rattle.fx_types.specs.ValueCode.{data_code};
    ghost use Rattle.fx_core.specs.contracts.schema.Schema.{the_row as schema_row};
    ghost use Rattle.row_queries.specs.contracts.rows.Row.{the_row as row_row};
    ghost use Rattle.office.specs.Ready.{OfficeInvariant};
    ghost use Rattle.office.specs.State.{OfficeView, schema_of};

    ghost Value = { OfficeView };

    ghost coded = { Prim.hlevel (codes, data_code, app_row.coded, schema_row.coded, row_row.coded) };

    ghost view = { λ o. record {
      state = record {
        app = o.app;
        tables = K.told o.keeper;
        sessions = o.sessions.items;
        desks = o.desks.items;
      };
      marks = K.marks o.keeper;
      visited = K.visited o.keeper;
      loan = K.loan o.keeper;
      caches = o.caches.items;
      moment = o.moment;
    } };

    ghost invariant = { λ o. OfficeInvariant o.app (K.in_transaction o.keeper) (K.shaped o.keeper)
        (K.told o.keeper) o.sessions.items o.desks.items o.caches.items o.moment };
}

/// The tables of an app.
fn schema_of(app: &App) -> &Schema
    ensures { result.now ≡ schema_of app.now }
{
    &app.names.schema
}

impl<K: Keeper + Drop> Office<K> {
    /// An office that serves this app over the keeper's tables. No session is live yet, and no desk
    /// has come into being.
    pub fn new(alloc: Global, app: App, keeper: K) -> Result<Office<K>, Memory>
        requires idle { K.in_transaction keeper ≡ false }
        requires shaped { K.shaped keeper ≡ by (schema_of app) }
        requires app { IsSoundApp app }
        requires loaded { IsLoaded app }
        requires opens { CanOpen app.names }
        requires sound { AreSound (schema_of app) (K.told keeper) }
        ensures state { IfOk result (λ o. o.state ≡ started app (K.told keeper)) }
        ensures marks { IfOk result (λ o. o.marks ≡ K.marks keeper) }
        ensures visited { IfOk result (λ o. o.visited ≡ K.visited keeper) }
        ensures loan { IfOk result (λ o. o.loan ≡ K.loan keeper) }
    {
        let routes = Routes::new(alloc)?;
        Ok(Office::over(alloc, app, routes, keeper))
    }

    /// The same, where the routes are made already. It can't be refused, so a keeper that is only
    /// lent is never lost.
    pub fn over(alloc: Global, app: App, routes: Routes, keeper: K) -> Office<K>
        requires idle { K.in_transaction keeper ≡ false }
        requires shaped { K.shaped keeper ≡ by (schema_of app) }
        requires app { IsSoundApp app }
        requires loaded { IsLoaded app }
        requires opens { CanOpen app.names }
        requires sound { AreSound (schema_of app) (K.told keeper) }
        ensures state { result.state ≡ started app (K.told keeper) }
        ensures marks { result.marks ≡ K.marks keeper }
        ensures visited { result.visited ≡ K.visited keeper }
        ensures loan { result.loan ≡ K.loan keeper }
    {
        Office {
            alloc,
            app,
            routes,
            keeper,
            sessions: Vec::new(alloc),
            desks: Vec::new(alloc),
            caches: Vec::new(alloc),
            moment: 0,
        }
    }

    /// Answers one request, which was whole at this moment, in seconds since 1970-01-01 UTC. After
    /// a reply with another status than 200 the office is as before.
    pub fn answer<L: Ledger>(
        &mut self,
        request: &Request,
        moment: u64,
        steps: &mut Steps<L>,
    ) -> Reply
        ensures answered { AnswersRequest self.old.state self.old.marks moment (asked request.now)
            (said result) self.new.marks self.new.state }
        ensures refused { IsRefused (said result)
            → Left (SilenceCause self.old.marks self.new.marks) self.old.state self.new.state }
        ensures later { IsLater self.old.marks self.new.marks }
        ensures whole { IsReply result }
        ensures clean { LeavesClean self.old.state self.old.moment self.old.caches moment
            (asked request.now) self.new.state self.new.caches }
        ensures acted { LeavesActed (SilenceCause self.old.marks self.new.marks) self.old.state
            self.old.moment self.old.caches moment (asked request.now) (said result) self.new.state
            self.new.caches ⊎ (((said result ≡ refusal 26) ⊎ (said result ≡ refusal 25))
            × LeavesStopped self.old.state self.old.moment self.old.caches moment
            (asked request.now) self.new.state self.new.caches) }
        ensures costs { CostsAnswered self.old.state self.old.moment self.old.caches moment
            (asked request.now) (said result) self.new.state self.new.caches
            (counts steps.old self.old.visited) (counts steps.new self.new.visited)
            ⊎ ((said result ≡ refusal 26) ⊎ (said result ≡ refusal 25)) }
        ensures loan { self.new.loan ≡ self.old.loan }
    {
        match self.carry_out(request, moment, steps) {
            Ok(reply) => reply,
            Err(KeeperEnd::Memory) => Reply::fixed_refusal(self.alloc, 26, 507),
            Err(KeeperEnd::Failed) => Reply::fixed_refusal(self.alloc, 25, 503),
        }
    }

    /// Does what the request asks for, or stops and leaves the office as it was: `answer` says a
    /// stop as a refusal.
    pub fn carry_out<L: Ledger>(
        &mut self,
        request: &Request,
        moment: u64,
        steps: &mut Steps<L>,
    ) -> Result<Reply, KeeperEnd>
        ensures step { IfOk result (λ r. Step (SilenceCause self.old.marks self.new.marks)
            self.old.state moment (asked request.now) (said r) self.new.state) }
        ensures whole { IfOk result IsReply }
        ensures stopped { OnErr result (Left (SilenceCause self.old.marks self.new.marks)
            self.old.state self.new.state) }
        ensures reached { IsErrOf result Failed → ReachesKeeper self.old.state (asked request.now) }
        ensures cause { HasCause self.old.marks self.new.marks result }
        ensures clean { LeavesClean self.old.state self.old.moment self.old.caches moment
            (asked request.now) self.new.state self.new.caches }
        ensures acted { IfOk result (λ r. LeavesActed (SilenceCause self.old.marks self.new.marks)
            self.old.state self.old.moment self.old.caches moment (asked request.now) (said r)
            self.new.state self.new.caches) }
        ensures costs { IfOk result (λ r. CostsAnswered self.old.state self.old.moment
            self.old.caches moment (asked request.now) (said r) self.new.state self.new.caches
            (counts steps.old self.old.visited) (counts steps.new self.new.visited)) }
        ensures cut { OnErr result (LeavesStopped self.old.state self.old.moment self.old.caches
            moment (asked request.now) self.new.state self.new.caches) }
        ensures loan { self.new.loan ≡ self.old.loan }
    {
        match self.routes.route(self.alloc, request) {
            Ok(route) => match self.turn(moment) {
                Ok(()) => self.take(&route, request, steps),
                Err(Memory) => Err(KeeperEnd::Memory),
            },
            Err(RouteEnd::NoRoute) => Ok(Reply::fixed_refusal(self.alloc, 7, 404)),
            Err(RouteEnd::WrongMethod) => Ok(Reply::fixed_refusal(self.alloc, 8, 405)),
            Err(RouteEnd::Memory) => Err(KeeperEnd::Memory),
        }
    }

    /// Goes over to the day of a moment: on another day all caches are told.
    fn turn(&mut self, moment: u64) -> Result<(), Memory>
        ensures state { self.new.state ≡ self.old.state }
        ensures marks { self.new.marks ≡ self.old.marks }
        ensures visited { self.new.visited ≡ self.old.visited }
        ensures loan { self.new.loan ≡ self.old.loan }
        ensures moment { IfOk result (λ _. self.new.moment ≡ moment) }
        ensures turned { IfOk result (λ _. HaveTurned self.old.moment moment self.old.caches
            self.new.caches) }
        ensures clean { AreEachLeft self.old.state.app (day_turned self.old.moment moment)
            self.old.caches self.new.caches }
    {
        if moment / DAY != self.moment / DAY {
            turn_all(self.alloc, &mut self.caches, moment)?;
        }
        self.moment = moment;
        Ok(())
    }

    /// Takes the route of a request, at the moment to which the office went over.
    #[tactic(auto, unfolding(crate::specs::Step::RouteStep, crate::specs::Step::PassesChecks, crate::specs::Costs::CostsBy, crate::specs::Leaving::LeavesBy, crate::specs::Leaving::ActsClean))]
    fn take<L: Ledger>(
        &mut self,
        route: &Route,
        request: &Request,
        steps: &mut Steps<L>,
    ) -> Result<Reply, KeeperEnd>
        ensures step { IfOk result (λ r. RouteStep (SilenceCause self.old.marks self.new.marks)
            self.old.moment route.now request.now.body.items self.old.state (said r) self.new.state) }
        ensures whole { IfOk result IsReply }
        ensures stopped { OnErr result (Left (SilenceCause self.old.marks self.new.marks)
            self.old.state self.new.state) }
        ensures reached { IsErrOf result Failed
            → PassesChecks route.now request.now.body.items self.old.state }
        ensures cause { HasCause self.old.marks self.new.marks result }
        ensures clean { LeavesBy route.now nothing request.now.body.items self.old.state
            self.new.state self.old.caches self.new.caches }
        ensures acted { IfOk result (λ r. ActsClean (SilenceCause self.old.marks self.new.marks)
            self.old.moment route.now nothing request.now.body.items self.old.state (said r)
            self.new.state self.old.caches self.new.caches) }
        ensures costs { IfOk result (λ r. CostsBy route.now self.old.moment self.old.state (said r)
            self.new.state self.old.caches self.new.caches (counts steps.old self.old.visited)
            (counts steps.new self.new.visited)) }
        ensures cut { OnErr result (StopsClean self.old.moment route.now nothing
            request.now.body.items self.old.state self.new.state self.old.caches self.new.caches) }
        ensures loan { self.new.loan ≡ self.old.loan }
    {
        let moment = self.moment;
        match route {
            Route::Begin(name) => begin(
                self.alloc,
                &self.app,
                &mut self.sessions,
                &mut self.caches,
                &mut self.keeper,
                name,
                moment,
                steps,
            ),
            Route::End(name) => {
                match end(self.alloc, &mut self.sessions, &mut self.caches, name) {
                    Ok(reply) => Ok(reply),
                    Err(Memory) => Err(KeeperEnd::Memory),
                }
            }
            Route::View(name) => show_view_to(
                self.alloc,
                &self.app,
                &self.sessions,
                &mut self.caches,
                &mut self.keeper,
                name,
                moment,
                steps,
            ),
            Route::Named(name) => show_named(
                self.alloc,
                &self.app,
                &self.sessions,
                &mut self.caches,
                &mut self.keeper,
                name,
                moment,
                steps,
            ),
            Route::Items(name, gallery, from) => show_items_to(
                self.alloc,
                &self.app,
                &self.sessions,
                &mut self.caches,
                &mut self.keeper,
                name,
                gallery,
                *from,
                moment,
                steps,
            ),
            Route::Event(name) => post_event(
                self.alloc,
                &self.app,
                &mut self.sessions,
                &mut self.caches,
                &mut self.keeper,
                name,
                &request.body,
                moment,
                steps,
            ),
            Route::Input(name) => post_input(
                self.alloc,
                &self.app,
                &mut self.sessions,
                &mut self.caches,
                &mut self.keeper,
                name,
                &request.body,
                moment,
                steps,
            ),
            Route::Rows(name) => change_rows(
                self.alloc,
                &self.app,
                &mut self.caches,
                &mut self.keeper,
                &mut self.desks,
                name,
                &request.body,
            ),
            Route::Edit(name) => match post_edit(
                self.alloc,
                &mut self.app,
                &mut self.sessions,
                &mut self.caches,
                &mut self.desks,
                name,
                &request.body,
            ) {
                Ok(reply) => Ok(reply),
                Err(Memory) => Err(KeeperEnd::Memory),
            },
            Route::Replace(name) => post_app(
                self.alloc,
                &mut self.app,
                &mut self.keeper,
                &mut self.sessions,
                &mut self.caches,
                &mut self.desks,
                name,
                &request.body,
            ),
            Route::Page(table, after) => show_page(
                self.alloc,
                &mut self.keeper,
                schema_of(&self.app),
                table,
                *after,
            ),
            Route::Plan => match show_plan(self.alloc, &self.app) {
                Ok(reply) => Ok(reply),
                Err(Memory) => Err(KeeperEnd::Memory),
            },
            Route::Graph => match show_graph(self.alloc, &self.app) {
                Ok(reply) => Ok(reply),
                Err(Memory) => Err(KeeperEnd::Memory),
            },
        }
    }

    /// The keeper.
    pub fn into_keeper(self) -> K
        ensures tables { K.told result ≡ self.state.tables }
        ensures marks { K.marks result ≡ self.marks }
        ensures visited { K.visited result ≡ self.visited }
        ensures loan { K.loan result ≡ self.loan }
        ensures idle { K.in_transaction result ≡ false }
        ensures shaped { K.shaped result ≡ by (schema_of self.state.app) }
    {
        self.keeper
    }
}
